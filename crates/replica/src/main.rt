// The program: builds the replica of the records on standard input and prints it.
#![tactic(auto)]

ghost use Rattle.std.specs.Prelude.{◌≤◌, length};

use input_blocks::MAX_INPUT_BYTES;
use state_text::MAX_TEXT_BYTES;
use std::env::FillError;
use std::io::{self, Read};
use std::rt::Env;

// Room for every option and for a number with many zeros before it; a longer word is read as an empty one, which is neither.
const MAX_WORD_BYTES: usize = 64;

// One word more than any request has. More are not counted.
const TOO_MANY_WORDS: usize = 4;

// Reads until the input is full, ends or a read fails: how many bytes came. By hand, since `read_to_end` needs a heap and `read_exact` does not
// say how many came.
fn read_full<R: Read>(reader: &mut R, input: &mut [u8]) -> usize
    ensures { result ≤ length input.new }
{
    let mut done = 0;
    while done < input.len() {
        let n = reader.read(&mut input[done..]).unwrap_or(0);
        if n == 0 {
            break;
        }
        done += n;
    }
    done
}

// Fails where n bytes are not all of the input that can matter. Where fewer came, the input ended or a read failed: one more read tells.
fn was_read<R: Read>(reader: &mut R, n: usize) -> io::Result<()> {
    if !input_blocks::is_enough(n) {
        let mut more = [0u8; 1];
        reader.read(&mut more)?;
    }
    Ok(())
}

// Puts word i at the start of buf: no byte where it is missing or longer than buf.
fn word<'a>(rt: &impl Env, i: usize, buf: &'a mut [u8]) -> &'a [u8]
    ensures { length result.now ≤ length buf.old }
{
    let len = rt.arg(i, buf).unwrap_or(0);
    &buf[..len]
}

// How many words there are behind the program's name, up to too many.
fn word_count(rt: &impl Env) -> usize
    ensures { result ≤ 4 }
{
    let mut buf = [0u8; 1];
    for i in 0..TOO_MANY_WORDS {
        if let Err(FillError::NotPresent) = rt.arg(i + 1, &mut buf) {
            return i;
        }
    }
    TOO_MANY_WORDS
}

// Reads the arguments and the records, and prints the replica. What is said where it does not.
fn print_replica(rt: &HostRuntime) -> Result<(), &'static str> {
    let mut first = [0u8; MAX_WORD_BYTES];
    let mut second = [0u8; MAX_WORD_BYTES];
    let mut third = [0u8; MAX_WORD_BYTES];
    let words = [
        word(rt, 1, &mut first),
        word(rt, 2, &mut second),
        word(rt, 3, &mut third),
        b"",
    ];
    let request = options::request_of(&words[..word_count(rt)]).ok_or(
        "usage: replica [--graph6] [--shuffle X] < records",
    )?;
    let mut input = [0u8; MAX_INPUT_BYTES];
    let mut reader = rt.stdin();
    let n = read_full(&mut reader, &mut input);
    was_read(&mut reader, n).map_err(|_| "replica: the input could not be read")?;
    let mut output = [0u8; MAX_TEXT_BYTES];
    let len = runner::program_text(request.form, request.choice, &input[..n], &mut output);
    rt.write_all(&output[..len])
        .map_err(|_| "replica: the output could not be written")
}

fn main(rt: HostRuntime) {
    if let Err(message) = print_replica(&rt) {
        let _ = rt.eprintln(message);
    }
}
