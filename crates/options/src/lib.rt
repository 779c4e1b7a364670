// What the program's arguments ask for.
#![tactic(auto)]

ghost use Rattle.std.specs.Prelude.{◌≡◌, ◌-◌, map};
ghost use Rattle.options.specs.Options.{is_digit, word_number, shuffled_by, one_word, two_words, three_words, request_of};

use answer::Choice;
use slices::same_bytes;

// How the completed graph is shown: N, its edges and the switches, then a line for each edge; or one line of graph6.
#[derive(Clone, Copy)]
pub enum Form {
    Lines,
    Graph6,
}

// What the arguments ask for.
#[derive(Clone, Copy)]
pub struct Request {
    pub form: Form,
    pub choice: Choice,
}

fn is_digit(b: u8) -> bool
    ensures { result ≡ is_digit b }
{
    (b'0' <= b) & (b <= b'9')
}

// A word's number. It stops where the number is too large, so that no word is too long to be read.
fn word_number(word: &[u8]) -> Option<u32>
    ensures { result ≡ word_number word.now }
{
    if word.is_empty() {
        return None;
    }
    let mut value: u32 = 0;
    for &b in word {
        if !is_digit(b) {
            return None;
        }
        value = value.checked_mul(10)?.checked_add(u32::from(b - b'0'))?;
    }
    Some(value)
}

// The form, shuffled from a word's number on.
fn shuffled_by(form: Form, word: &[u8]) -> Option<Request>
    ensures { result ≡ shuffled_by form (word_number word.now) }
{
    let x = word_number(word)?;
    Some(Request {
        form,
        choice: Choice::Picked(x),
    })
}

// `--graph6`. A test and not a pattern of byte strings: that leaves a goal to prove for each byte.
fn one_word(first: &[u8]) -> Option<Request>
    ensures { result ≡ one_word first.now }
{
    if same_bytes(first, b"--graph6") {
        return Some(Request {
            form: Form::Graph6,
            choice: Choice::Lowest,
        });
    }
    None
}

// `--shuffle X`.
fn two_words(first: &[u8], second: &[u8]) -> Option<Request>
    ensures { result ≡ two_words first.now second.now }
{
    if same_bytes(first, b"--shuffle") {
        return shuffled_by(Form::Lines, second);
    }
    None
}

// Both, in either order.
fn three_words(first: &[u8], second: &[u8], third: &[u8]) -> Option<Request>
    ensures { result ≡ three_words first.now second.now third.now }
{
    if same_bytes(first, b"--graph6") & same_bytes(second, b"--shuffle") {
        return shuffled_by(Form::Graph6, third);
    }
    if same_bytes(first, b"--shuffle") & same_bytes(third, b"--graph6") {
        return shuffled_by(Form::Graph6, second);
    }
    None
}

// What the words behind the program's name ask for, if anything.
pub fn request_of(words: &[&[u8]]) -> Option<Request>
    ensures { result ≡ request_of (map (λ w. w.now) words.now) }
{
    match words {
        [] => Some(Request {
            form: Form::Lines,
            choice: Choice::Lowest,
        }),
        [first] => one_word(first),
        [first, second] => two_words(first, second),
        [first, second, third] => three_words(first, second, third),
        _ => None,
    }
}
