// The blocks of the program's input: cut from it, and taken one after the other.
#![tactic(auto)]

ghost use Rattle.std.specs.Prelude.{◌≡◌, ◌+◌, ◌-◌, ◌*◌, ◌/◌, ◌≤◌, eqb, length};
ghost use Rattle.table.specs.Block.{block_most};
ghost use Rattle.state.specs.State.{state_of};
ghost use Rattle.take_block.specs.Take.{take_answer, take_after};
ghost use Rattle.input_blocks.specs.Blocks.{block_in, take_verdict, take_all, input_most};

use answer::{Refusal, TakeAnswer};
use table::record::{MAX_BLOCK_BYTES, MAX_BLOCKS};

// The bytes that can matter: one block more than the journal has room for.
pub const MAX_INPUT_BYTES: usize = MAX_BLOCK_BYTES * (MAX_BLOCKS + 1);

// n bytes are all that can matter, whatever follows them.
pub fn is_enough(n: usize) -> bool
    ensures { result ≡ eqb n input_most }
{
    n == MAX_INPUT_BYTES
}

// How many blocks len bytes are; the last may be shorter.
fn blocks_in(len: usize) -> usize
    ensures { result ≡ (len + (block_most - 1)) / block_most }
{
    len.div_ceil(MAX_BLOCK_BYTES)
}

// Block `number` of the input: 64 bytes, or what is left of it.
fn block_in(input: &[u8], number: usize) -> &[u8]
    requires { block_most * number ≤ length input.now }
    ensures { result.now ≡ block_in input.now number }
{
    let rest = &input[MAX_BLOCK_BYTES * number..];
    &rest[..rest.len().min(MAX_BLOCK_BYTES)]
}

// Takes one block; refused or not.
fn take_one(
    journal: &mut [u8],
    adjacency: &[u8],
    number: usize,
    block: &[u8],
) -> Result<(), Refusal>
    ensures value { result ≡ take_verdict (take_answer (state_of journal.old adjacency.now) number block.now) }
    ensures journal_after { journal.new ≡ (take_after (state_of journal.old adjacency.now) number block.now).journal }
{
    match take_block::take_block(journal, adjacency, number, block) {
        TakeAnswer::Taken(_) | TakeAnswer::Held => Ok(()),
        TakeAnswer::Refused(r) => Err(r),
    }
}

// Takes the input block by block, up to the first refusal. The 65th block is refused, so nothing behind it matters.
pub fn take_all(journal: &mut [u8], adjacency: &[u8], input: &[u8]) -> Result<(), Refusal>
    ensures value { result ≡ (take_all (state_of journal.old adjacency.now) input.now).verdict }
    ensures journal_after { journal.new ≡ (take_all (state_of journal.old adjacency.now) input.now).state.journal }
{
    let n = blocks_in(input.len()).min(MAX_BLOCKS + 1);
    for number in 0..n {
        take_one(journal, adjacency, number, block_in(input, number))?;
    }
    Ok(())
}
