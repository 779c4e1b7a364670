// Taking a block.
#![tactic(auto)]

ghost use Rattle.std.specs.Prelude.{◌≡◌, true, ◌<◌, length};
ghost use Rattle.journal.specs.Journal.{journal_size, blocks, journal_ok};
ghost use Rattle.state.specs.State.{state_of};
ghost use Rattle.take_block.specs.Take.{take_held, take_new, take_numbered, take_on_valid, take_answer, take_after};

use answer::{Cause, TakeAnswer, refuse};
use journal::{Phase, block_count, is_block, is_in};
use state::state_check;
use table::record::MAX_BLOCKS;

// A low number: held, or a conflict.
fn take_held(journal: &[u8], number: usize, block: &[u8]) -> TakeAnswer
    requires { (length journal.now ≡ journal_size) × (journal_ok journal.now ≡ true) × (number < blocks journal.now) }
    ensures { result ≡ take_held journal.now number block.now }
{
    if !is_block(journal, number, block) {
        return TakeAnswer::Refused(refuse(Cause::BlockDiffers, 0, 0));
    }
    TakeAnswer::Held
}

// The next number: a new block.
fn take_new(journal: &[u8]) -> TakeAnswer
    requires { length journal.now ≡ journal_size }
    ensures { result ≡ take_new journal.now }
{
    if !is_in(journal, Phase::Taking) {
        return TakeAnswer::Refused(refuse(Cause::WrongPhase, 0, 0));
    }
    let n = block_count(journal);
    if MAX_BLOCKS <= n {
        return TakeAnswer::Refused(refuse(Cause::JournalFull, 0, 0));
    }
    TakeAnswer::Taken(n + 1)
}

// A well-formed block on a valid state.
fn take_numbered(journal: &[u8], number: usize, block: &[u8]) -> TakeAnswer
    requires { (length journal.now ≡ journal_size) × (journal_ok journal.now ≡ true) }
    ensures { result ≡ take_numbered journal.now number block.now }
{
    let n = block_count(journal);
    if n < number {
        return TakeAnswer::Refused(refuse(Cause::BlockNumber, 0, 0));
    }
    if number < n {
        return take_held(journal, number, block);
    }
    take_new(journal)
}

// Any block on a valid state.
fn take_on_valid(journal: &[u8], number: usize, block: &[u8]) -> TakeAnswer
    requires { (length journal.now ≡ journal_size) × (journal_ok journal.now ≡ true) }
    ensures { result ≡ take_on_valid journal.now number block.now }
{
    if !table::record::block_length(block.len()) {
        return TakeAnswer::Refused(refuse(Cause::BlockLength, 0, 0));
    }
    if let Some(bad) = table::record::first_bad(block) {
        return TakeAnswer::Refused(refuse(Cause::BadRecord, bad, 0));
    }
    take_numbered(journal, number, block)
}

// What taking answers; nothing is written yet.
fn take_check(journal: &[u8], adjacency: &[u8], number: usize, block: &[u8]) -> TakeAnswer
    ensures { result ≡ take_answer (state_of journal.now adjacency.now) number block.now }
{
    match state_check(journal, adjacency) {
        Err(r) => TakeAnswer::Refused(r),
        Ok(()) => take_on_valid(journal, number, block),
    }
}

pub fn take_block(journal: &mut [u8], adjacency: &[u8], number: usize, block: &[u8]) -> TakeAnswer
    ensures value { result ≡ take_answer (state_of journal.old adjacency.now) number block.now }
    ensures journal_after { journal.new ≡ (take_after (state_of journal.old adjacency.now) number block.now).journal }
{
    let answer = take_check(journal, adjacency, number, block);
    if let TakeAnswer::Taken(_) = answer {
        journal::store_block(journal, block);
    }
    answer
}
