// Reading a held block back.
#![tactic(auto)]

ghost use Rattle.std.specs.Prelude.{◌≡◌};
ghost use Rattle.slices.specs.Slices.{further};
ghost use Rattle.state.specs.State.{state_of};
ghost use Rattle.held_block.specs.Held.{length_answer, held_part, held_from};

use answer::{Cause, LengthAnswer, refuse};
use journal::{block_count, block_part, slot_length};
use state::state_check;

// The length of held block `number`, or why there is none.
pub fn held_block_length(journal: &[u8], adjacency: &[u8], number: usize) -> LengthAnswer
    ensures { result ≡ length_answer (state_of journal.now adjacency.now) number }
{
    if let Err(r) = state_check(journal, adjacency) {
        return LengthAnswer::Refused(r);
    }
    if block_count(journal) <= number {
        return LengthAnswer::Refused(refuse(Cause::BlockNumber, 0, 0));
    }
    LengthAnswer::Length(slot_length(journal, number))
}

// Held block `number`, the part of the journal itself; an empty part where there is none.
pub fn held_block<'a, 'b>(journal: &'a [u8], adjacency: &'b [u8], number: usize) -> &'a [u8]
    ensures ref_ptr_value { result.ref_ptr ≡ further journal.entry.ref_ptr (held_from (state_of journal.now adjacency.now) number) }
    ensures result_value { result.now ≡ held_part (state_of journal.now adjacency.now) number }
{
    match held_block_length(journal, adjacency, number) {
        LengthAnswer::Length(_) => block_part(journal, number),
        LengthAnswer::Refused(_) => &journal[..0],
    }
}
