// Blocks read back: each part of the journal is the block sent under its number, before and after laying out.
use adjacency::ADJACENCY_BYTES;
use answer::LengthAnswer;
use held_block::{held_block, held_block_length};
use journal::JOURNAL_BYTES;
use lay_out::lay_out;
use std::io;
use take_block::take_block;

// An empty part is a block of no bytes, or there is none: the companion tells.
fn tell_empty(rt: &impl Print, journal: &[u8], adjacency: &[u8], number: usize) -> io::Result<()> {
    match held_block_length(journal, adjacency, number) {
        LengthAnswer::Length(_) => rt.print(" empty\n"),
        LengthAnswer::Refused(_) => rt.print(" none\n"),
    }
}

// The part of the journal for a number, against the block sent under it.
fn compare<'a>(
    rt: &impl Print,
    journal: &'a [u8],
    adjacency: &'a [u8],
    number: usize,
    block: &[u8],
) -> io::Result<()> {
    let part = held_block(journal, adjacency, number);
    print!(rt; "part {number}")?;
    if part.len() == 0 {
        return tell_empty(rt, journal, adjacency, number);
    }
    if slices::same_bytes(part, block) {
        return rt.print(" same\n");
    }
    rt.print(" other\n")
}

// Four blocks of different lengths and bytes, the last without any, and a number that none was sent under.
fn compare_all<'a>(rt: &impl Print, journal: &'a [u8], adjacency: &'a [u8]) -> io::Result<()> {
    compare(rt, journal, adjacency, 0, &[1u8, 3, 1, 0])?;
    compare(rt, journal, adjacency, 1, &[2u8, 2, 2, 0, 2, 3, 1, 0])?;
    compare(
        rt,
        journal,
        adjacency,
        2,
        &[2u8, 3, 1, 0, 1, 1, 0, 0, 2, 2, 0, 0],
    )?;
    compare(rt, journal, adjacency, 3, &[])?;
    compare(rt, journal, adjacency, 4, &[])
}

pub fn parts(rt: &impl Print) -> io::Result<()> {
    let mut journal = [0u8; JOURNAL_BYTES];
    let adjacency = [0u8; ADJACENCY_BYTES];
    take_block(&mut journal, &adjacency, 0, &[1u8, 3, 1, 0]);
    take_block(&mut journal, &adjacency, 1, &[2u8, 2, 2, 0, 2, 3, 1, 0]);
    take_block(
        &mut journal,
        &adjacency,
        2,
        &[2u8, 3, 1, 0, 1, 1, 0, 0, 2, 2, 0, 0],
    );
    take_block(&mut journal, &adjacency, 3, &[]);
    rt.print("four blocks, read back\n")?;
    compare_all(rt, &journal, &adjacency)?;
    lay_out(&mut journal, &adjacency);
    rt.print("and after laying out\n")?;
    compare_all(rt, &journal, &adjacency)
}
