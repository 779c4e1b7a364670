// What the entries answer, and which way of completing is asked for. specs/Numbers.antt gives document 01's number and values for each answer.
#![tactic(auto)]

ghost use Rattle.std.specs.Prelude.{◌≡◌};
ghost use Rattle.answer.specs.Numbers.{number_of};
ghost use Rattle.answer.specs.Refusals.{refuse, stopped};

pub mod switches;

use crate::switches::Switches;

// Why a call is refused: one case for each number of document 01's table, and of document 02's where a request adds to it.
#[derive(Clone, Copy)]
pub enum Cause {
    WrongLength,
    InvalidState,
    WrongPhase,
    BlockLength,
    BadRecord,
    BlockNumber,
    BlockDiffers,
    JournalFull,
    OddDiagonal,
    RowNotDivisible,
    CellTooLarge,
    TooManyVertices,
    NoSuchVertex,
    SameVertex,
    EdgePresent,
    CellNotShort,
    EdgeAbsent,
    OutputTooShort,
    BadEdgeList,
    DegreeTooHigh,
    Graph6Text,
    Graph6Size,
    SwapNotAllowed,
    LogFull,
    LogEmpty,
}

// A cause with two places, 0 where none is named.
#[derive(Clone, Copy)]
pub struct Refusal {
    pub cause: Cause,
    pub first: usize,
    pub second: usize,
}

// The answers, one enum for each entry. None is a Result: document 01's form of an answer is an enum whose case Refused holds the refusal, and the
// theorems name the cases.
#[derive(Clone, Copy)]
pub enum ClearAnswer {
    Cleared,
    Refused(Refusal),
}

// Taking a block: taken, with the number of the next block; held already; or refused.
#[derive(Clone, Copy)]
pub enum TakeAnswer {
    Taken(usize),
    Held,
    Refused(Refusal),
}

// The length of a held block.
#[derive(Clone, Copy)]
pub enum LengthAnswer {
    Length(usize),
    Refused(Refusal),
}

// Laying out: the number of vertices.
#[derive(Clone, Copy)]
pub enum LayOutAnswer {
    LaidOut(usize),
    Refused(Refusal),
}

#[derive(Clone, Copy)]
pub struct Figures {
    pub phase: usize,
    pub blocks: usize,
    pub vertices: usize,
    pub wanted: usize,
    pub laid: usize,
}

#[derive(Clone, Copy)]
pub enum FiguresAnswer {
    Reported(Figures),
    Refused(Refusal),
}

// Adding an edge: the switches made.
#[derive(Clone, Copy)]
pub enum AddAnswer {
    Added(Switches),
    Refused(Refusal),
}

#[derive(Clone, Copy)]
pub enum RemoveAnswer {
    Removed,
    Refused(Refusal),
}

#[derive(Clone, Copy)]
pub enum SwapAnswer {
    Swapped,
    Refused(Refusal),
}

// Taking the last swap back.
#[derive(Clone, Copy)]
pub enum UndoAnswer {
    Undone,
    Refused(Refusal),
}

// Which open pair completing joins next (document 01: finish): the lowest one of the lowest short cell, or the one that x picks, from this x on
// (document 02, P7). No Option<u32>: the theorems name the two ways, and none of them is nothing.
#[derive(Clone, Copy)]
pub enum Choice {
    Lowest,
    Picked(u32),
}

// Completing: the edges added, the switches made, and the written length.
#[derive(Clone, Copy)]
pub enum CompleteAnswer {
    Completed(usize, usize, usize),
    Refused(Refusal),
}

// Completing by shuffled choice: the same, and the last x.
#[derive(Clone, Copy)]
pub enum ShuffleAnswer {
    Completed(usize, usize, usize, u32),
    Refused(Refusal),
}

// Writing to an output: the written length.
#[derive(Clone, Copy)]
pub enum WrittenAnswer {
    Written(usize),
    Refused(Refusal),
}

// Reading a text: the written length, and the total of vertices.
#[derive(Clone, Copy)]
pub enum ReadAnswer {
    Read(usize, usize),
    Refused(Refusal),
}

// The refusal of a cause at two places.
pub fn refuse(cause: Cause, first: usize, second: usize) -> Refusal
    ensures { result ≡ refuse cause first second }
{
    Refusal {
        cause,
        first,
        second,
    }
}

// What a check answers that refuses, with no place named.
pub fn stopped(cause: Cause) -> Result<(), Refusal>
    ensures { result ≡ stopped cause }
{
    Err(refuse(cause, 0, 0))
}

// Document 01's number of a cause: a match, which reads as the document's table does, and no cast of the cases' order.
pub fn number_of(cause: Cause) -> usize
    ensures { result ≡ number_of cause }
{
    match cause {
        Cause::WrongLength => 1,
        Cause::InvalidState => 2,
        Cause::WrongPhase => 3,
        Cause::BlockLength => 4,
        Cause::BadRecord => 5,
        Cause::BlockNumber => 6,
        Cause::BlockDiffers => 7,
        Cause::JournalFull => 8,
        Cause::OddDiagonal => 9,
        Cause::RowNotDivisible => 10,
        Cause::CellTooLarge => 11,
        Cause::TooManyVertices => 12,
        Cause::NoSuchVertex => 13,
        Cause::SameVertex => 14,
        Cause::EdgePresent => 15,
        Cause::CellNotShort => 16,
        Cause::EdgeAbsent => 17,
        Cause::OutputTooShort => 18,
        Cause::BadEdgeList => 19,
        Cause::DegreeTooHigh => 20,
        Cause::Graph6Text => 21,
        Cause::Graph6Size => 22,
        Cause::SwapNotAllowed => 23,
        Cause::LogFull => 24,
        Cause::LogEmpty => 25,
    }
}
