// Document 01's numbers of each answer, in the struct that the C interface hands back.
#![tactic(auto)]

ghost use Rattle.std.specs.Prelude.{◌≡◌, ℕ, ◌<◌};
ghost use Rattle.answer.specs.declared.AddAnswer.TheVariants.{Added, Refused};
ghost use Rattle.answer.specs.Numbers.{refused, clear_numbers, take_numbers, lay_out_numbers, figures_numbers, add_numbers, remove_numbers, swap_numbers, undo_numbers, complete_numbers, shuffle_numbers, written_numbers, read_numbers};
ghost use Rattle.table.specs.Block.{most_blocks};
ghost use Rattle.numbers.specs.Flat.{flat, flat_join, held_numbers};

use answer::switches::{Switches, first_switch, second_switch, switch_count};
use answer::{
    AddAnswer, ClearAnswer, CompleteAnswer, FiguresAnswer, LayOutAnswer, LengthAnswer, ReadAnswer,
    Refusal, RemoveAnswer, ShuffleAnswer, SwapAnswer, TakeAnswer, UndoAnswer, WrittenAnswer,
    number_of,
};
use journal::block_from;

// number is 0 where the call did its work, else the refusal's number with its places in first and second. What is not named is 0.
#[repr(C)]
#[derive(Clone, Copy)]
pub struct ReplicaAnswer {
    pub number: usize,
    pub first: usize,
    pub second: usize,
    pub third: usize,
    pub fourth: usize,
    pub fifth: usize,
}

// An added edge: number is 0, first the switches made, then the vertices a, b and t of each in the order made, 255 for a switch that was not needed;
// else the refusal's number with its places in first and second, and 0.
#[repr(C)]
#[derive(Clone, Copy)]
pub struct ReplicaJoin {
    pub number: usize,
    pub first: usize,
    pub second: usize,
    pub a1: usize,
    pub b1: usize,
    pub t1: usize,
    pub a2: usize,
    pub b2: usize,
    pub t2: usize,
}

fn two(number: usize, first: usize, second: usize) -> ReplicaAnswer
    ensures { result ≡ flat (record { number = number; first = first; second = second; third = 0; fourth = 0; fifth = 0 }) }
{
    ReplicaAnswer {
        number,
        first,
        second,
        third: 0,
        fourth: 0,
        fifth: 0,
    }
}

impl From<Refusal> for ReplicaAnswer {
    ghost from_gives = { λ r result. result ≡ flat (refused r) };

    fn from(r: Refusal) -> ReplicaAnswer {
        let cause = r.cause;
        two(number_of(cause), r.first, r.second)
    }
}

impl From<ClearAnswer> for ReplicaAnswer {
    ghost from_gives = { λ answer result. result ≡ flat (clear_numbers answer) };

    fn from(answer: ClearAnswer) -> ReplicaAnswer {
        match answer {
            ClearAnswer::Cleared => two(0, 0, 0),
            ClearAnswer::Refused(r) => r.into(),
        }
    }
}

impl From<TakeAnswer> for ReplicaAnswer {
    ghost from_gives = { λ answer result. result ≡ flat (take_numbers answer) };

    fn from(answer: TakeAnswer) -> ReplicaAnswer {
        match answer {
            TakeAnswer::Taken(next) => two(0, 0, next),
            TakeAnswer::Held => two(0, 1, 0),
            TakeAnswer::Refused(r) => r.into(),
        }
    }
}

// No `From`: where the block stands goes by its number.
pub fn of_held(number: usize, answer: LengthAnswer) -> ReplicaAnswer
    requires { (n : ℕ) → answer ≡ LengthAnswer.Length n → number < most_blocks }
    ensures { result ≡ flat (held_numbers number answer) }
{
    match answer {
        LengthAnswer::Length(n) => two(0, block_from(number), n),
        LengthAnswer::Refused(r) => r.into(),
    }
}

impl From<LayOutAnswer> for ReplicaAnswer {
    ghost from_gives = { λ answer result. result ≡ flat (lay_out_numbers answer) };

    fn from(answer: LayOutAnswer) -> ReplicaAnswer {
        match answer {
            LayOutAnswer::LaidOut(n) => two(0, n, 0),
            LayOutAnswer::Refused(r) => r.into(),
        }
    }
}

impl From<Switches> for ReplicaJoin {
    ghost from_gives = { λ s result. result ≡ flat_join (add_numbers (Added s)) };

    fn from(s: Switches) -> ReplicaJoin {
        let x = first_switch(s);
        let y = second_switch(s);
        ReplicaJoin {
            number: 0,
            first: switch_count(s),
            second: 0,
            a1: x.a,
            b1: x.b,
            t1: x.t,
            a2: y.a,
            b2: y.b,
            t2: y.t,
        }
    }
}

impl From<Refusal> for ReplicaJoin {
    ghost from_gives = { λ r result. result ≡ flat_join (add_numbers (Refused r)) };

    fn from(r: Refusal) -> ReplicaJoin {
        let a = ReplicaAnswer::from(r);
        ReplicaJoin {
            number: a.number,
            first: a.first,
            second: a.second,
            a1: 0,
            b1: 0,
            t1: 0,
            a2: 0,
            b2: 0,
            t2: 0,
        }
    }
}

impl From<AddAnswer> for ReplicaJoin {
    ghost from_gives = { λ answer result. result ≡ flat_join (add_numbers answer) };

    fn from(answer: AddAnswer) -> ReplicaJoin {
        match answer {
            AddAnswer::Added(s) => s.into(),
            AddAnswer::Refused(r) => r.into(),
        }
    }
}

impl From<RemoveAnswer> for ReplicaAnswer {
    ghost from_gives = { λ answer result. result ≡ flat (remove_numbers answer) };

    fn from(answer: RemoveAnswer) -> ReplicaAnswer {
        match answer {
            RemoveAnswer::Removed => two(0, 0, 0),
            RemoveAnswer::Refused(r) => r.into(),
        }
    }
}

impl From<SwapAnswer> for ReplicaAnswer {
    ghost from_gives = { λ answer result. result ≡ flat (swap_numbers answer) };

    fn from(answer: SwapAnswer) -> ReplicaAnswer {
        match answer {
            SwapAnswer::Swapped => two(0, 0, 0),
            SwapAnswer::Refused(r) => r.into(),
        }
    }
}

impl From<UndoAnswer> for ReplicaAnswer {
    ghost from_gives = { λ answer result. result ≡ flat (undo_numbers answer) };

    fn from(answer: UndoAnswer) -> ReplicaAnswer {
        match answer {
            UndoAnswer::Undone => two(0, 0, 0),
            UndoAnswer::Refused(r) => r.into(),
        }
    }
}

impl From<CompleteAnswer> for ReplicaAnswer {
    ghost from_gives = { λ answer result. result ≡ flat (complete_numbers answer) };

    fn from(answer: CompleteAnswer) -> ReplicaAnswer {
        match answer {
            CompleteAnswer::Completed(joins, switches, length) => ReplicaAnswer {
                number: 0,
                first: joins,
                second: switches,
                third: length,
                fourth: 0,
                fifth: 0,
            },
            CompleteAnswer::Refused(r) => r.into(),
        }
    }
}

impl From<ShuffleAnswer> for ReplicaAnswer {
    ghost from_gives = { λ answer result. result ≡ flat (shuffle_numbers answer) };

    fn from(answer: ShuffleAnswer) -> ReplicaAnswer {
        match answer {
            ShuffleAnswer::Completed(joins, switches, length, x) => ReplicaAnswer {
                number: 0,
                first: joins,
                second: switches,
                third: length,
                fourth: x as usize,
                fifth: 0,
            },
            ShuffleAnswer::Refused(r) => r.into(),
        }
    }
}

impl From<WrittenAnswer> for ReplicaAnswer {
    ghost from_gives = { λ answer result. result ≡ flat (written_numbers answer) };

    fn from(answer: WrittenAnswer) -> ReplicaAnswer {
        match answer {
            WrittenAnswer::Written(n) => two(0, n, 0),
            WrittenAnswer::Refused(r) => r.into(),
        }
    }
}

impl From<ReadAnswer> for ReplicaAnswer {
    ghost from_gives = { λ answer result. result ≡ flat (read_numbers answer) };

    fn from(answer: ReadAnswer) -> ReplicaAnswer {
        match answer {
            ReadAnswer::Read(n, total) => two(0, n, total),
            ReadAnswer::Refused(r) => r.into(),
        }
    }
}

impl From<FiguresAnswer> for ReplicaAnswer {
    ghost from_gives = { λ answer result. result ≡ flat (figures_numbers answer) };

    fn from(answer: FiguresAnswer) -> ReplicaAnswer {
        match answer {
            FiguresAnswer::Reported(f) => ReplicaAnswer {
                number: 0,
                first: f.phase,
                second: f.blocks,
                third: f.vertices,
                fourth: f.wanted,
                fifth: f.laid,
            },
            FiguresAnswer::Refused(r) => r.into(),
        }
    }
}
