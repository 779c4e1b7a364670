// The rows' counts, and their sums over eight rows: how many open pairs there are, in which row one stands, and one count changed.
ghost use Rattle.std.specs.Prelude.{◌≡◌, ◌+◌, ◌≤◌, ◌<◌, length, get_or, set, replicate};
ghost use Rattle.finite.specs.Range.{sum_to};
ghost use Rattle.adjacency.specs.Adjacency.{side};
ghost use Rattle.open_pairs.specs.Inner.Rows.{open_to};

use layout::MAX_VERTICES;
use std::marker::Model;

// The rows of one sum, and how many sums there are.
const ROWS: usize = 8;

pub const SUMS: usize = MAX_VERTICES / ROWS;

// An entry of an array of counts, and how many of what it counts are still to pass from it on.
#[derive(Clone, Copy)]
pub struct Place {
    pub at: usize,
    pub rest: usize,
}

// How many open pairs each row has: a contract sees these numbers. Beside them stand their sums over eight rows.
#[derive(Drop)]
pub struct RowCounts {
    pairs: [usize; MAX_VERTICES],
    sums: [usize; SUMS],
}

impl Model for RowCounts {
    ghost use Rattle.std.specs.Prelude.{List, ℕ};

    ghost Value = { List ℕ };

    ghost use Rattle.open_pairs.specs.Inner.Rows.{Summed};

    ghost view = { λ c. c.pairs };

    ghost invariant = { λ c. Summed c.pairs c.sums };
}

// The entry in which the position falls.
fn seek(counts: &[usize], position: usize) -> Place
    requires { position < sum_to (length counts.now) (λ i. get_or counts.now i 0) }
    ensures { (result.at < length counts.now) × (sum_to result.at (λ i. get_or counts.now i 0) + result.rest ≡ position) × (result.rest < get_or counts.now result.at 0) }
{
    let mut rest = position;
    for (at, &count) in counts.iter().enumerate() {
        if rest < count {
            return Place { at, rest };
        }
        rest -= count;
    }
    Place {
        at: counts.len(),
        rest,
    }
}

impl RowCounts {
    // No row has an open pair.
    pub fn none() -> RowCounts
        ensures { result ≡ replicate side 0 }
    {
        RowCounts {
            pairs: [0; MAX_VERTICES],
            sums: [0; SUMS],
        }
    }

    // How many open pairs there are.
    pub fn total(&self) -> usize
        ensures { result ≡ open_to self.now side }
    {
        self.sums.iter().sum()
    }

    // The row in which the open pair at the position stands.
    pub fn row_at(&self, position: usize) -> Place
        requires { position < open_to self.now side }
        ensures { (result.at < side) × (open_to self.now result.at + result.rest ≡ position) × (result.rest < get_or self.now result.at 0) }
    {
        let block = seek(&self.sums, position);
        let from = ROWS * block.at;
        let row = seek(&self.pairs[from..from + ROWS], block.rest);
        Place {
            at: from + row.at,
            rest: row.rest,
        }
    }

    // Row v has m open pairs now.
    pub fn set_row(&mut self, v: usize, m: usize)
        requires { (v < side) × (m ≤ side) }
        ensures { self.new ≡ set self.old v m }
    {
        let b = v / ROWS;
        self.sums[b] = self.sums[b] - self.pairs[v] + m;
        self.pairs[v] = m;
    }
}
