// The open pairs of one row: how many there are, and which one stands at a position.
ghost use Rattle.std.specs.Prelude.{◌≡◌, true, ◌&&◌, ℕ, ◌+◌, ◌≤◌, ◌<◌, eqb, length, get_or};
ghost use Rattle.finite.specs.Range.{bit, sum_to};
ghost use Rattle.graph.specs.Tests.{most_classes};
ghost use Rattle.adjacency.specs.Adjacency.{side};
ghost use Rattle.open_pairs.specs.Inner.Rows.{is_free, free_to, Scannable};

use adjacency::SIDE;

// How many columns are counted at once.
const LANES: usize = 16;

// A column, and how many free ones are still to pass from it on.
#[derive(Clone, Copy)]
pub struct Column {
    pub w: usize,
    pub rest: usize,
}

// How many places are taken: 1 in one of the two. The sum fits in a byte: this is a vector loop of 16 at a time.
fn taken(a: &[u8], b: &[u8]) -> usize
    requires { (length a.now ≡ length b.now) × (length a.now ≤ side) × ((i : ℕ) → i < length a.now → (get_or a.now i 0 ≤ 1) × (get_or b.now i 0 ≤ 1)) }
    ensures { result + sum_to (length a.now) (λ i. bit (eqb (get_or a.now i 0) 0 && eqb (get_or b.now i 0) 0)) ≡ length a.now }
{
    let mut sum: u8 = 0;
    for (&x, &y) in a.iter().zip(b) {
        sum += x.max(y);
    }
    usize::from(sum)
}

// How many of the columns from, .., to - 1 are free in row v, of class k.
fn free_between(
    adjacency: &[u8],
    full: &[u8],
    n: usize,
    k: usize,
    v: usize,
    from: usize,
    to: usize,
) -> usize
    requires { Scannable n adjacency.now full.now × (k < most_classes) × (v < n) × (v < from) × (from ≤ to) × (to ≤ n) }
    ensures { free_to adjacency.now full.now k v from + result ≡ free_to adjacency.now full.now k v to }
{
    let x = v * SIDE;
    let y = k * SIDE;
    (to - from) - taken(&adjacency[x + from..x + to], &full[y + from..y + to])
}

// How many open pairs row v has.
pub fn row_open(adjacency: &[u8], full: &[u8], n: usize, k: usize, v: usize) -> usize
    requires { Scannable n adjacency.now full.now × (k < most_classes) × (v < n) }
    ensures { (result ≡ free_to adjacency.now full.now k v n) × (result ≤ side) }
{
    free_between(adjacency, full, n, k, v, v + 1, n)
}

fn is_free(adjacency: &[u8], full: &[u8], k: usize, v: usize, w: usize) -> bool
    requires { (v < side) × (w < side) × (k < most_classes) × ((n : ℕ) × Scannable n adjacency.now full.now) }
    ensures { result ≡ is_free adjacency.now full.now k v w }
{
    (adjacency[v * SIDE + w] == 0) & (full[k * SIDE + w] == 0)
}

// A column not behind the one at the position, and how many free ones there are to pass from it on. No `for` over blocks: w begins behind v, and
// would have to be told from the block again.
fn skip_columns(
    adjacency: &[u8],
    full: &[u8],
    n: usize,
    k: usize,
    v: usize,
    position: usize,
) -> Column
    requires { Scannable n adjacency.now full.now × (k < most_classes) × (v < n) }
    ensures { (v < result.w) × (result.w ≤ n) × (free_to adjacency.now full.now k v result.w + result.rest ≡ position) }
{
    let mut w = v + 1;
    let mut rest = position;
    while w + LANES <= n {
        let free = free_between(adjacency, full, n, k, v, w, w + LANES);
        if rest < free {
            return Column { w, rest };
        }
        rest -= free;
        w += LANES;
    }
    Column { w, rest }
}

// The column of row v, of class k, that stands at the position among the free ones.
pub fn column_at(
    adjacency: &[u8],
    full: &[u8],
    n: usize,
    k: usize,
    v: usize,
    position: usize,
) -> usize
    requires { Scannable n adjacency.now full.now × (k < most_classes) × (v < n) × (position < free_to adjacency.now full.now k v n) }
    ensures { (v < result) × (result < n) × (is_free adjacency.now full.now k v result ≡ true) × (free_to adjacency.now full.now k v result ≡ position) }
{
    let from = skip_columns(adjacency, full, n, k, v, position);
    let mut rest = from.rest;
    for w in from.w..n {
        if is_free(adjacency, full, k, v, w) {
            if rest == 0 {
                return w;
            }
            rest -= 1;
        }
    }
    n
}
