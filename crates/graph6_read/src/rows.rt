// The edges of a text's graph, row by row, from its bits, which go by columns.
ghost use Rattle.std.specs.Prelude.{◌≡◌, ◌≤◌, ◌<◌, length};
ghost use Rattle.std.proofs.lemmas.List.Edits.{sets};
ghost use Rattle.layout.specs.Layout.{most_vertices};
ghost use Rattle.edge_lists.specs.EdgeList.{list_of};
ghost use Rattle.graph6_read.specs.Inner.Bits.{HasRow, rows_of};

use crate::bits::MAX_BODY_BITS;
use edge_lists::put_row;
use graph6::column_starts::COLUMN_STARTS;
use layout::MAX_VERTICES;

// The row of v: its bit in each of the columns behind it.
fn gather_row(bits: &[u8; MAX_BODY_BITS], n: usize, v: usize, row: &mut [u8; MAX_VERTICES])
    requires { (n ≤ most_vertices) × (v < n) × (length row.old ≡ most_vertices) }
    ensures { HasRow bits.now n v row.new × (length row.new ≡ most_vertices) }
{
    let starts = COLUMN_STARTS;
    for w in v + 1..n {
        row[w] = bits[usize::from(starts[w]) + v];
    }
}

// All edges.
pub fn put_rows(bits: &[u8; MAX_BODY_BITS], n: usize, output: &mut [u8])
    requires { (n ≤ most_vertices) × (length (list_of n (rows_of bits.now)) ≤ length output.old) }
    ensures { output.new ≡ sets output.old 0 (list_of n (rows_of bits.now)) }
{
    let mut row = [0u8; MAX_VERTICES];
    let mut a = 0;
    for v in 0..n {
        gather_row(bits, n, v, &mut row);
        a = put_row(&row[..n], v, output, a);
    }
}
