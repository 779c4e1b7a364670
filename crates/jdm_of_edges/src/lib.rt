// The degree table of an edge list and its total of vertices (document 01: survey).
#![tactic(auto)]

ghost use Rattle.std.specs.Prelude.{◌≡◌, ◌≤◌, length};
ghost use Rattle.std.proofs.lemmas.List.Edits.{sets};
ghost use Rattle.answer.specs.Refusals.{Go};
ghost use Rattle.edge_lists.specs.EdgeList.{list_verdict, graph_of};
ghost use Rattle.table_records.specs.Inner.Bounds.{records_most};
ghost use Rattle.degree_counts.specs.Above.{first_above};
ghost use Rattle.degree_counts.specs.Inner.Degrees.{HasDegrees};
ghost use Rattle.jdm_of_edges.specs.Survey.{survey_records, survey_listed, survey_answer, survey_output};

use answer::{Cause, WrittenAnswer, refuse};
use cell_counts::cells_of;
use degree_counts::{degrees_of, first_above, isolated_in};
use edge_lists::list_check;
use layout::MAX_VERTICES;
use slices::copy_in;
use table::cells::CELLS;
use table::record::RECORD_BYTES;
use table_records::put_records;

// Room for a record of each cell and one of isolated vertices, so that the length is known before a byte of the output changes.
const MAX_RECORDS_BYTES: usize = RECORD_BYTES * (CELLS + 1);

// The records of a list with these degrees, none over 40, at the start of the bytes. Their length.
fn own_records(
    edges: &[u8],
    total: usize,
    degrees: &[usize; MAX_VERTICES],
    records: &mut [u8; MAX_RECORDS_BYTES],
) -> usize
    requires { (list_verdict edges.now total ≡ Go) × (first_above edges.now total ≡ total) × HasDegrees degrees.now total (graph_of edges.now) }
    ensures value { (result ≡ length (survey_records edges.now total)) × (result ≤ records_most) }
    ensures records_after { records.new ≡ sets records.old 0 (survey_records edges.now total) }
{
    let isolated = isolated_in(degrees, total);
    let cells = cells_of(edges, total, degrees);
    put_records(isolated, &cells, records)
}

// Of a list that passes the checks 19: the checks 20 and 18, then the records.
fn survey_listed(edges: &[u8], total: usize, output: &mut [u8]) -> WrittenAnswer
    requires { list_verdict edges.now total ≡ Go }
    ensures value { result ≡ survey_listed edges.now total (length output.old) }
    ensures output_after { output.new ≡ survey_output (survey_listed edges.now total (length output.old)) edges.now total output.old }
{
    let degrees = degrees_of(edges, total);
    if let Some(above) = first_above(&degrees, total) {
        return WrittenAnswer::Refused(refuse(Cause::DegreeTooHigh, above, 0));
    }
    let mut records = [0u8; MAX_RECORDS_BYTES];
    let length = own_records(edges, total, &degrees, &mut records);
    if output.len() < length {
        return WrittenAnswer::Refused(refuse(Cause::OutputTooShort, 0, 0));
    }
    copy_in(output, 0, &records[..length]);
    WrittenAnswer::Written(length)
}

// Writes the records of the list's own degree table, or refuses and changes no byte.
pub fn jdm_of_edges(edges: &[u8], total: usize, output: &mut [u8]) -> WrittenAnswer
    ensures value { result ≡ survey_answer edges.now total (length output.old) }
    ensures output_after { output.new ≡ survey_output (survey_answer edges.now total (length output.old)) edges.now total output.old }
{
    match list_check(edges, total) {
        Err(r) => WrittenAnswer::Refused(r),
        Ok(()) => survey_listed(edges, total, output),
    }
}
