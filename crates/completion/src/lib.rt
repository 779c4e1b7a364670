#![tactic(auto)]

// Completing (document 01: finish). No code: which pair is joined next, the run and what is answered stand in specs/; that a run ends with the table's
// graph, whatever it started from, in proofs/.
