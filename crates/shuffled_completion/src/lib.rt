#![tactic(auto)]

// Completing by shuffled choice (document 02, P7). No code: how x steps and which open pair it picks, the run and what is answered stand in specs/,
// with both ways of completing side by side; that such a run ends with the table's graph too, in proofs/.
