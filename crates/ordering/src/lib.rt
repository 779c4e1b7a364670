// Worked examples: the order of checks and isolated vertices, as theorems about the entries' definitions. No code: the statements stand in specs/,
// their proofs in proofs/.
#![tactic(auto)]
