// Worked examples: document 01's starred cases and what moves (document 02, P2), as theorems about the entries' definitions. No code: the
// statements stand in specs/, their proofs in proofs/.
#![tactic(auto)]
