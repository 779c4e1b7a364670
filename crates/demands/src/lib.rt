// The user's demands as theorems about the entries' definitions. No code: the statements stand in specs/, their proofs in proofs/.
#![tactic(auto)]
