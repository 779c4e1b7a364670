#![tactic(auto)]

// Simple graphs of any size with a given joint degree matrix. No code: definitions and the statements of the
// theorems stand in specs/, their proofs in proofs/.
