// Joining two vertices on the bytes of the adjacency matrix. No code: the neighbour switch, room at an end, the join and its switches stand in
// specs/; that they are the graph's switch and join, and what a join leaves alone, in proofs/.
#![tactic(auto)]
