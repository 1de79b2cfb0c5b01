// Demand 3 whole: what a build that succeeded leaves, and what a full visit of it tests and hands out; and document 01's measured points, P1 to P10,
// as a single table with a single claim. No function: the words are in specs/, the theorems in proofs/.
#![tactic(auto)]
