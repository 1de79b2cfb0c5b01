// What the pairs are that a visit hands out once, as laws of their definition: exactly those that are tested and chosen, each at its first test.
// The laws are in proofs/; there is no code here.
#![tactic(auto)]
