// The first test of two lines, and what a scan of them asks and promises, over any decision on two line numbers. The laws are in proofs/; there is no
// code here.
#![tactic(auto)]
