// What the crossings are that a visit of lines of samples lists, as laws of their definition and of calls: exactly the pairs that are tested and share a
// point, each once; and after a build in the covering mode all that share one. The laws are in proofs/; there is no code here.
#![tactic(auto)]
