// Laws of the covering walk on the grids of a build: every line of a build passes the guard, on every grid that either sizing can choose. No function: the
// words are in specs/, the theorems in proofs/.
#![tactic(auto)]
