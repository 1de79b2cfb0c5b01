// Laws of the lines in a window, after a build: which lines a query lists for sure. No function: the words are in specs/, the theorems in proofs/.
#![tactic(auto)]
