// The walks of inner_walk for C, each with its own clauses, called through, for whoever times or compares them. They are no part of the library.
#![tactic(auto)]

mod walking;
