// The exported functions: each public entry under a plain name, with numbers and slices alone, for a program in C or Rust to link.
// A grid goes in as 64-bit words, the first six that `mt_build` writes to `out`; further words are not read. An entry that can refuse answers
// as `replies` says: by document 01's number, with its values at the start of the lent `out`. Where `out` has fewer words than a success writes, or
// none, the function answers 100 before all else; next, where a grid has fewer than six words, 101, where a number names no sizing, 102, and where one
// names no mode of walk, 103. All four change nothing.
#![tactic(auto)]

pub mod building;
pub mod naming;
pub mod number;
pub mod ownership;
pub mod snapping;
pub mod standing;
pub mod visiting;
pub mod walking;

// The number of a function that is handed too few words to say a grid.
pub const FEW: u32 = 101;
