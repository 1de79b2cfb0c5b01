// The exported functions for pairs: what a visit will cost, lists by line, and each pair once. They answer as the functions of `capi` do: 100 where `out` is
// short, next 101 where a grid has too few words, and else by document 01's number, with the values at the start of `out`.
#![tactic(auto)]

pub mod costing;
pub mod handing;
pub mod listing;
mod stores;

// The number of a function that is handed too few words to say a grid.
pub(crate) const FEW: u32 = 101;
