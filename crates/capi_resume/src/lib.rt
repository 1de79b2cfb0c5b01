// The exported functions of a visit that pays for its checks once. They answer as the functions of `capi` do: 100 where `out` is short, next
// 101 where a grid has too few words, and else by document 01's number, with the values at the start of `out`.
#![tactic(auto)]

pub mod going;
pub mod starting;
mod stores;

// The number of a function that is handed too few words to say a grid.
pub(crate) const FEW: u32 = 101;
