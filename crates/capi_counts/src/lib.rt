// The exported functions for counting on several benches: counting, adding, tables on an agreed grid, and the grid. They answer as all exported
// functions do: by document 01's number, with their values at the start of the lent `out`. Where `out` has fewer words than a success writes, or none, the
// number is 100; next, where a grid has fewer than six words, 101, where a number names no sizing, 102, and where one names no mode of walk,
// 103. All four change nothing.
#![tactic(auto)]

pub mod agreeing;
mod answers;
pub mod counting;
