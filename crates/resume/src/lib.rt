// A visit that pays for its checks once. `start` checks lines, grid and tables whole, as a batch does, and answers a cursor; `next` goes on
// from a cursor, over tables as they are.
#![tactic(auto)]

mod globals;
mod lines;
mod lists;
pub mod nexts;
mod settle;
pub mod starts;

// Where a visit stands: the number of a place, which is a cell or, from the number of cells on, a global by its position; in a cell two
// entries of its list, at a global 0 and a line.
#[derive(Clone, Copy)]
pub struct Cursor {
    pub place: usize,
    pub i: usize,
    pub j: usize,
}

// What `next` did: the tests made, the overlaps among them, and where it stopped.
#[derive(Clone, Copy)]
pub struct Went {
    pub tests: u64,
    pub overlaps: u64,
    pub cursor: Cursor,
}
