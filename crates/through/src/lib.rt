// From list to list through the cells of tables as they are: the tests of each list row by row, until the outputs are full or none is left.
#![tactic(auto)]

mod boxes;
pub mod cells;
mod rows;
mod scan;

use listed::CellAt;

// What a run through the cells did: the tests made, the overlaps among them, and where the first test that is left stands, if one is left.
#[derive(Clone, Copy)]
pub struct CellsMade {
    pub tests: u64,
    pub overlaps: usize,
    pub at: Option<CellAt>,
}
