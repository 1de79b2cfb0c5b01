// Lists of cells as they are, where nobody has checked the tables: the list of a cell, the first test at or after a place, and the box of a
// line for any coordinates.
#![tactic(auto)]

pub mod boxes;
pub mod bytes;
pub mod lists;
pub mod settle;

// Where a test in the cells stands: a cell and two entries of its list.
#[derive(Clone, Copy)]
pub struct CellAt {
    pub cell: usize,
    pub i: usize,
    pub j: usize,
}
