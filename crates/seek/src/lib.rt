// Where a visit of standing tables stands: a list by its place, and the cursor of a bookmark.
#![tactic(auto)]

pub mod bookmarks;
pub mod lists;

// Where a test is made: a cell, or a global line by its position.
#[derive(Clone, Copy)]
pub enum Place {
    Cell { row: u32, col: u32 },
    Global(usize),
}

// Where a visit stands, by value: in the cells, the cell and the places i and j in its list; among the globals, the position p, the next
// line k, and the position q of the next global that is passed over.
#[derive(Clone, Copy)]
pub struct Cursor {
    pub cell: usize,
    pub i: usize,
    pub j: usize,
    pub p: usize,
    pub q: usize,
    pub k: u32,
}

// The test that stands at a bookmark: its place and its two lines.
#[derive(Clone, Copy)]
pub struct PairAt {
    pub place: Place,
    pub first: u32,
    pub second: u32,
}
