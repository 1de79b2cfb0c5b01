// A visit of standing tables: one test by its bookmark, and batches of tests from a bookmark.
#![tactic(auto)]

use seek::Place;

mod boxes;
mod cursor;
mod scan;
pub mod visits;

// One test: its place, its two lines, and whether their boxes overlap.
#[derive(Clone, Copy)]
pub struct Test {
    pub place: Place,
    pub first: u32,
    pub second: u32,
    pub overlap: bool,
}

// What a batch did: the tests made, the overlaps among them, and the new bookmark.
#[derive(Clone, Copy)]
pub struct Tally {
    pub tests: u64,
    pub overlaps: u64,
    pub bookmark: u64,
}
