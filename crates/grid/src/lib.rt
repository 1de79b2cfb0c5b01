// The grid record, its axes, its words, segments and their boxes, and the checks of document 01's domain. Every crate above cites these.
#![tactic(auto)]

pub mod axes;
pub mod checks;
pub mod segments;
pub mod words;

// A uniform grid: its lower corner, the width and the height of its cells, and how many there are each way.
#[derive(Clone, Copy)]
pub struct Grid {
    pub min_x: f64,
    pub min_y: f64,
    pub cell_width: f64,
    pub cell_height: f64,
    pub cols: u32,
    pub rows: u32,
}

// One axis of a grid: where it begins, the size of a cell on it, and how many there are.
#[derive(Clone, Copy)]
pub struct Axis {
    pub low: f64,
    pub size: f64,
    pub count: u32,
}

// Where a coordinate is, seen from the boundaries of an axis: off them all, at one or just above it, just below one.
#[derive(Clone, Copy)]
pub enum Side {
    Off,
    Above,
    Below,
}

// A line by value: from its start to its end.
#[derive(Clone, Copy)]
pub struct Segment {
    pub start_x: f64,
    pub start_y: f64,
    pub end_x: f64,
    pub end_y: f64,
}

// A bounding box.
#[derive(Clone, Copy)]
pub struct Box {
    pub min_x: f64,
    pub min_y: f64,
    pub max_x: f64,
    pub max_y: f64,
}
