// The first half of document 01's "The build", in either sizing: the bounds over all endpoints, the first size of the cells, the grid of a size, and half
// of a size.
#![tactic(auto)]

ghost use Rattle.std.specs.Prelude.{◌≡◌, ◌≤◌, min, length};
ghost use Rattle.grid.specs.Domain.{lines};
ghost use Rattle.sizing.specs.Bounds.{lowest, highest, extent_of};
ghost use Rattle.sizing.specs.Size.{largest, area_of, square_side, length_on, first_size, half_of};
ghost use Rattle.sizing.specs.Counts.{count_on, grid_of, empty_grid};

use grid::Grid;
use numbers::ceiling::ceiling;
use numbers::order::{greatest, least};
use numbers::root::square_root;

// Where all lines lie: the lower corner of their bounds, and how far they reach from it.
#[derive(Clone, Copy)]
pub struct Extent {
    pub min_x: f64,
    pub min_y: f64,
    pub width: f64,
    pub height: f64,
}

// How the first size is found: one length for both axes, or for each axis its own.
#[derive(Clone, Copy)]
pub enum Sizing {
    Square,
    Axes,
}

// The size of a grid's cells. Whoever tries one size after another hands it on, and never looks inside.
#[derive(Clone, Copy)]
pub struct Size {
    pub cell_width: f64,
    pub cell_height: f64,
}

// The bounds on one axis.
#[derive(Clone, Copy)]
struct Span {
    low: f64,
    high: f64,
}

fn fewer(a: usize, b: usize) -> usize
    ensures { result ≡ min a b }
{
    if a <= b {
        return a;
    }
    b
}

// The bounds of the first n lines on one axis.
fn span_of(starts: &[f64], ends: &[f64], n: usize) -> Span
    requires { (n ≤ length starts.now) × (n ≤ length ends.now) }
    ensures { (result.low ≡ lowest starts.now ends.now n) × (result.high ≡ highest starts.now ends.now n) }
{
    let mut low = 1.7976931348623157e308;
    let mut high = -1.7976931348623157e308;
    for i in 0..n {
        let start = starts[i];
        let end = ends[i];
        low = least(low, least(start, end));
        high = greatest(high, greatest(start, end));
    }
    Span { low, high }
}

// Of slices of unequal lengths, the lines that every slice has.
pub fn serial_bounds(start_x: &[f64], start_y: &[f64], end_x: &[f64], end_y: &[f64]) -> Extent
    ensures { result ≡ extent_of (lines start_x.now start_y.now end_x.now end_y.now) }
{
    let n = fewer(
        fewer(start_x.len(), start_y.len()),
        fewer(end_x.len(), end_y.len()),
    );
    let x = span_of(start_x, end_x, n);
    let y = span_of(start_y, end_y, n);
    Extent {
        min_x: x.low,
        min_y: y.low,
        width: x.high - x.low,
        height: y.high - y.low,
    }
}

// An area of almost nothing gives way to the number of lines: lines along one axis have none.
fn area_of(extent: Extent, lines: usize) -> f64
    ensures { result ≡ area_of extent lines }
{
    let area = extent.width * extent.height;
    if area < 1e-9 {
        return std::num::nearest_u64_to_f64(lines as u64);
    }
    area
}

// A length, but at most a thousand cells across the reach, and no cell smaller than 1e-6.
fn largest_of(v: f64, reach: f64) -> f64
    ensures { result ≡ largest v reach }
{
    greatest(greatest(v, reach / 1000.0), 1e-6)
}

// About one line to a square cell.
fn square_side(extent: Extent, lines: usize) -> f64
    ensures { result ≡ square_side extent lines }
{
    let n = std::num::nearest_u64_to_f64(lines as u64);
    let target = square_root(area_of(extent, lines) / n);
    largest_of(target, greatest(extent.width, extent.height))
}

// About s cells across an axis.
fn side_on(width: f64, s: f64) -> f64
    ensures { result ≡ length_on width s }
{
    largest_of(width / s, width)
}

// About one line to a cell.
pub fn first_size(sizing: Sizing, extent: Extent, lines: usize) -> Size
    ensures { result ≡ first_size sizing extent lines }
{
    match sizing {
        Sizing::Square => {
            let side = square_side(extent, lines);
            Size {
                cell_width: side,
                cell_height: side,
            }
        }
        Sizing::Axes => {
            let s = square_root(std::num::nearest_u64_to_f64(lines as u64));
            Size {
                cell_width: side_on(extent.width, s),
                cell_height: side_on(extent.height, s),
            }
        }
    }
}

pub fn half_of(size: Size) -> Size
    ensures { result ≡ half_of size }
{
    Size {
        cell_width: size.cell_width / 2.0,
        cell_height: size.cell_height / 2.0,
    }
}

// The 1e-9 makes room for the upper end, which would else lie on the far edge of the last cell.
fn count_on(width: f64, size: f64) -> u32
    ensures { result ≡ count_on width size }
{
    let n = ceiling((width + 1e-9) / size);
    if n <= 4294967295 {
        return n as u32;
    }
    4294967295
}

pub fn grid_of(extent: Extent, size: Size) -> Grid
    ensures { result ≡ grid_of extent size }
{
    Grid {
        min_x: extent.min_x,
        min_y: extent.min_y,
        cell_width: size.cell_width,
        cell_height: size.cell_height,
        cols: count_on(extent.width, size.cell_width),
        rows: count_on(extent.height, size.cell_height),
    }
}

// The grid of no lines.
pub fn empty_grid() -> Grid
    ensures { result ≡ empty_grid }
{
    Grid {
        min_x: 0.0,
        min_y: 0.0,
        cell_width: 1.0,
        cell_height: 1.0,
        cols: 0,
        rows: 0,
    }
}
