// Standing tables, and the check that they fit.
#![tactic(auto)]

ghost use Rattle.std.specs.Prelude.{◌≡◌, ℕ, ◌-◌, ◌<◌, ◌≤◌, ◌&&◌, length, get_or, take, leb, ltb};
ghost use Rattle.tables.specs.Tables.{tables, part_in};
ghost use Rattle.tables.specs.Fit.{increases, lists_fit, tables_fit, standing_check};

use grid::Grid;
use refusals::Refusal;
use slices::wide;

mod rising;

// Each entry of a list is above the one before it: then it increases below every number that its last entry is below. All are looked at and none is
// a branch, in 32 bits, so that several are looked at at once.
fn rises(list: &[u32]) -> bool
    requires { 0 < length list.now }
    ensures { let xs = list.now in ((n : ℕ) → increases 0 n xs ≡ (result && ltb (get_or xs (length xs - 1) 0) n)) }
{
    let mut all = true;
    for i in 1..list.len() {
        all = all & (list[i - 1] < list[i]);
    }
    all
}

// A list strictly increases below the number of lines.
pub fn is_increasing(lines: usize, list: &[u32]) -> bool
    ensures { result ≡ increases 0 lines list.now }
{
    if list.len() == 0 {
        return true;
    }
    let last = wide(list[list.len() - 1]);
    rises(list) & (last < lines)
}

// The list of a cell, of tables as they are: empty where the offsets do not tell of it, or it is no part of the items.
pub fn list_of<'a>(offsets: &[u32], items: &'a [u32], cell: usize) -> &'a [u32]
    ensures { result.now ≡ part_in offsets.now items.now cell }
{
    if offsets.len() <= cell {
        return &items[0..0];
    }
    if offsets.len() <= cell + 1 {
        return &items[0..0];
    }
    let begin = wide(offsets[cell]);
    let end = wide(offsets[cell + 1]);
    if end < begin {
        return &items[0..0];
    }
    if items.len() < end {
        return &items[0..0];
    }
    &items[begin..end]
}

// The offsets, and the lists between them.
fn lists_fit(cells: usize, lines: usize, offsets: &[u32], items: &[u32]) -> bool
    requires { cells < length offsets.now }
    ensures { result ≡ lists_fit cells lines offsets.now items.now }
{
    if offsets[0] != 0 {
        return false;
    }
    if rising::never_fall(cells, offsets) {
        let total = wide(offsets[cells]);
        if items.len() < total {
            return false;
        }
        return rising::lists_rise(cells, lines, offsets, &items[..total]);
    }
    false
}

// The global lines strictly increase, and are within their slice.
fn globals_fit(lines: usize, globals: &[u32], global_count: usize) -> bool
    ensures { result ≡ (increases 0 lines (take global_count globals.now) && leb global_count (length globals.now)) }
{
    if globals.len() < global_count {
        return false;
    }
    is_increasing(lines, &globals[..global_count])
}

// Tables that anybody hands in fit. The product of the two counts fits 64 bits.
pub fn is_fit(
    grid: Grid,
    lines: usize,
    offsets: &[u32],
    items: &[u32],
    globals: &[u32],
    global_count: usize,
) -> bool
    ensures { result ≡ tables_fit (tables grid lines offsets.now items.now globals.now global_count) }
{
    let cells = wide(grid.rows) * wide(grid.cols);
    if offsets.len() <= cells {
        return false;
    }
    if lists_fit(cells, lines, offsets, items) {
        return globals_fit(lines, globals, global_count);
    }
    false
}

// Refusals 2, 8 and 10, in that order: what every call that is lent tables checks of them.
pub fn check_tables(
    grid: Grid,
    lines: usize,
    offsets: &[u32],
    items: &[u32],
    globals: &[u32],
    global_count: usize,
) -> Result<(), Refusal>
    ensures { result ≡ standing_check grid (tables grid lines offsets.now items.now globals.now global_count) }
{
    grid::checks::check_count(lines)?;
    grid::checks::check_grid(grid)?;
    refusals::refuse_unless(
        is_fit(grid, lines, offsets, items, globals, global_count),
        10,
        0,
    )
}
