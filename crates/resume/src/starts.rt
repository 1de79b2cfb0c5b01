// Where a visit starts: all checks of a batch, and the cursor of its bookmark.
ghost use Rattle.std.specs.Prelude.{◌≡◌};
ghost use Rattle.grid.specs.Domain.{lines};
ghost use Rattle.tables.specs.Tables.{tables, beside};
ghost use Rattle.resume.specs.Cursors.{index_of, spot_of};
ghost use Rattle.resume.specs.Inside.{SpotAsks};
ghost use Rattle.resume.specs.Answers.{start_answer};

use crate::{Cursor, lists};
use grid::Grid;
use refusals::Refusal;
use seek::Place;
use slices::wide;

// Where a value stands in a list first, or how long the list is.
fn index_in(list: &[u32], v: u32) -> usize
    ensures { result ≡ index_of v list.now }
{
    for (u, &entry) in list.iter().enumerate() {
        if entry == v {
            return u;
        }
    }
    list.len()
}

// Where the test of two lines at a place stands.
fn spot_of(
    lines: usize,
    grid: Grid,
    offsets: &[u32],
    items: &[u32],
    globals: &[u32],
    global_count: usize,
    place: Place,
    first: u32,
    second: u32,
) -> Cursor
    requires { SpotAsks globals.now place }
    ensures { result ≡ spot_of (tables grid lines offsets.now items.now globals.now global_count) place first second }
{
    match place {
        Place::Cell { row, col } => {
            let cell = wide(row) * wide(grid.cols) + wide(col);
            let list = listed::lists::list_of(lines, offsets, items, cell);
            let i = index_in(list, first);
            let j = index_in(list, second);
            Cursor { place: cell, i, j }
        }
        Place::Global(p) => {
            let cells = wide(grid.rows) * wide(grid.cols);
            let reach = lists::reach(cells, offsets.len());
            Cursor {
                place: reach + p,
                i: 0,
                j: wide(second),
            }
        }
    }
}

// Refusals 3, 2, 1, 8, 10, and 9 of the bookmark, in that order; else the cursor of the tests that are left there.
pub fn start(
    start_x: &[f64],
    start_y: &[f64],
    end_x: &[f64],
    end_y: &[f64],
    grid: Grid,
    offsets: &[u32],
    items: &[u32],
    globals: &[u32],
    global_count: usize,
    bookmark: u64,
) -> Result<Cursor, Refusal>
    ensures { let ls = lines start_x.now start_y.now end_x.now end_y.now in
        let t = beside ls grid offsets.now items.now globals.now global_count in
        result ≡ start_answer ls grid t bookmark }
{
    let n = start_x.len();
    let found = visit::visits::test_at(
        start_x,
        start_y,
        end_x,
        end_y,
        grid,
        offsets,
        items,
        globals,
        global_count,
        bookmark,
    )?;
    if let Some(test) = found {
        return Ok(spot_of(
            n,
            grid,
            offsets,
            items,
            globals,
            global_count,
            test.place,
            test.first,
            test.second,
        ));
    }
    let cells = wide(grid.rows) * wide(grid.cols);
    let reach = lists::reach(cells, offsets.len());
    let listed = lists::globals_of(n, globals, global_count);
    Ok(Cursor {
        place: reach + listed.len(),
        i: 0,
        j: 0,
    })
}
