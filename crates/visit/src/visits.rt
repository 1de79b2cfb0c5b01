// The entries of a visit: one test by its bookmark, and a batch from a bookmark, without and with the places of its pairs. Each checks all
// that it is lent, once, and refuses before it writes.
ghost use Rattle.std.specs.Prelude.{◌≡◌};
ghost use Rattle.tables.specs.Tables.{beside};
ghost use Rattle.grid.specs.Domain.{lines};
ghost use Rattle.seek.specs.Bookmarks.{visit_check};
ghost use Rattle.visit.specs.Entries.{test_at, BatchIs, PlacedBatchIs};
ghost use Rattle.visit.specs.Inside.{BatchMade};

use crate::{Tally, Test, scan};
use grid::Grid;
use refusals::Refusal;

// The test that stands at a bookmark, or the end mark at the total.
pub fn test_at(
    start_x: &[f64],
    start_y: &[f64],
    end_x: &[f64],
    end_y: &[f64],
    grid: Grid,
    offsets: &[u32],
    items: &[u32],
    globals: &[u32],
    global_count: usize,
    bookmark: u64,
) -> Result<Option<Test>, Refusal>
    ensures { let ls = lines start_x.now start_y.now end_x.now end_y.now in
        let t = beside ls grid offsets.now items.now globals.now global_count in
        result ≡ test_at ls grid t bookmark }
{
    let pair = seek::bookmarks::pair_at(
        start_x,
        start_y,
        end_x,
        end_y,
        grid,
        offsets,
        items,
        globals,
        global_count,
        bookmark,
    )?;
    let Some(found) = pair else {
        return Ok(None);
    };
    let row = scan::row_of(found.place, found.first, start_x, start_y, end_x, end_y);
    Ok(Some(scan::test_with(row, found.second, start_x, start_y, end_x, end_y)))
}

// What both batches do: the tests from a bookmark on, of the cells and then of the globals, until the outputs are full or the end comes. The places are written where their slice is
// as long as the outputs.
fn make_batch(
    start_x: &[f64],
    start_y: &[f64],
    end_x: &[f64],
    end_y: &[f64],
    grid: Grid,
    offsets: &[u32],
    items: &[u32],
    globals: &[u32],
    global_count: usize,
    bookmark: u64,
    first: &mut [u32],
    second: &mut [u32],
    places: &mut [u32],
) -> Result<Tally, Refusal>
    ensures { let ls = lines start_x.now start_y.now end_x.now end_y.now in
        let t = beside ls grid offsets.now items.now globals.now global_count in
        BatchMade ls grid t bookmark first.old second.old places.old first.new second.new places.new result }
{
    if first.len() != second.len() {
        return Err(Refusal {
            number: 3,
            value: 0,
        });
    }
    let cursor = seek::bookmarks::find(
        start_x,
        start_y,
        end_x,
        end_y,
        grid,
        offsets,
        items,
        globals,
        global_count,
        bookmark,
    )?;
    let cells = grid.rows as usize * grid.cols as usize;
    let listed = scan::run_cells(
        grid.cols,
        cells,
        offsets,
        items,
        cursor.cell,
        cursor.i,
        cursor.j,
        start_x,
        start_y,
        end_x,
        end_y,
        first,
        second,
        places,
    );
    let global = scan::run_globals(
        cells,
        globals,
        global_count,
        cursor.p,
        cursor.q,
        cursor.k,
        start_x,
        start_y,
        end_x,
        end_y,
        first,
        second,
        places,
        listed.hits,
    );
    let hits = global.hits;
    slices::clear_from(first, hits);
    slices::clear_from(second, hits);
    slices::clear_from(places, hits);
    let made = listed.tests + global.tests;
    Ok(Tally {
        tests: made,
        overlaps: hits as u64,
        bookmark: bookmark + made,
    })
}

// The tests from a bookmark on, until the outputs are full or the end comes: the pairs that overlap, with zero beyond them.
pub fn batch(
    start_x: &[f64],
    start_y: &[f64],
    end_x: &[f64],
    end_y: &[f64],
    grid: Grid,
    offsets: &[u32],
    items: &[u32],
    globals: &[u32],
    global_count: usize,
    bookmark: u64,
    first: &mut [u32],
    second: &mut [u32],
) -> Result<Tally, Refusal>
    ensures { let ls = lines start_x.now start_y.now end_x.now end_y.now in
        let t = beside ls grid offsets.now items.now globals.now global_count in
        BatchIs ls grid t bookmark first.old second.old first.new second.new result }
{
    let mut none: [u32; 0] = [];
    make_batch(
        start_x,
        start_y,
        end_x,
        end_y,
        grid,
        offsets,
        items,
        globals,
        global_count,
        bookmark,
        first,
        second,
        &mut none,
    )
}

// The same batch, and beside each pair the number of the place where it was tested: its cell's, in row order, or the number of cells and the
// position of its global.
pub fn batch_with_places(
    start_x: &[f64],
    start_y: &[f64],
    end_x: &[f64],
    end_y: &[f64],
    grid: Grid,
    offsets: &[u32],
    items: &[u32],
    globals: &[u32],
    global_count: usize,
    bookmark: u64,
    first: &mut [u32],
    second: &mut [u32],
    places: &mut [u32],
) -> Result<Tally, Refusal>
    ensures { let ls = lines start_x.now start_y.now end_x.now end_y.now in
        let t = beside ls grid offsets.now items.now globals.now global_count in
        PlacedBatchIs ls grid t bookmark first.old second.old places.old first.new second.new places.new result }
{
    if first.len() != places.len() {
        return Err(Refusal {
            number: 3,
            value: 0,
        });
    }
    make_batch(
        start_x,
        start_y,
        end_x,
        end_y,
        grid,
        offsets,
        items,
        globals,
        global_count,
        bookmark,
        first,
        second,
        places,
    )
}
