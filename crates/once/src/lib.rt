// Each pair once: a full visit that hands out two lines at their first test alone. A test in a cell is the first if no cell before lists both
// lines, a global's if no cell at all does. The lists by line are made first; as the visit goes on, it counts for each line how many of its
// cells are behind, and looks back from there.
#![tactic(auto)]

ghost use Rattle.grid.specs.Domain.{lines};
ghost use Rattle.seek.specs.Tests.{tests_of};
ghost use Rattle.visit.specs.Overlap.{overlap};
ghost use Rattle.tables.specs.Tables.{beside};
ghost use Rattle.first_tests.specs.Firsts.{keeps, PairsAre};
ghost use Rattle.once.specs.Once.{once_by};
ghost use Rattle.first_tests.specs.InsideScan.{HandedOut, RunAsks};
ghost use Rattle.once.specs.Inside.{LinesChecked};

use grid::Grid;
use refusals::Refusal;

mod boxes;
mod cells;
mod globals;
mod rows;

// The cells, and then the globals.
fn run(
    start_x: &[f64],
    start_y: &[f64],
    end_x: &[f64],
    end_y: &[f64],
    grid: Grid,
    offsets: &[u32],
    items: &[u32],
    globals: &[u32],
    global_count: usize,
    starts: &[u32],
    listing: &[u32],
    counts: &mut [u32],
    first: &mut [u32],
    second: &mut [u32],
) -> usize
    requires { let ls = lines start_x.now start_y.now end_x.now end_y.now in
        let t = beside ls grid offsets.now items.now globals.now global_count in
        LinesChecked ls (RunAsks grid t starts.now listing.now counts.old) }
    ensures { let ls = lines start_x.now start_y.now end_x.now end_y.now in
        let t = beside ls grid offsets.now items.now globals.now global_count in
        HandedOut (keeps (overlap ls) t) (tests_of t) first.old second.old 0 first.new second.new result }
{
    let cells = (grid.rows as usize) * (grid.cols as usize);
    let hits = cells::scan_cells(
        cells, grid.cols, offsets, items, start_x, start_y, end_x, end_y, starts, listing, counts,
        first, second,
    );
    globals::scan_globals(
        start_x.len() as u32,
        globals,
        global_count,
        start_x,
        start_y,
        end_x,
        end_y,
        starts,
        listing,
        counts,
        first,
        second,
        hits,
    )
}

// Refusals 3, of what is lent, then 3, 2, 1, 8 and 10, as a visit; then 5, with the number of pairs. The tables' check asks 2 again, of the
// number of lines that has passed it.
pub fn pairs_once(
    start_x: &[f64],
    start_y: &[f64],
    end_x: &[f64],
    end_y: &[f64],
    grid: Grid,
    offsets: &[u32],
    items: &[u32],
    globals: &[u32],
    global_count: usize,
    first: &mut [u32],
    second: &mut [u32],
    starts: &mut [u32],
    listing: &mut [u32],
    counts: &mut [u32],
) -> Result<u64, Refusal>
    ensures { let ls = lines start_x.now start_y.now end_x.now end_y.now in
        let t = beside ls grid offsets.now items.now globals.now global_count in
        let end = once_by ls grid t first.old second.old starts.old listing.old counts.old in
        PairsAre end first.old second.old starts.old listing.old counts.old result
        first.new second.new starts.new listing.new counts.new }
{
    let lines = grid::checks::check_lines(start_x, start_y, end_x, end_y);
    lent::begin(
        lines,
        start_x.len(),
        grid,
        offsets,
        items,
        globals,
        global_count,
        first.len(),
        second.len(),
        starts,
        listing,
        counts,
    )?;
    let hits = run(
        start_x,
        start_y,
        end_x,
        end_y,
        grid,
        offsets,
        items,
        globals,
        global_count,
        starts,
        listing,
        counts,
        first,
        second,
    );
    lent::finish(hits, first, second, starts, listing, counts)
}
