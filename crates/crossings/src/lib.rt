// Crossings: a full visit of lines of samples that hands out two lines that share a point, at their first test alone. It goes as the visit of `once`
// does, over its lists by line and its counts, and asks of each test whether the two lines share a point, exactly.
#![tactic(auto)]

ghost use Rattle.seek.specs.Tests.{tests_of};
ghost use Rattle.first_tests.specs.Firsts.{keeps, PairsAre};
ghost use Rattle.first_tests.specs.InsideScan.{HandedOut, RunAsks};
ghost use Rattle.samples.specs.Samples.{samples};
ghost use Rattle.samples.specs.Sharing.{shares};
ghost use Rattle.crossings.specs.Crossings.{beside_samples, crossings_by};

use grid::Grid;
use refusals::Refusal;

mod cells;
mod globals;
mod rows;

// The cells, and then the globals.
fn run(
    start_x: &[i32],
    start_y: &[i32],
    end_x: &[i32],
    end_y: &[i32],
    grid: Grid,
    offsets: &[u32],
    items: &[u32],
    globals: &[u32],
    global_count: usize,
    starts: &[u32],
    listing: &[u32],
    counts: &mut [u32],
    first: &mut [u32],
    second: &mut [u32],
) -> usize
    requires { let ss = samples start_x.now start_y.now end_x.now end_y.now in
        let t = beside_samples ss grid offsets.now items.now globals.now global_count in
        RunAsks grid t starts.now listing.now counts.old }
    ensures { let ss = samples start_x.now start_y.now end_x.now end_y.now in
        let t = beside_samples ss grid offsets.now items.now globals.now global_count in
        HandedOut (keeps (shares ss) t) (tests_of t) first.old second.old 0 first.new second.new result }
{
    let cells = (grid.rows as usize) * (grid.cols as usize);
    let hits = cells::scan_cells(
        cells, grid.cols, offsets, items, start_x, start_y, end_x, end_y, starts, listing, counts,
        first, second,
    );
    globals::scan_globals(
        start_x.len() as u32,
        globals,
        global_count,
        start_x,
        start_y,
        end_x,
        end_y,
        starts,
        listing,
        counts,
        first,
        second,
        hits,
    )
}

// The pairs of lines that share a point, each once, in the order of the visit. Refusals 3, of what is lent, then 3, 2, 15, 8 and 10; then 5, with
// the number of pairs. The tables' check asks 2 again, of the number of lines that has passed it.
pub fn list_crossings(
    start_x: &[i32],
    start_y: &[i32],
    end_x: &[i32],
    end_y: &[i32],
    grid: Grid,
    offsets: &[u32],
    items: &[u32],
    globals: &[u32],
    global_count: usize,
    first: &mut [u32],
    second: &mut [u32],
    starts: &mut [u32],
    listing: &mut [u32],
    counts: &mut [u32],
) -> Result<u64, Refusal>
    ensures { let ss = samples start_x.now start_y.now end_x.now end_y.now in
        let t = beside_samples ss grid offsets.now items.now globals.now global_count in
        let end = crossings_by ss grid t first.old second.old starts.old listing.old counts.old in
        PairsAre end first.old second.old starts.old listing.old counts.old result
        first.new second.new starts.new listing.new counts.new }
{
    let lines = samples::checks::check_sample_lines(start_x, start_y, end_x, end_y);
    lent::begin(
        lines,
        start_x.len(),
        grid,
        offsets,
        items,
        globals,
        global_count,
        first.len(),
        second.len(),
        starts,
        listing,
        counts,
    )?;
    let hits = run(
        start_x,
        start_y,
        end_x,
        end_y,
        grid,
        offsets,
        items,
        globals,
        global_count,
        starts,
        listing,
        counts,
        first,
        second,
    );
    lent::finish(hits, first, second, starts, listing, counts)
}
