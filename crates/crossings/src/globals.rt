// The globals of a visit: each with every line but itself and the lower globals. All cells are behind.
ghost use Rattle.samples.specs.Samples.{samples, sample_count};
ghost use Rattle.samples.specs.Sharing.{shares};
ghost use Rattle.first_tests.specs.InsideScan.{GlobalAsks, GlobalDone, GlobalsAsk, GlobalsDone};

use crate::rows;

// The global at a position: runs of lines between the globals that are passed over.
fn scan_global(
    n: u32,
    p: usize,
    globals: &[u32],
    start_x: &[i32],
    start_y: &[i32],
    end_x: &[i32],
    end_y: &[i32],
    starts: &[u32],
    listing: &[u32],
    counts: &[u32],
    first: &mut [u32],
    second: &mut [u32],
    hits: usize,
) -> usize
    requires { let ss = samples start_x.now start_y.now end_x.now end_y.now in
        GlobalAsks (sample_count ss) n p globals.now starts.now listing.now counts.now hits }
    ensures { let ss = samples start_x.now start_y.now end_x.now end_y.now in
        GlobalDone (shares ss) (sample_count ss) p globals.now starts.now listing.now counts.now
        first.old second.old hits first.new second.new result }
{
    let row = rows::row_of(globals[p], 0, start_x, start_y, end_x, end_y);
    let mut hits = hits;
    let mut k = 0;
    let mut q = 0;
    while q <= p {
        let stop = globals[q];
        hits = rows::scan_lines(
            row, k, stop, start_x, start_y, end_x, end_y, starts, listing, counts, first, second,
            hits,
        );
        k = stop + 1;
        q = q + 1;
    }
    rows::scan_lines(
        row, k, n, start_x, start_y, end_x, end_y, starts, listing, counts, first, second, hits,
    )
}

// From global to global.
pub(crate) fn scan_globals(
    n: u32,
    globals: &[u32],
    global_count: usize,
    start_x: &[i32],
    start_y: &[i32],
    end_x: &[i32],
    end_y: &[i32],
    starts: &[u32],
    listing: &[u32],
    counts: &[u32],
    first: &mut [u32],
    second: &mut [u32],
    hits: usize,
) -> usize
    requires { let ss = samples start_x.now start_y.now end_x.now end_y.now in
        GlobalsAsk (sample_count ss) n globals.now global_count starts.now listing.now counts.now hits }
    ensures { let ss = samples start_x.now start_y.now end_x.now end_y.now in
        GlobalsDone (shares ss) (sample_count ss) globals.now global_count starts.now listing.now counts.now
        first.old second.old hits first.new second.new result }
{
    let mut hits = hits;
    for p in 0..global_count {
        hits = scan_global(
            n, p, globals, start_x, start_y, end_x, end_y, starts, listing, counts, first, second,
            hits,
        );
    }
    hits
}
