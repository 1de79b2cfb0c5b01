// The two passes over the lines on one grid: counting, then placing.
ghost use Rattle.std.specs.Prelude.{◌≡◌, true, ◌≤◌, ◌<◌, length};
ghost use Rattle.grid.specs.Domain.{lines, fit};
ghost use Rattle.tables.specs.InsidePasses.{CanCount, CanPlace};
ghost use Rattle.fill.specs.OnGrid.{grid_cells};
ghost use Rattle.fill.specs.Checks.{turns_check};
ghost use Rattle.fill.specs.Inside.{CountAs, WalkAsks, WalkedIs, VisitsCounted, PassAsks, AllCounted, VisitsPlaced, PlaceAsks, AllPlaced};

use grid::Grid;
use grid::segments::segment_at;
use refusals::Refusal;
use walk::{Mode, Reached};

// The number of cells of a grid.
pub(crate) fn cell_count(grid: Grid) -> usize
    requires { fit grid ≡ true }
    ensures { (result ≡ grid_cells grid) × (result ≤ 1002001) }
{
    (grid.rows as usize) * (grid.cols as usize)
}

// Whether a walk is over its turns; and else how many cells it visits.
#[derive(Clone, Copy)]
struct Walked {
    over: bool,
    cells: usize,
}

// The walk of line i, in a mode. All but refusal 7 is checked before. A line that is everywhere has more cells than the scratch need hold, and is global.
fn walk_line(
    mode: Mode,
    start_x: &[f64],
    start_y: &[f64],
    end_x: &[f64],
    end_y: &[f64],
    i: usize,
    grid: Grid,
    scratch: &mut [u32],
) -> Walked
    requires { let ls = lines start_x.now start_y.now end_x.now end_y.now in
        WalkAsks grid ls i scratch.old }
    ensures { let ls = lines start_x.now start_y.now end_x.now end_y.now in
        WalkedIs mode grid ls i scratch.new result }
{
    let line = segment_at(start_x, start_y, end_x, end_y, i);
    let reached = walk::cells_between(
        mode,
        grid,
        line.start_x,
        line.start_y,
        line.end_x,
        line.end_y,
        scratch,
    );
    match reached {
        Ok(Reached::Found(n)) => Walked {
            over: false,
            cells: n,
        },
        Ok(Reached::Everywhere) => Walked {
            over: false,
            cells: cell_count(grid),
        },
        Err(_) => Walked {
            over: true,
            cells: 0,
        },
    }
}

// One more in each cell that a line visits, the first n of the scratch, unless they are too many: then the line is global. Answers how many global
// lines it is, 0 or 1.
fn count_visits(scratch: &[u32], n: usize, offsets: &mut [u32]) -> usize
    requires { n ≤ 2048 → CanCount offsets.old scratch.now n }
    ensures { VisitsCounted offsets.old scratch.now n offsets.new result }
{
    if 2048 < n {
        return 1;
    }
    for j in 0..n {
        let c = scratch[j] as usize;
        offsets[c] += 1;
    }
    0
}

// Pass 1: counts the lines of each cell, and the global lines.
pub(crate) fn count_lines(
    mode: Mode,
    start_x: &[f64],
    start_y: &[f64],
    end_x: &[f64],
    end_y: &[f64],
    grid: Grid,
    offsets: &mut [u32],
    scratch: &mut [u32],
) -> Result<usize, Refusal>
    requires { let ls = lines start_x.now start_y.now end_x.now end_y.now in
        PassAsks mode grid ls offsets.old scratch.old }
    ensures { let ls = lines start_x.now start_y.now end_x.now end_y.now in
        CountAs (turns_check mode grid ls) (AllCounted mode grid ls offsets.new) result }
{
    let mut globals = 0;
    for i in 0..start_x.len() {
        let walked = walk_line(mode, start_x, start_y, end_x, end_y, i, grid, scratch);
        if walked.over {
            return Err(Refusal {
                number: 7,
                value: i as u64,
            });
        }
        globals += count_visits(scratch, walked.cells, offsets);
    }
    Ok(globals)
}

// Writes the number of a line where the pointer of each of its cells stands, and moves the pointer on, unless the line is global. Answers how many
// global lines it is, 0 or 1.
fn place_visits(
    i: usize,
    scratch: &[u32],
    visits: usize,
    offsets: &mut [u32],
    items: &mut [u32],
) -> usize
    requires { visits ≤ 2048 → CanPlace i offsets.old items.old scratch.now visits }
    ensures { VisitsPlaced i offsets.old items.old scratch.now visits offsets.new items.new result }
{
    if 2048 < visits {
        return 1;
    }
    let line = i as u32;
    for j in 0..visits {
        let c = scratch[j] as usize;
        let at = offsets[c];
        items[at as usize] = line;
        offsets[c] = at + 1;
    }
    0
}

// Pass 2: writes the items and the global lines.
pub(crate) fn place_lines(
    mode: Mode,
    start_x: &[f64],
    start_y: &[f64],
    end_x: &[f64],
    end_y: &[f64],
    grid: Grid,
    offsets: &mut [u32],
    items: &mut [u32],
    globals: &mut [u32],
    scratch: &mut [u32],
)
    requires { let ls = lines start_x.now start_y.now end_x.now end_y.now in
        PlaceAsks mode grid ls offsets.old items.old globals.old scratch.old }
    ensures { let ls = lines start_x.now start_y.now end_x.now end_y.now in
        AllPlaced mode grid ls offsets.new items.new (length globals.old) globals.new }
{
    let mut found = 0;
    for i in 0..start_x.len() {
        let walked = walk_line(mode, start_x, start_y, end_x, end_y, i, grid, scratch);
        let more = place_visits(i, scratch, walked.cells, offsets, items);
        if 0 < more {
            globals[found] = i as u32;
            found += more;
        }
    }
}
