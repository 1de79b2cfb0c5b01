// Which grid a build settles on: that of the first size of its plan, halved at most twice while some cell is crowded.
ghost use Rattle.std.specs.Prelude.{◌≡◌, length};
ghost use Rattle.grid.specs.Domain.{lines, count};
ghost use Rattle.build.specs.Build.{end_of, BuildIs};
ghost use Rattle.build.specs.Inside.{most_on, attempt_by, AttemptAsks, AttemptIs};

use crate::{Plan, Standing};
use fill::Filled;
use grid::Grid;
use refusals::Refusal;
use sizing::{Extent, Size};
use walk::Mode;

// The most lines that a cell may list before the size is halved: 500, while halvings are left and four times the cells are below 1,000,000; and else
// all that there can be.
fn most_on(grid: Grid, left: u32) -> u32
    ensures { result ≡ most_on grid left }
{
    if left == 0 {
        return 65536;
    }
    let cells = (grid.rows as u64) * (grid.cols as u64);
    if cells < 250000 {
        return 500;
    }
    65536
}

// What the answer of `fill` on a grid leads to: the end of the build, or, where some cell is crowded, none yet.
fn lead(grid: Grid, filled: Result<Filled, Refusal>) -> Option<Result<Standing, Refusal>>
    ensures { result ≡ attempt_by grid filled }
{
    match filled {
        Ok(Filled::Tables { items, globals }) => Some(Ok(Standing {
            grid,
            items,
            globals,
        })),
        Ok(Filled::Crowded) => None,
        Err(r) => Some(Err(r)),
    }
}

// One size tried, with so many halvings left: the end of the build, or none, and the size is halved.
fn attempt_size(
    mode: Mode,
    start_x: &[f64],
    start_y: &[f64],
    end_x: &[f64],
    end_y: &[f64],
    extent: Extent,
    size: Size,
    left: u32,
    offsets: &mut [u32],
    items: &mut [u32],
    globals: &mut [u32],
    scratch: &mut [u32],
) -> Option<Result<Standing, Refusal>>
    requires { let ls = lines start_x.now start_y.now end_x.now end_y.now in
        AttemptAsks ls extent size scratch.old }
    ensures { let ls = lines start_x.now start_y.now end_x.now end_y.now in
        let o = offsets.old in
        let t = items.old in
        let gs = globals.old in
        let s = scratch.old in
        AttemptIs mode left extent size ls o t gs s offsets.new items.new globals.new scratch.new result }
{
    let grid = sizing::grid_of(extent, size);
    let most = most_on(grid, left);
    let filled = fill::fill_on(
        mode, start_x, start_y, end_x, end_y, grid, most, offsets, items, globals, scratch,
    );
    lead(grid, filled)
}

// The build of some lines: from the first size on, halved at most twice.
pub(crate) fn build_some(
    start_x: &[f64],
    start_y: &[f64],
    end_x: &[f64],
    end_y: &[f64],
    plan: Plan,
    offsets: &mut [u32],
    items: &mut [u32],
    globals: &mut [u32],
    scratch: &mut [u32],
) -> Result<Standing, Refusal>
    requires { let ls = lines start_x.now start_y.now end_x.now end_y.now in
        (count ls ≡ 0 → ⊥) }
    ensures { let ls = lines start_x.now start_y.now end_x.now end_y.now in
        let o = offsets.old in
        let t = items.old in
        let gs = globals.old in
        let s = scratch.old in
        let e = end_of plan ls (length o) (length t) (length gs) (length s) in
        BuildIs plan.mode ls o t gs s result offsets.new items.new globals.new scratch.new e }
{
    let extent = sizing::serial_bounds(start_x, start_y, end_x, end_y);
    let sizing = plan.sizing;
    let mode = plan.mode;
    let mut size = sizing::first_size(sizing, extent, start_x.len());
    let mut left = 2u32;
    loop {
        let tried = attempt_size(
            mode, start_x, start_y, end_x, end_y, extent, size, left, offsets, items, globals,
            scratch,
        );
        if let Some(built) = tried {
            return built;
        }
        size = sizing::half_of(size);
        left -= 1;
    }
}

// The build of no lines. Only the checks and the room for its one offset can fail: no cell is crowded where there are none.
pub(crate) fn build_none(
    start_x: &[f64],
    start_y: &[f64],
    end_x: &[f64],
    end_y: &[f64],
    plan: Plan,
    offsets: &mut [u32],
    items: &mut [u32],
    globals: &mut [u32],
    scratch: &mut [u32],
) -> Result<Standing, Refusal>
    requires { let ls = lines start_x.now start_y.now end_x.now end_y.now in
        count ls ≡ 0 }
    ensures { let ls = lines start_x.now start_y.now end_x.now end_y.now in
        let o = offsets.old in
        let t = items.old in
        let gs = globals.old in
        let s = scratch.old in
        let e = end_of plan ls (length o) (length t) (length gs) (length s) in
        BuildIs plan.mode ls o t gs s result offsets.new items.new globals.new scratch.new e }
{
    // no line is walked, so any mode would do
    let any = plan.mode;
    let grid = sizing::empty_grid();
    let filled = fill::fill_on(
        any, start_x, start_y, end_x, end_y, grid, 65536, offsets, items, globals, scratch,
    );
    let tried = lead(grid, filled);
    match tried {
        Some(built) => built,
        None => Err(Refusal {
            number: 8,
            value: 0,
        }),
    }
}
