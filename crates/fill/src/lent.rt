// The checks of what is lent, and what a refusal leaves of it.
ghost use Rattle.std.specs.Prelude.{◌≡◌, true};
ghost use Rattle.refusals.specs.Refusals.{and_then, left_by};
ghost use Rattle.grid.specs.Domain.{lines, fit};
ghost use Rattle.fill.specs.Checks.{on_grid_check, room_check};

use crate::passes::cell_count;
use grid::Grid;
use refusals::Refusal;

// 4: the offsets have room for the cells and one more.
fn check_room(grid: Grid, room: usize) -> Result<(), Refusal>
    requires { fit grid ≡ true }
    ensures { result ≡ room_check grid room }
{
    let asked = cell_count(grid) + 1;
    if room < asked {
        return Err(Refusal {
            number: 4,
            value: asked as u64,
        });
    }
    Ok(())
}

// 3, 2, 1, 8, then 4: before anything is written.
pub(crate) fn check(
    start_x: &[f64],
    start_y: &[f64],
    end_x: &[f64],
    end_y: &[f64],
    grid: Grid,
    scratch: usize,
    room: usize,
) -> Result<(), Refusal>
    ensures { let ls = lines start_x.now start_y.now end_x.now end_y.now in
        result ≡ and_then (on_grid_check grid ls scratch) (room_check grid room) }
{
    grid::checks::check_scratch(scratch)?;
    grid::checks::check_lines(start_x, start_y, end_x, end_y)?;
    grid::checks::check_grid(grid)?;
    check_room(grid, room)
}

// Document 01's rule: refusals 4 to 7 leave zeros in what the call is lent to write, all others change nothing.
pub(crate) fn leave(why: Refusal, s: &mut [u32])
    ensures { s.new ≡ left_by 0 why s.old }
{
    if why.number < 4 {
        return;
    }
    if 7 < why.number {
        return;
    }
    slices::clear(s);
}
