// The grid that benches agree on: the first grid of a sizing, from the bounds of all lines and their number.
ghost use Rattle.std.specs.Prelude.{◌≡◌};
ghost use Rattle.counts.specs.Agreed.{bounds_of, agreed_answer};

use grid::{Grid, Segment};
use numbers::order::{greatest, least};
use refusals::Refusal;
use sizing::{Extent, Sizing};

// The bounds, by two opposite corners in either order.
fn bounds_of(corners: Segment) -> Extent
    ensures { result ≡ bounds_of corners }
{
    let min_x = least(corners.start_x, corners.end_x);
    let min_y = least(corners.start_y, corners.end_y);
    Extent {
        min_x,
        min_y,
        width: greatest(corners.end_x, corners.start_x) - min_x,
        height: greatest(corners.end_y, corners.start_y) - min_y,
    }
}

// About one line to a cell, of however many lines, as long as the cells are at most 1,001 across and 1,001 up. No lines have the grid of a build of no lines.
pub fn agreed_grid(sizing: Sizing, corners: Segment, lines: usize) -> Result<Grid, Refusal>
    ensures { result ≡ agreed_answer sizing corners lines }
{
    grid::checks::check_segment(corners)?;
    if lines == 0 {
        return Ok(sizing::empty_grid());
    }
    let extent = bounds_of(corners);
    let size = sizing::first_size(sizing, extent, lines);
    Ok(sizing::grid_of(extent, size))
}
