// The answers of the entries in numbers: 0 and the words of the result, or the number of a refusal and its value.
ghost use Rattle.std.specs.Prelude.{◌≤◌, [], ◌∷◌, length};
ghost use Rattle.replies.specs.Replies.{success, Replies};
ghost use Rattle.capi_counts.specs.Answers.{of_grid, of_counted, of_tabled, of_grid_answer};

use counts::{Counted, Tabled};
use grid::Grid;
use numbers::bits::to_bits;
use refusals::Refusal;

// Two numbers.
fn two(a: usize, b: usize, out: &mut [u64]) -> u32
    requires { 2 ≤ length out.old }
    ensures { Replies 2 (success (a ∷ b ∷ [])) out.old result out.new }
{
    out[0] = a as u64;
    out[1] = b as u64;
    0
}

// A grid: the bits of min_x, min_y, cell_width and cell_height, cols, rows.
fn gridded(grid: Grid, out: &mut [u64]) -> u32
    requires { 6 ≤ length out.old }
    ensures { Replies 6 (of_grid grid) out.old result out.new }
{
    out[0] = to_bits(grid.min_x);
    out[1] = to_bits(grid.min_y);
    out[2] = to_bits(grid.cell_width);
    out[3] = to_bits(grid.cell_height);
    out[4] = grid.cols as u64;
    out[5] = grid.rows as u64;
    0
}

pub(crate) fn counted(answer: Result<Counted, Refusal>, out: &mut [u64]) -> u32
    requires { 2 ≤ length out.old }
    ensures { Replies 2 (of_counted answer) out.old result out.new }
{
    match answer {
        Ok(Counted { listed, globals }) => two(listed, globals, out),
        Err(r) => replies::checked(Err(r), out),
    }
}

pub(crate) fn tabled(answer: Result<Tabled, Refusal>, out: &mut [u64]) -> u32
    requires { 2 ≤ length out.old }
    ensures { Replies 2 (of_tabled answer) out.old result out.new }
{
    match answer {
        Ok(Tabled { items, globals }) => two(items, globals, out),
        Err(r) => replies::checked(Err(r), out),
    }
}

pub(crate) fn agreed(answer: Result<Grid, Refusal>, out: &mut [u64]) -> u32
    requires { 6 ≤ length out.old }
    ensures { Replies 6 (of_grid_answer answer) out.old result out.new }
{
    match answer {
        Ok(grid) => gridded(grid, out),
        Err(r) => replies::checked(Err(r), out),
    }
}
