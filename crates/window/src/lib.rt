// The lines in a window: a query over standing tables. Nothing is lent but the output. Lines are marked in a local array: the global ones,
// and those in the lists of the block. Then the lines are gone through in order, so each comes once and they increase.
#![tactic(auto)]

mod found;
mod marks;

ghost use Rattle.std.specs.Prelude.{◌≡◌, true, ◌&&◌};
ghost use Rattle.tables.specs.Tables.{beside};
ghost use Rattle.refusals.specs.Refusals.{and_then};
ghost use Rattle.grid.specs.Domain.{lines, point, lines_check, grid_check};
ghost use Rattle.tables.specs.Fit.{tables_check};
ghost use Rattle.window.specs.Window.{in_order, window_check, lines_in, WindowIs};
ghost use Rattle.window.specs.Inside.{WindowChecked, Wrote};

use grid::{Box, Grid};
use refusals::Refusal;

fn is_window(window: Box) -> bool
    ensures { result ≡ (point window.min_x window.min_y && point window.max_x window.max_y) }
{
    grid::checks::is_point(window.min_x, window.min_y)
        & grid::checks::is_point(window.max_x, window.max_y)
}

fn check_window(window: Box) -> Result<(), Refusal>
    ensures { result ≡ window_check window }
{
    refusals::refuse_unless(is_window(window), 1, 0)
}

fn is_in_order(window: Box) -> bool
    ensures { result ≡ in_order window }
{
    (window.min_x <= window.max_x) & (window.min_y <= window.max_y)
}

// Refusals 3, 2, 1 of the lines, 1 of the window, 8 and 10, in that order. The tables' check asks 2 again, of the number of lines that
// has passed it.
fn check_all(
    start_x: &[f64],
    start_y: &[f64],
    end_x: &[f64],
    end_y: &[f64],
    grid: Grid,
    offsets: &[u32],
    items: &[u32],
    globals: &[u32],
    global_count: usize,
    window: Box,
) -> Result<(), Refusal>
    ensures { let ls = lines start_x.now start_y.now end_x.now end_y.now in
        let t = beside ls grid offsets.now items.now globals.now global_count in
        result ≡ and_then (lines_check ls) (and_then (window_check window) (and_then (grid_check grid) (tables_check t))) }
{
    grid::checks::check_lines(start_x, start_y, end_x, end_y)?;
    check_window(window)?;
    tables::check_tables(grid, start_x.len(), offsets, items, globals, global_count)
}

// Marks the global lines and those of the block, and writes those of them that overlap the window. All checks are passed, and the corners
// are in order.
fn write_found(
    start_x: &[f64],
    start_y: &[f64],
    end_x: &[f64],
    end_y: &[f64],
    grid: Grid,
    offsets: &[u32],
    items: &[u32],
    globals: &[u32],
    global_count: usize,
    window: Box,
    out: &mut [u32],
) -> usize
    requires checked { let ls = lines start_x.now start_y.now end_x.now end_y.now in
        let t = beside ls grid offsets.now items.now globals.now global_count in
        WindowChecked ls grid t }
    requires ordered { let ls = lines start_x.now start_y.now end_x.now end_y.now in
        let t = beside ls grid offsets.now items.now globals.now global_count in
        in_order window ≡ true }
    ensures { let ls = lines start_x.now start_y.now end_x.now end_y.now in
        let t = beside ls grid offsets.now items.now globals.now global_count in
        Wrote (lines_in ls grid t window) out.old result out.new }
{
    let mut marks = [0u8; 65536];
    marks::mark_list(&mut marks, &globals[..global_count]);
    marks::mark_block(
        &mut marks,
        grid,
        start_x.len(),
        offsets,
        items,
        globals,
        global_count,
        window,
    );
    found::write_lines(start_x, start_y, end_x, end_y, window, &marks, out)
}

// The lines that may enter the window: those whose boxes overlap it and which are global, or listed in a cell of the block from the cell of
// its lower corner to that of its upper corner; each once, increasing, and zero beyond them. Refuses by 3, 2, 1, 8, 10 and 5.
pub fn lines_in(
    start_x: &[f64],
    start_y: &[f64],
    end_x: &[f64],
    end_y: &[f64],
    grid: Grid,
    offsets: &[u32],
    items: &[u32],
    globals: &[u32],
    global_count: usize,
    window: Box,
    out: &mut [u32],
) -> Result<usize, Refusal>
    ensures { let ls = lines start_x.now start_y.now end_x.now end_y.now in
        let t = beside ls grid offsets.now items.now globals.now global_count in
        WindowIs ls grid t window out.old result out.new }
{
    check_all(
        start_x,
        start_y,
        end_x,
        end_y,
        grid,
        offsets,
        items,
        globals,
        global_count,
        window,
    )?;
    if !is_in_order(window) {
        slices::clear(out);
        return Ok(0);
    }
    let n = write_found(
        start_x,
        start_y,
        end_x,
        end_y,
        grid,
        offsets,
        items,
        globals,
        global_count,
        window,
        out,
    );
    if out.len() < n {
        slices::clear(out);
        return Err(Refusal {
            number: 5,
            value: n as u64,
        });
    }
    slices::clear_from(out, n);
    Ok(n)
}
