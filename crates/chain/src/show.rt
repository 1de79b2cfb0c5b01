// The report of standing tables.
ghost use Rattle.std.specs.Prelude.{◌≡◌, ◌/◌, ◌%◌};
ghost use Rattle.tables.specs.Tables.{tables, cells};
ghost use Rattle.report.specs.Pages.{page, Puts};
ghost use Rattle.report.specs.Lines.{cell_line};
ghost use Rattle.chain.specs.Printed.{cell_lines, report_of};
ghost use Rattle.chain.specs.Inside.{ShowCellAsks, ShowAsks};
ghost use Rattle.tables.specs.Tables.{list_of};

use grid::Grid;
use numbers::bits::to_bits;
use slices::wide;

// The line of one cell.
fn put_cell(
    grid: Grid,
    lines: usize,
    offsets: &[u32],
    items: &[u32],
    globals: &[u32],
    global_count: usize,
    cell: u32,
    out: &mut [u8],
    at: usize,
) -> usize
    requires { ShowCellAsks (tables grid lines offsets.now items.now globals.now global_count) cell }
    ensures { let t = tables grid lines offsets.now items.now globals.now global_count in
        Puts (cell_line (cell / grid.cols) (cell % grid.cols) (list_of t cell)) (page out.old at) (page out.new result) }
{
    let list = tables::list_of(offsets, items, wide(cell));
    report::cell_line(cell / grid.cols, cell % grid.cols, list, out, at)
}

// A line for each nonempty cell.
fn put_cells(
    grid: Grid,
    lines: usize,
    offsets: &[u32],
    items: &[u32],
    globals: &[u32],
    global_count: usize,
    out: &mut [u8],
    at: usize,
) -> usize
    requires { ShowAsks (tables grid lines offsets.now items.now globals.now global_count) }
    ensures { let t = tables grid lines offsets.now items.now globals.now global_count in
        Puts (cell_lines t (cells t)) (page out.old at) (page out.new result) }
{
    let cells = grid.rows * grid.cols;
    let mut at = at;
    for cell in 0..cells {
        at = put_cell(
            grid,
            lines,
            offsets,
            items,
            globals,
            global_count,
            cell,
            out,
            at,
        );
    }
    at
}

// The grid, the cells, the globals, the visit.
pub(crate) fn put_report(
    grid: Grid,
    lines: usize,
    offsets: &[u32],
    items: &[u32],
    globals: &[u32],
    global_count: usize,
    item_count: usize,
    tests: u64,
    overlaps: u64,
    out: &mut [u8],
    at: usize,
) -> usize
    requires { ShowAsks (tables grid lines offsets.now items.now globals.now global_count) }
    ensures { let t = tables grid lines offsets.now items.now globals.now global_count in
        Puts (report_of grid t item_count tests overlaps) (page out.old at) (page out.new result) }
{
    let at = report::grid_line(
        grid.cols,
        grid.rows,
        to_bits(grid.cell_width),
        to_bits(grid.cell_height),
        item_count,
        global_count,
        out,
        at,
    );
    let at = put_cells(grid, lines, offsets, items, globals, global_count, out, at);
    let at = report::global_line(&globals[..global_count], out, at);
    report::visit_line(tests, overlaps, out, at)
}
