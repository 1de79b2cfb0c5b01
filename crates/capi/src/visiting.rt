// Visits of standing tables: lists by their place, one test by its bookmark, and a batch of tests.
ghost use Rattle.std.specs.Prelude.{◌≡◌, suc, ◌+◌, ◌*◌, length, get_or};
ghost use Rattle.grid.specs.Domain.{lines};
ghost use Rattle.tables.specs.Tables.{tables, beside};
ghost use Rattle.seek.specs.Places.{list_check, list_at};
ghost use Rattle.visit.specs.Entries.{test_at};
ghost use Rattle.grid.specs.Words.{grid_by};
ghost use Rattle.replies.specs.Replies.{Replies};
ghost use Rattle.replies.specs.Answers.{of_part, of_test};
ghost use Rattle.capi.specs.Few.{unless_few};
ghost use Rattle.capi.specs.Lent.{BatchReplies};

use crate::FEW;
use grid::Grid;
use grid::words::{WORDS, grid_by};
use replies::SHORT;
use seek::Place;

// ---- lists by their place

// The number of a cell, in row order.
fn cell_number(row: u32, cols: u32, col: u32) -> usize
    ensures { result ≡ row * cols + col }
{
    row as usize * cols as usize + col as usize
}

// What stands at an index, and 0 beyond the end.
fn entry(s: &[u32], at: usize) -> u64
    ensures { result ≡ get_or s.now at 0 }
{
    if at < s.len() {
        return s[at] as u64;
    }
    0
}

// A list that has lines is told by where it starts and by its length. An empty one is refused or not: a second call says which.
fn listed<'a>(
    lines: usize,
    grid: Grid,
    offsets: &[u32],
    items: &'a [u32],
    globals: &'a [u32],
    global_count: usize,
    place: Place,
    from: u64,
    out: &mut [u64],
) -> u32
    ensures { let t = tables grid lines offsets.now items.now globals.now global_count in
        Replies 2 (of_part (list_check grid t place) from (from + length (list_at t place))) out.old result out.new }
{
    let list = seek::lists::list_at(lines, grid, offsets, items, globals, global_count, place);
    let len = list.len() as u64;
    if 0 < len {
        return replies::part(Ok(()), from, len, out);
    }
    replies::part(
        seek::lists::list_check(lines, grid, offsets, items, globals, global_count, place),
        from,
        len,
        out,
    )
}

// The list of a cell is a part of the items. Out: where it starts, and its length.
#[unsafe(no_mangle)]
pub extern "C" fn mt_cell_list<'a>(
    grid: &[u64],
    lines: usize,
    offsets: &[u32],
    items: &'a [u32],
    globals: &'a [u32],
    global_count: u64,
    row: u32,
    col: u32,
    out: &mut [u64],
) -> u32
    ensures { let w = grid.now in
        let g = grid_by w in
        let o = offsets.now in
        let t = tables g lines o items.now globals.now global_count in
        let cell = row * g.cols + col in
        Replies 2 (unless_few w (of_part (list_check g t (Place.Cell row col)) (get_or o cell 0) (get_or o (suc cell) 0))) out.old result out.new }
{
    if out.len() < 2 {
        return SHORT;
    }
    if grid.len() < WORDS {
        return FEW;
    }
    let by_words = grid_by(grid);
    let from = entry(offsets, cell_number(row, by_words.cols, col));
    listed(
        lines,
        by_words,
        offsets,
        items,
        globals,
        global_count as usize,
        Place::Cell { row, col },
        from,
        out,
    )
}

// The list of a global line, by its position, is a part of the globals. Out: where it starts, and its length.
#[unsafe(no_mangle)]
pub extern "C" fn mt_global_list<'a>(
    grid: &[u64],
    lines: usize,
    offsets: &[u32],
    items: &'a [u32],
    globals: &'a [u32],
    global_count: u64,
    position: u64,
    out: &mut [u64],
) -> u32
    ensures { let w = grid.now in
        let g = grid_by w in
        let t = tables g lines offsets.now items.now globals.now global_count in
        Replies 2 (unless_few w (of_part (list_check g t (Place.Global position)) position global_count)) out.old result out.new }
{
    if out.len() < 2 {
        return SHORT;
    }
    if grid.len() < WORDS {
        return FEW;
    }
    listed(
        lines,
        grid_by(grid),
        offsets,
        items,
        globals,
        global_count as usize,
        Place::Global(position as usize),
        position,
        out,
    )
}

// ---- one test by its bookmark

// Out: 0 for a cell, 1 for a global line, 2 for the end mark; row or position; column; first; second; 1 where the boxes overlap.
#[unsafe(no_mangle)]
pub extern "C" fn mt_test_at(
    grid: &[u64],
    start_x: &[f64],
    start_y: &[f64],
    end_x: &[f64],
    end_y: &[f64],
    offsets: &[u32],
    items: &[u32],
    globals: &[u32],
    global_count: u64,
    bookmark: u64,
    out: &mut [u64],
) -> u32
    ensures { let ls = lines start_x.now start_y.now end_x.now end_y.now in
        let w = grid.now in
        let g = grid_by w in
        let t = beside ls g offsets.now items.now globals.now global_count in
        Replies 6 (unless_few w (of_test (test_at ls g t bookmark))) out.old result out.new }
{
    if out.len() < 6 {
        return SHORT;
    }
    if grid.len() < WORDS {
        return FEW;
    }
    replies::test(
        visit::visits::test_at(
            start_x,
            start_y,
            end_x,
            end_y,
            grid_by(grid),
            offsets,
            items,
            globals,
            global_count as usize,
            bookmark,
        ),
        out,
    )
}

// ---- a batch of tests

// Out: the tests made, the overlaps, the new bookmark. The pairs that overlap stand in first and second, and zero beyond them.
#[unsafe(no_mangle)]
pub extern "C" fn mt_batch(
    grid: &[u64],
    start_x: &[f64],
    start_y: &[f64],
    end_x: &[f64],
    end_y: &[f64],
    offsets: &[u32],
    items: &[u32],
    globals: &[u32],
    global_count: u64,
    bookmark: u64,
    first: &mut [u32],
    second: &mut [u32],
    out: &mut [u64],
) -> u32
    ensures { let ls = lines start_x.now start_y.now end_x.now end_y.now in
        let w = grid.now in
        let g = grid_by w in
        let t = beside ls g offsets.now items.now globals.now global_count in
        BatchReplies w ls g t bookmark first.old second.old out.old result first.new second.new out.new }
{
    if out.len() < 3 {
        return SHORT;
    }
    if grid.len() < WORDS {
        return FEW;
    }
    replies::batch(
        visit::visits::batch(
            start_x,
            start_y,
            end_x,
            end_y,
            grid_by(grid),
            offsets,
            items,
            globals,
            global_count as usize,
            bookmark,
            first,
            second,
        ),
        out,
    )
}
