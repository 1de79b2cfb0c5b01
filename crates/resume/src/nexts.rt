// Onward from a cursor, over tables as they are.
ghost use Rattle.std.specs.Prelude.{◌≡◌, cond, true, ◌-◌, min, ltb};
ghost use Rattle.slices.specs.Slices.{cleared_from};
ghost use Rattle.grid.specs.Domain.{lines};
ghost use Rattle.tables.specs.Tables.{beside};
ghost use Rattle.resume.specs.Answers.{NextIs};
ghost use Rattle.resume.specs.Inside.{ZeroAfter, RunAsks, RunIs, GoAsks, Gone};

use crate::{Cursor, Went, globals, lists, settle};
use grid::Grid;
use listed::CellAt;
use refusals::Refusal;
use slices::{least, wide};
use through::cells::check_lent;

// The position of the global where a place is beyond the cells; else the first.
fn position(place: usize, reach: usize) -> usize
    ensures { result ≡ place - reach }
{
    if place < reach {
        return 0;
    }
    place - reach
}

// The line there, or the number of lines where it is beyond.
fn line_at(lines: u32, place: usize, reach: usize, j: usize) -> u32
    ensures { result ≡ min (cond (ltb place reach) 0 j) lines }
{
    if place < reach {
        return 0;
    }
    least(j, wide(lines)) as u32
}

// Where the runs through the cells and through the globals stopped.
#[derive(Clone, Copy)]
pub(crate) struct Ran {
    pub found: Option<CellAt>,
    pub p: usize,
    pub q: usize,
    pub k: u32,
    pub tests: u64,
    pub hits: usize,
}

// From a cursor on: the cells, and then the globals.
fn run(
    cursor: Cursor,
    cols: u32,
    reach: usize,
    offsets: &[u32],
    items: &[u32],
    listed: &[u32],
    start_x: &[f64],
    start_y: &[f64],
    end_x: &[f64],
    end_y: &[f64],
    first: &mut [u32],
    second: &mut [u32],
) -> Ran
    requires { RunAsks (lines start_x.now start_y.now end_x.now end_y.now) reach listed.now first.old second.old }
    ensures { let ls = lines start_x.now start_y.now end_x.now end_y.now in
        RunIs ls cols reach offsets.now items.now listed.now cursor first.old second.old first.new second.new result }
{
    let n = start_x.len() as u32;
    let ran = through::cells::run(
        cols,
        reach,
        offsets,
        items,
        cursor.place,
        cursor.i,
        cursor.j,
        start_x,
        start_y,
        end_x,
        end_y,
        first,
        second,
    );
    let p = least(position(cursor.place, reach), listed.len());
    let k = line_at(n, cursor.place, reach, cursor.j);
    let q = globals::passed(listed, p, k);
    let last = globals::run_globals(
        listed,
        p,
        q,
        k,
        start_x,
        start_y,
        end_x,
        end_y,
        first,
        second,
        ran.overlaps,
    );
    let found = ran.at;
    Ran {
        found,
        p: last.p,
        q: last.q,
        k: last.k,
        tests: ran.tests + last.tests,
        hits: last.hits,
    }
}

// Zero beyond the pairs. Where nothing else stands beyond the entry after them, that one alone is written.
fn finish(out: &mut [u32], hits: usize, clean: bool)
    requires { clean ≡ true → ZeroAfter hits out.old }
    ensures { out.new ≡ cleared_from hits out.old }
{
    if clean {
        if hits < out.len() {
            out[hits] = 0;
            return;
        }
        return;
    }
    slices::clear_from(out, hits);
}

fn go(
    cursor: Cursor,
    start_x: &[f64],
    start_y: &[f64],
    end_x: &[f64],
    end_y: &[f64],
    grid: Grid,
    offsets: &[u32],
    items: &[u32],
    globals: &[u32],
    global_count: usize,
    first: &mut [u32],
    second: &mut [u32],
) -> Went
    requires { GoAsks (lines start_x.now start_y.now end_x.now end_y.now) first.old second.old }
    ensures { let ls = lines start_x.now start_y.now end_x.now end_y.now in
        let t = beside ls grid offsets.now items.now globals.now global_count in
        Gone ls t cursor first.old second.old first.new second.new result }
{
    let n = start_x.len() as u32;
    let reach = lists::reach(wide(grid.rows) * wide(grid.cols), offsets.len());
    let listed = lists::globals_of(start_x.len(), globals, global_count);
    let ran = run(
        cursor, grid.cols, reach, offsets, items, listed, start_x, start_y, end_x, end_y, first,
        second,
    );
    let found = ran.found;
    finish(first, ran.hits, cursor.place < reach);
    finish(second, ran.hits, cursor.place < reach);
    let after = settle::cursor_at(
        n,
        grid,
        reach,
        offsets,
        items,
        globals,
        global_count,
        listed,
        found,
        ran.p,
        ran.q,
        ran.k,
    );
    Went {
        tests: ran.tests,
        overlaps: ran.hits as u64,
        cursor: after,
    }
}

// The tests from a cursor on, until the outputs are full or the end comes: the pairs that overlap, with zero beyond them. Lines, grid and
// tables are not checked: what `start` refuses by 1, 8, 9 and 10 is gone by as it is.
pub fn next(
    cursor: Cursor,
    start_x: &[f64],
    start_y: &[f64],
    end_x: &[f64],
    end_y: &[f64],
    grid: Grid,
    offsets: &[u32],
    items: &[u32],
    globals: &[u32],
    global_count: usize,
    first: &mut [u32],
    second: &mut [u32],
) -> Result<Went, Refusal>
    ensures { let ls = lines start_x.now start_y.now end_x.now end_y.now in
        let t = beside ls grid offsets.now items.now globals.now global_count in
        NextIs ls t cursor first.old second.old first.new second.new result }
{
    check_lent(start_x, start_y, end_x, end_y, first, second)?;
    Ok(go(
        cursor,
        start_x,
        start_y,
        end_x,
        end_y,
        grid,
        offsets,
        items,
        globals,
        global_count,
        first,
        second,
    ))
}
