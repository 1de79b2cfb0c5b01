// The first test at or after a place: among the globals, and in all.
ghost use Rattle.std.specs.Prelude.{◌≡◌, List, ◌++◌, length};
ghost use Rattle.tables.specs.Tables.{tables};
ghost use Rattle.seek.specs.Inside.{stop_of};
ghost use Rattle.seek.specs.Tests.{Pair};
ghost use Rattle.visit.specs.Inside.{StopAsks, GlobalAsks};
ghost use Rattle.listed.specs.Places.{LeftAt};
ghost use Rattle.resume.specs.Cursors.{globals_from, cursor_of};
ghost use Rattle.resume.specs.Inside.{GlobalFound, SettleAsks};

use crate::Cursor;
use grid::Grid;
use listed::CellAt;

#[derive(Clone, Copy)]
pub(crate) struct GlobalAt {
    pub p: usize,
    pub q: usize,
    pub k: u32,
    pub stop: u32,
}

// The line that the next global stands at, or the number of lines where none is left to pass over.
fn stop_at(lines: u32, globals: &[u32], p: usize, q: usize) -> u32
    requires { StopAsks globals.now p q }
    ensures { result ≡ stop_of lines globals.now p q }
{
    if q <= p {
        return globals[q];
    }
    lines
}

// Among the globals, the next run of lines: it ends before the next global that is passed over.
pub(crate) fn global_at(lines: u32, globals: &[u32], p: usize, q: usize, k: u32) -> Option<GlobalAt>
    requires { GlobalAsks lines (length globals.now) globals.now p q k }
    ensures { GlobalFound lines globals.now p q k result }
{
    let mut p = p;
    let mut q = q;
    let mut k = k;
    // Past each global that k has come to, and, where no line is left for one, to the next position.
    while p < globals.len() {
        let stop = stop_at(lines, globals, p, q);
        if k < stop {
            return Some(GlobalAt { p, q, k, stop });
        }
        if q <= p {
            q = q + 1;
            k = stop + 1;
        } else {
            p = p + 1;
            q = 0;
            k = 0;
        }
    }
    None
}

// The cursor of the first test that is left, by where that of the cells stands and by a place among the globals, or the end.
pub(crate) fn cursor_at(
    lines: u32,
    grid: Grid,
    reach: usize,
    offsets: &[u32],
    items: &[u32],
    whole: &[u32],
    global_count: usize,
    globals: &[u32],
    found: Option<CellAt>,
    p: usize,
    q: usize,
    k: u32,
) -> Cursor
    requires { let t = tables grid lines offsets.now items.now whole.now global_count in SettleAsks t reach globals.now p q k }
    ensures { let t = tables grid lines offsets.now items.now whole.now global_count in
        ((rest : List Pair) → LeftAt grid.cols lines reach offsets.now items.now rest found
        → result ≡ cursor_of t (rest ++ globals_from lines globals.now p k)) }
{
    if let Some(first) = found {
        return Cursor {
            place: first.cell,
            i: first.i,
            j: first.j,
        };
    }
    if let Some(next) = global_at(lines, globals, p, q, k) {
        return Cursor {
            place: reach + next.p,
            i: 0,
            j: slices::wide(next.k),
        };
    }
    Cursor {
        place: reach + globals.len(),
        i: 0,
        j: 0,
    }
}
