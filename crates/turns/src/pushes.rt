// What the turns of a walk push into the scratch.
ghost use Rattle.std.specs.Prelude.{◌≡◌, ◌+◌, ◌*◌, ◌<◌, ◌≤◌, true, length, take};
ghost use Rattle.cover.specs.Inside.{Appended};
ghost use Rattle.turns.specs.Pushes.{before};
ghost use Rattle.turns.specs.InsideModular.{moved_by, push_by, sides_by, pushed_by, turns_by, trodden_by};
ghost use Rattle.turns.specs.Trails.{last_is, unless_there};
ghost use Rattle.turns.specs.Inside.{RanTo, Runs};

use crate::{Next, Turn, Walk, Way};

// Pushes the cell, where it is inside the grid.
fn put(s: &mut [u32], n: usize, cols: u32, rows: u32, col: u32, row: u32) -> usize
    requires room { n < length s.old }
    requires few_cells { rows * cols ≤ 1002001 }
    ensures { Appended s.old s.new n result (push_by cols rows col row) }
{
    if col < cols {
        if row < rows {
            s[n] = row * cols + col;
            return n + 1;
        }
        return n;
    }
    n
}

// Whether the last of the first n is c.
fn last_is(s: &[u32], n: usize, c: u32) -> bool
    requires { n ≤ length s.now }
    ensures { result ≡ last_is n s.now c }
{
    if n == 0 {
        return false;
    }
    s[n - 1] == c
}

// Pushes the cell, where it is inside the grid and not the last pushed. A walk mostly ends in its end cell, which is thus pushed once.
fn put_other(s: &mut [u32], n: usize, cols: u32, rows: u32, col: u32, row: u32) -> usize
    requires room { n < length s.old }
    requires few_cells { rows * cols ≤ 1002001 }
    ensures { Appended s.old s.new n result (unless_there (take n s.old) (push_by cols rows col row)) }
{
    if col < cols {
        if row < rows {
            let c = row * cols + col;
            if last_is(s, n, c) {
                return n;
            }
            s[n] = c;
            return n + 1;
        }
        return n;
    }
    n
}

// Pushes the side cells of a turn both ways.
fn sides(s: &mut [u32], n: usize, cols: u32, rows: u32, way: Way, w: Walk) -> usize
    requires room { n + 2 ≤ length s.old }
    requires few_cells { rows * cols ≤ 1002001 }
    ensures { Appended s.old s.new n result (sides_by true cols rows way w) }
{
    let a = put(s, n, cols, rows, w.x.stepped(way.x), w.y.index);
    put(s, a, cols, rows, w.x.index, w.y.stepped(way.y))
}

// Pushes the cell of a state that a turn comes to.
fn arrive(s: &mut [u32], n: usize, cols: u32, rows: u32, w: Walk) -> Next
    requires { (n < length s.old) × (rows * cols ≤ 1002001) }
    ensures { (result.at ≡ w) × Appended s.old s.new n result.count (push_by cols rows w.x.index w.y.index) }
{
    let m = put(s, n, cols, rows, w.x.index, w.y.index);
    Next { at: w, count: m }
}

// One turn. Each way has a branch of its own, to the push: which way comes next is guessed well, and asking for it once more is slower.
fn stride(s: &mut [u32], n: usize, cols: u32, rows: u32, way: Way, w: Walk, k: Turn) -> Next
    requires room { n + 3 ≤ length s.old }
    requires few_cells { rows * cols ≤ 1002001 }
    ensures { (result.at ≡ moved_by k way w) × Appended s.old s.new n result.count (pushed_by k cols rows way w) }
{
    if k.x {
        if k.y {
            let a = sides(s, n, cols, rows, way, w);
            return arrive(s, a, cols, rows, w.moved(k, way));
        }
        return arrive(s, n, cols, rows, w.moved(k, way));
    }
    arrive(s, n, cols, rows, w.moved(k, way))
}

// The turns from a state on, 5,000 of them allowed: up to a stop, with so many pushed, or with no turn left.
fn run(s: &mut [u32], n: usize, cols: u32, rows: u32, way: Way, start: Walk) -> Option<usize>
    requires room { n + 15000 ≤ length s.old }
    requires few_cells { rows * cols ≤ 1002001 }
    ensures { Runs (before (take n s.old) (turns_by 5000 cols rows way start)) n result s.new }
{
    let mut w = start;
    let mut m = n;
    let mut left: usize = 5000;
    loop {
        let k = w.turn(way);
        if !k.goes() {
            return Some(m);
        }
        if left == 0 {
            return None;
        }
        left -= 1;
        let next = stride(s, m, cols, rows, way, w, k);
        w = next.at;
        m = next.count;
    }
}

// The start cell, the turns, the end cell.
pub(crate) fn walked(s: &mut [u32], cols: u32, rows: u32, way: Way, start: Walk) -> Option<usize>
    requires room { 16384 ≤ length s.old }
    requires few_cells { rows * cols ≤ 1002001 }
    ensures { RanTo (trodden_by cols rows way start) result s.new }
{
    let n = put(s, 0, cols, rows, start.x.index, start.y.index);
    let m = run(s, n, cols, rows, way, start)?;
    Some(put_other(s, m, cols, rows, way.x.end, way.y.end))
}
