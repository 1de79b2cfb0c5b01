// One axis of a line and of a walk's state, and one turn of the walk.
// Tests are branches here, which is faster than one expression: a turn's mostly end at the first.
ghost use Rattle.std.specs.Prelude.{◌≡◌, true, false};
ghost use Rattle.std.specs.Float.{inf, binary64};
ghost use Rattle.std.specs.Float.Ieee.{sub};
ghost use Rattle.turns.specs.Turns.{finite_of, delta_of, next_on, first_on, tolerance_of, near_of, further_of, goes_of};
ghost use Rattle.turns.specs.InsideModular.{step_by, course_by, position_by, way_by, start_by, arrived_by, turn_by, stepped_by, advanced_by, moved_by};
ghost use Rattle.turns.specs.Inside.{plainly};

use crate::{Course, Position, Turn, Walk, Way};
use grid::{Axis, Grid, Segment};
use numbers::order::{greatest, least, magnitude};

fn infinity() -> f64
    ensures { result ≡ inf false }
{
    1.0 / 0.0
}

fn is_finite(v: f64) -> bool
    ensures { result ≡ finite_of v }
{
    let top = infinity();
    if v < top {
        return -top < v;
    }
    false
}

// One in the sign of d, modulo 2^32.
fn step_of(d: f64) -> u32
    ensures { result ≡ step_by d }
{
    if 0.0 < d {
        return 1;
    }
    if d < 0.0 {
        return 4294967295;
    }
    0
}

fn delta_of(size: f64, d: f64) -> f64
    ensures { result ≡ delta_of size d }
{
    if d == 0.0 {
        return infinity();
    }
    size / magnitude(d)
}

fn next_boundary(axis: Axis, start: f64, d: f64) -> f64
    ensures { result ≡ next_on axis start d }
{
    let i = axis.index(start);
    if 0.0 < d {
        return axis.low_edge(i + 1);
    }
    axis.low_edge(i)
}

fn first_of(axis: Axis, start: f64, d: f64) -> f64
    ensures { result ≡ first_on axis start d }
{
    if d == 0.0 {
        return infinity();
    }
    greatest((next_boundary(axis, start, d) - start) / d, 0.0)
}

fn course(axis: Axis, start: f64, end: f64) -> Course
    ensures { result ≡ course_by axis start end }
{
    let d = end - start;
    Course {
        step: step_of(d),
        t_delta: delta_of(axis.size, d),
        end: axis.index(end),
    }
}

fn position(axis: Axis, start: f64, end: f64) -> Position
    ensures { result ≡ position_by axis start end }
{
    Position {
        index: axis.index(start),
        t_max: first_of(axis, start, end - start),
    }
}

pub(crate) fn way_of(grid: Grid, line: Segment) -> Way
    ensures { result ≡ way_by grid line }
{
    Way {
        x: course(grid.x_axis(), line.start_x, line.end_x),
        y: course(grid.y_axis(), line.start_y, line.end_y),
    }
}

pub(crate) fn started(grid: Grid, line: Segment) -> Walk
    ensures { result ≡ start_by grid line }
{
    Walk {
        x: position(grid.x_axis(), line.start_x, line.end_x),
        y: position(grid.y_axis(), line.start_y, line.end_y),
    }
}

// 8 times 2^-52 times the largest of |tx|, |ty| and 1. The constant is exact, and the order in which the largest is sought makes no difference.
fn tolerance(tx: f64, ty: f64) -> f64
    ensures { result ≡ tolerance_of tx ty }
{
    1.7763568394002505e-15 * greatest(greatest(1.0, magnitude(tx)), magnitude(ty))
}

// The difference is tested first: it is seldom small.
fn near(tx: f64, ty: f64, tol: f64) -> bool
    ensures { result ≡ near_of tx ty tol }
{
    if magnitude(tx - ty) <= tol {
        if is_finite(tx) {
            return is_finite(ty);
        }
        return false;
    }
    false
}

// The turn of any two.
fn weighed(tx: f64, ty: f64) -> Turn
    ensures { result ≡ further_of tx ty }
{
    let tol = tolerance(tx, ty);
    if 1.0 + tol < least(tx, ty) {
        return Turn { x: false, y: false };
    }
    if near(tx, ty, tol) {
        return Turn { x: true, y: true };
    }
    let x = tx < ty;
    Turn { x: x, y: !x }
}

// Whether the lesser t_max is above 0 and at most 1 + tolerance, and the two differ, by `gap`, by more than the tolerance, which goes by the greater then;
// or the greater is infinite, as along an axis.
fn is_plain(near: f64, far: f64, gap: f64) -> bool
    ensures { result ≡ plainly near far gap }
{
    if 0.0 < near {
        let tol = 1.7763568394002505e-15 * greatest(1.0, far);
        if tol < gap {
            return near <= 1.0 + tol;
        }
        return far == infinity();
    }
    false
}

// Nearly every turn is plain, and then less is asked.
fn further(tx: f64, ty: f64) -> Turn
    ensures { result ≡ further_of tx ty }
{
    if tx < ty {
        if is_plain(tx, ty, magnitude(tx - ty)) {
            return Turn { x: true, y: false };
        }
        return weighed(tx, ty);
    }
    if ty < tx {
        if is_plain(ty, tx, magnitude(tx - ty)) {
            return Turn { x: false, y: true };
        }
        return weighed(tx, ty);
    }
    weighed(tx, ty)
}

impl Turn {
    pub(crate) fn goes(self) -> bool
        ensures { result ≡ goes_of self }
    {
        if self.x {
            return true;
        }
        self.y
    }
}

impl Position {
    pub(crate) fn stepped(self, course: Course) -> u32
        ensures { result ≡ stepped_by course self }
    {
        std::num::wrapping_add_u32(self.index, course.step)
    }

    // A move on the axis.
    fn moved(self, course: Course) -> Position
        ensures { result ≡ advanced_by true course self }
    {
        Position {
            index: self.stepped(course),
            t_max: self.t_max + course.t_delta,
        }
    }
}

impl Walk {
    fn arrived(self, way: Way) -> bool
        ensures { result ≡ arrived_by way self }
    {
        if self.x.index == way.x.end {
            return self.y.index == way.y.end;
        }
        false
    }

    // Which move comes next.
    pub(crate) fn turn(self, way: Way) -> Turn
        ensures { result ≡ turn_by way self }
    {
        if self.arrived(way) {
            return Turn { x: false, y: false };
        }
        further(self.x.t_max, self.y.t_max)
    }

    // The state after the turn k. A branch for each way: choosing values without one is slower.
    pub(crate) fn moved(self, k: Turn, way: Way) -> Walk
        ensures { result ≡ moved_by k way self }
    {
        let x = self.x;
        let y = self.y;
        if k.x {
            if k.y {
                return Walk {
                    x: x.moved(way.x),
                    y: y.moved(way.y),
                };
            }
            return Walk {
                x: x.moved(way.x),
                y: y,
            };
        }
        if k.y {
            return Walk {
                x: x,
                y: y.moved(way.y),
            };
        }
        self
    }
}
