// One axis of ownership.
ghost use Rattle.std.specs.Prelude.{◌≡◌, ◌<◌, ◌≤◌, true, Some};
ghost use Rattle.own.specs.Own.{owns_on, holds_on};
ghost use Rattle.own.specs.Owner.{Searchable, first_owning};
ghost use Rattle.own.specs.Inside.{HalvedRange};

use grid::Axis;

// The indexes from `low` to `high`.
#[derive(Clone, Copy)]
struct Stretch {
    low: u32,
    high: u32,
}

// Tests here are branches: as one expression they take a tenth to two fifths longer.
// Of a point: the high edge of the last index counts too.
pub(crate) fn owns(axis: Axis, i: u32, p: f64) -> bool
    ensures { result ≡ owns_on axis i p }
{
    if axis.low_edge(i) <= p {
        let high = axis.high_edge(i);
        if p < high {
            return true;
        }
        if i as u64 + 1 == axis.count as u64 {
            return p == high;
        }
        return false;
    }
    false
}

// Of a collinear overlap: no high edge counts.
pub(crate) fn holds(axis: Axis, i: u32, p: f64) -> bool
    ensures { result ≡ holds_on axis i p }
{
    if axis.low_edge(i) <= p {
        return p < axis.high_edge(i);
    }
    false
}

// A guess at the index of p, from how many cells p lies above the low end of its axis, cut to a whole number; the count, where that is
// beyond the end. Any guess will do.
pub(crate) fn guessed(cells: f64, count: u32) -> u32
    ensures { result ≤ count }
{
    if cells > 0.0 {
        if cells < 18446744073709551616.0 {
            let cut = std::num::truncating_f64_to_u64(cells);
            if cut < count as u64 {
                return cut as u32;
            }
            return count;
        }
    }
    0
}

// Whether a guess is seen to be the first index that owns p: it owns p, and p has reached the high edge before it. Mostly it is, and then
// nothing else is asked.
pub(crate) fn settled(axis: Axis, p: f64, guess: u32) -> bool
    requires { Searchable axis p }
    ensures { result ≡ true → Some guess ≡ first_owning axis p }
{
    if guess == 0 {
        return false;
    }
    if axis.count <= guess {
        return false;
    }
    if p < axis.high_edge(guess - 1) {
        return false;
    }
    owns(axis, guess, p)
}

// What the high edge of an index leaves of the indexes among which the search goes on.
fn narrowed(axis: Axis, p: f64, left: Stretch, at: u32) -> Stretch
    requires searchable { Searchable axis p }
    requires halved { HalvedRange axis p left.low left.high }
    ensures { HalvedRange axis p result.low result.high }
{
    if left.low <= at {
        if at < left.high {
            if p < axis.high_edge(at) {
                return Stretch {
                    low: left.low,
                    high: at,
                };
            }
            return Stretch {
                low: at + 1,
                high: left.high,
            };
        }
    }
    left
}

fn two_before(i: u32) -> u32
    ensures { result ≤ i }
{
    if i < 2 {
        return 0;
    }
    i - 2
}

// The indexes among which the search goes on: one alone, where the guess is right or one beside it is.
fn about(axis: Axis, p: f64, guess: u32) -> Stretch
    requires searchable { Searchable axis p }
    requires some_cells { 0 < axis.count }
    requires guess_within { guess ≤ axis.count }
    ensures { HalvedRange axis p result.low result.high }
{
    let whole = Stretch {
        low: 0,
        high: axis.count - 1,
    };
    let from = two_before(guess);
    let there = narrowed(axis, p, whole, from + 2);
    let before = narrowed(axis, p, there, from + 1);
    let further = narrowed(axis, p, before, from);
    narrowed(axis, p, further, from + 3)
}

// The first index that owns p, sought about a guess. The edges keep their order along the axis, so the first index with p below its high
// edge, or else the last, is found by halving; if that index does not own p, none does.
fn searched(axis: Axis, p: f64, guess: u32) -> Option<u32>
    requires searchable { Searchable axis p }
    requires some_cells { 0 < axis.count }
    requires guess_within { guess ≤ axis.count }
    ensures { result ≡ first_owning axis p }
{
    let stretch = about(axis, p, guess);
    let mut low = stretch.low;
    let mut high = stretch.high;
    while low < high {
        let mid = low + (high - low) / 2;
        if p < axis.high_edge(mid) {
            high = mid;
        } else {
            low = mid + 1;
        }
    }
    if owns(axis, low, p) {
        return Some(low);
    }
    None
}

// The first index that owns p, by a guess that a division gives, or else by the search about it.
pub(crate) fn first(axis: Axis, p: f64) -> Option<u32>
    requires { Searchable axis p }
    ensures { result ≡ first_owning axis p }
{
    if axis.count == 0 {
        return None;
    }
    let guess = guessed(axis.scaled(p), axis.count);
    if settled(axis, p, guess) {
        return Some(guess);
    }
    searched(axis, p, guess)
}
