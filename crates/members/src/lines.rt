// The lines of members, in the four coordinate slices that a build is lent.
ghost use Rattle.std.specs.Prelude.{◌≡◌, true, map, ◌+◌, ◌-◌, ◌≤◌, length, take, drop, Ok};
ghost use Rattle.std.specs.Float.{binary64};
ghost use Rattle.std.specs.Float.Ieee.{of_bits};
ghost use Rattle.grid.specs.Domain.{lines, count, lengths_check};
ghost use Rattle.wkb.specs.Inside.{PutIn};
ghost use Rattle.members.specs.Held.{all_lengths, sum_of, held_check};
ghost use Rattle.members.specs.Writing.{fit_check};
ghost use Rattle.members.specs.Inside.{ends_at, floats_at, zero_lines, lines_put};
ghost use Rattle.members.specs.Lining.{LinedAs};

use crate::{check_fit, check_held};
use refusals::Refusal;

// The floats of n patterns, from the place `at` on, go to s from `to` on.
fn put_floats(from: &[u64], at: usize, n: usize, s: &mut [f64], to: usize)
    requires { (at + n ≤ length from.now) × (to + n ≤ length s.old) }
    ensures { PutIn to (map (of_bits binary64) (take n (drop at from.now))) s.old s.new }
{
    for i in 0..n {
        s[to + i] = numbers::bits::from_bits(from[at + i]);
    }
}

// One coordinate of one end of each line: `skip` is 0 for the starts, which are all points of a member but its last, and 1 for the ends, which are
// all but its first. Zero beyond.
fn put_ends(from: &[u64], lengths: &[u32], skip: usize, s: &mut [f64])
    requires { (skip ≤ 1) × (all_lengths lengths.now ≡ true) × (sum_of lengths.now ≡ length from.now) × (length (ends_at skip lengths.now from.now) ≤ length s.old) }
    ensures { s.new ≡ floats_at skip lengths.now from.now s.old }
{
    let mut at = 0;
    let mut to = 0;
    for &length in lengths {
        let n = slices::wide(length);
        put_floats(from, at + skip, n - 1, s, to);
        at = at + n;
        to = to + (n - 1);
    }
    wkb::zero_from(s, to);
}

// Zero in all four slices.
fn clear_lines(start_x: &mut [f64], start_y: &mut [f64], end_x: &mut [f64], end_y: &mut [f64])
    ensures { let ls = lines start_x.old start_y.old end_x.old end_y.old in
        lines start_x.new start_y.new end_x.new end_y.new ≡ zero_lines ls }
{
    wkb::zero_from(start_x, 0);
    wkb::zero_from(start_y, 0);
    wkb::zero_from(end_x, 0);
    wkb::zero_from(end_y, 0);
}

// The lines of all members. Zero beyond.
fn put_lines(
    x: &[u64],
    y: &[u64],
    lengths: &[u32],
    start_x: &mut [f64],
    start_y: &mut [f64],
    end_x: &mut [f64],
    end_y: &mut [f64],
)
    requires { let ls = lines start_x.old start_y.old end_x.old end_y.old in
        (held_check (length x.now) (length y.now) lengths.now ≡ (Ok tt)) × (lengths_check ls ≡ (Ok tt)) × (fit_check (count ls) (length x.now - length lengths.now) ≡ (Ok tt)) }
    ensures { let ls = lines start_x.old start_y.old end_x.old end_y.old in
        lines start_x.new start_y.new end_x.new end_y.new ≡ lines_put lengths.now x.now y.now ls }
{
    put_ends(x, lengths, 0, start_x);
    put_ends(y, lengths, 0, start_y);
    put_ends(x, lengths, 1, end_x);
    put_ends(y, lengths, 1, end_y);
}

// Makes the lines of the members: consecutive points of a member make a line. Zero beyond. The answer is how many lines there are. Refusal 5 leaves
// zero throughout, and every other changes nothing.
pub fn lines_of_members(
    x: &[u64],
    y: &[u64],
    lengths: &[u32],
    start_x: &mut [f64],
    start_y: &mut [f64],
    end_x: &mut [f64],
    end_y: &mut [f64],
) -> Result<usize, Refusal>
    ensures { let ls = lines start_x.old start_y.old end_x.old end_y.old in
        let ls' = lines start_x.new start_y.new end_x.new end_y.new in
        LinedAs x.now y.now lengths.now ls result ls' }
{
    grid::checks::check_lengths(start_x, start_y, end_x, end_y)?;
    check_held(x.len(), y.len(), lengths)?;
    let count = x.len() - lengths.len();
    grid::checks::check_count(count)?;
    let room = check_fit(start_x.len(), count);
    if let Err(r) = room {
        clear_lines(start_x, start_y, end_x, end_y);
        return Err(r);
    }
    put_lines(x, y, lengths, start_x, start_y, end_x, end_y);
    Ok(count)
}
