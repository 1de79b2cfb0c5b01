// The reason of each point, and the number of points of each piece that is kept.
ghost use Rattle.std.specs.Prelude.{◌≡◌, cond, ◌+◌, ◌-◌, ◌≤◌, ◌<◌, length, Ok};
ghost use Rattle.members.specs.Held.{points_of, chains_of, held_check};
ghost use Rattle.clean.specs.Cleaning.{kept_of, cleaned_member, piece_reasons, member_reasons, kept, repeat};
ghost use Rattle.clean.specs.Inside.{part, Part, ReasonsMarked, CleanRoom, Did, MarkedAll};

use crate::points;
use slices::wide;

// A point that is no repeat is kept, as far as its piece is.
fn reason_of(again: bool) -> u32
    ensures { result ≡ cond again repeat kept }
{
    if again { 2 } else { 0 }
}

// The place of the point that was kept last.
fn last_of(again: bool, last: usize, i: usize) -> usize
    ensures { result ≡ cond again last i }
{
    if again { last } else { i }
}

fn one_unless(again: bool) -> usize
    ensures { result ≡ cond again 0 1 }
{
    if again { 0 } else { 1 }
}

// Marks the points of a piece after its first: a repeat, or kept. Answers how many are kept, the first among them.
fn mark_repeats(x: &[u64], y: &[u64], from: usize, to: usize, reasons: &mut [u32]) -> usize
    requires { Part x.now y.now from to × (from < to) × (to ≤ length reasons.old) }
    ensures { ReasonsMarked x.now y.now from to reasons.old result reasons.new }
{
    let mut last = from;
    let mut count = 1;
    for i in from + 1..to {
        let again = points::is_same(x, y, last, i);
        reasons[i] = reason_of(again);
        last = last_of(again, last, i);
        count = count + one_unless(again);
    }
    count
}

// Marks the points of a piece, and puts the number of those that are left at the place `at` if they are two or more. Answers the place of the next
// piece. If one is left, it is the first.
fn mark_piece(
    x: &[u64],
    y: &[u64],
    from: usize,
    to: usize,
    reasons: &mut [u32],
    lengths: &mut [u32],
    at: usize,
) -> usize
    requires { Part x.now y.now from to × (to - from ≤ 1024) × CleanRoom x.now reasons.old lengths.old from at }
    ensures { let ps = part x.now y.now from to in
        Did from (piece_reasons ps) (kept_of ps) reasons.old lengths.old at result reasons.new lengths.new }
{
    if from == to {
        return at;
    }
    let n = mark_repeats(x, y, from, to, reasons);
    if n < 2 {
        reasons[from] = 3;
        return at;
    }
    reasons[from] = 0;
    lengths[at] = n as u32;
    at + 1
}

// Marks the points of a member, piece after piece. Between two pieces is a point outside the rule.
fn mark_member(
    x: &[u64],
    y: &[u64],
    from: usize,
    end: usize,
    reasons: &mut [u32],
    lengths: &mut [u32],
    at: usize,
) -> usize
    requires { Part x.now y.now from end × (end - from ≤ 1024) × CleanRoom x.now reasons.old lengths.old from at }
    ensures { let ps = part x.now y.now from end in
        Did from (member_reasons ps) (cleaned_member ps) reasons.old lengths.old at result reasons.new lengths.new }
{
    let mut at = at;
    let mut start = from;
    loop {
        let to = points::piece_end(x, y, start, end);
        at = mark_piece(x, y, start, to, reasons, lengths, at);
        if to == end {
            return at;
        }
        reasons[to] = 1;
        start = to + 1;
    }
}

// Marks the points of all members; zero beyond. Answers how many pieces are kept.
pub(crate) fn mark_members(
    x: &[u64],
    y: &[u64],
    lengths: &[u32],
    reasons: &mut [u32],
    kept_lengths: &mut [u32],
) -> usize
    requires { (held_check (length x.now) (length y.now) lengths.now ≡ (Ok tt)) × CleanRoom x.now reasons.old kept_lengths.old 0 0 }
    ensures { let pss = chains_of lengths.now (points_of x.now y.now) in
        MarkedAll pss reasons.old kept_lengths.old result reasons.new kept_lengths.new }
{
    let mut at = 0;
    let mut from = 0;
    for &length in lengths {
        let n = wide(length);
        at = mark_member(x, y, from, from + n, reasons, kept_lengths, at);
        from = from + n;
    }
    slices::clear_from(reasons, from);
    slices::clear_from(kept_lengths, at);
    at
}
