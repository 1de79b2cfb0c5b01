// A line for each dropped point.
ghost use Rattle.std.specs.Prelude.{◌≡◌, true, ◌+◌, ◌≤◌, length, take, drop};
ghost use Rattle.report.specs.Pages.{page, Puts};
ghost use Rattle.members.specs.Held.{chains_of, all_lengths, sum_of};
ghost use Rattle.clean_bytes.specs.Printed.{dropped_if, member_text, text_from};

use slices::wide;

// One point: nothing where it is kept.
fn put_point(member: u64, point: u64, reason: u32, out: &mut [u8], at: usize) -> usize
    ensures { Puts (dropped_if member point reason) (page out.old at) (page out.new result) }
{
    if reason == 0 {
        return at;
    }
    report::dropped_line(member, point, reason, out, at)
}

// The points of a member, n from the place `from` on.
fn put_member(
    member: u64,
    reasons: &[u32],
    from: usize,
    n: usize,
    out: &mut [u8],
    at: usize,
) -> usize
    requires { from + n ≤ length reasons.now }
    ensures { Puts (member_text member 0 (take n (drop from reasons.now))) (page out.old at) (page out.new result) }
{
    let mut at = at;
    for i in 0..n {
        at = put_point(member, i as u64, reasons[from + i], out, at);
    }
    at
}

// All members.
pub(crate) fn put_members(lengths: &[u32], reasons: &[u32], out: &mut [u8]) -> usize
    requires { (all_lengths lengths.now ≡ true) × (sum_of lengths.now ≤ length reasons.now) }
    ensures { Puts (text_from 0 (chains_of lengths.now reasons.now)) (page out.old 0) (page out.new result) }
{
    let mut at = 0;
    let mut from = 0;
    for k in 0..lengths.len() {
        let n = wide(lengths[k]);
        at = put_member(k as u64, reasons, from, n, out, at);
        from = from + n;
    }
    at
}
