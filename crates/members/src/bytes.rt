// The bytes of numbers, points and members, put into a slice one after another, in the little order.
ghost use Rattle.std.specs.Prelude.{◌≡◌, ◌+◌, ◌*◌, ◌-◌, ◌≤◌, length, take, drop, replicate, Ok};
ghost use mathlib.Core.List.{◌++◌, flat_map};
ghost use Rattle.wkb.specs.declared.Order.TheVariants.{Little};
ghost use Rattle.wkb.specs.Bytes.{little_bytes, points_bytes, line_bytes, multi_bytes};
ghost use Rattle.wkb.specs.Inside.{PutIn};
ghost use Rattle.members.specs.Held.{points_of, chains_of, held_check};

// The 4 low bytes of a number.
fn put_4(s: &mut [u8], at: usize, v: u64)
    requires { at + 4 ≤ length s.old }
    ensures { PutIn at (little_bytes 4 v) s.old s.new }
{
    let a = v / 256;
    let b = a / 256;
    let c = b / 256;
    s[at] = (v % 256) as u8;
    s[at + 1] = (a % 256) as u8;
    s[at + 2] = (b % 256) as u8;
    s[at + 3] = (c % 256) as u8;
}

// The 8 bytes of a number.
fn put_8(s: &mut [u8], at: usize, v: u64)
    requires { at + 8 ≤ length s.old }
    ensures { PutIn at (little_bytes 8 v) s.old s.new }
{
    put_4(s, at, v);
    put_4(s, at + 4, v / 4294967296);
}

// The n points from the place `from` on.
fn put_points(x: &[u64], y: &[u64], from: usize, n: usize, s: &mut [u8], at: usize)
    requires { (length y.now ≡ length x.now) × (from + n ≤ length x.now) × (at + 16 * n ≤ length s.old) }
    ensures { PutIn at (points_bytes Little (take n (drop from (points_of x.now y.now)))) s.old s.new }
{
    for i in 0..n {
        put_8(s, at + 16 * i, x[from + i]);
        put_8(s, at + 16 * i + 8, y[from + i]);
    }
}

// A member: its order, its type, its number of points, its points.
fn put_member(x: &[u64], y: &[u64], from: usize, n: usize, s: &mut [u8], at: usize)
    requires { (length y.now ≡ length x.now) × (from + n ≤ length x.now) × (at + 9 + 16 * n ≤ length s.old) }
    ensures { PutIn at (line_bytes Little (take n (drop from (points_of x.now y.now)))) s.old s.new }
{
    s[at] = 1;
    put_4(s, at + 1, 2);
    put_4(s, at + 5, n as u64);
    put_points(x, y, from, n, s, at + 9);
}

// All members, one after another, from byte 9 on.
fn put_members(x: &[u64], y: &[u64], lengths: &[u32], s: &mut [u8])
    requires { let pss = chains_of lengths.now (points_of x.now y.now) in
        (held_check (length x.now) (length y.now) lengths.now ≡ (Ok tt)) × (9 + length (flat_map (line_bytes Little) pss) ≤ length s.old) }
    ensures { let pss = chains_of lengths.now (points_of x.now y.now) in
        PutIn 9 (flat_map (line_bytes Little) pss) s.old s.new }
{
    let mut at = 9;
    let mut from = 0;
    for &length in lengths {
        let n = slices::wide(length);
        put_member(x, y, from, n, s, at);
        at = at + 9 + 16 * n;
        from = from + n;
    }
}

// The whole: its order, its type, its number of members, its members.
pub(crate) fn put_multi(x: &[u64], y: &[u64], lengths: &[u32], s: &mut [u8])
    requires { let pss = chains_of lengths.now (points_of x.now y.now) in
        (held_check (length x.now) (length y.now) lengths.now ≡ (Ok tt)) × (length (multi_bytes pss) ≤ length s.old) }
    ensures { let pss = chains_of lengths.now (points_of x.now y.now) in
        PutIn 0 (multi_bytes pss) s.old s.new }
{
    s[0] = 1;
    put_4(s, 1, 5);
    put_4(s, 5, lengths.len() as u64);
    put_members(x, y, lengths, s);
}

// Writes zero from `from` on.
pub(crate) fn clear_bytes(s: &mut [u8], from: usize)
    ensures { s.new ≡ take from s.old ++ replicate (length s.old - from) 0 }
{
    let a = slices::least(s.len(), from);
    s[a..].fill(0);
}
