// The reader of one MultiLineString: its members are LineStrings, one after another, each in a byte order of its own. All fields are looked at
// before anything is written; a second pass over the members writes each slice.
ghost use Rattle.std.specs.Prelude.{◌≡◌, ◌+◌, ◌*◌, ◌-◌, ◌≤◌, ◌<◌, length, take, replicate, Ok};
ghost use mathlib.Core.List.{◌++◌, map, flatten};
ghost use Rattle.refusals.specs.Refusals.{zero_beyond};
ghost use Rattle.wkb.specs.Reading.{order_at, count_at};
ghost use Rattle.wkb.specs.Multi.{members_check, pair_check, members_room_check, MultiReadAs};
ghost use Rattle.wkb.specs.Inside.{numbers_at, axes_at, counts_at, MembersAs, LookedAs, PutIn};

use crate::{
    Looked, MultiRead, Order, check_head, check_line, fault, number_at_4, number_at_8, order_of,
};
use refusals::Refusal;

// Looks at m members, the first at byte 9, and at what follows them. The error is the byte position of the first fault.
fn check_members(bytes: &[u8], m: usize) -> Result<Looked, usize>
    requires { 9 ≤ length bytes.now }
    ensures { MembersAs bytes.now m result }
{
    let mut at = 9;
    let mut points = 0;
    for _ in 0..m {
        let line = check_line(bytes, at)?;
        at = at + 9 + 16 * line.count;
        points = points + line.count;
    }
    if at < bytes.len() {
        return Err(at);
    }
    Ok(Looked { members: m, points })
}

// Looks at all fields, and writes nothing. The error is the byte position of the first fault.
fn check_multi(bytes: &[u8]) -> Result<Looked, usize>
    ensures { LookedAs bytes.now result }
{
    let len = bytes.len();
    let order = check_head(bytes, 5, 0)?;
    if len < 9 {
        return Err(len);
    }
    check_members(bytes, number_at_4(bytes, 5, order) as usize)
}

// Writes zero from `from` on.
fn clear_words(s: &mut [u64], from: usize)
    ensures { s.new ≡ take from s.old ++ replicate (length s.old - from) 0 }
{
    let a = slices::least(s.len(), from);
    s[a..].fill(0);
}

// One coordinate of each of n points, whose first one stands at `at`, goes to s from `to` on.
fn read_numbers(bytes: &[u8], at: usize, order: Order, n: usize, s: &mut [u64], to: usize)
    requires { (at + 16 * n ≤ length bytes.now + 8) × (to + n ≤ length s.old) }
    ensures { PutIn to (numbers_at order n at bytes.now) s.old s.new }
{
    for i in 0..n {
        s[to + i] = number_at_8(bytes, at + 16 * i, order);
    }
}

// The number of points of the LineString at a position, in its order.
fn points_at(bytes: &[u8], at: usize, order: Order) -> usize
    requires { (at + 9 ≤ length bytes.now) × (order ≡ order_at at bytes.now) }
    ensures { result ≡ count_at at bytes.now }
{
    number_at_4(bytes, at + 5, order) as usize
}

// One coordinate of each point of m members: `skip` is 0 for the first one, and 8 for the second. Zero beyond.
fn read_axes(bytes: &[u8], m: usize, skip: usize, s: &mut [u64])
    requires { (members_check m 9 bytes.now ≡ (Ok tt)) × (skip ≤ 8) × (length (axes_at skip m 9 bytes.now) ≤ length s.old) }
    ensures { s.new ≡ zero_beyond 0 (length s.old) (axes_at skip m 9 bytes.now) }
{
    let mut at = 9;
    let mut to = 0;
    for _ in 0..m {
        let order = order_of(bytes[at]);
        let n = points_at(bytes, at, order);
        read_numbers(bytes, at + 9 + skip, order, n, s, to);
        at = at + 9 + 16 * n;
        to = to + n;
    }
    clear_words(s, to);
}

// The number of points of each of m members. Zero beyond.
fn read_lengths(bytes: &[u8], m: usize, s: &mut [u32])
    requires { (members_check m 9 bytes.now ≡ (Ok tt)) × (m ≤ length s.old) }
    ensures { s.new ≡ zero_beyond 0 (length s.old) (counts_at m 9 bytes.now) }
{
    let mut at = 9;
    for to in 0..m {
        let n = points_at(bytes, at, order_of(bytes[at]));
        s[to] = n as u32;
        at = at + 9 + 16 * n;
    }
    slices::clear_from(s, m);
}

// The point slices have one length.
fn check_pair(m: usize, n: usize) -> Result<(), Refusal>
    ensures { result ≡ pair_check m n }
{
    refusals::refuse_unless(m == n, 3, 0)
}

// There is room for the points, and for the members.
fn check_room(points: usize, members: usize, p: usize, m: usize) -> Result<(), Refusal>
    ensures { result ≡ members_room_check points members p m }
{
    if points < p {
        return Err(Refusal {
            number: 5,
            value: p as u64,
        });
    }
    refusals::refuse_unless(m <= members, 5, m as u64)
}

// Reads one MultiLineString, with no bytes after it: its points into x and y, the number of points of each member into `lengths`; zero beyond.
// Refusal 5 leaves zero throughout, and every other changes nothing.
pub fn read_multi_line_string(
    bytes: &[u8],
    x: &mut [u64],
    y: &mut [u64],
    lengths: &mut [u32],
) -> Result<MultiRead, Refusal>
    ensures { MultiReadAs bytes.now x.old y.old lengths.old result x.new y.new lengths.new }
{
    check_pair(x.len(), y.len())?;
    let look = check_multi(bytes).map_err(fault)?;
    grid::checks::check_count(look.points - look.members)?;
    let room = check_room(x.len(), lengths.len(), look.points, look.members);
    if let Err(r) = room {
        clear_words(x, 0);
        clear_words(y, 0);
        slices::clear_from(lengths, 0);
        return Err(r);
    }
    read_axes(bytes, look.members, 0, x);
    read_axes(bytes, look.members, 8, y);
    read_lengths(bytes, look.members, lengths);
    Ok(MultiRead {
        points: look.points,
        members: look.members,
    })
}
