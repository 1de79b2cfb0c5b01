// The readers of well-known binary (OGC 06-103r4). A LineString is a byte that names the byte order, the type 2, the number of points, the
// points; a MultiLineString, read in `members`, has the type 5, the number of its members, and LineStrings.
#![tactic(auto)]

pub mod members;

ghost use Rattle.std.specs.Prelude.{◌≡◌, ◌+◌, ◌*◌, ◌-◌, ◌^◌, ◌≤◌, ◌<◌, [], ◌∷◌, ◌++◌, map, length, take, replicate};
ghost use Rattle.std.specs.Float.{binary64};
ghost use Rattle.std.specs.Float.Ieee.{of_bits};
ghost use Rattle.refusals.specs.Refusals.{refusal, zero_beyond};
ghost use Rattle.wkb.specs.Bytes.{little_number, number_at};
ghost use Rattle.wkb.specs.Reading.{order_of, slices_check, nought, ReadAs};
ghost use Rattle.wkb.specs.Inside.{numbers_at, HeadAs, CheckedAs};

use refusals::Refusal;

// Which byte of a number comes first: the most significant one, or the least significant one.
#[derive(Clone, Copy)]
pub enum Order {
    Big,
    Little,
}

// How many points and members the reader of a MultiLineString read.
#[derive(Clone, Copy)]
pub struct MultiRead {
    pub points: usize,
    pub members: usize,
}

// What a look at all fields of a LineString finds where they are right: its order and how many points it has.
#[derive(Clone, Copy)]
struct Checked {
    pub order: Order,
    pub count: usize,
}

// What a look at all fields of a MultiLineString finds where they are right: how many members and points it has.
#[derive(Clone, Copy)]
struct Looked {
    pub members: usize,
    pub points: usize,
}

// The number whose bytes, the least significant first, are these.
fn number_of_4(a: u8, b: u8, c: u8, d: u8) -> u64
    ensures { (result ≡ little_number (a ∷ b ∷ c ∷ d ∷ [])) × (result < 2 ^ 32) }
{
    u64::from(a) + 256 * (u64::from(b) + 256 * (u64::from(c) + 256 * u64::from(d)))
}

// The number in the 4 bytes from `at` on.
fn number_at_4(bytes: &[u8], at: usize, order: Order) -> u64
    requires { at + 4 ≤ length bytes.now }
    ensures { (result ≡ number_at order 4 at bytes.now) × (result < 2 ^ 32) }
{
    match order {
        Order::Little => number_of_4(bytes[at], bytes[at + 1], bytes[at + 2], bytes[at + 3]),
        Order::Big => number_of_4(bytes[at + 3], bytes[at + 2], bytes[at + 1], bytes[at]),
    }
}

// The number in the 8 bytes from `at` on: its two halves, each of 4 bytes.
fn number_at_8(bytes: &[u8], at: usize, order: Order) -> u64
    requires { at + 8 ≤ length bytes.now }
    ensures { result ≡ number_at order 8 at bytes.now }
{
    let first = number_at_4(bytes, at, order);
    let second = number_at_4(bytes, at + 4, order);
    match order {
        Order::Little => first + 4294967296 * second,
        Order::Big => second + 4294967296 * first,
    }
}

// The order that the first byte names.
fn order_of(b: u8) -> Order
    ensures { result ≡ order_of b }
{
    if b == 0 { Order::Big } else { Order::Little }
}

// Looks at the byte order and the type at a position: the order, or the byte position of the first fault. A field that the input does not hold whole
// is a fault at the end of input, and one that is wrong at its first byte. The type is the number of the format that the bytes are compared with.
fn check_head(bytes: &[u8], kind: u64, at: usize) -> Result<Order, usize>
    requires { at ≤ length bytes.now }
    ensures { HeadAs bytes.now kind at result }
{
    let len = bytes.len();
    if len - at < 1 {
        return Err(len);
    }
    let b = bytes[at];
    if b > 1 {
        return Err(at);
    }
    let order = order_of(b);
    if len - at < 5 {
        return Err(len);
    }
    let found = number_at_4(bytes, at + 1, order);
    if found != kind {
        return Err(at + 1);
    }
    Ok(order)
}

// Looks at the fields of a LineString at a position, in order, and writes nothing. The error is the byte position of the first fault.
fn check_line(bytes: &[u8], at: usize) -> Result<Checked, usize>
    requires { at ≤ length bytes.now }
    ensures { CheckedAs bytes.now at result }
{
    let len = bytes.len();
    let order = check_head(bytes, 2, at)?;
    if len - at < 9 {
        return Err(len);
    }
    let count = number_at_4(bytes, at + 5, order) as usize;
    if count < 1 {
        return Err(at + 5);
    }
    if count > 1024 {
        return Err(at + 5);
    }
    if len - at < 9 + 16 * count {
        return Err(len);
    }
    Ok(Checked { order, count })
}

// Writes zero from `from` on. Where that is beyond the end, nothing changes.
pub fn zero_from(s: &mut [f64], from: usize)
    ensures { s.new ≡ take from s.old ++ replicate (length s.old - from) nought }
{
    let a = slices::least(s.len(), from);
    s[a..].fill(0.0);
}

// Writes one coordinate of each of n points, whose first one stands at `at`; zero beyond.
fn read_axis(bytes: &[u8], at: usize, order: Order, n: usize, s: &mut [f64])
    requires { (at + 16 * n ≤ length bytes.now + 8) × (n ≤ length s.old) }
    ensures { s.new ≡ zero_beyond nought (length s.old) (map (of_bits binary64) (numbers_at order n at bytes.now)) }
{
    for i in 0..n {
        s[i] = numbers::bits::from_bits(number_at_8(bytes, at + 16 * i, order));
    }
    zero_from(s, n);
}

// The point slices have one length, and room for 1,024 points.
fn check_slices(m: usize, n: usize) -> Result<(), Refusal>
    ensures { result ≡ slices_check m n }
{
    refusals::refuse_unless((m == n) & (1024 <= m), 3, 0)
}

// 11, at a byte position.
fn fault(at: usize) -> Refusal
    ensures { result ≡ refusal 11 at }
{
    Refusal {
        number: 11,
        value: at as u64,
    }
}

// Reads one LineString of 1 to 1,024 points, with no bytes after it, into x and y; zero beyond. The answer is how many points it read. A
// refusal changes nothing.
pub fn read_line_string(bytes: &[u8], x: &mut [f64], y: &mut [f64]) -> Result<usize, Refusal>
    ensures { ReadAs bytes.now x.old y.old result x.new y.new }
{
    check_slices(x.len(), y.len())?;
    let line = check_line(bytes, 0).map_err(fault)?;
    let end = 9 + 16 * line.count;
    if end < bytes.len() {
        return Err(fault(end));
    }
    read_axis(bytes, 9, line.order, line.count, x);
    read_axis(bytes, 17, line.order, line.count, y);
    Ok(line.count)
}
