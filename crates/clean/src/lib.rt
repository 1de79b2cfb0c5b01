// Cleaning of chains that are held as points with member lengths: points outside the coordinate rule split a chain and are dropped, and so are
// repeats, and pieces left with fewer than two points. Every point has a reason, as a number: 0 it is kept, 1 range, 2 repeat, 3 short.
#![tactic(auto)]

mod marks;
mod points;
mod values;

ghost use Rattle.std.specs.Prelude.{◌≡◌, ◌&&◌, ◌/◌, leb, eqb};
ghost use Rattle.clean.specs.Calls.{outputs, kept_room_check, CleanedAs};

use refusals::Refusal;

// How many points and pieces cleaning kept.
#[derive(Clone, Copy)]
pub struct Cleaned {
    pub points: usize,
    pub members: usize,
}

// The outputs have room for all that n points may ask for.
fn has_room(n: usize, x: usize, y: usize, lengths: usize, reasons: usize) -> bool
    ensures { result ≡ (eqb x y && (leb n x && (leb (n / 2) lengths && leb n reasons))) }
{
    (x == y) & ((n <= x) & ((n / 2 <= lengths) & (n <= reasons)))
}

// 3: outputs that are short, or whose points differ in length.
fn check_outputs(
    n: usize,
    x: &[u64],
    y: &[u64],
    lengths: &[u32],
    reasons: &[u32],
) -> Result<(), Refusal>
    ensures { result ≡ kept_room_check n (outputs x.now y.now lengths.now reasons.now) }
{
    refusals::refuse_unless(
        has_room(n, x.len(), y.len(), lengths.len(), reasons.len()),
        3,
        0,
    )
}

// Cleans the members: the kept points, the number of points of each piece, and the reason of each point of the input; zero beyond. The kept points
// and the reasons need as many entries as there are points, the lengths half as many. Refusal 3, and there is no other, changes nothing.
pub fn clean(
    x: &[u64],
    y: &[u64],
    lengths: &[u32],
    kept_x: &mut [u64],
    kept_y: &mut [u64],
    kept_lengths: &mut [u32],
    reasons: &mut [u32],
) -> Result<Cleaned, Refusal>
    ensures { let o = outputs kept_x.old kept_y.old kept_lengths.old reasons.old in
        let o' = outputs kept_x.new kept_y.new kept_lengths.new reasons.new in
        CleanedAs x.now y.now lengths.now o result o' }
{
    members::check_held(x.len(), y.len(), lengths)?;
    check_outputs(x.len(), kept_x, kept_y, kept_lengths, reasons)?;
    let members = marks::mark_members(x, y, lengths, reasons, kept_lengths);
    let points = values::put_kept(x, reasons, kept_x);
    values::put_kept(y, reasons, kept_y);
    Ok(Cleaned { points, members })
}
