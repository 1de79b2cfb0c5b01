// Tests of the points of two slices, by their places.
ghost use Rattle.std.specs.Prelude.{◌≡◌, ◌<◌, length};
ghost use Rattle.clean.specs.Cleaning.{good, same_point};
ghost use Rattle.clean.specs.Inside.{point_in, Part, PieceEnds};

use numbers::bits::from_bits;

// Document 01's coordinate rule.
fn is_good(x: &[u64], y: &[u64], i: usize) -> bool
    requires { (i < length x.now) × (i < length y.now) }
    ensures { result ≡ good (point_in x.now y.now i) }
{
    grid::checks::is_point(from_bits(x[i]), from_bits(y[i]))
}

// Equal by value on both axes: zeros of either sign are.
pub(crate) fn is_same(x: &[u64], y: &[u64], i: usize, j: usize) -> bool
    requires { (i < length x.now) × (i < length y.now) × (j < length x.now) × (j < length y.now) }
    ensures { result ≡ same_point (point_in x.now y.now i) (point_in x.now y.now j) }
{
    (from_bits(x[i]) == from_bits(x[j])) & (from_bits(y[i]) == from_bits(y[j]))
}

// Where the piece ends that begins at `from`: at the first point outside the rule, or at the member's end.
pub(crate) fn piece_end(x: &[u64], y: &[u64], from: usize, end: usize) -> usize
    requires { Part x.now y.now from end }
    ensures { PieceEnds x.now y.now from end result }
{
    for i in from..end {
        if !is_good(x, y, i) {
            return i;
        }
    }
    end
}
