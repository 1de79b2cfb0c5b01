// The ends of an axis.
ghost use Rattle.std.specs.Prelude.{◌≡◌};
ghost use Rattle.own.specs.Owner.{spans};

use grid::Axis;

// Between the low edge of the first and the high edge of the last index, ends included.
pub(crate) fn spanned(axis: Axis, p: f64) -> bool
    ensures { result ≡ spans axis p }
{
    if axis.count == 0 {
        return false;
    }
    if axis.low_edge(0) <= p {
        return p <= axis.high_edge(axis.count - 1);
    }
    false
}
