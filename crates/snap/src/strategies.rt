// Whether document 01's two strategies, Grid and GeosCompat, give a coordinate the same bits.
ghost use Rattle.std.specs.Prelude.{◌≡◌, T};
ghost use Rattle.grid.specs.Domain.{coordinate};
ghost use Rattle.snap.specs.Snap.{snap_size};
ghost use Rattle.snap.specs.Strategies.{same_bits, agreed, agreement_answer};

use crate::checks::check_snap_size;
use refusals::Refusal;

// They differ where |v / size| is the largest float below one half, and nowhere else: there the sum with 0.5 is rounded up to 1. A quotient by
// size 0 is no finite number, so that size needs no test.
fn compare(v: f64, size: f64) -> Result<bool, Refusal>
    requires v_in_range { T (coordinate v) }
    requires size_in_range { T (snap_size size) }
    ensures { result ≡ agreed (same_bits size v) }
{
    let scaled = v / size;
    if scaled == 0.49999999999999994 {
        return Ok(false);
    }
    if scaled == -0.49999999999999994 {
        return Ok(false);
    }
    Ok(true)
}

// Refuses by 1, then 12.
pub fn strategies_agree(v: f64, size: f64) -> Result<bool, Refusal>
    ensures { result ≡ agreement_answer v size }
{
    grid::checks::check_coordinate(v)?;
    check_snap_size(size)?;
    compare(v, size)
}
