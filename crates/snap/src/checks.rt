// The checks of snapping: each finds nothing, or the refusal that is due.
ghost use Rattle.std.specs.Prelude.{◌≡◌, ◌&&◌, eqb};
ghost use Rattle.snap.specs.Snap.{snap_size, snap_size_check, snap_check};

use refusals::{Refusal, refuse_unless};

// A snap size is 0, or 1e-6 to 1e6. Branches, here and in `is_snap`: as one expression a snap takes longer.
fn is_snap_size(size: f64) -> bool
    ensures { result ≡ snap_size size }
{
    if size == 0.0 {
        return true;
    }
    if 1e-6 <= size {
        return size <= 1e6;
    }
    false
}

pub fn check_snap_size(size: f64) -> Result<(), Refusal>
    ensures { result ≡ snap_size_check size }
{
    refuse_unless(is_snap_size(size), 12, 0)
}

// 0, Grid, is the only strategy. It is a number as C hands it over: an enum would leave nothing for refusal 12 to refuse.
fn is_snap(size: f64, strategy: u32) -> bool
    ensures { result ≡ (snap_size size && eqb strategy 0) }
{
    if is_snap_size(size) {
        return strategy == 0;
    }
    false
}

pub fn check_snap(size: f64, strategy: u32) -> Result<(), Refusal>
    ensures { result ≡ snap_check size strategy }
{
    refuse_unless(is_snap(size, strategy), 12, 0)
}
