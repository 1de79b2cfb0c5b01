// Snap rounding of a point, the Rust's `SnapNoder::snap` with its strategy Grid; and whether GeosCompat, which is retired, gave the same.
#![tactic(auto)]

pub mod checks;
pub mod strategies;

ghost use Rattle.std.specs.Prelude.{◌≡◌};
ghost use Rattle.snap.specs.Snap.{grid_snap, snap_of, snap_answer};

use refusals::Refusal;

// A snapped point.
#[derive(Clone, Copy)]
pub struct Snapped {
    pub x: f64,
    pub y: f64,
}

fn grid_snap(size: f64, v: f64) -> f64
    ensures { result ≡ grid_snap size v }
{
    numbers::away::round_half_away(v / size) * size
}

// One coordinate.
fn snap(size: f64, v: f64) -> f64
    ensures { result ≡ snap_of size v }
{
    if size == 0.0 {
        return v;
    }
    grid_snap(size, v)
}

// Refuses by 1, then 12.
pub fn snap_point(x: f64, y: f64, size: f64, strategy: u32) -> Result<Snapped, Refusal>
    ensures { result ≡ snap_answer x y size strategy }
{
    grid::checks::check_point(x, y)?;
    checks::check_snap(size, strategy)?;
    Ok(Snapped {
        x: snap(size, x),
        y: snap(size, y),
    })
}
