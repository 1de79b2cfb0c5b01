// The floor of a float, as a float and as an index below a count.
ghost use Rattle.std.specs.Prelude.{◌≡◌};
ghost use Rattle.numbers.specs.Floor.{floor_of, clamped_floor};

use super::order::magnitude;
use super::whole::{one_if_above, unit, whole_index, whole_part};

// From 2^52 on every float is a whole number. Below that v is cut toward zero, and where the cut went up it comes down by one.
pub fn floor(v: f64) -> f64
    ensures { result ≡ floor_of v }
{
    let size = magnitude(v);
    if size > 0.0 {
        if size < 4503599627370496.0 {
            let cut = unit(v) * whole_part(size);
            return cut - one_if_above(cut, v);
        }
    }
    v
}

// The last index is a float exactly, and what is below it is a `u32`.
pub fn clamped_floor(v: f64, count: u32) -> u32
    ensures { result ≡ clamped_floor v count }
{
    if v > 0.0 {
        if count == 0 {
            return 0;
        }
        let last = count - 1;
        if v < last as f64 {
            return whole_index(v);
        }
        return last;
    }
    0
}
