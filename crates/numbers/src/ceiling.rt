// The ceiling of a float as a whole number of 64 bits: Rust's `ceil() as u64`.
ghost use Rattle.std.specs.Prelude.{◌≡◌};
ghost use Rattle.numbers.specs.Ceiling.{ceiling_of};

use super::whole::{one_if_above, whole_part};

// From 2^52 on every float is a whole number. Below that the whole part is one too low where v is above it.
pub fn ceiling(v: f64) -> u64
    ensures { result ≡ ceiling_of v }
{
    if v > 0.0 {
        if v < 4503599627370496.0 {
            let part = whole_part(v);
            return (part + one_if_above(v, part)) as u64;
        }
        if v < 18446744073709551616.0 {
            return std::num::truncating_f64_to_u64(v);
        }
        return 18446744073709551615;
    }
    0
}
