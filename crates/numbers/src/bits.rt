// Floats and their bit patterns: Rust's `f64::from_bits` and `f64::to_bits`, with one NaN.
ghost use Rattle.std.specs.Prelude.{◌≡◌, from_bits, to_bits};
ghost use Rattle.std.specs.Float.{binary64};

// The float of a bit pattern. Every pattern of a NaN gives the NaN.
pub fn from_bits(pattern: u64) -> f64
    ensures { result ≡ from_bits binary64 pattern }
{
    if pattern % 0x8000_0000_0000_0000 > 0x7ff0_0000_0000_0000 {
        return 0.0 / 0.0;
    }
    f64::from_bits(pattern)
}

// The bit pattern of a float. Every NaN has the one pattern 7ff8000000000000.
pub fn to_bits(v: f64) -> u64
    ensures { result ≡ to_bits binary64 v }
{
    if v != v {
        return 0x7ff8_0000_0000_0000;
    }
    f64::to_bits(v)
}
