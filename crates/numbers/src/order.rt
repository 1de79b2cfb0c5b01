// The lesser and the greater of two floats, and the size of one: Rust's `f64::min`, `f64::max` and `f64::abs`.
ghost use Rattle.std.specs.Prelude.{◌≡◌};
ghost use Rattle.numbers.specs.Order.{least_of, greatest_of, magnitude_of};

// Only a NaN differs from itself.
pub fn least(a: f64, b: f64) -> f64
    ensures { result ≡ least_of a b }
{
    if b < a {
        return b;
    }
    if a != a {
        return b;
    }
    a
}

pub fn greatest(a: f64, b: f64) -> f64
    ensures { result ≡ greatest_of a b }
{
    if a < b {
        return b;
    }
    if a != a {
        return b;
    }
    a
}

// A difference from +0 is exact, and never -0.
pub fn magnitude(v: f64) -> f64
    ensures { result ≡ magnitude_of v }
{
    if v <= 0.0 {
        return 0.0 - v;
    }
    v
}
