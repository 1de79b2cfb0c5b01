// Steps that the functions of this crate share: the whole part of a float, and choices between two floats, made without a jump.
ghost use Rattle.std.specs.Prelude.{◌≡◌, ◌/◌, ◌<◌, false, T, pos, if◌then◌else◌};
ghost use Rattle.std.specs.Float.{fin, binary64};
ghost use Rattle.std.specs.Float.Ieee.{lt, round};
ghost use Rattle.std.specs.Float.Ieee.Positive.{num, den};

// The whole part of a v above 0 and below 2^52. From 2^52 on floats are whole numbers, so v + 2^52 is rounded to one of the two next to it.
// Less 2^52 again, it is the whole part of v or one more.
pub(crate) fn whole_part(v: f64) -> f64
    requires above_zero { T (lt (fin false 0 (pos 0)) v) }
    requires below_limit { T (lt v (fin false 1 (pos 52))) }
    ensures { result ≡ round binary64 false (num v / den v) 1 }
{
    let near = (v + 4503599627370496.0) - 4503599627370496.0;
    near - one_if_above(near, v)
}

// The same of a v below 2^32 - 1, as an index. From 2^52 on the lowest bits of a float are those of its number, so v + 2^52 needs no cast.
pub(crate) fn whole_index(v: f64) -> u32
    requires above_zero { T (lt (fin false 0 (pos 0)) v) }
    requires below_limit { T (lt v (fin false 1 (pos 52))) }
    requires fits_index { num v / den v < 4294967295 }
    ensures { result ≡ num v / den v }
{
    let moved = v + 4503599627370496.0;
    let near = moved - 4503599627370496.0;
    let index = (f64::to_bits(moved) % 4294967296) as u32;
    if v < near {
        return index - 1;
    }
    index
}

// 1 if a is above b, and 0 otherwise.
pub(crate) fn one_if_above(a: f64, b: f64) -> f64
    ensures { result ≡ (if lt b a then fin false 1 (pos 0) else fin false 0 (pos 0)) }
{
    if a > b {
        return 1.0;
    }
    0.0
}

// -1 if v is below zero, and 1 otherwise.
pub(crate) fn unit(v: f64) -> f64
    ensures { result ≡ fin (lt v (fin false 0 (pos 0))) 1 (pos 0) }
{
    if v < 0.0 {
        return -1.0;
    }
    1.0
}
