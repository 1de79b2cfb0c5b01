// The number functions. Each promise is the entry's own.
ghost use Rattle.std.specs.Prelude.{◌≡◌};
ghost use Rattle.numbers.specs.Order.{least_of, greatest_of, magnitude_of};
ghost use Rattle.numbers.specs.Floor.{floor_of, clamped_floor};
ghost use Rattle.numbers.specs.Ceiling.{ceiling_of};
ghost use Rattle.numbers.specs.Away.{round_away};
ghost use Rattle.numbers.specs.Root.{root};

#[unsafe(no_mangle)]
pub extern "C" fn mt_least(a: f64, b: f64) -> f64
    ensures { result ≡ least_of a b }
{
    capi::number::mt_least(a, b)
}

#[unsafe(no_mangle)]
pub extern "C" fn mt_greatest(a: f64, b: f64) -> f64
    ensures { result ≡ greatest_of a b }
{
    capi::number::mt_greatest(a, b)
}

#[unsafe(no_mangle)]
pub extern "C" fn mt_magnitude(v: f64) -> f64
    ensures { result ≡ magnitude_of v }
{
    capi::number::mt_magnitude(v)
}

#[unsafe(no_mangle)]
pub extern "C" fn mt_floor(v: f64) -> f64
    ensures { result ≡ floor_of v }
{
    capi::number::mt_floor(v)
}

#[unsafe(no_mangle)]
pub extern "C" fn mt_clamped_floor(v: f64, count: u32) -> u32
    ensures { result ≡ clamped_floor v count }
{
    capi::number::mt_clamped_floor(v, count)
}

#[unsafe(no_mangle)]
pub extern "C" fn mt_ceiling(v: f64) -> u64
    ensures { result ≡ ceiling_of v }
{
    capi::number::mt_ceiling(v)
}

#[unsafe(no_mangle)]
pub extern "C" fn mt_round_half_away(v: f64) -> f64
    ensures { result ≡ round_away v }
{
    capi::number::mt_round_half_away(v)
}

#[unsafe(no_mangle)]
pub extern "C" fn mt_square_root(v: f64) -> f64
    ensures { result ≡ root v }
{
    capi::number::mt_square_root(v)
}
