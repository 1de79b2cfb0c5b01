// Floats as whole numbers: what the input has for samples.
ghost use Rattle.std.specs.Prelude.{◌≡◌, ◌≤◌, length};
ghost use Rattle.crossing_chain.specs.Whole.{whole_of};
ghost use Rattle.crossing_chain.specs.Inside.{Wholes};

// The whole number that a float is, if its magnitude is at most 2^29; 2^29 + 1, which is no sample, of every other float. Cut toward zero, a float
// that is a whole number stays what it is.
fn whole_of(v: f64) -> i32
    ensures { result ≡ whole_of v }
{
    if v >= -536870912.0 {
        if v <= 536870912.0 {
            let cut = std::num::truncating_f64_to_i64(v);
            if std::num::nearest_i64_to_f64(cut) == v {
                return cut as i32;
            }
        }
    }
    536870913
}

// The same of each of a slice.
pub(crate) fn wholes_of(from: &[f64], to: &mut [i32])
    requires { length from.now ≤ length to.old }
    ensures { Wholes from.now to.old to.new }
{
    for i in 0..from.len() {
        to[i] = whole_of(from[i]);
    }
}
