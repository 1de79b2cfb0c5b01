// The values of the points that are kept: one coordinate of each.
ghost use Rattle.std.specs.Prelude.{◌≡◌, ◌+◌, ◌-◌, ◌≤◌, ◌<◌, ◌++◌, length, take, replicate};
ghost use Rattle.wkb.specs.Inside.{PutIn};
ghost use Rattle.clean.specs.Inside.{value_if, PutKept};

// A value goes to the place `at` if its reason says that it is kept. Answers the place of the next.
fn put_if(reason: u32, value: u64, kept: &mut [u64], at: usize) -> usize
    requires { at < length kept.old }
    ensures { PutIn at (value_if reason value) kept.old kept.new × (result ≡ at + length (value_if reason value)) }
{
    if reason <= 0 {
        kept[at] = value;
        return at + 1;
    }
    at
}

// Writes zero from `from` on.
fn clear_from(s: &mut [u64], from: usize)
    ensures { s.new ≡ take from s.old ++ replicate (length s.old - from) 0 }
{
    let a = slices::least(s.len(), from);
    s[a..].fill(0);
}

// The values whose reason says that they are kept; zero beyond. Answers how many.
pub(crate) fn put_kept(values: &[u64], reasons: &[u32], kept: &mut [u64]) -> usize
    requires { (length values.now ≤ length reasons.now) × (length values.now ≤ length kept.old) }
    ensures { PutKept reasons.now values.now kept.old result kept.new }
{
    let mut at = 0;
    for i in 0..values.len() {
        at = put_if(reasons[i], values[i], kept, at);
    }
    clear_from(kept, at);
    at
}
