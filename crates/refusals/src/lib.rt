// Document 01's refusals: a number with its value, the error of every check and of every entry.
#![tactic(auto)]

ghost use Rattle.std.specs.Prelude.{◌≡◌};
ghost use Rattle.refusals.specs.Refusals.{unless};

// A refusal by document 01's number, with its value. It stays a number and is no enum: it crosses into C as it is, and `clears` tells by it which
// slices are left zero.
#[derive(Clone, Copy)]
pub struct Refusal {
    pub number: u32,
    pub value: u64,
}

// Refuses, with a number and a value, where the test fails.
pub fn refuse_unless(ok: bool, number: u32, value: u64) -> Result<(), Refusal>
    ensures { result ≡ unless ok number value }
{
    if ok {
        return Ok(());
    }
    Err(Refusal { number, value })
}
