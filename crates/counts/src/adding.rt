// Adding count tables.
ghost use Rattle.std.specs.Prelude.{◌≡◌, ◌+◌, length, Ok};
ghost use Rattle.counts.specs.Adding.{sums_check, added, SumIs};

use refusals::Refusal;

// In 64 bits: any two entries may be handed in.
fn both(a: u32, b: u32) -> u64
    ensures { result ≡ a + b }
{
    (a as u64) + (b as u64)
}

// 13: the first entry whose sum is above 65,536.
fn check_sums(into: &[u32], from: &[u32]) -> Result<(), Refusal>
    requires { length from.now ≡ length into.now }
    ensures { result ≡ sums_check into.now from.now }
{
    for c in 0..into.len() {
        if 65536 < both(into[c], from[c]) {
            return Err(Refusal {
                number: 13,
                value: c as u64,
            });
        }
    }
    Ok(())
}

fn add_all(into: &mut [u32], from: &[u32])
    requires { (length from.now ≡ length into.old) × (sums_check into.old from.now ≡ Ok tt) }
    ensures { into.new ≡ added into.old from.now }
{
    for c in 0..into.len() {
        into[c] += from[c];
    }
}

// Adds one count table into another of the same length. Nothing is written before all is checked.
pub fn add(into: &mut [u32], from: &[u32]) -> Result<(), Refusal>
    ensures { SumIs into.old from.now result into.new }
{
    if from.len() != into.len() {
        return Err(Refusal {
            number: 3,
            value: 0,
        });
    }
    check_sums(into, from)?;
    add_all(into, from);
    Ok(())
}
