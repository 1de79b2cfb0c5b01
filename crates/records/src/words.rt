// Words of 64 bits: those that stand in bytes, and how far two rows of them are the same.
ghost use Rattle.std.specs.Prelude.{◌≡◌, ◌++◌, ◌+◌, ◌*◌, ◌/◌, ◌^◌, ◌<◌, min, length, drop};
ghost use Rattle.records.specs.Words.{little_at, words_of, same_to};

fn wide(b: u8) -> u64
    ensures { (result ≡ b) × (result < 256) }
{
    b as u64
}

// The number in two bytes, in four, in eight, from a place on.
fn two(bytes: &[u8], at: usize) -> u64
    requires { at + 1 < length bytes.now }
    ensures { (result ≡ little_at 2 at bytes.now) × (result < 2 ^ 16) }
{
    wide(bytes[at]) + 256 * wide(bytes[at + 1])
}

fn four(bytes: &[u8], at: usize) -> u64
    requires { at + 3 < length bytes.now }
    ensures { (result ≡ little_at 4 at bytes.now) × (result < 2 ^ 32) }
{
    two(bytes, at) + 65536 * two(bytes, at + 2)
}

fn eight(bytes: &[u8], at: usize) -> u64
    requires { at + 7 < length bytes.now }
    ensures { result ≡ little_at 8 at bytes.now }
{
    four(bytes, at) + 4294967296 * four(bytes, at + 4)
}

// The words that stand whole in bytes, as many as there is room for. What is beyond them stays.
pub fn words_of(bytes: &[u8], out: &mut [u64])
    ensures { let n = min (length bytes.now / 8) (length out.old) in
        out.new ≡ words_of n bytes.now ++ drop n out.old }
{
    let n = slices::least(bytes.len() / 8, out.len());
    for i in 0..n {
        out[i] = eight(bytes, 8 * i);
    }
}

// How many words, from the first on, are the same in both.
pub fn same_to(a: &[u64], b: &[u64]) -> usize
    ensures { result ≡ same_to a.now b.now }
{
    let n = slices::least(a.len(), b.len());
    for i in 0..n {
        if a[i] != b[i] {
            return i;
        }
    }
    n
}
