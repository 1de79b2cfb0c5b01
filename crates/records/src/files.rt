// Records one after another: how long each is.
ghost use Rattle.std.specs.Prelude.{◌≡◌, ◌-◌, ◌≤◌, length, drop};
ghost use Rattle.records.specs.Files.{size_of};

// How many words the record has that begins at a place; 0 where none stands whole there.
pub fn size_at(w: &[u64], at: usize) -> usize
    ensures { (result ≡ size_of (drop at w.now)) × (result ≤ length w.now - at) }
{
    if w.len() <= at {
        return 0;
    }
    if w.len() - at < 3 {
        return 0;
    }
    let room = w.len() - at - 3;
    let q = w[at + 1] as usize;
    if room < q {
        return 0;
    }
    let a = w[at + 2] as usize;
    if room - q < a {
        return 0;
    }
    3 + q + a
}
