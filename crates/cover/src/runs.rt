// Runs of cells with consecutive numbers, written to the scratch.
ghost use Rattle.std.specs.Prelude.{◌≡◌, ◌+◌, ◌≤◌, ◌<◌, length};
ghost use Rattle.cover.specs.Rule.{run};
ghost use Rattle.cover.specs.Inside.{Appended};

// Writes k numbers from `first` on, at n.
fn put_each(scratch: &mut [u32], n: usize, first: u64, k: u64) -> usize
    requires room { n + k ≤ length scratch.old }
    requires numbers_fit { first + k < 4294967296 }
    ensures { Appended scratch.old scratch.new n result (run k first) }
{
    let mut m = n;
    for i in 0..k {
        scratch[m] = (first + i) as u32;
        m += 1;
    }
    m
}

// The same. It writes eight at once, whatever k is: most runs are shorter, and what is beyond k is written over later.
pub(crate) fn put_run(scratch: &mut [u32], n: usize, first: u64, k: u64) -> usize
    requires room_for_eight { n + 8 ≤ length scratch.old }
    requires room { n + k ≤ length scratch.old }
    requires numbers_fit { first + k < 16777216 }
    ensures { Appended scratch.old scratch.new n result (run k first) }
{
    let m = put_each(scratch, n, first, 8);
    if k < 9 {
        return n + k as usize;
    }
    put_each(scratch, m, first + 8, k - 8)
}
