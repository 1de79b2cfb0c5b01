// Passes over the starts alone: running sums, and the shift back.
ghost use Rattle.std.specs.Prelude.{◌≤◌, ◌<◌, ◌^◌, length, get_or};
ghost use Rattle.tables.specs.Lists.{sum};
ghost use Rattle.fill.specs.Inside.{Summed, ShiftedBack};

// Turns counts into running sums from 0.
pub(crate) fn running_sums(starts: &mut [u32], lines: usize) -> u32
    requires { (lines < length starts.old) × (sum (λ k. get_or starts.old k 0) lines < 2 ^ 32) }
    ensures { Summed starts.old starts.new lines result }
{
    let mut total: u32 = 0;
    for i in 0..lines {
        let count = starts[i];
        starts[i] = total;
        total += count;
    }
    starts[lines] = total;
    total
}

// Moves the pointers back: each has come to where the next list begins.
pub(crate) fn shift_back(starts: &mut [u32], lines: usize)
    requires { lines < length starts.old }
    ensures { ShiftedBack starts.old starts.new lines }
{
    for i in (0..lines).rev() {
        starts[i + 1] = starts[i];
    }
    starts[0] = 0;
}
