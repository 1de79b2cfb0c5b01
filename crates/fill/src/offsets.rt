// Passes over the offsets alone: running sums, unless a cell is crowded, and the shift back.
ghost use Rattle.std.specs.Prelude.{◌<◌, ◌^◌, length, get_or};
ghost use Rattle.tables.specs.Lists.{sum};
ghost use Rattle.fill.specs.Inside.{SumsAre, ShiftedBack};

// Whether some cell has more lines than it may; and else the total.
#[derive(Clone, Copy)]
pub(crate) struct SumsEnd {
    pub crowded: bool,
    pub total: u32,
}

// Turns counts into running sums from 0, up to the first cell that has more than `most` lines.
pub(crate) fn running_sums(offsets: &mut [u32], cells: usize, most: u32) -> SumsEnd
    requires { (cells < length offsets.old) × (sum (λ k. get_or offsets.old k 0) cells < 2 ^ 32) }
    ensures { SumsAre most offsets.old offsets.new cells result }
{
    let mut total: u32 = 0;
    for c in 0..cells {
        let count = offsets[c];
        if most < count {
            return SumsEnd {
                crowded: true,
                total,
            };
        }
        offsets[c] = total;
        total += count;
    }
    offsets[cells] = total;
    SumsEnd {
        crowded: false,
        total,
    }
}

// Moves the pointers back: each has come to where the next list begins.
pub(crate) fn shift_back(offsets: &mut [u32], cells: usize)
    requires { cells < length offsets.old }
    ensures { ShiftedBack offsets.old offsets.new cells }
{
    for c in (0..cells).rev() {
        offsets[c + 1] = offsets[c];
    }
    offsets[0] = 0;
}
