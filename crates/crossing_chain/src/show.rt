// The crossings in lines.
ghost use Rattle.std.specs.Prelude.{◌≡◌, ◌≤◌, ◌++◌, length, take};
ghost use Rattle.report.specs.Pages.{page, Puts};
ghost use Rattle.report.specs.Lines.{crossings_line};
ghost use Rattle.crossing_chain.specs.Printed.{pair_lines};

// A line for each pair of the first n of two slices.
fn put_pairs(n: usize, first: &[u32], second: &[u32], out: &mut [u8], at: usize) -> usize
    requires first_lent { n ≤ length first.now }
    requires second_lent { n ≤ length second.now }
    ensures { Puts (pair_lines (take n first.now) (take n second.now)) (page out.old at) (page out.new result) }
{
    let mut at = at;
    for i in 0..n {
        at = report::pair_line(first[i], second[i], out, at);
    }
    at
}

// How many there are, and a line for each.
pub(crate) fn put_crossings(n: u64, first: &[u32], second: &[u32], out: &mut [u8]) -> usize
    requires first_lent { n ≤ length first.now }
    requires second_lent { n ≤ length second.now }
    ensures { Puts (crossings_line n ++ pair_lines (take n first.now) (take n second.now)) (page out.old 0) (page out.new result) }
{
    let at = report::crossings_line(n, out, 0);
    put_pairs(n as usize, first, second, out, at)
}
