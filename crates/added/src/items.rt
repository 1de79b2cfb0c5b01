// The items: a gap is opened at the end of each list that gets the number, from the last list to the first.
ghost use Rattle.std.specs.Prelude.{◌≡◌, ◌+◌, ◌<◌, ◌≤◌, length};
ghost use Rattle.added.specs.Inside.{gap_of, Spreadable, spread_of};

// Moves the items from `from` to `to` up, by one more than the lists before that get the number, and writes the number before them.
fn open_gap(items: &mut [u32], from: usize, to: usize, before: usize, n: u32)
    requires { (from ≤ to) × (to + before < length items.old) }
    ensures { items.new ≡ gap_of from to before n items.old }
{
    items.copy_within(from..to, from + before + 1);
    items[from + before] = n;
}

// The number at the end of the list of each visited cell. `total` is the number of items so far.
pub(crate) fn spread_items(
    n: u32,
    visited: &[u32],
    offsets: &[u32],
    total: usize,
    items: &mut [u32],
)
    requires { Spreadable visited.now offsets.now total items.old }
    ensures { items.new ≡ spread_of n offsets.now total items.old visited.now }
{
    let mut end = total;
    for j in (0..visited.len()).rev() {
        let from = offsets[visited[j] as usize + 1] as usize;
        open_gap(items, from, end, j, n);
        end = from;
    }
}
