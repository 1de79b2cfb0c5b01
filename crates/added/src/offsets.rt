// The offsets: each grows by the number of the visited cells before it.
ghost use Rattle.std.specs.Prelude.{◌≡◌, length};
ghost use Rattle.added.specs.Inside.{Raisable, raised_part, RaisableAll, lifted_of};

// Adds to the offsets from `from` to `to`.
fn raise(offsets: &mut [u32], from: usize, to: usize, by: u32)
    requires { Raisable from to by offsets.old }
    ensures { offsets.new ≡ raised_part from to by offsets.old }
{
    for i in from..to {
        offsets[i] += by;
    }
}

// The offsets after each visited cell grow by one more than those before it. `end` is where the offsets of the grid end.
pub(crate) fn raise_offsets(visited: &[u32], offsets: &mut [u32], end: usize)
    requires { RaisableAll visited.now offsets.old end }
    ensures { offsets.new ≡ lifted_of offsets.old end visited.now }
{
    let mut to = end;
    for j in (0..visited.len()).rev() {
        let from = visited[j] as usize + 1;
        raise(offsets, from, to, (j + 1) as u32);
        to = from;
    }
}
