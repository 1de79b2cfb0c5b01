// The next row of a visit, from a place on.
ghost use Rattle.std.specs.Prelude.{◌≡◌};
ghost use Rattle.seek.specs.Inside.{stop_of};
ghost use Rattle.visit.specs.Inside.{CellAsks, CellFound, GlobalAsks, GlobalFound, StopAsks};

// A pair of a cell's list, and where the list stands in the items.
#[derive(Clone, Copy)]
pub(crate) struct CellAt {
    pub cell: usize,
    pub i: usize,
    pub j: usize,
    pub from: usize,
    pub to: usize,
}

#[derive(Clone, Copy)]
pub(crate) struct GlobalAt {
    pub p: usize,
    pub q: usize,
    pub k: u32,
    pub stop: u32,
}

// The next pair of the cells' lists, from a place on: a row that is done, and lists that are done, are passed over.
pub(crate) fn settle_cell(
    cells: usize,
    offsets: &[u32],
    items: &[u32],
    cell: usize,
    mut i: usize,
    mut j: usize,
) -> Option<CellAt>
    requires { CellAsks cells offsets.now items.now cell i j }
    ensures { CellFound cells offsets.now items.now cell i j result }
{
    for c in cell..cells {
        let from = offsets[c] as usize;
        let to = offsets[c + 1] as usize;
        let len = to - from;
        if j < len {
            return Some(CellAt {
                cell: c,
                i,
                j,
                from,
                to,
            });
        }
        let next = i + 1;
        let after = i + 2;
        if after < len {
            return Some(CellAt {
                cell: c,
                i: next,
                j: after,
                from,
                to,
            });
        }
        i = 0;
        j = 1;
    }
    None
}

// The line that the next global stands at, or the number of lines where none is left to pass over.
fn stop_at(lines: u32, globals: &[u32], p: usize, q: usize) -> u32
    requires { StopAsks globals.now p q }
    ensures { result ≡ stop_of lines globals.now p q }
{
    if q <= p {
        return globals[q];
    }
    lines
}

// The next run of lines of a global, from a place on: it ends before the next global that is passed over.
pub(crate) fn settle_global(
    lines: u32,
    count: usize,
    globals: &[u32],
    mut p: usize,
    mut q: usize,
    mut k: u32,
) -> Option<GlobalAt>
    requires { GlobalAsks lines count globals.now p q k }
    ensures { GlobalFound lines count globals.now p q k result }
{
    // Each step goes to the next q or, once q is beyond p, to the next p.
    while p < count {
        let stop = stop_at(lines, globals, p, q);
        if k < stop {
            return Some(GlobalAt { p, q, k, stop });
        }
        if q <= p {
            q = q + 1;
            k = stop + 1;
        } else {
            p = p + 1;
            q = 0;
            k = 0;
        }
    }
    None
}
