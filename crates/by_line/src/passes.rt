// The two passes over the cells: counting, then placing.
ghost use Rattle.std.specs.Prelude.{◌+◌, ◌≡◌, length};
ghost use Rattle.tables.specs.Tables.{list_in};
ghost use Rattle.tables.specs.Lists.{lines_at};
ghost use Rattle.tables.specs.InsideFit.{CellIn};
ghost use Rattle.tables.specs.InsidePasses.{CanCount, CanPlace, Counted, Placed};
ghost use Rattle.by_line.specs.Inside.{ListCountAsks, ListPlaceAsks};

// The list of a cell: a part of the items.
fn list_of<'a>(offsets: &[u32], items: &'a [u32], cell: usize) -> &'a [u32]
    requires { CellIn offsets.now items.now cell }
    ensures { result.now ≡ list_in offsets.now items.now cell }
{
    let from = offsets[cell] as usize;
    let to = offsets[cell + 1] as usize;
    &items[from..to]
}

// One more for each line of a list.
fn count_list(list: &[u32], counts: &mut [u32])
    requires { CanCount counts.old list.now (length list.now) }
    ensures { let s = list.now in
        ((h : CanCount counts.old s (length s)) → Counted (lines_at h.W (h.i + 1)) counts.new) }
{
    for &line in list {
        counts[line as usize] += 1;
    }
}

// Pass 1: how many cells list each line.
pub(crate) fn count_all(
    cells: usize,
    lines: usize,
    offsets: &[u32],
    items: &[u32],
    counts: &mut [u32],
)
    requires { ListCountAsks cells lines offsets.now items.now counts.old }
    ensures { Counted (lines_at (list_in offsets.now items.now) cells) counts.new }
{
    for cell in 0..cells {
        count_list(list_of(offsets, items, cell), counts);
    }
}

// Writes the number of a cell where the pointer of each of its lines stands, and moves the pointer on.
fn place_list(cell: usize, list: &[u32], starts: &mut [u32], listing: &mut [u32])
    requires { CanPlace cell starts.old listing.old list.now (length list.now) }
    ensures { let s = list.now in let asks = CanPlace cell starts.old listing.old s (length s) in
        ((h : asks) → Placed (lines_at h.W h.lines) h.cells (lines_at h.W (cell + 1)) starts.new listing.new) }
{
    let number = cell as u32;
    for &line in list {
        let i = line as usize;
        let at = starts[i];
        listing[at as usize] = number;
        starts[i] = at + 1;
    }
}

// Pass 2: writes the cells.
pub(crate) fn place_all(
    cells: usize,
    lines: usize,
    offsets: &[u32],
    items: &[u32],
    starts: &mut [u32],
    listing: &mut [u32],
)
    requires { ListPlaceAsks cells lines offsets.now items.now starts.old listing.old }
    ensures { let w = list_in offsets.now items.now in
        Placed (lines_at w cells) lines (lines_at w cells) starts.new listing.new }
{
    for cell in 0..cells {
        place_list(cell, list_of(offsets, items, cell), starts, listing);
    }
}
