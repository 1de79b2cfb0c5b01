// Counting on an agreed grid, adding count tables, and tables on an agreed grid.
ghost use Rattle.grid.specs.Domain.{lines};
ghost use Rattle.capi_counts.specs.Lent.{CountReplies, AddReplies, TablesReplies};

// Mode: 0 for the Rust's walk, 1 for the sided one, 2 for the covering one.
// Out: the sum of all counts, the number of global lines.
#[unsafe(no_mangle)]
pub extern "C" fn mt_count(
    start_x: &[f64],
    start_y: &[f64],
    end_x: &[f64],
    end_y: &[f64],
    grid: &[u64],
    mode: u32,
    counts: &mut [u32],
    scratch: &mut [u32],
    out: &mut [u64],
) -> u32
    ensures { let ls = lines start_x.now start_y.now end_x.now end_y.now in
        let o = counts.old in
        let s = scratch.old in
        CountReplies grid.now mode ls o s out.old result counts.new scratch.new out.new }
{
    capi_counts::counting::mt_count(
        start_x, start_y, end_x, end_y, grid, mode, counts, scratch, out,
    )
}

// Out: nothing where the sum stands in the first table.
#[unsafe(no_mangle)]
pub extern "C" fn mt_add(into: &mut [u32], from: &[u32], out: &mut [u64]) -> u32
    ensures { AddReplies into.old from.now out.old result into.new out.new }
{
    capi_counts::counting::mt_add(into, from, out)
}

// Mode: 0 for the Rust's walk, 1 for the sided one, 2 for the covering one.
// Out: the number of items, the number of globals.
#[unsafe(no_mangle)]
pub extern "C" fn mt_tables_on(
    start_x: &[f64],
    start_y: &[f64],
    end_x: &[f64],
    end_y: &[f64],
    grid: &[u64],
    mode: u32,
    offsets: &mut [u32],
    items: &mut [u32],
    globals: &mut [u32],
    scratch: &mut [u32],
    out: &mut [u64],
) -> u32
    ensures { let ls = lines start_x.now start_y.now end_x.now end_y.now in
        let o = offsets.old in
        let t = items.old in
        let gs = globals.old in
        let s = scratch.old in
        TablesReplies grid.now mode ls o t gs s out.old result offsets.new items.new globals.new scratch.new out.new }
{
    capi_counts::counting::mt_tables_on(
        start_x, start_y, end_x, end_y, grid, mode, offsets, items, globals, scratch, out,
    )
}
