// The lists that the line goes to, and its number in them.
ghost use Rattle.std.specs.Prelude.{◌≡◌, ◌+◌, ◌≤◌, length};
ghost use Rattle.walk.specs.Segment.{segment_of};
ghost use Rattle.tables.specs.Tables.{tables};
ghost use Rattle.added.specs.Added.{AddIs, room_for, front};
ghost use Rattle.added.specs.Inside.{SegmentWalkable, GoesAs, Insertable, Inserted, globals_left, Puttable, PutIs, Placeable};

use crate::checks::check_room;
use crate::items::spread_items;
use crate::offsets::raise_offsets;
use crate::{Added, Goes};
use grid::{Grid, Segment};
use refusals::Refusal;
use walk::{Mode, Reached};

// Where the line goes by its walk, or nothing if the walk was cut off. A line of more than 2,048 cells goes to the globals, and so does one that is
// everywhere, whose cells are not listed.
fn goes_to(mode: Mode, grid: Grid, line: Segment, scratch: &mut [u32]) -> Option<Goes>
    requires { SegmentWalkable grid line scratch.old }
    ensures { GoesAs (segment_of mode grid line) scratch.old scratch.new result }
{
    let walked = walk::segment_cells(mode, grid, line, scratch);
    let Ok(reached) = walked else {
        return None;
    };
    match reached {
        Reached::Found(k) => {
            if 2048 < k {
                return Some(Goes {
                    cells: 0,
                    globals: 1,
                });
            }
            Some(Goes {
                cells: k,
                globals: 0,
            })
        },
        Reached::Everywhere => Some(Goes {
            cells: 0,
            globals: 1,
        }),
    }
}

// The number at the end of the lists of the visited cells, in place, and zero beyond the tables.
fn insert(
    n: u32,
    visited: &[u32],
    cells: usize,
    total: usize,
    offsets: &mut [u32],
    items: &mut [u32],
)
    requires { Insertable visited.now cells total offsets.old items.old }
    ensures { Inserted n visited.now cells offsets.old items.old offsets.new items.new }
{
    spread_items(n, visited, offsets, total, items);
    slices::clear_from(items, total + visited.len());
    raise_offsets(visited, offsets, cells + 1);
    slices::clear_from(offsets, cells + 1);
}

// The number at the end of the globals, where it goes there, and zero beyond them.
fn list_global(n: u32, more: usize, found: usize, globals: &mut [u32])
    requires { (more ≤ 1) × (found + more ≤ length globals.old) }
    ensures { globals.new ≡ globals_left n more found globals.old }
{
    if more == 0 {
        slices::clear_from(globals, found);
        return;
    }
    globals[found] = n;
    slices::clear_from(globals, found + 1);
}

// 5 and 6, decided before anything moves; else the number in its lists. The first `cells` of the scratch are left there, and zero beyond them.
fn put_in(
    grid: Grid,
    n: usize,
    cells: usize,
    more: usize,
    offsets: &mut [u32],
    items: &mut [u32],
    globals: &mut [u32],
    global_count: usize,
    scratch: &mut [u32],
) -> Result<Added, Refusal>
    requires { let t = tables grid n offsets.old items.old globals.old global_count in Puttable t scratch.old cells more }
    ensures { let t = tables grid n offsets.old items.old globals.old global_count in
        let s = scratch.old in
        PutIs t s cells more result offsets.new items.new globals.new scratch.new }
{
    let end = (grid.rows as usize) * (grid.cols as usize);
    let total = offsets[end] as usize;
    let grown = total + cells;
    let found = global_count + more;
    let room = check_room(grown, items.len(), found, globals.len());
    if let Err(r) = room {
        slices::clear(scratch);
        return Err(r);
    }
    insert(n as u32, &scratch[..cells], end, total, offsets, items);
    list_global(n as u32, more, global_count, globals);
    slices::clear_from(scratch, cells);
    Ok(Added {
        cells,
        items: grown,
        globals: found,
    })
}

// 7, 5 and 6, which leave the tables as they were; else the line in its lists. The cells that list it are left at the front of the scratch.
pub(crate) fn place(
    mode: Mode,
    grid: Grid,
    line: Segment,
    n: usize,
    offsets: &mut [u32],
    items: &mut [u32],
    globals: &mut [u32],
    global_count: usize,
    scratch: &mut [u32],
) -> Result<Added, Refusal>
    requires { let t = tables grid n offsets.old items.old globals.old global_count in Placeable grid line t scratch.old }
    ensures { let t = tables grid n offsets.old items.old globals.old global_count in
        let s = scratch.old in
        AddIs t (room_for mode grid line t) s (front s) result offsets.new items.new globals.new scratch.new }
{
    let goes = goes_to(mode, grid, line, scratch);
    match goes {
        None => Err(Refusal {
            number: 7,
            value: 0,
        }),
        Some(
            Goes {
                cells,
                globals: more,
            },
        ) => put_in(
            grid,
            n,
            cells,
            more,
            offsets,
            items,
            globals,
            global_count,
            scratch,
        ),
    }
}
