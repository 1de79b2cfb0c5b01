// How many cells are looked at, and the globals as they are.
ghost use Rattle.std.specs.Prelude.{◌≡◌};
ghost use Rattle.resume.specs.AsTheyAre.{cells_looked_at, globals_by};

use slices::{least, less_one};

// How many cells of a grid are looked at, where there are so many offsets.
pub(crate) fn reach(cells: usize, told: usize) -> usize
    ensures { result ≡ cells_looked_at cells told }
{
    least(least(cells, less_one(told)), 1002001)
}

// The globals: none where the count is beyond their slice, or they do not increase below the number of lines.
pub(crate) fn globals_of<'a>(lines: usize, globals: &'a [u32], count: usize) -> &'a [u32]
    ensures { result.now ≡ globals_by lines globals.now count }
{
    if globals.len() < count {
        return &globals[0..0];
    }
    if tables::is_increasing(lines, &globals[..count]) {
        return &globals[..count];
    }
    &globals[0..0]
}
