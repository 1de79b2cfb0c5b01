// A grid as 64-bit words: the bit patterns of its minima and of the width and the height of its cells, its columns, its rows.
ghost use Rattle.std.specs.Prelude.{◌≡◌, get_or};
ghost use Rattle.grid.specs.Words.{count_by, grid_by};

use crate::Grid;
use numbers::bits::from_bits;

// How many words say a grid.
pub const WORDS: usize = 6;

// The word at a place, and 0 beyond the end.
fn word(words: &[u64], at: usize) -> u64
    ensures { result ≡ get_or words.now at 0 }
{
    if at < words.len() {
        return words[at];
    }
    0
}

// A count that 32 bits do not hold is cut to the largest that they do, which no fit grid has.
fn count(word: u64) -> u32
    ensures { result ≡ count_by word }
{
    if word < 4294967295 {
        return word as u32;
    }
    4294967295
}

// The grid that words say. A word that is not there is 0, and those beyond the sixth are not read.
pub fn grid_by(words: &[u64]) -> Grid
    ensures { result ≡ grid_by words.now }
{
    Grid {
        min_x: from_bits(word(words, 0)),
        min_y: from_bits(word(words, 1)),
        cell_width: from_bits(word(words, 2)),
        cell_height: from_bits(word(words, 3)),
        cols: count(word(words, 4)),
        rows: count(word(words, 5)),
    }
}
