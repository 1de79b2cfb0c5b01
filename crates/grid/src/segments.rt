// A line as a value, its bounding box, and whether two boxes overlap.
ghost use Rattle.std.specs.Prelude.{◌≡◌, get_or};
ghost use Rattle.std.specs.Float.{nan};
ghost use Rattle.grid.specs.Domain.{lines, segment_at};
ghost use Rattle.grid.specs.Boxes.{box_of, overlaps};

use crate::{Box, Segment};
use numbers::order::{greatest, least};

// What stands at an index, and a NaN beyond the end.
fn entry(s: &[f64], i: usize) -> f64
    ensures { result ≡ get_or s.now i nan }
{
    if i < s.len() {
        return s[i];
    }
    0.0 / 0.0
}

// Line i of four slices; a coordinate beyond its slice is a NaN.
pub fn segment_at(
    start_x: &[f64],
    start_y: &[f64],
    end_x: &[f64],
    end_y: &[f64],
    i: usize,
) -> Segment
    ensures { let ls = lines start_x.now start_y.now end_x.now end_y.now in result ≡ segment_at ls i }
{
    Segment {
        start_x: entry(start_x, i),
        start_y: entry(start_y, i),
        end_x: entry(end_x, i),
        end_y: entry(end_y, i),
    }
}

impl Segment {
    pub fn bounding_box(self) -> Box
        ensures { result ≡ box_of self }
    {
        Box {
            min_x: least(self.start_x, self.end_x),
            min_y: least(self.start_y, self.end_y),
            max_x: greatest(self.start_x, self.end_x),
            max_y: greatest(self.start_y, self.end_y),
        }
    }
}

impl Box {
    // Four comparisons, each made, so that none is a branch.
    pub fn overlaps_with(self, other: Box) -> bool
        ensures { result ≡ overlaps self other }
    {
        (other.min_x <= self.max_x)
            & ((self.min_x <= other.max_x)
                & ((other.min_y <= self.max_y) & (self.min_y <= other.max_y)))
    }
}
