// One line with each of a run of lines.
ghost use Rattle.std.specs.Prelude.{◌≡◌};
ghost use Rattle.grid.specs.Domain.{lines, segment_at};
ghost use Rattle.grid.specs.Boxes.{box_of};
ghost use Rattle.listed.specs.Bytes.{byte_of};
ghost use Rattle.through.specs.Inside.{LineAsks};
ghost use Rattle.resume.specs.Inside.{LinesAsk, LinesScanned};

use grid::Box;

fn one_if(b: bool) -> usize
    ensures { result ≡ byte_of b }
{
    if b {
        return 1;
    }
    0
}

fn box_at(start_x: &[f64], start_y: &[f64], end_x: &[f64], end_y: &[f64], line: u32) -> Box
    requires { LineAsks (lines start_x.now start_y.now end_x.now end_y.now) line }
    ensures { let ls = lines start_x.now start_y.now end_x.now end_y.now in result ≡ box_of (segment_at ls line) }
{
    let i = line as usize;
    listed::boxes::box_of(start_x[i], start_y[i], end_x[i], end_y[i])
}

// The pairs of a line with each of `many` lines from `from` on, for which there is room.
pub(crate) fn scan_lines(
    line: u32,
    from: u32,
    many: u32,
    start_x: &[f64],
    start_y: &[f64],
    end_x: &[f64],
    end_y: &[f64],
    first: &mut [u32],
    second: &mut [u32],
    hits: usize,
) -> usize
    requires { LinesAsk (lines start_x.now start_y.now end_x.now end_y.now) line from many first.old second.old hits }
    ensures { let ls = lines start_x.now start_y.now end_x.now end_y.now in
        LinesScanned ls line from many many first.old second.old hits first.new second.new result }
{
    let bounds = box_at(start_x, start_y, end_x, end_y, line);
    let mut hits = hits;
    for u in 0..many {
        let other = box_at(start_x, start_y, end_x, end_y, from + u);
        let hit = one_if(bounds.overlaps_with(other));
        first[hits] = line;
        second[hits] = from + u;
        hits = hits + hit;
    }
    hits
}
