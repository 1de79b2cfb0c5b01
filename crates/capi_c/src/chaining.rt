// Points with member lengths: the writer of a MultiLineString, and the lines of a build.
ghost use Rattle.grid.specs.Domain.{lines};
ghost use Rattle.capi_members.specs.Lent.{WriteReplies, LineReplies};

// Out: the number of bytes.
#[unsafe(no_mangle)]
pub extern "C" fn mt_write_multi_line_string(
    x: &[u64],
    y: &[u64],
    lengths: &[u32],
    bytes: &mut [u8],
    out: &mut [u64],
) -> u32
    ensures { let l = lengths.now in
        WriteReplies x.now y.now l bytes.old out.old result bytes.new out.new }
{
    capi_members::chaining::mt_write_multi_line_string(x, y, lengths, bytes, out)
}

// Out: the number of lines.
#[unsafe(no_mangle)]
pub extern "C" fn mt_lines_of_members(
    x: &[u64],
    y: &[u64],
    lengths: &[u32],
    start_x: &mut [f64],
    start_y: &mut [f64],
    end_x: &mut [f64],
    end_y: &mut [f64],
    out: &mut [u64],
) -> u32
    ensures { let l = lengths.now in
        let ls = lines start_x.old start_y.old end_x.old end_y.old in
        let ls' = lines start_x.new start_y.new end_x.new end_y.new in
        LineReplies x.now y.now l ls out.old result ls' out.new }
{
    capi_members::chaining::mt_lines_of_members(x, y, lengths, start_x, start_y, end_x, end_y, out)
}
