// The readers of one LineString and of one MultiLineString.
ghost use Rattle.capi_members.specs.Lent.{ReadReplies, MultiReplies};

// Out: the number of points.
#[unsafe(no_mangle)]
pub extern "C" fn mt_read_line_string(
    bytes: &[u8],
    x: &mut [f64],
    y: &mut [f64],
    out: &mut [u64],
) -> u32
    ensures { let b = bytes.now in
        ReadReplies b x.old y.old out.old result x.new y.new out.new }
{
    capi_members::reading::mt_read_line_string(bytes, x, y, out)
}

// Out: the number of points and the number of members.
#[unsafe(no_mangle)]
pub extern "C" fn mt_read_multi_line_string(
    bytes: &[u8],
    x: &mut [u64],
    y: &mut [u64],
    lengths: &mut [u32],
    out: &mut [u64],
) -> u32
    ensures { let b = bytes.now in
        let l = lengths.old in
        MultiReplies b x.old y.old l out.old result x.new y.new lengths.new out.new }
{
    capi_members::reading::mt_read_multi_line_string(bytes, x, y, lengths, out)
}
