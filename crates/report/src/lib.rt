// The lines that the program prints, in ASCII. Each function puts one line into a buffer, from a
// position on and as far as there is room, and answers the position after it. `clear` is for what
// stands beyond the last.
#![tactic(auto)]

ghost use Rattle.std.specs.Prelude.{◌≡◌, ◌<◌, [], ◌∷◌, length, replicate};
ghost use Rattle.report.specs.Pages.{page, Puts};
ghost use Rattle.report.specs.Numbers.{glyph as Numbers·glyph};
ghost use Rattle.report.specs.Numbers.{in_decimal, hex};
ghost use Rattle.report.specs.Lines.{spaced, grid_line, cell_line, global_line, visit_line, crossings_line, pair_line, refused_line, reason_word, dropped_line};

// One byte, where there is room.
fn put(b: u8, out: &mut [u8], at: usize) -> usize
    ensures { Puts (b ∷ []) (page out.old at) (page out.new result) }
{
    if at < out.len() {
        out[at] = b;
        return at + 1;
    }
    at
}

// Bytes, one after another.
fn put_all(text: &[u8], out: &mut [u8], at: usize) -> usize
    ensures { Puts text.now (page out.old at) (page out.new result) }
{
    let mut at = at;
    for b in text {
        at = put(*b, out, at);
    }
    at
}

fn glyph(d: u64) -> u8
    requires { d < 16 }
    ensures { result ≡ Numbers·glyph d }
{
    if d < 10 {
        return 48 + d as u8;
    }
    87 + d as u8
}

// A number in decimal: its digits are found from the last to the first.
fn put_decimal(n: u64, out: &mut [u8], at: usize) -> usize
    ensures { Puts (in_decimal n) (page out.old at) (page out.new result) }
{
    let mut text = [0u8; 20];
    let mut i = 19;
    text[19] = glyph(n % 10);
    let mut rest = n / 10;
    while 0 < rest {
        i -= 1;
        text[i] = glyph(rest % 10);
        rest /= 10;
    }
    put_all(&text[i..], out, at)
}

// A number in 16 hexadecimal digits.
fn put_hex(n: u64, out: &mut [u8], at: usize) -> usize
    ensures { Puts (hex 16 n) (page out.old at) (page out.new result) }
{
    let mut text = [0u8; 16];
    let mut rest = n;
    for i in (0..16).rev() {
        text[i] = glyph(rest % 16);
        rest /= 16;
    }
    put_all(&text, out, at)
}

// A space and a number in decimal.
fn put_number(n: u64, out: &mut [u8], at: usize) -> usize
    ensures { Puts (32 ∷ in_decimal n) (page out.old at) (page out.new result) }
{
    let at = put(b' ', out, at);
    put_decimal(n, out, at)
}

// Two numbers, each after a space.
fn put_two(m: u64, n: u64, out: &mut [u8], at: usize) -> usize
    ensures { Puts (spaced (m ∷ n ∷ [])) (page out.old at) (page out.new result) }
{
    let at = put_number(m, out, at);
    put_number(n, out, at)
}

// The numbers of a list, each after a space.
fn put_list(list: &[u32], out: &mut [u8], at: usize) -> usize
    ensures { Puts (spaced list.now) (page out.old at) (page out.new result) }
{
    let mut at = at;
    for line in list {
        at = put_number(u64::from(*line), out, at);
    }
    at
}

// A space and a bit pattern.
fn put_pattern(bits: u64, out: &mut [u8], at: usize) -> usize
    ensures { Puts (32 ∷ hex 16 bits) (page out.old at) (page out.new result) }
{
    let at = put(b' ', out, at);
    put_hex(bits, out, at)
}

// `grid` cols rows, the bits of the cells' width and height, items, globals.
pub fn grid_line(
    cols: u32,
    rows: u32,
    width: u64,
    height: u64,
    items: usize,
    globals: usize,
    out: &mut [u8],
    at: usize,
) -> usize
    ensures { Puts (grid_line cols rows width height items globals) (page out.old at) (page out.new result) }
{
    let at = put_all(b"grid", out, at);
    let at = put_two(cols as u64, rows as u64, out, at);
    let at = put_pattern(width, out, at);
    let at = put_pattern(height, out, at);
    let at = put_two(items as u64, globals as u64, out, at);
    put(b'\n', out, at)
}

// `cell` row column and its lines; of an empty list, nothing.
pub fn cell_line(row: u32, col: u32, list: &[u32], out: &mut [u8], at: usize) -> usize
    ensures { Puts (cell_line row col list.now) (page out.old at) (page out.new result) }
{
    if list.len() == 0 {
        return at;
    }
    let at = put_all(b"cell", out, at);
    let at = put_two(row as u64, col as u64, out, at);
    let at = put_list(list, out, at);
    put(b'\n', out, at)
}

// `global` and its lines; of an empty list, nothing.
pub fn global_line(list: &[u32], out: &mut [u8], at: usize) -> usize
    ensures { Puts (global_line list.now) (page out.old at) (page out.new result) }
{
    if list.len() == 0 {
        return at;
    }
    let at = put_all(b"global", out, at);
    let at = put_list(list, out, at);
    put(b'\n', out, at)
}

// `visit` tests overlaps.
pub fn visit_line(tests: u64, overlaps: u64, out: &mut [u8], at: usize) -> usize
    ensures { Puts (visit_line tests overlaps) (page out.old at) (page out.new result) }
{
    let at = put_all(b"visit", out, at);
    let at = put_two(tests, overlaps, out, at);
    put(b'\n', out, at)
}

// `crossings` and how many there are.
pub fn crossings_line(count: u64, out: &mut [u8], at: usize) -> usize
    ensures { Puts (crossings_line count) (page out.old at) (page out.new result) }
{
    let at = put_all(b"crossings", out, at);
    let at = put_number(count, out, at);
    put(b'\n', out, at)
}

// `pair` and its two lines.
pub fn pair_line(first: u32, second: u32, out: &mut [u8], at: usize) -> usize
    ensures { Puts (pair_line first second) (page out.old at) (page out.new result) }
{
    let at = put_all(b"pair", out, at);
    let at = put_two(first as u64, second as u64, out, at);
    put(b'\n', out, at)
}

// `refused` and the number.
pub fn refused_line(number: u32, out: &mut [u8], at: usize) -> usize
    ensures { Puts (refused_line number) (page out.old at) (page out.new result) }
{
    let at = put_all(b"refused", out, at);
    let at = put_number(number as u64, out, at);
    put(b'\n', out, at)
}

// `range`, `repeat` or `short`, after a space. The reason is the number that stands in a slice of reasons.
fn put_reason(reason: u32, out: &mut [u8], at: usize) -> usize
    ensures { Puts (32 ∷ reason_word reason) (page out.old at) (page out.new result) }
{
    let at = put(b' ', out, at);
    if reason == 1 {
        return put_all(b"range", out, at);
    }
    if reason == 2 {
        return put_all(b"repeat", out, at);
    }
    put_all(b"short", out, at)
}

// A dropped point: its member, its number in the member, and why.
pub fn dropped_line(member: u64, point: u64, reason: u32, out: &mut [u8], at: usize) -> usize
    ensures { Puts (dropped_line member point reason) (page out.old at) (page out.new result) }
{
    let at = put_decimal(member, out, at);
    let at = put_number(point, out, at);
    let at = put_reason(reason, out, at);
    put(b'\n', out, at)
}

// Writes zero to each byte.
pub fn clear(s: &mut [u8])
    ensures { s.new ≡ replicate (length s.old) 0 }
{
    s.fill(0);
}
