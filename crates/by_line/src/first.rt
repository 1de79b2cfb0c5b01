// Whether a test of two lines is their first: whether none of the cells that were visited before lists both. Pairs that share a cell mostly
// share the one before it, so the search goes backwards from where the two lines stand, and mostly ends at once.
ghost use Rattle.std.specs.Prelude.{◌≡◌, length};
ghost use Rattle.by_line.specs.First.{meets, front_of, meet_before, first_by};

// Whether two increasing lists have an entry in common, from their ends back.
fn meet(xs: &[u32], ys: &[u32]) -> bool
    ensures { let a = xs.now in let b = ys.now in result ≡ meets a b (length a) (length b) }
{
    let mut i = xs.len();
    let mut j = ys.len();
    if i == 0 {
        return false;
    }
    if j == 0 {
        return false;
    }
    let mut x = xs[i - 1];
    let mut y = ys[j - 1];
    while x != y {
        if x < y {
            j = j - 1;
            if j == 0 {
                return false;
            }
            y = ys[j - 1];
        } else {
            i = i - 1;
            if i == 0 {
                return false;
            }
            x = xs[i - 1];
        }
    }
    true
}

// The first so many cells of a line, of lists by line. What is no part of them is empty.
pub(crate) fn front<'a>(line: u32, starts: &[u32], listing: &'a [u32], counts: &[u32]) -> &'a [u32]
    ensures { result.now ≡ front_of line starts.now listing.now counts.now }
{
    let i = line as usize;
    if starts.len() <= i {
        return &listing[0..0];
    }
    if counts.len() <= i {
        return &listing[0..0];
    }
    let from = starts[i] as usize;
    let to = from + (counts[i] as usize);
    if listing.len() < to {
        return &listing[0..0];
    }
    &listing[from..to]
}

// Whether one of the first cells of a line, as many as are counted for it, is one of those of another.
pub fn met_before(a: u32, b: u32, starts: &[u32], listing: &[u32], counts: &[u32]) -> bool
    ensures { result ≡ meet_before a b starts.now listing.now counts.now }
{
    meet(
        front(a, starts, listing, counts),
        front(b, starts, listing, counts),
    )
}

// Whether a test of two lines is their first, by the bits that their marks have in common: with none it is, where the marks are sure; else it is
// looked up.
pub fn is_first(
    common: u32,
    sure: u32,
    a: u32,
    b: u32,
    starts: &[u32],
    listing: &[u32],
    counts: &[u32],
) -> bool
    ensures { result ≡ first_by common sure a b starts.now listing.now counts.now }
{
    if common < sure {
        return true;
    }
    if met_before(a, b, starts, listing, counts) {
        return false;
    }
    true
}
