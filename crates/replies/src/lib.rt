// The answers of the entries for a caller in another language: document 01's number, 0 for success, is returned, and the values go to the start of
// the lent `out`: the words of the result, or the one value of a refusal. The rest of `out` stays as it was. Where `out` has fewer words than a
// success writes, or none, the number is 100, and nothing changes.
#![tactic(auto)]

mod stores;

ghost use Rattle.std.specs.Prelude.{◌≡◌, cond, ◌+◌, ◌≤◌, length};
ghost use Rattle.replies.specs.Replies.{Replies};
ghost use Rattle.replies.specs.Inside.{Handed};
ghost use Rattle.replies.specs.Answers.{of_check, of_snap, of_agreement, of_owned, of_owner, of_owner_answer, of_read, of_cells, of_built, of_part, of_place, of_test, of_batch};

use build::Standing;
use numbers::bits::to_bits;
use own::Owner;
use refusals::Refusal;
use seek::Place;
use snap::Snapped;
use stores::{eight, one, refused, six, three, two};
use visit::{Tally, Test};

// The number of a function whose `out` is short.
pub const SHORT: u32 = 100;

fn flag(b: bool) -> u64
    ensures { result ≡ cond b 1 0 }
{
    if b {
        return 1;
    }
    0
}

pub fn checked(answer: Result<(), Refusal>, out: &mut [u64]) -> u32
    ensures { Replies 1 (of_check answer) out.old result out.new }
{
    if out.len() < 1 {
        return SHORT;
    }
    match answer {
        Ok(()) => 0,
        Err(r) => refused(r, out),
    }
}

// Apart from the test of `out`: with that beside it the compiler moves x and y as one, and each call waits until both are stored.
fn point(answer: Result<Snapped, Refusal>, out: &mut [u64]) -> u32
    requires { 2 ≤ length out.old }
    ensures { Handed (of_snap answer) out.old result out.new }
{
    match answer {
        Ok(Snapped { x, y }) => two(to_bits(x), to_bits(y), out),
        Err(r) => refused(r, out),
    }
}

pub fn snapped(answer: Result<Snapped, Refusal>, out: &mut [u64]) -> u32
    ensures { Replies 2 (of_snap answer) out.old result out.new }
{
    if out.len() < 2 {
        return SHORT;
    }
    point(answer, out)
}

// 1 if the strategies give the same bits, else 0.
pub fn agreement(answer: Result<bool, Refusal>, out: &mut [u64]) -> u32
    ensures { Replies 1 (of_agreement answer) out.old result out.new }
{
    if out.len() < 1 {
        return SHORT;
    }
    match answer {
        Ok(same) => one(flag(same), out),
        Err(r) => refused(r, out),
    }
}

// 1 if the cell owns it, else 0.
pub fn owned(answer: Result<bool, Refusal>, out: &mut [u64]) -> u32
    ensures { Replies 1 (of_owned answer) out.old result out.new }
{
    if out.len() < 1 {
        return SHORT;
    }
    match answer {
        Ok(owns) => one(flag(owns), out),
        Err(r) => refused(r, out),
    }
}

fn whose(owner: Owner, out: &mut [u64]) -> u32
    requires { 3 ≤ length out.old }
    ensures { Handed (of_owner owner) out.old result out.new }
{
    match owner {
        Owner::Cell { row, col } => three(1, row as u64, col as u64, out),
        Owner::Seam => three(2, 0, 0, out),
        Owner::Outside => three(0, 0, 0, out),
    }
}

pub fn owner(answer: Result<Owner, Refusal>, out: &mut [u64]) -> u32
    ensures { Replies 3 (of_owner_answer answer) out.old result out.new }
{
    if out.len() < 3 {
        return SHORT;
    }
    match answer {
        Ok(owner) => whose(owner, out),
        Err(r) => refused(r, out),
    }
}

pub fn read(answer: Result<usize, Refusal>, out: &mut [u64]) -> u32
    ensures { Replies 1 (of_read answer) out.old result out.new }
{
    if out.len() < 1 {
        return SHORT;
    }
    match answer {
        Ok(n) => one(n as u64, out),
        Err(r) => refused(r, out),
    }
}

pub fn cells(answer: Result<usize, Refusal>, out: &mut [u64]) -> u32
    ensures { Replies 1 (of_cells answer) out.old result out.new }
{
    if out.len() < 1 {
        return SHORT;
    }
    match answer {
        Ok(n) => one(n as u64, out),
        Err(r) => refused(r, out),
    }
}

pub fn built(answer: Result<Standing, Refusal>, out: &mut [u64]) -> u32
    ensures { Replies 8 (of_built answer) out.old result out.new }
{
    if out.len() < 8 {
        return SHORT;
    }
    match answer {
        Ok(t) => {
            let grid = t.grid;
            eight(
                to_bits(grid.min_x),
                to_bits(grid.min_y),
                to_bits(grid.cell_width),
                to_bits(grid.cell_height),
                grid.cols as u64,
                grid.rows as u64,
                t.items as u64,
                t.globals as u64,
                out,
            )
        },
        Err(r) => refused(r, out),
    }
}

// A list by its place: the check that it passed or not, where its part starts, and its length.
pub fn part(check: Result<(), Refusal>, from: u64, len: u64, out: &mut [u64]) -> u32
    ensures { Replies 2 (of_part check from (from + len)) out.old result out.new }
{
    if out.len() < 2 {
        return SHORT;
    }
    match check {
        Ok(()) => two(from, len, out),
        Err(r) => refused(r, out),
    }
}

fn made(place: Place, first: u32, second: u32, overlap: u64, out: &mut [u64]) -> u32
    requires { 6 ≤ length out.old }
    ensures { Handed (of_place place first second overlap) out.old result out.new }
{
    match place {
        Place::Cell { row, col } => six(
            0,
            row as u64,
            col as u64,
            first as u64,
            second as u64,
            overlap,
            out,
        ),
        Place::Global(position) => six(
            1,
            position as u64,
            0,
            first as u64,
            second as u64,
            overlap,
            out,
        ),
    }
}

pub fn test(answer: Result<Option<Test>, Refusal>, out: &mut [u64]) -> u32
    ensures { Replies 6 (of_test answer) out.old result out.new }
{
    if out.len() < 6 {
        return SHORT;
    }
    match answer {
        Ok(Some(t)) => {
            let place = t.place;
            made(place, t.first, t.second, flag(t.overlap), out)
        },
        Ok(None) => six(2, 0, 0, 0, 0, 0, out),
        Err(r) => refused(r, out),
    }
}

pub fn batch(answer: Result<Tally, Refusal>, out: &mut [u64]) -> u32
    ensures { Replies 3 (of_batch answer) out.old result out.new }
{
    if out.len() < 3 {
        return SHORT;
    }
    match answer {
        Ok(t) => three(t.tests, t.overlaps, t.bookmark, out),
        Err(r) => refused(r, out),
    }
}
