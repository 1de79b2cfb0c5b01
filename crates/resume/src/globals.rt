// From run to run of lines through the globals, until the outputs are full or no test is left.
ghost use Rattle.grid.specs.Domain.{lines};
ghost use Rattle.resume.specs.Inside.{Passed, GlobalsAsk, GlobalsRanIs};

use crate::{lines, settle};
use slices::least;

#[derive(Clone, Copy)]
pub(crate) struct GlobalsRan {
    pub p: usize,
    pub q: usize,
    pub k: u32,
    pub tests: u64,
    pub hits: usize,
}

// How many of the globals up to position p are below line k.
pub(crate) fn passed(globals: &[u32], p: usize, k: u32) -> usize
    ensures { Passed globals.now p k result }
{
    if globals.len() <= p {
        return 0;
    }
    for q in 0..=p {
        if k <= globals[q] {
            return q;
        }
    }
    p + 1
}

pub(crate) fn run_globals(
    globals: &[u32],
    p: usize,
    q: usize,
    k: u32,
    start_x: &[f64],
    start_y: &[f64],
    end_x: &[f64],
    end_y: &[f64],
    first: &mut [u32],
    second: &mut [u32],
    hits: usize,
) -> GlobalsRan
    requires { GlobalsAsk (lines start_x.now start_y.now end_x.now end_y.now) globals.now p q k first.old second.old hits }
    ensures { let ls = lines start_x.now start_y.now end_x.now end_y.now in
        GlobalsRanIs ls globals.now p k first.old second.old hits first.new second.new result }
{
    let n = start_x.len() as u32;
    let mut p = p;
    let mut q = q;
    let mut k = k;
    let mut tests: u64 = 0;
    let mut hits = hits;
    while hits < first.len() {
        let Some(next) = settle::global_at(n, globals, p, q, k) else {
            break;
        };
        let count = least((next.stop - next.k) as usize, first.len() - hits) as u32;
        hits = lines::scan_lines(
            globals[next.p],
            next.k,
            count,
            start_x,
            start_y,
            end_x,
            end_y,
            first,
            second,
            hits,
        );
        tests = tests + (count as u64);
        p = next.p;
        q = next.q;
        k = next.k + count;
    }
    GlobalsRan {
        p,
        q,
        k,
        tests,
        hits,
    }
}
