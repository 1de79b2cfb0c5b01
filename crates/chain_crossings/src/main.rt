// The program of crossings: one LineString of samples in well-known binary from standard input; its crossings to standard output. Its first word is the
// sizing, `square` or `axes`, and its second the walk, `rust`, `sided` or `covering`: each by its first letter. A read or a write that fails is said on
// standard error.
#![tactic(auto)]

use build::Plan;
use sizing::Sizing;
use std::env::Env;
use walk::Mode;

// The first letter of an argument; 0 where there is none. Of a word that is longer than the room, the front is there.
fn letter(rt: &HostRuntime, i: usize) -> u8 {
    let mut word = [0u8; 16];
    let _ = rt.arg(i, &mut word);
    word[0]
}

fn sizing_of(letter: u8) -> Sizing {
    if letter == b'a' {
        return Sizing::Axes;
    }
    Sizing::Square
}

fn mode_of(letter: u8) -> Mode {
    if letter == b's' {
        return Mode::Sided;
    }
    if letter == b'c' {
        return Mode::Covering;
    }
    Mode::Rust
}

// Prints what there is to print for the bytes of the input. Every text has room (`printed_fits` of `crossing_chain`).
fn print<R: Print + Eprint>(rt: &R, bytes: &[u8], plan: Plan) {
    let mut out = [0u8; 192600];
    let end = crossing_chain::print_crossings(bytes, plan, &mut out);
    if rt.write_all(&out[..end]).is_err() {
        let _ = eprintln!(rt; "morelturret: standard output can't be written");
    }
}

// As of the programs of the grid, 16,394 bytes are enough.
fn main(rt: HostRuntime) {
    let plan = Plan {
        sizing: sizing_of(letter(&rt, 1)),
        mode: mode_of(letter(&rt, 2)),
    };
    let mut bytes = [0u8; 16394];
    let read = input::read_input(&mut rt.stdin(), &mut bytes);
    match read {
        Some(n) => print(&rt, &bytes[..n], plan),
        None => {
            let _ = eprintln!(rt; "morelturret: standard input can't be read");
        }
    }
}
