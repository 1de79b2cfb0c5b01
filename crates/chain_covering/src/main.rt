// The program in the square sizing and the covering walk.
#![tactic(auto)]

use build::Plan;
use sizing::Sizing;
use walk::Mode;

fn main(rt: HostRuntime) {
    program::run(
        &mut rt.stdin(),
        &rt,
        Plan {
            sizing: Sizing::Square,
            mode: Mode::Covering,
        },
    );
}
