// What a number names: a sizing, a mode of walk. Whoever hands one on has seen that it names one.
ghost use Rattle.std.specs.Prelude.{◌≡◌};
ghost use Rattle.capi.specs.Unknown.{sizing_by, mode_by, plan_by};

use build::Plan;
use sizing::Sizing;
use walk::Mode;

// The last sizing, and the number of a function that is asked for one beyond it.
pub const LAST_SIZING: u32 = 1;

pub const NO_SIZING: u32 = 102;

// The last mode of walk, and the number of a function that is asked for one beyond it.
pub const LAST_MODE: u32 = 2;

pub const NO_MODE: u32 = 103;

pub fn sizing_by(sizing: u32) -> Sizing
    ensures { result ≡ sizing_by sizing }
{
    if sizing == 0 {
        return Sizing::Square;
    }
    Sizing::Axes
}

pub fn mode_by(mode: u32) -> Mode
    ensures { result ≡ mode_by mode }
{
    if mode == 0 {
        return Mode::Rust;
    }
    if mode == 1 {
        return Mode::Sided;
    }
    Mode::Covering
}

pub(crate) fn plan_by(sizing: u32, mode: u32) -> Plan
    ensures { result ≡ plan_by sizing mode }
{
    Plan {
        sizing: sizing_by(sizing),
        mode: mode_by(mode),
    }
}
