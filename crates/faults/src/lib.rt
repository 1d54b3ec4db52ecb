// The fault word of a supervisor, how it is armed, and how FAULT is left. Nothing here knows which supervisor it is.
#![tactic(auto)]

ghost use Rattle.std.specs.Prelude.{cond, ◌&&◌, ◌||◌, not, ◌≡◌};
ghost use Rattle.faults.specs.Word.{live};
ghost use Rattle.faults.specs.Exit.{arms, from_fault, retried};

use numbers::{count_up, pick};

// How a tick leaves FAULT, if it does.
#[derive(Clone, Copy, PartialEq, Eq)]
pub enum Exit {
    Stay,
    Clear,
    Retry,
}

// The word of one flag: its bit, given as a power of two, where it is set.
pub fn flag(bit: u16, set: bool) -> u16
    ensures { result ≡ cond set bit 0 }
{
    pick(set, bit, 0)
}

// The flags that the mask lets live, and those that always are.
pub fn live(always: u16, mask: u16, flags: u16) -> u16
    ensures { result ≡ live always mask flags }
{
    flags & (always | mask)
}

// Whether the supervisor is armed after what a tick commands, before it moves.
pub fn arms(armed: bool, low: bool, in_fault: bool) -> bool
    ensures { result ≡ arms armed low in_fault }
{
    armed || low && !in_fault
}

// The move out of FAULT at its nth tick.
pub fn from_fault(timed: bool, limit: u32, nth: u32, retries: u32, clear: u8, blocked: bool) -> Exit
    ensures { result ≡ from_fault timed limit nth retries clear blocked }
{
    if blocked {
        Exit::Stay
    } else if clear == 1 {
        Exit::Clear
    } else if timed && 10000 <= nth && retries < limit {
        Exit::Retry
    } else {
        Exit::Stay
    }
}

// The retries used, after one more.
pub fn retried(limit: u32, retries: u32) -> u32
    ensures { result ≡ retried limit retries }
{
    count_up(retries, limit)
}
