//! Why the walk stops.
ghost use Rattle.std.specs.Prelude.{◌≡◌, ◌≤◌, length, reverse};
ghost use Rattle.pg_checker.specs.inner.Machine.{path};
ghost use Rattle.pg_checker.specs.inner.Checking.{fault_of};
ghost use Rattle.pg_checker.specs.inner.Halting.{full};

use crate::fault::Fault;
use crate::machine::{Frame, game_along};

// A cause in the certificate, where the game that is not listed is left out.
#[derive(Clone, Copy)]
pub(crate) enum Reason {
    Budget,
    Truncated,
    UnknownRecord(u8),
    UnknownBound(u8),
    CutFails(u8),
    RefUnknown,
    RefDiffers,
    RefFertile,
    TooManyNamed,
    Shorter(u8),
    Unlisted,
    Trailing,
}

// Why the walk halts: for want of memory, for a source that fails, or for a cause in the
// certificate. The game that is not listed is the one along the open nodes.
#[derive(Clone, Copy)]
pub(crate) enum Halt {
    Memory,
    Read,
    Because(Reason),
}

// The fault that a halt with these nodes open is.
pub(crate) fn fault_of(halt: Halt, frames: &[Frame]) -> Fault
    requires { length frames.now ≤ 128 }
    ensures { result ≡ fault_of (full (path (reverse frames.now)) halt) }
{
    let reason = match halt {
        Halt::Memory => return Fault::Memory,
        Halt::Read => return Fault::Read,
        Halt::Because(reason) => reason,
    };
    match reason {
        Reason::Budget => Fault::Budget,
        Reason::Truncated => Fault::Truncated,
        Reason::UnknownRecord(byte) => Fault::UnknownRecord(byte),
        Reason::UnknownBound(code) => Fault::UnknownBound(code),
        Reason::CutFails(code) => Fault::CutFails(code),
        Reason::RefUnknown => Fault::RefUnknown,
        Reason::RefDiffers => Fault::RefDiffers,
        Reason::RefFertile => Fault::RefFertile,
        Reason::TooManyNamed => Fault::TooManyNamed,
        Reason::Shorter(plies) => Fault::Shorter(plies),
        Reason::Unlisted => Fault::Unlisted(game_along(frames)),
        Reason::Trailing => Fault::Trailing,
    }
}
