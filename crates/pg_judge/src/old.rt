//! What stood in the place of a problem's certificate before it was judged.
ghost use Rattle.std.specs.Prelude.{◌≡◌};
ghost use Rattle.pg_judge.specs.Old.{unsettled_of};

use pg_checker::{AnswerFault, Fault};

/// What stood in the place of a problem's certificate, where that did not settle the problem.
#[derive(Clone, Copy, Debug, PartialEq, Eq)]
pub enum Old {
    /// Nothing that has to be told.
    Absent,
    /// A certificate whose bytes the check refused.
    Refused,
    /// A certificate of another diagram or length, which is kept.
    OfAnother,
}

/// Why a certificate that stands there does not settle a problem.
#[derive(Clone, Copy, Debug, PartialEq, Eq)]
pub enum Unsettled {
    /// The check refuses its bytes.
    Bytes,
    /// Its header names another diagram or another length.
    OfAnother,
    /// It meets a shorter game, or more games of the length than a list holds.
    Games,
    /// A growth was refused.
    Memory,
    /// A read has failed.
    Read,
}

/// Why a certificate that was refused so does not settle a problem. Its bytes are at fault only where neither memory
/// nor a read was, where its header names the problem, and where it meets no games that are none of its faults.
pub fn unsettled_of(fault: &AnswerFault) -> Unsettled
    ensures { result ≡ unsettled_of fault.now }
{
    match fault {
        AnswerFault::TooManyGames | AnswerFault::Check(Fault::Shorter(_)) => Unsettled::Games,
        AnswerFault::Memory | AnswerFault::Check(Fault::Memory) => Unsettled::Memory,
        AnswerFault::Check(Fault::Read) => Unsettled::Read,
        AnswerFault::Check(Fault::OtherLength | Fault::OtherDiagram) => Unsettled::OfAnother,
        AnswerFault::Check(_) => Unsettled::Bytes,
    }
}
