//! Why a diagram is not shown, and why a check or a certificate ends without its report.
ghost use Rattle.std.specs.Prelude.{◌≡◌};
ghost use Rattle.pg_report.specs.Answering.{of_opening};
ghost use Rattle.pg_report.specs.Run.{of_problem};

use pg_checker::{AnswerFault, Fault, OpenFault, ProblemFault};
use pg_fen::{FenFault, LengthFault};
use pg_san::GamesFault;
use thiserror::Error;

/// Why a diagram is not shown.
#[derive(Debug, Clone, Copy, PartialEq, Eq, Error)]
pub enum ShowFault {
    /// A growth was refused.
    #[error("out of memory")]
    Memory,
    /// The sink has failed. How many bytes went out is not known.
    #[error("write fault")]
    Write,
}

/// Why a check ends without its report, the first of these that holds.
#[derive(Debug, PartialEq, Eq, Drop, Error)]
pub enum RunFault {
    /// The text is refused as a diagram.
    #[error("{0}")]
    Diagram(FenFault),
    /// The text is refused as a length.
    #[error("{0}")]
    Length(LengthFault),
    /// The text is refused as a list of games.
    #[error("{0}")]
    Games(GamesFault),
    /// The check does not say yes.
    #[error("{0}")]
    Check(Fault),
    /// The sink has failed. How many bytes went out is not known.
    #[error("write fault")]
    Write,
}

impl RunFault {
    /// Why two texts are no problem, as why there is no report.
    pub fn of_problem(fault: ProblemFault) -> RunFault
        ensures { result ≡ of_problem fault }
    {
        match fault {
            ProblemFault::Diagram(fault) => RunFault::Diagram(fault),
            ProblemFault::Length(fault) => RunFault::Length(fault),
        }
    }
}

/// Why a certificate has no report of its own games, the first of these that holds.
#[derive(Debug, PartialEq, Eq, Drop, Error)]
pub enum AnswerRunFault {
    /// Its header names no problem: no diagram has those 32 bytes, or no length those plies.
    #[error("certificate for no problem")]
    NoProblem,
    /// It does not give its games.
    #[error("{0}")]
    Answer(AnswerFault),
    /// The sink has failed. How many bytes went out is not known.
    #[error("write fault")]
    Write,
}

impl AnswerRunFault {
    /// Why a certificate is not opened, as why it has no report.
    pub fn of_opening(fault: OpenFault) -> AnswerRunFault
        ensures { result ≡ of_opening fault }
    {
        match fault {
            OpenFault::Header(fault) => AnswerRunFault::Answer(AnswerFault::Check(fault)),
            OpenFault::NoProblem => AnswerRunFault::NoProblem,
        }
    }
}
