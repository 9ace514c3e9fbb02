//! A certificate whose header was read.
ghost use Rattle.std.specs.Prelude.{◌≡◌, IfSome, IfNone, IfOk, IfErr, Some};
ghost use Rattle.pg_checker.specs.Naming.{Begins, IsNamed, NamesNone};
ghost use Rattle.pg_checker.specs.Opening.{IsUnopened, bytes_of};

use crate::certify::header_fault;
use crate::fault::OpenFault;
use crate::problem::Problem;
use pg_certificate::{Header, RecordReader, Source};
use pg_fen::{Diagram, Length};
use std::marker::Model;

/// A certificate whose header was read: the problem that the header names, the version by which its records are read,
/// and their reader, which holds bytes that were taken from the source behind the header.
#[derive(Drop)]
pub struct Opened {
    pub(crate) problem: Problem,
    pub(crate) version: u8,
    pub(crate) reader: RecordReader,
}

impl Model for Opened {
    ghost use Rattle.pg_certificate.specs.Spelling.{IsVersion};
    ghost use Rattle.pg_checker.specs.Opening.{OpenedState, opened_code};
    ghost use Rattle.pg_checker.specs.inner.Machine.{IsReading};

    ghost Value = { OpenedState };

    ghost coded = { opened_code };

    ghost view = { λ o. record {
      diagram = o.problem.diagram;
      plies = o.problem.length;
      version = o.version;
      held = o.reader.held;
    } };

    ghost invariant = { λ o. IsVersion o.version × IsReading o.version o.reader };
}

impl Opened {
    /// The problem that the header names.
    pub fn problem(&self) -> Problem
        ensures diagram { result.diagram ≡ self.now.diagram }
        ensures length { result.length ≡ self.now.plies }
    {
        self.problem
    }
}

/// The problem that a header names: its diagram has the 32 bytes of the header, its length the plies. There is none
/// where no diagram has those bytes or no length those plies.
pub fn problem_of(header: &Header) -> Option<Problem>
    ensures named { IfSome result (λ p. IsNamed header.now p.diagram p.length) }
    ensures none { IfNone result (NamesNone header.now) }
{
    let length = Length::from_plies(header.plies)?;
    let diagram = Diagram::from_packed(&header.diagram)?;
    Some(Problem { diagram, length })
}

/// Reads the header of a certificate. Up to 4,096 bytes are taken from the source at a time: those behind the header
/// are kept, so the bytes of the certificate are `bytes_of` what was opened and what is left in the source.
///
/// # Errors
/// `Header` with `Read`, `Truncated` or `Magic` of a check, where that stands at the header; `NoProblem` where the
/// header names no problem.
pub fn open<S: Source>(source: &mut S) -> Result<Opened, OpenFault>
    ensures whole { IfOk result (λ o. IfSome (S.left source.old)
        (λ bytes. bytes_of o (S.left source.new) ≡ Some bytes)) }
    ensures named { IfOk result (λ o. IfSome (S.left source.old) (Begins (λ h. IsNamed h o.diagram o.plies))) }
    ensures err { IfErr result (λ e. IsUnopened (S.left source.old) (S.has_failed source.new) e) }
{
    let mut reader = RecordReader::new();
    let header = match reader.header(source) {
        Ok(header) => header,
        Err(fault) => return Err(OpenFault::Header(header_fault(fault))),
    };
    match problem_of(&header) {
        Some(problem) => Ok(Opened {
            problem,
            version: header.version,
            reader,
        }),
        None => Err(OpenFault::NoProblem),
    }
}
