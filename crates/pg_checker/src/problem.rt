//! What a problem asks.
ghost use Rattle.std.specs.Prelude.{◌≡◌, Ok, IfOk, IfErr};
ghost use Rattle.pg_fen.specs.Fields.{fields};
ghost use Rattle.pg_fen.specs.DiagramText.{diagram_of};
ghost use Rattle.pg_fen.specs.Lengths.{length_of};
ghost use Rattle.pg_checker.specs.ProblemText.{IsProblemFault};

use crate::fault::ProblemFault;
use pg_fen::{Diagram, Length};

/// A problem: which games of this length end on this diagram?
#[derive(Clone, Copy, Debug, PartialEq, Eq)]
pub struct Problem {
    pub diagram: Diagram,
    pub length: Length,
}

impl Problem {
    /// Reads a diagram (the placement field of FEN, or all six fields; the PGN standard, section 16.1)
    /// and a length in moves such as `18.5`.
    ///
    /// # Errors
    /// `Diagram` and then `Length` where that text is refused, with its refusal.
    pub fn read(diagram: &str, length: &str) -> Result<Problem, ProblemFault>
        ensures ok { IfOk result (λ p. (diagram_of (fields diagram.now) ≡ Ok p.diagram)
            × (length_of length.now ≡ Ok p.length)) }
        ensures err { IfErr result (λ e. IsProblemFault diagram.now length.now e) }
    {
        let diagram = match Diagram::read(diagram) {
            Ok(diagram) => diagram,
            Err(fault) => return Err(ProblemFault::Diagram(fault)),
        };
        match Length::read(length) {
            Ok(length) => Ok(Problem { diagram, length }),
            Err(fault) => Err(ProblemFault::Length(fault)),
        }
    }
}
