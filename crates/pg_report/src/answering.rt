//! The games that a certificate proves, and their report.
ghost use Rattle.std.specs.Prelude.{◌≡◌, ◌≢◌, false, IfOk, IfErr, OnOk};
ghost use Rattle.std.specs.Io.KnownBytes.{IsAtEnd};
ghost use Rattle.pg_checker.specs.Cuts.{any_rules_by, rules_by};
ghost use Rattle.pg_checker.specs.Opening.{bytes_of};
ghost use Rattle.pg_checker.specs.Terms.{terms};
ghost use Rattle.pg_report.specs.Answering.{IsReported, IsUnreported};
ghost use Rattle.pg_report.specs.Run.{failures};

use crate::fault::AnswerRunFault;
use pg_captures::Bound;
use pg_certificate::{Sink, Source};
use pg_checker::{Opened, answer_opened};
use pg_moves::Unwatched;
use pg_texts::{Verdict, write_report};
use std::alloc::Global;

/// Reads a certificate that was opened, as `answer_opened` does, and writes the report of the games that it proves. A
/// verdict means that these games are the exact answer to the problem of its header, that it is theirs, and that their
/// report was written and nothing else; nothing is written before the certificate has passed. `source` is the one that
/// it was opened from, as that call left it.
///
/// # Errors
/// `Answer` where the certificate gives no answer, with its cause; `Write` where it does and the sink has failed.
pub fn run_answer<R: Source, W: Sink>(
    alloc: Global,
    opened: &mut Opened,
    bounds: &[Box<dyn Bound>],
    source: &mut R,
    out: &mut W,
    max_records: u64,
    max_named: u32,
) -> Result<Verdict, AnswerRunFault>
    ensures headline { IfOk result (λ v. IsReported
        (terms (rules_by code_of excluded bounds.now) max_records max_named (bytes_of opened.old (R.left source.old)))
        opened.old.diagram opened.old.plies (W.held out.old) (W.held out.new) v) }
    ensures end { OnOk result (IsAtEnd (R.left source.new)) }
    ensures runs { OnOk result (R.has_failed source.new ≡ false) }
    ensures written { OnOk result (W.has_failed out.new ≡ false) }
    ensures err { IfErr result (λ e. IsUnreported
        (terms (rules_by code_of excluded bounds.now) max_records max_named (bytes_of opened.old (R.left source.old)))
        (terms (any_rules_by code_of excluded bounds.now) max_records max_named
        (bytes_of opened.old (R.left source.old)))
        opened.old.diagram opened.old.plies
        (failures (R.has_failed source.new) (W.has_failed out.new)) e) }
    ensures unwritten { IfErr result (λ e. e ≢ AnswerRunFault.Write → out.new ≡ out.old) }
{
    let problem = opened.problem();
    let answer = match answer_opened(
        alloc,
        opened,
        bounds,
        source,
        &mut Unwatched,
        max_records,
        max_named,
    ) {
        Ok(answer) => answer,
        Err(fault) => return Err(AnswerRunFault::Answer(fault)),
    };
    match write_report(&problem.diagram, problem.length, &answer.games, out) {
        Ok(verdict) => Ok(verdict),
        Err(_) => Err(AnswerRunFault::Write),
    }
}
