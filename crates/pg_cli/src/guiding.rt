//! `pg why`: a certificate explains a line of moves.
ghost use Rattle.std.specs.Prelude.{◌≡◌, ◌⊎◌, codes, IfOk, IfErr, OnOk};
ghost use Rattle.pg_checker.specs.Cuts.{any_rules_by, rules_by};
ghost use Rattle.pg_checker.specs.Opening.{bytes_of};
ghost use Rattle.pg_checker.specs.Terms.{terms};
ghost use Rattle.clap.specs.Words.{found_of, rows_of};
ghost use Rattle.pg_guide.specs.Why.{AddsRight, failures};
ghost use Rattle.pg_streams.specs.Buffer.{sink_of};
ghost use Rattle.pg_cli.specs.Answers.{HasList};
ghost use Rattle.pg_cli.specs.Runs.{IsOfSink, IsWhyRefusal, why_refusal};
ghost use Rattle.pg_cli.specs.Words.{ByRecords, spelled};

use crate::checking::finished;
use crate::refusals::{DONE, Refusal};
use crate::spelling::{records_of, text_of};
use clap::ArgMatches;
use pg_certificate::format::MOST_NAMED;
use pg_guide::{WhyFault, why as explain};
use pg_report::{AnswerRunFault, Bound, Opened, RunFault, Sink, Source};
use pg_streams::Gathered;
use pg_tolls::Tariff;
use std::alloc::Global;

// Why a line is not explained, as a refusal.
fn refusal_of(fault: WhyFault) -> Refusal
    ensures { result ≡ why_refusal fault }
{
    match fault {
        WhyFault::Games(fault) => Refusal::Check(RunFault::Games(fault)),
        WhyFault::Moves => Refusal::Line,
        WhyFault::Answer(fault) => Refusal::Answer(AnswerRunFault::Answer(fault)),
        WhyFault::Memory => Refusal::Memory,
        WhyFault::Write => Refusal::Check(RunFault::Write),
    }
}

// Explains a line by a certificate that was opened, behind these tariffs, and writes what it says. A status means that
// a list of games is the exact answer to the problem of its header, and that all of it is handed on, of which the last
// line says that the certificate is right. Where more stands in the sink than before a list is the exact answer too.
//
// # Errors
// `Check` with `Games` where the moves are refused, and `Line` where they are not one game; `Answer` where the
// certificate does not give its games; `Memory`; and `Check` with `Write` where writing is refused.
#[inline(never)]
pub(crate) fn why_on<S: Source, W: Sink>(
    alloc: Global,
    words: &ArgMatches<'_>,
    opened: &mut Opened,
    tariffs: &[Tariff],
    bounds: &[Box<dyn Bound>],
    source: &mut S,
    out: &mut Gathered<W>,
) -> Result<u8, Refusal>
    ensures right { OnOk result (HasList opened.old.diagram opened.old.plies) }
    ensures zero { IfOk result (λ status. status ≡ 0) }
    ensures told { OnOk result (AddsRight (⟦<Gathered<W> as Sink>⟧.held out.old) (W.held (sink_of out.new))) }
    ensures silent { (⟦<Gathered<W> as Sink>⟧.held out.new ≡ ⟦<Gathered<W> as Sink>⟧.held out.old)
        ⊎ HasList opened.old.diagram opened.old.plies }
    ensures err { IfErr result (λ refusal. ByRecords (rows_of (found_of words.now)) (λ records. IsWhyRefusal
        (spelled (codes "MOVES") (rows_of (found_of words.now)))
        (terms (rules_by code_of excluded bounds.now) records MOST_NAMED (bytes_of opened.old (S.left source.old)))
        (terms (any_rules_by code_of excluded bounds.now) records MOST_NAMED (bytes_of opened.old (S.left source.old)))
        opened.old.diagram opened.old.plies
        (failures (S.has_failed source.new) (⟦<Gathered<W> as Sink>⟧.has_failed out.new)) refusal)) }
    ensures unwritten { IfErr result (λ refusal. ¬ IsOfSink refusal → out.new ≡ out.old) }
{
    let moves = text_of(words, "MOVES");
    let records = records_of(words);
    match explain(
        alloc, opened, moves, tariffs, bounds, source, out, records, MOST_NAMED,
    ) {
        Ok(()) => finished(DONE, out),
        Err(fault) => Err(refusal_of(fault)),
    }
}
