//! `pg answer`: the games that a certificate proves are reported, or written as PGN, without a list.

ghost use Rattle.std.specs.Prelude.{◌≡◌, Bool, true, codes, IfOk, IfErr};
ghost use Rattle.pg_checker.specs.Cuts.{any_rules_by, rules_by};
ghost use Rattle.pg_checker.specs.Opening.{bytes_of};
ghost use Rattle.pg_checker.specs.Terms.{terms};
ghost use Rattle.clap.specs.Words.{found_of, rows_of};
ghost use Rattle.pg_report.specs.Run.{failures};
ghost use Rattle.pg_streams.specs.Buffer.{sink_of};
ghost use Rattle.pg_cli.specs.Answers.{HasAnswer, HasSentAnswer, IsHandedAnswer};
ghost use Rattle.pg_cli.specs.Runs.{IsAnswerRefusal, IsOfSink};
ghost use Rattle.pg_cli.specs.Words.{ByRecords, Says};

use crate::checking::finished;
use crate::refusals::Refusal;
use crate::sending::send;
use crate::spelling::{records_of, say_pgn};
use clap::ArgMatches;
use pg_certificate::format::MOST_NAMED;
use pg_checker::answer_opened;
use pg_report::{
    AnswerRunFault, Bound, Opened, Sink, Source, Unwatched, run_answer, verdict_status,
};
use pg_streams::Gathered;
use pg_texts::verdict_on;
use std::alloc::Global;

// Reads a certificate that was opened, and writes the report of the games that it proves; the status of their verdict.
// That means that these games are the exact answer to the problem of its header; the report is handed on then.
//
// # Errors
// `Answer` with the fault of the run, or `Check` with `Write` where the rest of the report is refused. Then nothing is
// written, but where the sink refuses it.
#[inline(never)]
fn answer_on<S: Source, W: Sink>(
    alloc: Global,
    words: &ArgMatches<'_>,
    opened: &mut Opened,
    bounds: &[Box<dyn Bound>],
    source: &mut S,
    out: &mut Gathered<W>,
) -> Result<u8, Refusal>
    ensures headline { IfOk result (λ status. HasAnswer opened.old.diagram opened.old.plies status) }
    ensures report { IfOk result (λ status. ByRecords (rows_of (found_of words.now)) (λ records. IsHandedAnswer
        (terms (rules_by code_of excluded bounds.now) records MOST_NAMED (bytes_of opened.old (S.left source.old)))
        opened.old.diagram opened.old.plies
        (⟦<Gathered<W> as Sink>⟧.held out.old) (W.held (sink_of out.new)) status)) }
    ensures err { IfErr result (λ refusal. ByRecords (rows_of (found_of words.now)) (λ records. IsAnswerRefusal
        (terms (rules_by code_of excluded bounds.now) records MOST_NAMED (bytes_of opened.old (S.left source.old)))
        (terms (any_rules_by code_of excluded bounds.now) records MOST_NAMED (bytes_of opened.old (S.left source.old)))
        opened.old.diagram opened.old.plies
        (failures (S.has_failed source.new) (⟦<Gathered<W> as Sink>⟧.has_failed out.new)) refusal)) }
    ensures unwritten { IfErr result (λ refusal. ¬ IsOfSink refusal → out.new ≡ out.old) }
{
    let records = records_of(words);
    match run_answer(alloc, opened, bounds, source, out, records, MOST_NAMED) {
        Ok(verdict) => finished(verdict_status(verdict), out),
        Err(fault) => Err(Refusal::Answer(fault)),
    }
}

// Reads a certificate that was opened, and writes the games that it proves as PGN; the status of their verdict. That
// means that these games are the exact answer to the problem of its header; all of it is handed on then.
//
// # Errors
// As for `answer_on`.
#[inline(never)]
fn answer_as_pgn<S: Source, W: Sink>(
    alloc: Global,
    words: &ArgMatches<'_>,
    opened: &mut Opened,
    bounds: &[Box<dyn Bound>],
    source: &mut S,
    out: &mut Gathered<W>,
) -> Result<u8, Refusal>
    ensures ok { IfOk result (λ status. HasSentAnswer opened.old.diagram opened.old.plies
        (⟦<Gathered<W> as Sink>⟧.held out.old) (W.held (sink_of out.new)) status) }
    ensures err { IfErr result (λ refusal. ByRecords (rows_of (found_of words.now)) (λ records. IsAnswerRefusal
        (terms (rules_by code_of excluded bounds.now) records MOST_NAMED (bytes_of opened.old (S.left source.old)))
        (terms (any_rules_by code_of excluded bounds.now) records MOST_NAMED (bytes_of opened.old (S.left source.old)))
        opened.old.diagram opened.old.plies (failures (S.has_failed source.new) true) refusal)) }
{
    let records = records_of(words);
    match answer_opened(
        alloc,
        opened,
        bounds,
        source,
        &mut Unwatched,
        records,
        MOST_NAMED,
    ) {
        Ok(answer) => {
            let status = verdict_status(verdict_on(&answer.games));
            send(&answer.games, status, out)
        }
        Err(fault) => Err(Refusal::Answer(AnswerRunFault::Answer(fault))),
    }
}

// Reads a certificate as `answer_on` does, and writes its games as PGN where the words say so, else their report.
pub(crate) fn answer_told<S: Source, W: Sink>(
    alloc: Global,
    words: &ArgMatches<'_>,
    opened: &mut Opened,
    bounds: &[Box<dyn Bound>],
    source: &mut S,
    out: &mut Gathered<W>,
) -> Result<u8, Refusal>
    ensures headline { IfOk result (λ status. HasAnswer opened.old.diagram opened.old.plies status) }
    ensures pgn { Says (codes "pgn") (rows_of (found_of words.now)) → IfOk result (λ status. HasSentAnswer
        opened.old.diagram opened.old.plies (⟦<Gathered<W> as Sink>⟧.held out.old) (W.held (sink_of out.new)) status) }
    ensures report { ¬ Says (codes "pgn") (rows_of (found_of words.now)) → IfOk result (λ status.
        ByRecords (rows_of (found_of words.now)) (λ records. IsHandedAnswer
        (terms (rules_by code_of excluded bounds.now) records MOST_NAMED (bytes_of opened.old (S.left source.old)))
        opened.old.diagram opened.old.plies (⟦<Gathered<W> as Sink>⟧.held out.old) (W.held (sink_of out.new)) status)) }
    ensures err { IfErr result (λ refusal. (failed : Bool)
        × ByRecords (rows_of (found_of words.now)) (λ records. IsAnswerRefusal
        (terms (rules_by code_of excluded bounds.now) records MOST_NAMED (bytes_of opened.old (S.left source.old)))
        (terms (any_rules_by code_of excluded bounds.now) records MOST_NAMED (bytes_of opened.old (S.left source.old)))
        opened.old.diagram opened.old.plies (failures (S.has_failed source.new) failed) refusal)) }
{
    if say_pgn(words) {
        return answer_as_pgn(alloc, words, opened, bounds, source, out);
    }
    answer_on(alloc, words, opened, bounds, source, out)
}
