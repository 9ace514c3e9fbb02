//! `pg check`: a certificate is checked for a problem and a list of games.

ghost use Rattle.std.specs.Prelude.{◌≡◌, true, codes, IfOk, IfErr, OnOk};
ghost use Rattle.std.specs.Io.KnownBytes.{Keeps};
ghost use Rattle.clap.specs.Words.{found_of, rows_of};
ghost use Rattle.pg_certificate.specs.Pushing.{AddsSome};
ghost use Rattle.pg_checker.specs.Cuts.{rules_by};
ghost use Rattle.pg_checker.specs.Terms.{Terms, terms};
ghost use Rattle.pg_report.specs.Run.{Failures, failures};
ghost use Rattle.pg_report.specs.declared.fault.RunFault.TheVariants.{Write};
ghost use Rattle.pg_pgn.specs.Writing.{IsPgnText};
ghost use Rattle.pg_streams.specs.Buffer.{IsHandedOn, sink_of};
ghost use Rattle.pg_texts.specs.Report.{IsReport};
ghost use Rattle.pg_cli.specs.Answers.{IsAnswered, OfGiven};
ghost use Rattle.pg_cli.specs.Runs.{IsFoundRefusal, IsOfSink, IsRefusedFor, IsUnchecked};
ghost use Rattle.pg_cli.specs.Words.{ByRecords, IsChecked, Says};

use crate::asked::Carrying;
use crate::knowing::{Listed, read_listed};
use crate::refusals::Refusal;
use crate::screen::Screen;
use crate::sending::send;
use crate::spelling::{records_of, say_pgn, text_of};
use clap::ArgMatches;
use pg_certificate::format::MOST_NAMED;
use pg_files::size_of;
use pg_report::{
    Bound, Problem, ProblemFault, Refused, RunFault, Sink, Source, ToWrite, run_listed,
    verdict_status,
};
use pg_streams::{Cleared, Gathered, Passing, Terminal};
use std::alloc::Global;
use std::io;
use std::io::Read;
use std::rt::Runtime;

// The status that a report has, once the report is wholly handed on.
//
// # Errors
// `Check` with `Write` where the rest of the report is refused.
pub(crate) fn finished<W: Sink>(status: u8, out: &mut Gathered<W>) -> Result<u8, Refusal>
    ensures ok { IfOk result (λ s. s ≡ status) }
    ensures handed { OnOk result (Keeps (⟦<Gathered<W> as Sink>⟧.held out.old) (W.held (sink_of out.new))) }
    ensures all { OnOk result (IsHandedOn out.new) }
    ensures err { IfErr result (λ refusal. (refusal ≡ Refusal.Check Write)
        × (⟦<Gathered<W> as Sink>⟧.has_failed out.new ≡ true)) }
{
    match out.flush() {
        Ok(()) => Ok(status),
        Err(Refused) => Err(Refusal::Check(RunFault::Write)),
    }
}

// Checks the certificate that a source gives, with no more records than these, for a problem and a list of games, and
// writes the report; the status of its verdict. A status means that these games are the exact answer, and 0 that it is
// one; the report is handed on then.
//
// # Errors
// `Check` with the fault of the check. Nothing is written then, but where the sink refuses it.
#[inline(never)]
pub(crate) fn check_listed<S: Source, W: Sink>(
    alloc: Global,
    listed: &Listed,
    records: u64,
    bounds: &[Box<dyn Bound>],
    source: &mut S,
    out: &mut Gathered<W>,
) -> Result<u8, Refusal>
    ensures headline { IfOk result (λ status. IsAnswered listed.now.problem.diagram listed.now.problem.length
        listed.now.games status) }
    ensures report { OnOk result (AddsSome
        (IsReport listed.now.problem.diagram listed.now.problem.length listed.now.games)
        (⟦<Gathered<W> as Sink>⟧.held out.old) (W.held (sink_of out.new))) }
    ensures err { IfErr result (λ refusal. IsFoundRefusal
        listed.now.problem.diagram listed.now.problem.length listed.now.games
        (terms (rules_by code_of excluded bounds.now) records MOST_NAMED (S.left source.old))
        (failures (S.has_failed source.new) (⟦<Gathered<W> as Sink>⟧.has_failed out.new)) refusal) }
    ensures unwritten { IfErr result (λ refusal. ¬ IsOfSink refusal → out.new ≡ out.old) }
{
    let Problem { diagram, length } = &listed.problem;
    match run_listed(
        alloc,
        diagram,
        *length,
        &listed.games,
        bounds,
        source,
        out,
        records,
        MOST_NAMED,
    ) {
        Ok(verdict) => finished(verdict_status(verdict), out),
        Err(fault) => Err(Refusal::Check(fault)),
    }
}

// The same with as many records as the words allow.
pub(crate) fn check_on<S: Source, W: Sink>(
    alloc: Global,
    words: &ArgMatches<'_>,
    listed: &Listed,
    bounds: &[Box<dyn Bound>],
    source: &mut S,
    out: &mut Gathered<W>,
) -> Result<u8, Refusal>
    ensures headline { IfOk result (λ status. IsAnswered listed.now.problem.diagram listed.now.problem.length
        listed.now.games status) }
    ensures report { OnOk result (AddsSome
        (IsReport listed.now.problem.diagram listed.now.problem.length listed.now.games)
        (⟦<Gathered<W> as Sink>⟧.held out.old) (W.held (sink_of out.new))) }
    ensures err { IfErr result (λ refusal. ByRecords (rows_of (found_of words.now)) (λ records. IsFoundRefusal
        listed.now.problem.diagram listed.now.problem.length listed.now.games
        (terms (rules_by code_of excluded bounds.now) records MOST_NAMED (S.left source.old))
        (failures (S.has_failed source.new) (⟦<Gathered<W> as Sink>⟧.has_failed out.new)) refusal)) }
    ensures found { IfErr result (λ refusal. (t : Terms) × (failed : Failures) × IsFoundRefusal
        listed.now.problem.diagram listed.now.problem.length listed.now.games t failed refusal) }
    ensures unwritten { IfErr result (λ refusal. ¬ IsOfSink refusal → out.new ≡ out.old) }
{
    check_listed(alloc, listed, records_of(words), bounds, source, out)
}

// The same as `check_listed`, with the games as PGN in place of their report.
#[inline(never)]
fn check_as_pgn<S: Source, W: Sink>(
    alloc: Global,
    listed: &Listed,
    records: u64,
    bounds: &[Box<dyn Bound>],
    source: &mut S,
    out: &mut Gathered<W>,
) -> Result<u8, Refusal>
    ensures headline { IfOk result (λ status. IsAnswered listed.now.problem.diagram listed.now.problem.length
        listed.now.games status) }
    ensures text { OnOk result (AddsSome (IsPgnText listed.now.games)
        (⟦<Gathered<W> as Sink>⟧.held out.old) (W.held (sink_of out.new))) }
    ensures found { IfErr result (λ refusal. (t : Terms) × (failed : Failures) × IsFoundRefusal
        listed.now.problem.diagram listed.now.problem.length listed.now.games t failed refusal) }
{
    let asked = &listed.problem;
    let mut unread = ToWrite::new(io::sink());
    match run_listed(
        alloc,
        &asked.diagram,
        asked.length,
        &listed.games,
        bounds,
        source,
        &mut unread,
        records,
        MOST_NAMED,
    ) {
        Ok(verdict) => send(&listed.games, verdict_status(verdict), out),
        Err(cause) => Err(Refusal::Check(cause)),
    }
}

// Checks as `check_on` does, and writes the games as PGN where the words say so, else their report.
fn check_told<S: Source, W: Sink>(
    alloc: Global,
    words: &ArgMatches<'_>,
    listed: &Listed,
    bounds: &[Box<dyn Bound>],
    source: &mut S,
    out: &mut Gathered<W>,
) -> Result<u8, Refusal>
    ensures headline { IfOk result (λ status. IsAnswered listed.now.problem.diagram listed.now.problem.length
        listed.now.games status) }
    ensures pgn { Says (codes "pgn") (rows_of (found_of words.now)) → OnOk result (AddsSome (IsPgnText listed.now.games)
        (⟦<Gathered<W> as Sink>⟧.held out.old) (W.held (sink_of out.new))) }
    ensures report { ¬ Says (codes "pgn") (rows_of (found_of words.now)) → OnOk result (AddsSome
        (IsReport listed.now.problem.diagram listed.now.problem.length listed.now.games)
        (⟦<Gathered<W> as Sink>⟧.held out.old) (W.held (sink_of out.new))) }
    ensures found { IfErr result (λ refusal. (t : Terms) × (failed : Failures) × IsFoundRefusal
        listed.now.problem.diagram listed.now.problem.length listed.now.games t failed refusal) }
{
    if say_pgn(words) {
        return check_as_pgn(alloc, listed, records_of(words), bounds, source, out);
    }
    check_on(alloc, words, listed, bounds, source, out)
}

// `pg check`: a certificate that was opened is checked, and the report stands on standard output. A status means that to the
// problem a list that some text spells is the exact answer, and 0 that it has one game; the text is that of the file
// GAMES or of standard input, of which no contract can say what it gives. A game that is called unlisted is a solution.
#[inline(never)]
pub(crate) fn check<R: Runtime + AllocGlobal, F: Read + Drop>(
    rt: &R,
    words: &ArgMatches<'_>,
    problem: Result<Problem, ProblemFault>,
    certificate: &mut Carrying<F>,
    bounds: &[Box<dyn Bound>],
    screen: Screen,
) -> Result<u8, Refusal>
    ensures ok { IfOk result (λ status. OfGiven problem (λ d n. IsChecked d n status)) }
    ensures err { IfErr result (IsRefusedFor IsUnchecked problem) }
{
    let listed = match read_listed(rt, words, problem, screen) {
        Ok(listed) => listed,
        Err(refusal) => return Err(refusal),
    };
    let terminal = Terminal::new(screen.lines);
    let size = size_of(rt, text_of(words, "CERT"));
    let mut source = Passing::new(rt, &terminal, &mut certificate.file, size);
    let mut out = Gathered::new(Cleared::new(ToWrite::new(io::writer(rt)), rt, &terminal));
    let answer = check_told(rt.alloc(), words, &listed, bounds, &mut source, &mut out);
    source.end();
    answer
}
