//! The program `pg`, the checker of shortest proof games: `pg solve DIAGRAM [LENGTH] [--game MOVES] [--keep CERT]`,
//! `pg show DIAGRAM [LENGTH]`, `pg moves FEN`, `pg count FEN PLIES`, `pg games DIAGRAM LENGTH [GAMES]`, `pg cooks
//! DIAGRAM LENGTH GAMES [--nodes N] [--foreign D]`, `pg check DIAGRAM LENGTH CERT [GAMES] [--records N]`, `pg answer
//! CERT [--records N]`, `pg search DIAGRAM LENGTH CERT [--nodes N] [--games FILE]`, `pg judge PROBLEMS [--certificates
//! FOLDER] [--nodes N]`, `pg why CERT MOVES [--records N]`, `pg page CERT [--out FILE] [--nodes K]` and `pg upgrade
//! OLD NEW [--records N]`; `--journeys` and `--tolls` stand behind `check` and `search`, `--minutes M` behind `cooks`,
//! `search`, `solve` and `judge`. docs/FORMATS.md has all words.
#![tactic(auto)]

ghost use Rattle.std.specs.Prelude.{◌≡◌, ◌⊎◌, ◌↔◌, codes, IsTrue, IfOk, IfErr};
ghost use Rattle.clap.specs.Words.{found_of, rows_of};
ghost use Rattle.pg_cli.specs.Answers.{IsGivenBy, IsNamedBy, OfGiven};
ghost use Rattle.pg_cli.specs.Asking.{GoesByJourneys, refuses_as_asked, says_as_asked};
ghost use Rattle.pg_cli.specs.Ending.{IsEnd, IsUnready, refuses};
ghost use Rattle.pg_cli.specs.Words.{IsStatus, Says, says, says_of_problem, says_of_words};

mod answering;
mod asked;
mod bounds;
mod checking;
mod commands;
mod converting;
mod guiding;
mod hints;
mod judging;
mod keeping;
mod knowing;
mod limits;
mod lists;
mod paging;
mod positions;
mod problems;
mod refusals;
mod screen;
mod searching;
mod sending;
mod solving;
mod spelling;
mod telling;
mod upgrading;
mod watching;

use crate::asked::{Asked, asked_by};
use crate::bounds::{journeys_to, tolls_to, travel_to};
use crate::commands::{Command, OtherCommand, ProblemCommand};
use crate::hints::{advise, advise_status, advise_words};
use crate::limits::{are_minutes, is_amount};
use crate::refusals::{BAD_INPUT, DONE, NO_FILE, Refusal, refuse};
use crate::screen::{Screen, ask_for_hints, is_dumb};
use crate::spelling::{nameless_in, say_journeys, say_no_journeys, say_tolls, text_of};
use crate::telling::tell;
use clap::ArgMatches;
use clap::error::ErrorKind;
use pg_files::FileName;
use pg_journeys::Journeys;
use pg_report::{Bound, Captures, PawnFiles, Problem, ProblemFault, Promotions, Travel};
use pg_tariff_files::number_of;
use pg_words::pg;
use std::fs::File;
use std::io::{IsTerminal, Read};
use std::process::ExitCode;
use std::rt::Runtime;
use std::{env, io};

// Whether a check with these words goes by journeys too.
fn checks_by_journeys(words: &ArgMatches<'_>) -> bool
    ensures { IsTrue result ↔ (Says (codes "journeys") (rows_of (found_of words.now))
        ⊎ Says (codes "tolls") (rows_of (found_of words.now))) }
{
    say_journeys(words) || say_tolls(words)
}

// Whether the words of a search say of tolls that journeys go with them.
fn joins_journeys(words: &ArgMatches<'_>) -> bool
    ensures { IsTrue result ↔ (Says (codes "tolls") (rows_of (found_of words.now))
        × ¬ Says (codes "no-journeys") (rows_of (found_of words.now))) }
{
    say_tolls(words) && !say_no_journeys(words)
}

// Whether a search with these words goes by journeys too.
fn searches_by_journeys(words: &ArgMatches<'_>) -> bool
    ensures { IsTrue result ↔ (Says (codes "journeys") (rows_of (found_of words.now))
        ⊎ (Says (codes "tolls") (rows_of (found_of words.now))
        × ¬ Says (codes "no-journeys") (rows_of (found_of words.now)))) }
{
    say_journeys(words) || joins_journeys(words)
}

// Whether what is asked with these words is gone about by the bound by journeys too.
fn goes_by_journeys<F>(asked: &Asked<F>, words: &ArgMatches<'_>) -> bool
    ensures { IsTrue result ↔ GoesByJourneys asked.now (rows_of (found_of words.now)) }
{
    match asked {
        Asked::Other(OtherCommand::Show) => true,
        Asked::Check(_, _) => checks_by_journeys(words),
        Asked::Search(_) => searches_by_journeys(words),
        Asked::File(_, _) => true,
        _ => false,
    }
}

// Whether the words are ready to be gone by.
//
// # Errors
// `Minutes` where their number of minutes is none, `Nodes` and `Bytes` likewise, then `NoName` where a word that is to
// name a file is empty.
fn ready(words: &ArgMatches<'_>) -> Result<(), Refusal>
    ensures { IfErr result IsUnready }
{
    if !are_minutes(words) {
        return Err(Refusal::Minutes);
    }
    if !is_amount(words, "nodes") {
        return Err(Refusal::Nodes);
    }
    if !is_amount(words, "bytes") {
        return Err(Refusal::Bytes);
    }
    match nameless_in(words) {
        Some(named) => Err(Refusal::NoName(named)),
        None => Ok(()),
    }
}

// Does a command on a problem and a list of games. No command is inlined here, in `other` or in `serve`: the frame of
// this call would hold what each of them needs, and lie below them all.
fn on_list<R: Runtime + AllocGlobal>(
    rt: &R,
    command: ProblemCommand,
    words: &ArgMatches<'_>,
    problem: Result<Problem, ProblemFault>,
    screen: Screen,
) -> Result<u8, Refusal>
    ensures { IfOk result (λ status. OfGiven problem (λ d n. says_of_problem command d n status)) }
{
    match command {
        ProblemCommand::Games => knowing::games(rt, words, problem, screen),
        ProblemCommand::Cooks => knowing::cooks(rt, words, problem, screen),
    }
}

// Does a command on neither a problem nor a certificate.
fn other<R: Runtime + AllocGlobal>(
    rt: &R,
    command: OtherCommand,
    words: &ArgMatches<'_>,
    bounds: &[Box<dyn Bound>],
    screen: Screen,
) -> Result<u8, Refusal>
    ensures ok { IfOk result (λ status. says_of_words (IsGivenBy R.File.remaining R.Reader.remaining)
        command (rows_of (found_of words.now)) status) }
    ensures err { IfErr result (λ refusal. refuses (IsGivenBy R.File.remaining R.Reader.remaining)
        (Command.Other command) (rows_of (found_of words.now)) refusal) }
{
    match command {
        OtherCommand::Show => positions::show(rt, words, bounds),
        OtherCommand::Moves => positions::moves(rt, words),
        OtherCommand::Count => positions::count(rt, words, screen.lines),
        OtherCommand::Solve => solving::solve(rt, words, screen),
        OtherCommand::Judge => judging::judge(rt, words, screen),
        OtherCommand::Upgrade => upgrading::upgrade(rt, words, screen.lines),
        OtherCommand::Pgn => converting::pgn(rt, words),
        OtherCommand::End => converting::end(rt, words),
    }
}

// The bytes that state the tariffs by which what is asked is gone about: those that stand before the certificate that
// is read, or those that are found for a search where its words say so; else none.
//
// # Errors
// `Memory` where a growth was refused, and those of `find_for`.
#[inline(never)]
fn tariffs_for<R: Runtime + AllocGlobal, F>(
    rt: &R,
    words: &ArgMatches<'_>,
    asked: &Asked<F>,
    bounds: &[Box<dyn Bound>],
    screen: Screen,
) -> Result<Vec<u8>, Refusal>
    ensures { IfErr result (λ refusal. IsUnready refusal
        ⊎ refuses_as_asked (IsGivenBy R.File.remaining R.Reader.remaining)
        (rows_of (found_of words.now)) asked.now refusal) }
{
    match asked {
        Asked::Check(_, carrying) => Ok(Vec::from_slice(rt.alloc(), carrying.stated.as_slice())?),
        Asked::File(_, certificate) => {
            Ok(Vec::from_slice(rt.alloc(), certificate.carrying.stated.as_slice())?)
        }
        Asked::Search(Ok(problem)) if say_tolls(words) => {
            searching::find_for(rt, words, problem, bounds, screen.lines)
        }
        _ => Ok(Vec::new(rt.alloc())),
    }
}

// Does a command on what it is asked of, with its bounds, and with the tariffs among them as bytes.
fn serve<R: Runtime + AllocGlobal, F: Read + Drop>(
    rt: &R,
    words: &ArgMatches<'_>,
    asked: Asked<F>,
    tariffs: &[u8],
    bounds: &[Box<dyn Bound>],
    screen: Screen,
) -> Result<u8, Refusal>
    ensures ok { IfOk result (λ status. says_as_asked (IsGivenBy R.File.remaining R.Reader.remaining)
        (rows_of (found_of words.now)) asked status) }
    ensures err { IfErr result (λ refusal. IsUnready refusal
        ⊎ refuses_as_asked (IsGivenBy R.File.remaining R.Reader.remaining)
        (rows_of (found_of words.now)) asked refusal) }
{
    match asked {
        Asked::Words(command, problem) => on_list(rt, command, words, problem, screen),
        Asked::Check(problem, mut carrying) => {
            checking::check(rt, words, problem, &mut carrying, bounds, screen)
        }
        Asked::Search(problem) => {
            searching::search(rt, words, problem, tariffs, bounds, screen.lines)
        }
        Asked::File(command, mut certificate) => {
            tell(rt, command, words, &mut certificate, bounds, screen)
        }
        Asked::Other(command) => other(rt, command, words, bounds, screen),
    }
}

// Does a command on what it is asked of, with the bounds in the order of their codes, which are made for its diagram
// where that is known. They are made here, in the call that lends them: what a call that hands out a `dyn` claims would
// hang on its body.
fn lend<R: Runtime + AllocGlobal, F: Read + Drop>(
    rt: &R,
    words: &ArgMatches<'_>,
    asked: Asked<F>,
    screen: Screen,
) -> Result<u8, Refusal>
    ensures ok { IfOk result (λ status. says_as_asked (IsGivenBy R.File.remaining R.Reader.remaining)
        (rows_of (found_of words.now)) asked status) }
    ensures err { IfErr result (λ refusal. IsUnready refusal
        ⊎ refuses_as_asked (IsGivenBy R.File.remaining R.Reader.remaining)
        (rows_of (found_of words.now)) asked refusal) }
{
    let captures = Box::new(rt.alloc(), Captures)?;
    let promotions = Box::new(rt.alloc(), Promotions)?;
    let pawn_files = Box::new(rt.alloc(), PawnFiles)?;
    let diagram = asked.diagram();
    let travel: Box<dyn Bound> = match &diagram {
        Some(diagram) => travel_to(rt.alloc(), diagram)?,
        None => Box::new(rt.alloc(), Travel)?,
    };
    let four: [Box<dyn Bound>; 4] = [captures, promotions, pawn_files, travel];
    let mut bounds = Vec::from_array(rt.alloc(), four)?;
    if goes_by_journeys(&asked, words) {
        let journeys: Box<dyn Bound> = match &diagram {
            Some(diagram) => journeys_to(rt.alloc(), diagram)?,
            None => Box::new(rt.alloc(), Journeys)?,
        };
        bounds.push(journeys)?;
    }
    let tariffs = match tariffs_for(rt, words, &asked, bounds.as_slice(), screen) {
        Ok(tariffs) => tariffs,
        Err(refusal) => return Err(refusal),
    };
    let Some(diagram) = diagram else {
        return serve(
            rt,
            words,
            asked,
            tariffs.as_slice(),
            bounds.as_slice(),
            screen,
        );
    };
    for number in 0..number_of(tariffs.as_slice()) {
        let tolls: Box<dyn Bound> = tolls_to(rt.alloc(), &diagram, tariffs.as_slice(), number)?;
        bounds.push(tolls)?;
    }
    serve(
        rt,
        words,
        asked,
        tariffs.as_slice(),
        bounds.as_slice(),
        screen,
    )
}

// Does a command with its words. A status of `check` or `search` means that a list is the exact answer to the diagram and
// the length which the words spell, one of `answer`, `why` or `page` that it is to those of a header, 1 of `games` or
// `cooks` that no list of one game is, and one of `judge` what its rows say.
//
// # Errors
// Those of `ready`; those of `asked_by`; `Memory` where a growth was refused; and those of the command.
fn perform<R: Runtime + AllocGlobal>(
    rt: &R,
    command: Command,
    words: &ArgMatches<'_>,
    screen: Screen,
) -> Result<u8, Refusal>
    ensures ok { IfOk result (λ status. says (IsNamedBy R.File.remaining R.Reader.remaining)
        (IsGivenBy R.File.remaining R.Reader.remaining) command (rows_of (found_of words.now)) status) }
    ensures err { IfErr result (λ refusal. IsUnready refusal
        ⊎ refuses (IsGivenBy R.File.remaining R.Reader.remaining)
        command (rows_of (found_of words.now)) refusal) }
{
    match ready(words) {
        Ok(()) => {}
        Err(refusal) => return Err(refusal),
    }
    match asked_by(rt, command, words) {
        Ok(asked) => lend(rt, words, asked, screen),
        Err(refusal) => Err(refusal),
    }
}

// The file that a refusal speaks of, as the words of the command name it, or none.
fn file_of<'a>(words: &ArgMatches<'a>, refusal: &Refusal) -> FileName<'a> {
    match refusal {
        Refusal::Open(named, _) => FileName(text_of(words, named.word())),
        _ => NO_FILE,
    }
}

// Does the command that the words name, and gives the status: what the command ended with, or that of its refusal, which
// is not 0.
fn run<R: Runtime + AllocGlobal>(rt: &R, words: &ArgMatches<'_>, screen: Screen) -> u8
    ensures end { IsEnd (IsNamedBy R.File.remaining R.Reader.remaining)
        (IsGivenBy R.File.remaining R.Reader.remaining) words.now result }
    ensures zero { result ≡ 0 → IsStatus (IsNamedBy R.File.remaining R.Reader.remaining)
        (IsGivenBy R.File.remaining R.Reader.remaining) words.now 0 }
{
    let Some((name, inner)) = words.subcommand() else {
        return BAD_INPUT;
    };
    let Some(command) = Command::named(name) else {
        return BAD_INPUT;
    };
    match perform(rt, command, inner, screen) {
        Ok(status) => {
            if screen.hints {
                advise_status(rt, inner, status);
            }
            status
        }
        Err(refusal) => {
            let status = refuse(rt, &refusal, file_of(inner, &refusal));
            if screen.hints {
                advise(rt, inner, &refusal);
            }
            status
        }
    }
}

// Says why the words are no command, or the help that they ask for, and gives the status.
fn explain<R: Runtime + AllocGlobal>(rt: &R, error: &clap::Error) -> u8 {
    if error.kind() == ErrorKind::OutOfMemory {
        return refuse(rt, &Refusal::Memory, NO_FILE);
    }
    let is_printed = error.print(rt).is_ok();
    if error.use_stderr() {
        BAD_INPUT
    } else if is_printed {
        DONE
    } else {
        refuse(rt, &Refusal::Write, NO_FILE)
    }
}

// Reads the words as commands, and gives the status.
fn obey<R: Runtime + AllocGlobal>(rt: &R, words: &[String], screen: Screen) -> u8 {
    let Ok(command) = pg(rt.alloc()) else {
        return refuse(rt, &Refusal::Memory, NO_FILE);
    };
    match command.try_get_matches_from(words) {
        Ok(matches) => run(rt, &matches, screen),
        Err(error) => {
            let status = explain(rt, &error);
            if screen.hints {
                advise_words(rt, words);
            }
            status
        }
    }
}

// The words of the command line.
fn all_words<R: Runtime + AllocGlobal>(rt: &R) -> Result<Vec<String>, Refusal> {
    let given = match env::args(rt) {
        Ok(given) => given,
        Err(fault) if fault.kind() == io::ErrorKind::InvalidData => return Err(Refusal::Words),
        Err(_) => return Err(Refusal::Memory),
    };
    let mut words = Vec::new(rt.alloc());
    for word in given {
        if words.push(word).is_err() {
            return Err(Refusal::Memory);
        }
    }
    Ok(words)
}

// Where a standard stream is closed, the next file that is opened takes its number, and would be read
// or written in its place. So folders are opened first, which are neither, and kept to the end.
fn main(rt: HostRuntime) -> ExitCode {
    let _input = File::open(&rt, "/");
    let _output = File::open(&rt, "/");
    let _errors = File::open(&rt, "/");
    let words = match all_words(&rt) {
        Ok(words) => words,
        Err(refusal) => return ExitCode::from(refuse(&rt, &refusal, NO_FILE)),
    };
    let errors = rt.stderr().is_terminal();
    let screen = Screen {
        input: rt.stdin().is_terminal(),
        output: rt.stdout().is_terminal(),
        hints: errors || ask_for_hints(words.as_slice()),
        lines: errors && !is_dumb(&rt),
    };
    ExitCode::from(obey(&rt, words.as_slice(), screen))
}
