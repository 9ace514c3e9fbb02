//! `pg solve`: a problem is judged as one of a list is, and what is found is told as a report, or as PGN.

ghost use Rattle.std.specs.Prelude.{◌≡◌, ◌↔◌, None, Some, IfOk, IfErr, IsTrue, codes, false, true};
ghost use Rattle.clap.specs.Words.{found_of, rows_of};
ghost use Rattle.pg_certificate.specs.Pushing.{AddsSome};
ghost use Rattle.pg_judge.specs.Ruling.{IsFindingOf};
ghost use Rattle.pg_report.specs.declared.fault.RunFault.TheVariants.{Write};
ghost use Rattle.pg_streams.specs.Buffer.{sink_of};
ghost use Rattle.pg_cli.specs.Solving.{IsSolvedBeside, IsSolvedBoard, IsSolvedWith};
ghost use Rattle.pg_cli.specs.Words.{IsSolved, Says};

use crate::checking::finished;
use crate::judging::{NODES, Orders, Place, Spoiled, Turn, judge_entry, status_of};
use crate::limits::reach_of;
use crate::positions::{Board, board_in};
use crate::refusals::{Named, Refusal};
use crate::screen::Screen;
use crate::sending::write_found;
use crate::spelling::{say_all, say_pgn};
use crate::watching::Watch;
use clap::ArgMatches;
use pg_checker::check_listed;
use pg_files::list;
use pg_judge::{Enough, Entry, Evidence, Finding, Ruling, write_finding};
use pg_report::{Diagram, Fault, Games, Length, Problem, RunFault, Sink, ToWrite};
use pg_san::read_games;
use pg_streams::{Cleared, Gathered, Terminal};
use std::alloc::Global;
use std::rt::Runtime;
use std::{io, str};

// The most plies of a game that has a length.
const MOST: usize = 128;

// The games that bytes spell.
fn games_in(alloc: Global, list: &[u8]) -> Result<Games, Refusal> {
    let text = match str::from_utf8(list) {
        Ok(text) => text,
        Err(_) => return Err(Refusal::NotUtf8),
    };
    match read_games(alloc, text) {
        Ok(games) => Ok(games),
        Err(fault) => Err(Refusal::Check(RunFault::Games(fault))),
    }
}

// The author's games: those of the word or of the file that the words name; none where they name neither.
fn author_in<R: Runtime + AllocGlobal>(rt: &R, words: &ArgMatches<'_>) -> Result<Games, Refusal> {
    if let Some(moves) = words.get_str("game") {
        return games_in(rt.alloc(), moves.as_bytes());
    }
    let Some(name) = words.get_str("games") else {
        return Ok(Games::new(rt.alloc()));
    };
    match list(rt, name) {
        Ok(text) => games_in(rt.alloc(), text.as_slice()),
        Err(fault) => Err(Refusal::of_file(fault, Named::Kept)),
    }
}

// What the words ask of a problem.
fn orders_of<'a>(words: &ArgMatches<'a>) -> Orders<'a>
    ensures { IsTrue result.as_pgn ↔ Says (codes "pgn") (rows_of (found_of words.now)) }
{
    Orders {
        reach: reach_of(words, NODES),
        enough: if say_all(words) {
            Enough::AllGames
        } else {
            Enough::SecondGame
        },
        place: match words.get_str("keep") {
            Some(name) => Place::File(name),
            None => Place::Nowhere,
        },
        replaces: false,
        as_pgn: say_pgn(words),
    }
}

// Judges a problem.
//
// # Errors
// `Memory` where a growth was refused, and why the file of the certificate is not written.
fn judged<R: Runtime + AllocGlobal>(
    rt: &R,
    entry: &Entry<'_>,
    orders: &Orders<'_>,
    terminal: &Terminal,
) -> Result<Ruling, Refusal>
    ensures { IfOk result (λ r. IsFindingOf entry.now r.finding) }
{
    let turn = Turn {
        number: 1,
        count: 1,
    };
    let plies = entry.problem.length.plies();
    let mut watch = Watch::new(rt, terminal, turn, plies, orders.reach.milliseconds);
    let answer = judge_entry(rt, entry, orders, &mut watch);
    watch.line.end();
    match answer {
        Ok(judged) => Ok(judged.ruling),
        Err(Spoiled::Run(refusal)) => Err(refusal),
        Err(Spoiled::Place(fault)) => Err(Refusal::of_file(fault, Named::Proof)),
    }
}

// Writes the report of what is found of a problem, and hands it on; the status of that.
//
// # Errors
// `Check` with `Write` where writing is refused.
fn report_finding<W: Sink>(
    entry: &Entry<'_>,
    ruling: &Ruling,
    out: &mut Gathered<W>,
) -> Result<u8, Refusal>
    requires { IsFindingOf entry.now ruling.now.finding }
    ensures ok { IfOk result (λ status. AddsSome
        (IsSolvedWith false entry.now.problem.diagram entry.now.problem.length entry.now.games status)
        (⟦<Gathered<W> as Sink>⟧.held out.old) (W.held (sink_of out.new))) }
    ensures err { IfErr result (λ refusal. (refusal ≡ Refusal.Check Write)
        × (⟦<Gathered<W> as Sink>⟧.has_failed out.new ≡ true)) }
{
    match write_finding(entry, &ruling.finding, out) {
        Ok(()) => finished(status_of(ruling), out),
        Err(_) => Err(Refusal::Check(RunFault::Write)),
    }
}

// Writes the games that are told of what is found as PGN, and hands all of it on; the status of what is found.
//
// # Errors
// As for `report_finding`.
fn send_finding<W: Sink>(
    entry: &Entry<'_>,
    ruling: &Ruling,
    out: &mut Gathered<W>,
) -> Result<u8, Refusal>
    requires { IsFindingOf entry.now ruling.now.finding }
    ensures ok { IfOk result (λ status. AddsSome
        (IsSolvedWith true entry.now.problem.diagram entry.now.problem.length entry.now.games status)
        (⟦<Gathered<W> as Sink>⟧.held out.old) (W.held (sink_of out.new))) }
    ensures err { IfErr result (λ refusal. (refusal ≡ Refusal.Check Write)
        × (⟦<Gathered<W> as Sink>⟧.has_failed out.new ≡ true)) }
{
    let status = status_of(ruling);
    match write_found(entry, &ruling.finding, out) {
        Ok(()) => finished(status, out),
        Err(_) => Err(Refusal::Check(RunFault::Write)),
    }
}

// Tells what is found of a problem, as PGN or in a report; the status of that.
fn tell_finding<W: Sink>(
    entry: &Entry<'_>,
    ruling: &Ruling,
    as_pgn: bool,
    out: &mut Gathered<W>,
) -> Result<u8, Refusal>
    requires { IsFindingOf entry.now ruling.now.finding }
    ensures ok { IfOk result (λ status. AddsSome
        (IsSolvedWith as_pgn entry.now.problem.diagram entry.now.problem.length entry.now.games status)
        (⟦<Gathered<W> as Sink>⟧.held out.old) (W.held (sink_of out.new))) }
    ensures err { IfErr result (λ refusal. (refusal ≡ Refusal.Check Write)
        × (⟦<Gathered<W> as Sink>⟧.has_failed out.new ≡ true)) }
{
    if as_pgn {
        return send_finding(entry, ruling, out);
    }
    report_finding(entry, ruling, out)
}

// Judges a problem, and tells what is found. A status is that of what is found, which is true and stands in the report.
fn solve_entry<R: Runtime + AllocGlobal, W: Sink>(
    rt: &R,
    entry: &Entry<'_>,
    orders: &Orders<'_>,
    terminal: &Terminal,
    out: &mut Gathered<W>,
) -> Result<u8, Refusal>
    ensures { IfOk result (λ status. AddsSome
        (IsSolvedWith orders.now.as_pgn entry.now.problem.diagram entry.now.problem.length entry.now.games status)
        (⟦<Gathered<W> as Sink>⟧.held out.old) (W.held (sink_of out.new))) }
{
    match judged(rt, entry, orders, terminal) {
        Ok(ruling) => tell_finding(entry, &ruling, orders.as_pgn, out),
        Err(refusal) => Err(refusal),
    }
}

// The same of a problem of a stated length, beside the author's games.
//
// # Errors
// `Check` with `Listed` where a game of the author's does not solve it.
fn solve_problem<R: Runtime + AllocGlobal, W: Sink>(
    rt: &R,
    problem: Problem,
    games: Games,
    orders: &Orders<'_>,
    terminal: &Terminal,
    out: &mut Gathered<W>,
) -> Result<u8, Refusal>
    ensures { IfOk result (λ status. AddsSome (IsSolvedBeside orders.now.as_pgn problem.diagram problem.length status)
        (⟦<Gathered<W> as Sink>⟧.held out.old) (W.held (sink_of out.new))) }
{
    match check_listed(&problem.diagram, problem.length, &games) {
        Ok(()) => {}
        Err(fault) => return Err(Refusal::Check(RunFault::Check(Fault::Listed(fault)))),
    }
    let entry = Entry {
        name: "",
        problem,
        games,
        bad: None,
    };
    solve_entry(rt, &entry, orders, terminal, out)
}

// The length of a game with this many moves, 128 at most.
fn length_of(moves: usize) -> Length {
    let plies = moves.min(MOST) as u8;
    let Some(length) = Length::from_plies(plies) else {
        unreachable!()
    };
    length
}

// The length of the shorter game by which a problem is not sound, if it is so.
fn shorter_length(ruling: &Ruling) -> Option<Length> {
    match &ruling.finding {
        Finding::NotSound(Evidence::Shorter(game)) => Some(length_of(game.len())),
        _ => None,
    }
}

// Judges the problem of the least length that has a game: that of the greatest length first, of which a shorter game is
// met, and then that of this game.
fn solve_shortest<R: Runtime + AllocGlobal, W: Sink>(
    rt: &R,
    diagram: &Diagram,
    orders: &Orders<'_>,
    terminal: &Terminal,
    out: &mut Gathered<W>,
) -> Result<u8, Refusal>
    ensures { IfOk result (λ status. AddsSome (IsSolvedBoard orders.now.as_pgn diagram.now None status)
        (⟦<Gathered<W> as Sink>⟧.held out.old) (W.held (sink_of out.new))) }
{
    let entry = Entry {
        name: "",
        problem: Problem {
            diagram: *diagram,
            length: length_of(MOST),
        },
        games: Games::new(rt.alloc()),
        bad: None,
    };
    let shortest = Orders {
        reach: orders.reach,
        enough: Enough::Shortest,
        place: orders.place,
        replaces: orders.replaces,
        as_pgn: orders.as_pgn,
    };
    let ruling = match judged(rt, &entry, &shortest, terminal) {
        Ok(ruling) => ruling,
        Err(refusal) => return Err(refusal),
    };
    match shorter_length(&ruling) {
        Some(length) => {
            let problem = Problem {
                diagram: *diagram,
                length,
            };
            solve_problem(rt, problem, Games::new(rt.alloc()), orders, terminal, out)
        }
        None => tell_finding(&entry, &ruling, orders.as_pgn, out),
    }
}

// The length of the author's first game, if there is one.
fn length_in(games: &Games) -> Option<Length> {
    match games.game(0) {
        Some(game) => Some(length_of(game.len())),
        None => None,
    }
}

// Judges the problem of a diagram whose length is not stated: of the length of the author's game, or of the least one
// that has a game.
fn solve_diagram<R: Runtime + AllocGlobal, W: Sink>(
    rt: &R,
    diagram: &Diagram,
    games: Games,
    orders: &Orders<'_>,
    terminal: &Terminal,
    out: &mut Gathered<W>,
) -> Result<u8, Refusal>
    ensures { IfOk result (λ status. AddsSome (IsSolvedBoard orders.now.as_pgn diagram.now None status)
        (⟦<Gathered<W> as Sink>⟧.held out.old) (W.held (sink_of out.new))) }
{
    match length_in(&games) {
        Some(length) => {
            let problem = Problem {
                diagram: *diagram,
                length,
            };
            solve_problem(rt, problem, games, orders, terminal, out)
        }
        None => solve_shortest(rt, diagram, orders, terminal, out),
    }
}

// Judges the problem of a diagram, and of a length, if one is stated; what is found is told.
fn solve_board<R: Runtime + AllocGlobal, W: Sink>(
    rt: &R,
    board: &Board,
    games: Games,
    orders: &Orders<'_>,
    terminal: &Terminal,
    out: &mut Gathered<W>,
) -> Result<u8, Refusal>
    ensures { IfOk result (λ status. AddsSome (IsSolvedBoard orders.now.as_pgn board.now.diagram board.now.asked status)
        (⟦<Gathered<W> as Sink>⟧.held out.old) (W.held (sink_of out.new))) }
{
    match board.asked {
        Some(length) => {
            let problem = Problem {
                diagram: board.diagram,
                length,
            };
            solve_problem(rt, problem, games, orders, terminal, out)
        }
        None => solve_diagram(rt, &board.diagram, games, orders, terminal, out),
    }
}

// `pg solve`: the verdict on one problem stands on standard output, as a report. A status means that the words spell
// the diagram, and the length, if they state one, of which the report is, that what is found there is true, and 0 that
// it says `sound`.
//
// # Errors
// Those of `board_in`; then why there is no author's game, or none that solves the problem; and those of `judged` and
// `tell_finding`.
#[inline(never)]
pub(crate) fn solve<R: Runtime + AllocGlobal>(
    rt: &R,
    words: &ArgMatches<'_>,
    screen: Screen,
) -> Result<u8, Refusal>
    ensures { IfOk result (λ status. IsSolved (rows_of (found_of words.now)) status) }
{
    let board = match board_in(words) {
        Ok(board) => board,
        Err(refusal) => return Err(refusal),
    };
    let games = match author_in(rt, words) {
        Ok(games) => games,
        Err(refusal) => return Err(refusal),
    };
    let orders = orders_of(words);
    let terminal = Terminal::new(screen.lines);
    let mut out = Gathered::new(Cleared::new(ToWrite::new(io::writer(rt)), rt, &terminal));
    solve_board(rt, &board, games, &orders, &terminal, &mut out)
}
