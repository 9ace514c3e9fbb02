//! The commands on one position: its legal moves, the number of games from it, and a diagram shown.
ghost use Rattle.std.specs.Prelude.{◌≡◌, codes, IfOk, IfErr, OnOk};
ghost use Rattle.std.specs.List.{list_any};
ghost use Rattle.clap.specs.Words.{found_of, rows_of};
ghost use Rattle.pg_position.specs.Array.{array_state};
ghost use Rattle.pg_streams.specs.Buffer.{sink_of};
ghost use Rattle.pg_texts.specs.CountText.{IsCounted};
ghost use Rattle.pg_cli.specs.Answers.{IsGivenBy};
ghost use Rattle.pg_cli.specs.Ending.{refuses};
ghost use Rattle.pg_cli.specs.Runs.{AddsMoves, AddsShown, IsCountRefusal, IsMovesRefusal, IsOfBoard, IsShowRefusal};
ghost use Rattle.pg_cli.specs.Words.{HasDiagram, HasFewPlies, HasPosition, OfPlies, SpellsBoard, spelled};

use crate::checking::finished;
use crate::commands::{Command, OtherCommand};
use crate::refusals::{DONE, Refusal};
use crate::spelling::{plies_of, text_of};
use clap::ArgMatches;
use pg_report::{
    Bound, CountProgress, Diagram, Length, RunFault, Sink, ToWrite, run_count_watched, run_moves,
    run_show,
};
use pg_streams::{Cleared, CountLine, Gathered, Terminal};
use std::alloc::Global;
use std::io;
use std::rt::Runtime;

// Writes the legal moves of a position, and hands all of it on.
//
// # Errors
// `Moves` with the fault of the run, or `Check` with `Write` where the rest is refused.
pub(crate) fn moves_on<W: Sink>(
    alloc: Global,
    words: &ArgMatches<'_>,
    out: &mut Gathered<W>,
) -> Result<u8, Refusal>
    ensures ok { OnOk result (AddsMoves (spelled (codes "FEN") (rows_of (found_of words.now)))
        (⟦<Gathered<W> as Sink>⟧.held out.old) (W.held (sink_of out.new))) }
    ensures zero { IfOk result (λ status. status ≡ 0) }
    ensures err { IfErr result (λ refusal. IsMovesRefusal (spelled (codes "FEN") (rows_of (found_of words.now)))
        (⟦<Gathered<W> as Sink>⟧.has_failed out.new) refusal) }
{
    match run_moves(alloc, text_of(words, "FEN"), out) {
        Ok(()) => finished(DONE, out),
        Err(fault) => Err(Refusal::Moves(fault)),
    }
}

// `pg moves FEN`: the legal moves, on standard output. A status means that FEN spells a position.
#[inline(never)]
pub(crate) fn moves<R: Runtime + AllocGlobal>(rt: &R, words: &ArgMatches<'_>) -> Result<u8, Refusal>
    ensures ok { IfOk result (λ status. HasPosition (rows_of (found_of words.now)) status) }
    ensures err { IfErr result (λ refusal. refuses (IsGivenBy R.File.remaining R.Reader.remaining)
        (Command.Other OtherCommand.Moves) (rows_of (found_of words.now)) refusal) }
{
    let mut out = Gathered::new(ToWrite::new(io::writer(rt)));
    moves_on(rt.alloc(), words, &mut out)
}

// Writes how many games there are from a position, of the plies that the words say, and hands all of it on.
//
// # Errors
// `Count` with the fault of the run, or `Check` with `Write` where the rest is refused.
pub(crate) fn count_on<P: CountProgress, W: Sink>(
    alloc: Global,
    words: &ArgMatches<'_>,
    watch: &mut P,
    out: &mut Gathered<W>,
) -> Result<u8, Refusal>
    ensures ok { OnOk result (OfPlies (rows_of (found_of words.now)) (λ plies. IsCounted
        (spelled (codes "FEN") (rows_of (found_of words.now))) plies
        (⟦<Gathered<W> as Sink>⟧.held out.old) (W.held (sink_of out.new)))) }
    ensures zero { IfOk result (λ status. status ≡ 0) }
    ensures err { IfErr result (λ refusal. OfPlies (rows_of (found_of words.now)) (λ plies. IsCountRefusal
        (spelled (codes "FEN") (rows_of (found_of words.now))) plies
        (⟦<Gathered<W> as Sink>⟧.has_failed out.new) refusal)) }
{
    match run_count_watched(alloc, text_of(words, "FEN"), plies_of(words), out, watch) {
        Ok(()) => finished(DONE, out),
        Err(fault) => Err(Refusal::Count(fault)),
    }
}

// `pg count FEN PLIES`: the number of games, on standard output. A status means that FEN spells a position, and PLIES
// no more than 8.
#[inline(never)]
pub(crate) fn count<R: Runtime + AllocGlobal>(
    rt: &R,
    words: &ArgMatches<'_>,
    screen: bool,
) -> Result<u8, Refusal>
    ensures ok { IfOk result (λ status. HasFewPlies (rows_of (found_of words.now)) status) }
    ensures err { IfErr result (λ refusal. refuses (IsGivenBy R.File.remaining R.Reader.remaining)
        (Command.Other OtherCommand.Count) (rows_of (found_of words.now)) refusal) }
{
    let terminal = Terminal::new(screen);
    let mut line = CountLine::new(rt, &terminal);
    let mut out = Gathered::new(Cleared::new(ToWrite::new(io::writer(rt)), rt, &terminal));
    let answer = count_on(rt.alloc(), words, &mut line, &mut out);
    line.end();
    answer
}

// A diagram, and the length that is asked, if one is.
#[derive(Clone, Copy)]
pub(crate) struct Board {
    pub(crate) diagram: Diagram,
    pub(crate) asked: Option<Length>,
}

// What the words DIAGRAM and LENGTH spell, where the second may be missing.
//
// # Errors
// `Check` with `Diagram` and then `Length` where that word is refused.
pub(crate) fn board_in(words: &ArgMatches<'_>) -> Result<Board, Refusal>
    ensures spelled { IfOk result (λ board. SpellsBoard (rows_of (found_of words.now)) board.diagram board.asked) }
    ensures err { IfErr result (λ refusal. IsOfBoard (rows_of (found_of words.now)) refusal) }
{
    let text = text_of(words, "DIAGRAM");
    let diagram = match Diagram::read(text) {
        Ok(diagram) => diagram,
        Err(fault) => return Err(Refusal::Check(RunFault::Diagram(fault))),
    };
    let word = match words.get_str("LENGTH") {
        Some(word) => word,
        None => {
            return Ok(Board {
                diagram,
                asked: None,
            });
        }
    };
    match Length::read(word) {
        Ok(length) => Ok(Board {
            diagram,
            asked: Some(length),
        }),
        Err(fault) => Err(Refusal::Check(RunFault::Length(fault))),
    }
}

// Writes the board of the diagram that the words spell and what is known at once, with what a game of a length leaves
// over where they spell one.
//
// # Errors
// As `board_in`; else `Show` with the fault of the run, or `Check` with `Write` where the rest is refused.
pub(crate) fn show_on<W: Sink>(
    alloc: Global,
    words: &ArgMatches<'_>,
    bounds: &[Box<dyn Bound>],
    out: &mut Gathered<W>,
) -> Result<u8, Refusal>
    ensures ok { OnOk result (AddsShown (λ d m. list_any (λ b. excluded b d array_state m) bounds.now)
        (rows_of (found_of words.now)) (⟦<Gathered<W> as Sink>⟧.held out.old) (W.held (sink_of out.new))) }
    ensures zero { IfOk result (λ status. status ≡ 0) }
    ensures err { IfErr result (λ refusal. IsShowRefusal (rows_of (found_of words.now))
        (⟦<Gathered<W> as Sink>⟧.has_failed out.new) refusal) }
{
    let board = match board_in(words) {
        Ok(board) => board,
        Err(refusal) => return Err(refusal),
    };
    match run_show(alloc, &board.diagram, board.asked, bounds, out) {
        Ok(()) => finished(DONE, out),
        Err(fault) => Err(Refusal::Show(fault)),
    }
}

// `pg show DIAGRAM [LENGTH]`: the board and what is known at once, on standard output. A status means that DIAGRAM
// spells a diagram, and LENGTH, where it stands, a length.
#[inline(never)]
pub(crate) fn show<R: Runtime + AllocGlobal>(
    rt: &R,
    words: &ArgMatches<'_>,
    bounds: &[Box<dyn Bound>],
) -> Result<u8, Refusal>
    ensures ok { IfOk result (λ status. HasDiagram (rows_of (found_of words.now)) status) }
    ensures err { IfErr result (λ refusal. refuses (IsGivenBy R.File.remaining R.Reader.remaining)
        (Command.Other OtherCommand.Show) (rows_of (found_of words.now)) refusal) }
{
    let mut out = Gathered::new(ToWrite::new(io::writer(rt)));
    show_on(rt.alloc(), words, bounds, &mut out)
}
