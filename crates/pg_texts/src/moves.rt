//! The legal moves of a position, each on a line of its own.
ghost use Rattle.std.specs.Prelude.{◌≡◌, ◌≢◌, IfOk, IfErr, OnOk};
ghost use Rattle.pg_certificate.specs.Pushing.{AddsSome, MayPush, Pushes};
ghost use Rattle.pg_position.specs.declared.state.State.{State};
ghost use Rattle.pg_position.specs.Step.{IsLegal};
ghost use Rattle.pg_moves.specs.Moves.{IsMoveList};
ghost use Rattle.pg_san.specs.Writing.{IsSan};
ghost use Rattle.pg_texts.specs.MovesText.{AreMoveLines, IsMovesText, SpellsPosition, IsRefusedAs, IsMovesFault};
ghost use Rattle.pg_texts.specs.Report.{AddsLine};

use crate::fault::MovesFault;
use pg_certificate::{Refused, Sink};
use pg_fen::{FenFault, FenGame, read_position};
use pg_moves::legal_moves;
use pg_position::{Move, Position};
use pg_san::write;
use std::alloc::{AllocError, Global};

// The position of a text.
pub(crate) fn game_of(text: &str) -> Result<FenGame, FenFault>
    ensures ok { IfOk result (λ game. SpellsPosition text.now game.position) }
    ensures err { IfErr result (λ e. IsRefusedAs text.now e) }
{
    read_position(text)
}

// Appends the text of a legal move, and a line feed.
fn write_line<W: Sink>(position: &Position, m: &Move, out: &mut W) -> Result<(), Refused>
    requires { IsLegal position.now m.now }
    ensures { Pushes W.held W.has_failed (AddsLine (IsSan position.now m.now)) out.old out.new result }
{
    let text = write(position, *m);
    out.push(text.as_bytes())?;
    out.push(b"\n")
}

// Appends a line for each move of the list, in its order.
fn write_lines<W: Sink>(position: &Position, moves: &[Move], out: &mut W) -> Result<(), Refused>
    requires { IsMoveList position.now moves.now }
    ensures { MayPush W.held W.has_failed (AddsSome (AreMoveLines position.now moves.now)) out.old out.new result }
{
    for m in moves {
        write_line(position, m, out)?;
    }
    Ok(())
}

/// Writes the legal moves of the position that a text of six fields spells: the text of each (the
/// PGN standard, section 8.2.3) and a line feed, ordered by the square from, then the square to, then
/// the promotion. A position without a legal move writes nothing. The list of the moves is taken from
/// `alloc`, and nothing is written before it stands.
///
/// # Errors
/// `Position` where the text is refused as a position, with that refusal; `Memory` where a growth
/// was refused, and only where there is a legal move; `Write` where the sink has failed. With the
/// first two the sink is as it was.
pub fn run_moves<W: Sink>(alloc: Global, fen: &str, out: &mut W) -> Result<(), MovesFault>
    ensures ok { OnOk result ((p : State) × SpellsPosition fen.now p
        × AddsSome (IsMovesText p) (W.held out.old) (W.held out.new)) }
    ensures err { IfErr result (λ e. IsMovesFault fen.now (W.has_failed out.new) e) }
    ensures unwritten { IfErr result (λ e. e ≢ MovesFault.Write → out.new ≡ out.old) }
    ensures runs { OnOk result (W.has_failed out.new ≡ W.has_failed out.old) }
{
    let game = match game_of(fen) {
        Ok(game) => game,
        Err(fault) => return Err(MovesFault::Position(fault)),
    };
    let moves = match legal_moves(alloc, &game.position) {
        Ok(moves) => moves,
        Err(AllocError) => return Err(MovesFault::Memory),
    };
    match write_lines(&game.position, moves.as_slice(), out) {
        Ok(()) => Ok(()),
        Err(Refused) => Err(MovesFault::Write),
    }
}
