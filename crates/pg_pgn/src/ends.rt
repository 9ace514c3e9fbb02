//! Where the games of a list end.
ghost use Rattle.std.specs.Prelude.{◌≡◌, ◌↔◌, ◌<◌, ◌%◌, ◌==◌, if◌then◌else◌, IsTrue, codes};
ghost use Rattle.pg_certificate.specs.Pushing.{Adds, AddsSome, MayPush, Pushes};
ghost use Rattle.pg_fen.specs.Lengths.{length_text};
ghost use Rattle.pg_position.specs.Array.{array_state};
ghost use Rattle.pg_position.specs.Position.{Stands};
ghost use Rattle.pg_board.specs.declared.man.Kind.TheVariants.{Pawn};
ghost use Rattle.pg_san.specs.Games.{IsFromArray};
ghost use Rattle.pg_texts.specs.Report.{labelled_text};
ghost use Rattle.pg_pgn.specs.Ends.{AreEndTexts, IsEndText, IsStillAfter, Plays, Resets, number};

use arrayvec::ArrayString;
use pg_board::Kind;
use pg_certificate::{Refused, Sink};
use pg_fen::text::digits;
use pg_fen::{Diagram, FenGame, write_position};
use pg_position::{Move, Position};
use pg_san::Games;
use pg_texts::{write_game, write_line};

/// The last position of a game, and how many plies before it were no move of a pawn and took nothing.
#[derive(Clone, Copy)]
pub(crate) struct End {
    pub(crate) last: Position,
    pub(crate) still: usize,
}

// Whether a pawn leaves the square that a move leaves.
fn moves_pawn(position: &Position, m: &Move) -> bool
    ensures { IsTrue result ↔ Stands position.now.board position.now.side Pawn m.now.from }
{
    match position.board().get(m.from) {
        Some(man) => man.kind == Kind::Pawn && man.color == position.side(),
        None => false,
    }
}

// Whether a move is a pawn's, or takes what stands on its target.
fn resets(position: &Position, m: &Move) -> bool
    ensures { IsTrue result ↔ Resets position.now m.now }
{
    moves_pawn(position, m) || position.board().get(m.to).is_some()
}

// How many plies before a position were no move of a pawn and took nothing, after a move from one with so many.
fn still_after(position: &Position, m: &Move, still: usize) -> usize
    requires { still < 18446744073709551615 }
    ensures { IsStillAfter position.now m.now still result }
{
    if resets(position, m) { 0 } else { still + 1 }
}

/// Where a game from the initial array ends.
pub(crate) fn end_of(game: &[Move]) -> End
    requires { IsFromArray game.now }
    ensures { Plays array_state 0 game.now result.last result.still }
{
    let mut last = Position::array();
    let mut still = 0;
    for m in game {
        still = still_after(&last, m, still);
        last = last.after(m);
    }
    End { last, still }
}

// A number that a position's text may have.
fn number_of(n: usize) -> u16
    ensures { result ≡ number n }
{
    n.min(65_535) as u16
}

// Appends a label, a text and a line feed.
fn write_labelled<W: Sink>(label: &str, text: &str, out: &mut W) -> Result<(), Refused>
    ensures { Pushes W.held W.has_failed (Adds (labelled_text label.now text.now)) out.old out.new result }
{
    out.push(label.as_bytes())?;
    write_line(text, out)
}

// What stands behind the whole moves of so many plies.
fn half_of(plies: usize) -> &'static str
    ensures { result.now ≡ (if plies % 2 == 0 then codes ".0" else codes ".5") }
{
    if plies % 2 == 0 { ".0" } else { ".5" }
}

/// The length of a game, as text.
#[tactic(auto, unfolding(pg_fen::specs::Lengths::length_text))]
pub(crate) fn length_of(plies: usize) -> ArrayString<22>
    ensures { result.bytes ≡ length_text plies }
{
    let mut text = ArrayString::new();
    text.push_str(digits(plies / 2).as_str());
    text.push_str(half_of(plies));
    text
}

// Appends the lines on a game from the initial array.
fn write_end<W: Sink>(game: &[Move], out: &mut W) -> Result<(), Refused>
    requires { IsFromArray game.now }
    ensures { Pushes W.held W.has_failed (AddsSome (IsEndText game.now)) out.old out.new result }
{
    let end = end_of(game);
    let last = FenGame {
        position: end.last,
        half: number_of(end.still),
        full: number_of(game.len() / 2 + 1),
    };
    write_game(game, out)?;
    write_labelled("diagram ", Diagram::of(&end.last).write().as_str(), out)?;
    write_labelled("length ", length_of(game.len()).as_str(), out)?;
    write_labelled("fen ", write_position(&last).as_str(), out)
}

/// Appends where each game of a list ends, in canonical order, in four lines a game, each ended by a line feed: its
/// movetext; `diagram ` and the placement; `length ` and the length in moves; `fen ` and the position in six fields, with
/// the plies since a pawn moved or a man was taken, and the number of the move that comes next, both 65,535 at most (the
/// PGN standard, section 16.1). Takes no memory.
///
/// # Errors
/// `Refused` where the sink has failed.
pub fn write_ends<W: Sink>(games: &Games, out: &mut W) -> Result<(), Refused>
    ensures { MayPush W.held W.has_failed (AddsSome (AreEndTexts games.now)) out.old out.new result }
{
    for i in 0..games.len() {
        let Some(game) = games.game(i) else {
            unreachable!();
        };
        write_end(game, out)?;
    }
    Ok(())
}
