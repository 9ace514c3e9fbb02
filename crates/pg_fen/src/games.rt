//! Positions as text, with the two numbers that a text gives beside them.
ghost use Rattle.std.specs.Prelude.{◌≡◌, ◌<◌, Result, Ok};
ghost use Rattle.pg_position.specs.Position.{IsPosition};
ghost use Rattle.pg_fen.specs.declared.fault.FenFault.{FenFault};
ghost use Rattle.pg_fen.specs.declared.games.FenGame.{FenGame};
ghost use Rattle.pg_fen.specs.PositionWriting.{parts_of_game, position_text};
ghost use Rattle.pg_fen.specs.Fields.{fields};
ghost use Rattle.pg_fen.specs.PositionText.{game_parts, IsGameOrBroken, IsGameRead};

use crate::details::{Details, details_of};
use crate::details_writing::put_details;
use crate::fault::FenFault;
use crate::fields::fields_of;
use crate::placement::read_placement;
use crate::writing::put_placement;
use arrayvec::ArrayString;
use pg_board::Board;
use pg_position::Position;

/// A position as a text gives it (the PGN standard, section 16.1).
#[derive(Clone, Copy, Debug)]
pub struct FenGame {
    /// The position.
    pub position: Position,
    /// How many plies ago a pawn moved or a man was taken, as the text says.
    pub half: u16,
    /// The number of the full move, as the text says.
    pub full: u16,
}

/// What six fields say, before it is known to be a position.
#[derive(Clone, Copy, Debug)]
pub struct GameParts {
    pub board: Board,
    pub details: Details,
}

// What the six fields of a text say, or the first fault.
#[tactic(auto, unfolding(crate::specs::PositionText::game_parts))]
fn parts_of(text: &[u8]) -> Result<GameParts, FenFault>
    ensures { result ≡ game_parts (fields text.now) }
{
    let Some(fields) = fields_of(text) else {
        return Err(FenFault::Fields);
    };
    let Some(details) = fields.details else {
        return Err(FenFault::Fields);
    };
    let board = match read_placement(fields.placement) {
        Ok(board) => board,
        Err(fault) => return Err(fault),
    };
    match details_of(&details) {
        Ok(details) => Ok(GameParts { board, details }),
        Err(fault) => Err(fault),
    }
}

fn game_of(parts: &GameParts) -> Result<FenGame, FenFault>
    ensures { IsGameOrBroken parts.now result }
{
    let details = parts.details;
    match Position::from_parts(parts.board, details.side, details.rights, details.passed) {
        Ok(position) => Ok(FenGame {
            position,
            half: details.half,
            full: details.full,
        }),
        Err(bad) => Err(FenFault::Invalid(bad)),
    }
}

/// The position that a text of six fields spells, with its two move numbers.
///
/// # Errors
/// The first fault of the whole text, in the order of `FenFault`; `Invalid` comes last, with the first
/// clause of a position that the well-formed text breaks.
pub fn read_position(text: &str) -> Result<FenGame, FenFault>
    ensures { IsGameRead (game_parts (fields text.now)) result }
{
    match parts_of(text.as_bytes()) {
        Ok(parts) => game_of(&parts),
        Err(fault) => Err(fault),
    }
}

// The five fields that a text of the game has behind the placement.
fn details_in(position: &Position, half: u16, full: u16) -> Details
    ensures value { result ≡ (parts_of_game (record { position = position.now; half = half; full = full })).details }
    ensures half { half < 65536 }
    ensures full { full < 65536 }
{
    Details {
        side: position.side(),
        rights: position.rights(),
        passed: position.passed(),
        half,
        full,
    }
}

/// The text of a position with its two move numbers: six fields, one space between two of them,
/// rights in the order `KQkq`, numbers with no leading zeros. The passed square is written where the
/// position has one. `read_position` answers this game of the text, and no other game is written so.
pub fn write_position(game: &FenGame) -> ArrayString<93>
    ensures text { result.bytes ≡ position_text game.now }
    ensures read_again { game_parts (fields result.bytes) ≡ Ok (parts_of_game game.now) }
    ensures read_back { (answer : Result FenGame FenFault) → IsGameRead (game_parts (fields result.bytes)) answer
        → answer ≡ Ok game.now }
    ensures alone { (other : FenGame) → IsPosition other.position → other.half < 65536 → other.full < 65536
        → position_text other ≡ result.bytes → other ≡ game.now }
{
    let mut text = ArrayString::new();
    put_placement(&mut text, &game.position.board());
    put_details(&mut text, &details_in(&game.position, game.half, game.full));
    text
}
