//! Texts of games.
ghost use Rattle.std.specs.Prelude.{◌≡◌, ◌≢◌, ◌↔◌, ◌∷◌, ◌++◌, IsTrue, MatchResult, IfOk, IfErr, OnOk, OnErr, []};
ghost use Rattle.pg_san.specs.GameText.{words, dash};
ghost use Rattle.pg_san.specs.Listing.{AreGame, IsGameLine, IsLineFault, IsListing, IsTextFault};
ghost use Rattle.pg_san.specs.inner.LineReading.{IsWordsFault, IsGameFault, IsLineRead};

use crate::adding::AddFault;
use crate::fault::SanFault;
use crate::games::{Games, MOST_GAMES};
use crate::known::KnownReadings;
use crate::lines::next_line;
use crate::listing_fault::GamesFault;
use crate::words::{next_word, without_move_number};
use pg_position::{Move, Position};
use std::alloc::Global;

// Why a line is no game that is kept: the word of a ply, counted from 1, is not read; or memory is
// refused for a line that is a game.
#[derive(Clone, Copy, Debug)]
enum LineFault {
    Word(usize, SanFault),
    NoMemory,
}

// Keeps a move behind the others, where those are kept; whether it is.
fn keep(game: &mut Vec<Move>, kept: bool, m: Move) -> bool
    ensures { IsTrue result → IsTrue kept × (game.new.items ≡ game.old.items ++ m ∷ []) }
{
    kept && game.push(m).is_ok()
}

// The game that the words of a line are. Where memory is refused, the words behind are read all the
// same, so that want of memory stands only where there is a game.
fn read_words(alloc: Global, line: &[u8], known: &mut KnownReadings) -> Result<Vec<Move>, LineFault>
    ensures { MatchResult result (λ v. AreGame (words line.now) v.items) (λ e. IsWordsFault (words line.now) e) }
{
    let mut game = Vec::new(alloc);
    let mut kept = true;
    let mut plies = 0;
    let mut here = Position::array();
    let mut rest = line;
    while let Some((word, after)) = next_word(rest) {
        rest = after;
        let text = without_move_number(word);
        if !text.is_empty() {
            let m = match known.read(&mut here, text) {
                Ok(m) => m,
                Err(cause) => return Err(LineFault::Word(plies + 1, cause)),
            };
            plies += 1;
            kept = keep(&mut game, kept, m);
        }
    }
    if kept {
        Ok(game)
    } else {
        Err(LineFault::NoMemory)
    }
}

// Whether the one word of a line is `-`.
fn is_dash(line: &[u8]) -> bool
    ensures { IsTrue result ↔ (words line.now ≡ dash) }
{
    match next_word(line) {
        Some((word, rest)) => matches!(word, b"-") && next_word(rest).is_none(),
        None => false,
    }
}

// The game of a line that has words.
fn read_game(alloc: Global, line: &[u8], known: &mut KnownReadings) -> Result<Vec<Move>, LineFault>
    requires { words line.now ≢ [] }
    ensures { MatchResult result (λ v. IsGameLine line.now v.items) (λ e. IsGameFault line.now e) }
{
    if is_dash(line) {
        return Ok(Vec::new(alloc));
    }
    read_words(alloc, line, known)
}

// Adds the game of a line with words to those of the lines before it.
fn add_line(
    alloc: Global,
    games: &mut Games,
    line: &[u8],
    number: usize,
    known: &mut KnownReadings,
) -> Result<(), GamesFault>
    requires { words line.now ≢ [] }
    ensures ok { OnOk result (IsLineRead line.now games.old games.new) }
    ensures err { IfErr result (λ e. IsLineFault line.now number games.old e) }
{
    if games.len() >= MOST_GAMES {
        return Err(GamesFault::TooMany { line: number });
    }
    let game = match read_game(alloc, line, known) {
        Ok(game) => game,
        Err(LineFault::Word(ply, cause)) => {
            return Err(GamesFault::At {
                line: number,
                ply,
                cause,
            });
        }
        Err(LineFault::NoMemory) => return Err(GamesFault::Memory),
    };
    match games.admit(game) {
        Ok(()) => Ok(()),
        Err(AddFault::Repeated) => Err(GamesFault::Repeated { line: number }),
        Err(_) => Err(GamesFault::Memory),
    }
}

// Reads one line behind those before it: where it has words, the game that they are is added.
fn read_line(
    alloc: Global,
    games: &mut Games,
    line: &[u8],
    number: usize,
    known: &mut KnownReadings,
) -> Result<(), GamesFault>
    ensures ok { OnOk result (IsLineRead line.now games.old games.new) }
    ensures err { IfErr result (λ e. IsLineFault line.now number games.old e) }
{
    match next_word(line) {
        Some(_) => add_line(alloc, games, line, number, known),
        None => Ok(()),
    }
}

/// The games of a text: one game a line, its moves in standard algebraic notation (the PGN standard,
/// section 8.2), read as by `read`. Line feeds part the lines, and one carriage return at the end of a
/// line is dropped; spaces and tabs part the words of a line. A line without words is skipped. The one
/// word `-` is the game of no move. From the front of each word a move number, digits and then dots,
/// is dropped once; a word of which nothing is left is skipped, so a line of such words alone is the
/// game of no move too. What the list grows by is taken from `alloc`; so is, while a text of 8,000
/// bytes or more is read, room of some 43 KB, without which it is read all the same.
///
/// # Errors
/// Line by line, each numbered from 1, the blank ones included: `TooMany` where a line with words
/// would be the 4,097th game; else `At` with the ply, counted from 1, of the first word that is no
/// move there, and why; else `Repeated` where an earlier line is the same game, and `Memory` where
/// memory is refused for the game.
pub fn read_games(alloc: Global, text: &str) -> Result<Games, GamesFault>
    ensures ok { IfOk result (λ games. IsListing text.now games) }
    ensures err { IfErr result (λ e. IsTextFault text.now e) }
{
    let mut known = KnownReadings::new(alloc, text.len());
    let mut games = Games::new(alloc);
    let mut number = 0;
    let mut rest = Some(text.as_bytes());
    while let Some(left) = rest {
        let (line, after) = next_line(left);
        rest = after;
        number += 1;
        match read_line(alloc, &mut games, line, number, &mut known) {
            Ok(()) => {}
            Err(fault) => return Err(fault),
        }
    }
    Ok(games)
}
