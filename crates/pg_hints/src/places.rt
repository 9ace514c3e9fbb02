//! Where something stands in a list: a game by its line, a byte that is no text by its line and its place there.
ghost use Rattle.std.specs.Prelude.{◌≡◌, ◌≤◌, ◌<◌, ◌+◌, ◌^◌, ◌∷◌, ◌↔◌, List, [], length};
ghost use Rattle.std.specs.Prelude.{IfOk, IfSome, IsTrue, MatchOption};
ghost use Rattle.std.specs.Str.{IsUtf8};
ghost use Rattle.pg_position.specs.declared.moves.Move.{Move};
ghost use Rattle.pg_san.specs.Listing.{IsListing};
ghost use Rattle.pg_hints.specs.Places.{IsBadAt, IsFirstAt, IsFirstLike, IsLine, next_place, pieces, place_behind};
ghost use Rattle.pg_hints.specs.Places.{length_left, pieces_left};

use pg_position::Move;
use pg_san::{Games, GamesFault, read_games};
use std::alloc::{AllocError, Global};
use std::str;

/// A place in a text: the line, and the byte in it, counted from 1.
#[derive(Clone, Copy, Debug, PartialEq, Eq)]
pub struct Place {
    pub line: usize,
    pub byte: usize,
}

// The text before the first line feed, and what follows that, if there is one.
fn first_line(text: &str) -> (&str, Option<&str>)
    ensures cut { pieces text.now ≡ result.0.now ∷ pieces_left result.1 }
    ensures less { length_left result.1 < length text.now + 1 }
{
    match text.split_once('\n') {
        Some((line, more)) => (line, Some(more)),
        None => (text, None),
    }
}

// The line with this number, counted from 1; none where there is none.
pub(crate) fn line_at(text: &str, number: usize) -> Option<&str>
    ensures { IfSome result (λ line. IsLine text.now number line.now) }
{
    text.split('\n').nth(number.checked_sub(1)?)
}

// The games of a text; none where it lists none.
pub(crate) fn games_of(alloc: Global, text: &str) -> Result<Option<Games>, AllocError>
    ensures { IfOk result (λ found. MatchOption found
        ((games : List (List Move)) → ¬ IsListing text.now games)
        (λ games. IsListing text.now games)) }
{
    match read_games(alloc, text) {
        Ok(games) => Ok(Some(games)),
        Err(fault) => match fault {
            GamesFault::Memory => Err(AllocError),
            _ => Ok(None),
        },
    }
}

// The games of a line that is one game by itself; none where it is not.
fn game_of(alloc: Global, line: &str) -> Result<Option<Games>, AllocError>
    ensures { IfOk result (λ found. MatchOption found
        ((game : List Move) → ¬ IsListing line.now (game ∷ []))
        (λ games. IsListing line.now games × (length games ≡ 1))) }
{
    let Some(games) = games_of(alloc, line)? else {
        return Ok(None);
    };
    if games.len() != 1 {
        return Ok(None);
    }
    Ok(Some(games))
}

// Whether a line that is read by itself is this game.
fn is_game(alloc: Global, line: &str, game: &[Move]) -> Result<bool, AllocError>
    ensures { IfOk result (λ is. IsTrue is ↔ IsListing line.now (game.now ∷ [])) }
{
    match game_of(alloc, line)? {
        Some(games) => Ok(games.contains(game)),
        None => Ok(false),
    }
}

/// The number, from 1, of the first line of a list that is this game; none where no line is.
///
/// # Errors
/// Memory is refused, which is taken from `alloc`, for a line that is a game.
pub fn line_of(alloc: Global, list: &str, game: &[Move]) -> Result<Option<usize>, AllocError>
    ensures { IfOk result (λ found. IfSome found (λ line. IsFirstAt list.now line game.now)) }
{
    let mut number = 0usize;
    let mut rest = Some(list);
    while let Some(left) = rest {
        let (line, more) = first_line(left);
        number += 1;
        if is_game(alloc, line, game)? {
            return Ok(Some(number));
        }
        rest = more;
    }
    Ok(None)
}

/// The number, from 1, of the first line of a list that is the game of the line with this number; none where that is no
/// game.
///
/// # Errors
/// Memory is refused, which is taken from `alloc`, for a line that is a game.
pub fn line_like(alloc: Global, list: &str, line: usize) -> Result<Option<usize>, AllocError>
    ensures { IfOk result (λ found. IfSome found (λ first. IsFirstLike list.now line first)) }
{
    let Some(text) = line_at(list, line) else {
        return Ok(None);
    };
    let Some(games) = game_of(alloc, text)? else {
        return Ok(None);
    };
    match games.game(0) {
        Some(game) => line_of(alloc, list, game),
        None => Ok(None),
    }
}

// The place behind one more byte. Lines and bytes are counted from 0.
fn next_place(place: Place, byte: u8) -> Place
    requires { (place.line + 1 < 2 ^ 64) × (place.byte + 1 < 2 ^ 64) }
    ensures { result ≡ next_place place byte }
{
    if byte == b'\n' {
        Place {
            line: place.line + 1,
            byte: 0,
        }
    } else {
        Place {
            line: place.line,
            byte: place.byte + 1,
        }
    }
}

// The place behind a text, counted from 0.
fn place_behind(text: &[u8]) -> Place
    ensures value { result ≡ place_behind text.now }
    ensures within { (result.line ≤ length text.now) × (result.byte ≤ length text.now) }
{
    let mut place = Place { line: 0, byte: 0 };
    for byte in text {
        place = next_place(place, *byte);
    }
    place
}

/// Where the first byte stands that no text in UTF-8 goes on with; none where the bytes are UTF-8.
pub fn bad_byte(bytes: &[u8]) -> Option<Place>
    ensures { MatchOption result (IsUtf8 bytes.now) (λ place. IsBadAt bytes.now place) }
{
    let Err(fault) = str::from_utf8(bytes) else {
        return None;
    };
    let behind = place_behind(&bytes[..fault.valid_up_to()]);
    Some(Place {
        line: behind.line + 1,
        byte: behind.byte + 1,
    })
}
