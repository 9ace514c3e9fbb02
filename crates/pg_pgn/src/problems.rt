//! The games of a file as a list of problems.
ghost use Rattle.std.specs.Prelude.{◌≡◌, ◌↔◌, IfErr, IsTrue, OnOk, true};
ghost use Rattle.std.specs.List.{list_all};
ghost use Rattle.pg_certificate.specs.Pushing.{Adds, AddsSome, Pushes};
ghost use Rattle.pg_san.specs.Games.{IsFromArray};
ghost use Rattle.pg_pgn.specs.declared.fault.ProblemsFault.TheVariants as ProblemsFault;
ghost use Rattle.pg_pgn.specs.Problems.{AreProblems, BeginsWell, IsName, IsProblem, field_text, is_fit};

use crate::ends::{end_of, length_of};
use crate::fault::ProblemsFault;
use crate::games::PgnGames;
use crate::naming::Names;
use pg_certificate::{Refused, Sink};
use pg_fen::Diagram;
use pg_position::Move;
use pg_texts::write_game;
use std::alloc::Global;

fn is_fit(byte: u8) -> bool
    ensures { result ≡ is_fit byte }
{
    byte.is_ascii_alphanumeric() || matches!(byte, b'-' | b'_' | b'.')
}

fn are_fit(word: &[u8]) -> bool
    ensures { result ≡ list_all is_fit word.now }
{
    word.iter().all(|b| is_fit(*b))
}

// Whether a word begins with a byte that is no dot.
fn begins_well(word: &[u8]) -> bool
    ensures { IsTrue result ↔ BeginsWell word.now }
{
    match word.first() {
        Some(first) => *first != b'.',
        None => false,
    }
}

fn is_name(word: &[u8]) -> bool
    ensures { IsTrue result ↔ IsName word.now }
{
    are_fit(word) && begins_well(word)
}

// A text that is a name, or else a name in its place.
fn as_name(text: &str) -> &str
    ensures { IsName result.now }
{
    if is_name(text.as_bytes()) {
        text
    } else {
        "game"
    }
}

// Appends a text and a tab.
fn write_field<W: Sink>(text: &str, out: &mut W) -> Result<(), Refused>
    ensures { Pushes W.held W.has_failed (Adds (field_text text.now)) out.old out.new result }
{
    out.push(text.as_bytes())?;
    out.push(b"\t")
}

// Appends the line of a problem with this name: that of a game from the initial array.
fn write_problem<W: Sink>(name: &str, game: &[Move], out: &mut W) -> Result<(), Refused>
    requires name { IsName name.now }
    requires game { IsFromArray game.now }
    ensures { Pushes W.held W.has_failed (AddsSome (IsProblem game.now)) out.old out.new result }
{
    let end = end_of(game);
    write_field(name, out)?;
    write_field(Diagram::of(&end.last).write().as_str(), out)?;
    write_field(length_of(game.len()).as_str(), out)?;
    write_game(game, out)
}

/// Appends the games of a file as a list of problems, a line a game in the file's order, each ended by a line feed: a
/// name, the placement at the game's end, its length in moves such as `18.5`, and its movetext, parted by tabs. The name
/// has letters and digits of ASCII, hyphens, underscores and dots, and begins with no dot. It is by the tag `Event` of
/// `text`, which is the file, or else by `White`: its first 60 characters, with `_` in place of each other character.
/// Where neither has a letter or a digit it is `game` with `_` and the number of the game behind it, from 1. A name that
/// stands above has the game's number behind it likewise. Where `text` is not the file, the names alone are others. They
/// are kept in memory of `alloc`.
///
/// # Errors
/// `Memory` where memory is refused for a name, with the lines of the first games appended, and `Write` where the sink
/// has failed.
pub fn write_problems<W: Sink>(
    alloc: Global,
    text: &[u8],
    games: &PgnGames,
    out: &mut W,
) -> Result<(), ProblemsFault>
    ensures text { OnOk result (AddsSome (AreProblems games.now) (W.held out.old) (W.held out.new)) }
    ensures runs { OnOk result (W.has_failed out.new ≡ W.has_failed out.old) }
    ensures fault { IfErr result (λ e. e ≡ ProblemsFault.Write → W.has_failed out.new ≡ true) }
{
    let mut names = Names::new(alloc, text);
    for i in 0..games.len() {
        let Some(game) = games.game(i) else {
            unreachable!();
        };
        let name = match names.next_name() {
            Ok(name) => name,
            Err(_) => return Err(ProblemsFault::Memory),
        };
        match write_problem(as_name(name.as_str()), game, out) {
            Ok(()) => {}
            Err(Refused) => return Err(ProblemsFault::Write),
        }
    }
    Ok(())
}
