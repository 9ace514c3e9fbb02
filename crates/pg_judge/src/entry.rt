//! A line of a file of problems.
ghost use Rattle.std.specs.Prelude.{◌≡◌, ◌↔◌, ◌<◌, ℕ, List, ◌∷◌, length, IsTrue, IfOk, IfErr, IfSome, IfNone};
ghost use Rattle.std.specs.Prelude.{MatchOption, Ok, Some, slice_get};
ghost use Rattle.std.specs.List.{list_all};
ghost use Rattle.pg_fen.specs.Fields.{fields};
ghost use Rattle.pg_fen.specs.DiagramText.{diagram_of};
ghost use Rattle.pg_fen.specs.Lengths.{length_of};
ghost use Rattle.pg_san.specs.GameText.{words};
ghost use Rattle.pg_judge.specs.Entries.{Begins, IsAuthor, IsEntry, IsEntryFault, IsGamesFault, IsHash, IsName};
ghost use Rattle.pg_judge.specs.Entries.{IsProblemFault, IsSkipped, IsUnmarked, is_name_byte, mark};

use crate::entry_fault::EntryFault;
use pg_checker::Problem;
use pg_fen::{Diagram, Length};
use pg_san::{Games, GamesFault, SanFault, next_word, read_games};
use std::alloc::Global;
use std::str;

/// A word of the author's game that is no move: its ply, counted from 1, and why.
#[derive(Clone, Copy, Debug, PartialEq, Eq)]
pub struct BadMove {
    pub ply: usize,
    pub cause: SanFault,
}

/// A problem: its name, what it asks, and the author's game, if he gives one; or the word by which that is none.
#[derive(Drop)]
pub struct Entry<'a> {
    pub name: &'a str,
    pub problem: Problem,
    pub games: Games,
    pub bad: Option<BadMove>,
}

fn is_name_byte(byte: u8) -> bool
    ensures { result ≡ is_name_byte byte }
{
    byte.is_ascii_alphanumeric() || matches!(byte, b'-' | b'_' | b'.')
}

fn begins_with(word: &[u8], byte: u8) -> bool
    ensures { IsTrue result ↔ (slice_get word.now 0 ≡ Some byte) }
{
    match word.first() {
        Some(first) => *first == byte,
        None => false,
    }
}

fn are_name_bytes(word: &[u8]) -> bool
    ensures { result ≡ list_all is_name_byte word.now }
{
    word.iter().all(|b| is_name_byte(*b))
}

// Whether a word is fit for the name of a file.
fn is_name(word: &[u8]) -> bool
    ensures { IsTrue result ↔ IsName word.now }
{
    are_name_bytes(word) && !begins_with(word, b'.')
}

// Whether a word begins a comment.
fn is_hash(word: &[u8]) -> bool
    ensures { IsTrue result ↔ IsHash word.now }
{
    begins_with(word, b'#')
}

// The name with which a line begins, and what follows it; none where the line has no words or is a comment.
fn name_of(line: &[u8]) -> Option<(&[u8], &[u8])>
    ensures { MatchOption result (IsSkipped line.now) (λ r. Begins line.now r.0.now r.1.now) }
{
    match next_word(line) {
        Some((word, rest)) => {
            if is_hash(word) {
                None
            } else {
                Some((word, rest))
            }
        }
        None => None,
    }
}

// The texts of a diagram and of a length with which a text begins, and that of games which follows them.
#[derive(Clone, Copy)]
struct Parts<'a> {
    diagram: &'a [u8],
    length: &'a [u8],
    games: &'a [u8],
}

// The parts of what stands behind a name; none where two words are wanting.
fn parts_of(text: &[u8]) -> Option<Parts<'_>>
    ensures { MatchOption result (length (words text.now) < 2)
        (λ p. words text.now ≡ p.diagram.now ∷ p.length.now ∷ words p.games.now) }
{
    let Some((diagram, rest)) = next_word(text) else {
        return None;
    };
    match next_word(rest) {
        Some((length, games)) => Some(Parts {
            diagram,
            length,
            games,
        }),
        None => None,
    }
}

// The problem that the texts of a diagram and a length spell.
fn read_problem(diagram: &[u8], length: &[u8]) -> Result<Problem, EntryFault>
    ensures ok { IfOk result (λ p. (diagram_of (fields diagram.now) ≡ Ok p.diagram)
        × (length_of length.now ≡ Ok p.length)) }
    ensures err { IfErr result (λ e. IsProblemFault diagram.now length.now e) }
{
    let diagram = match str::from_utf8(diagram) {
        Ok(diagram) => diagram,
        Err(_) => return Err(EntryFault::NotUtf8),
    };
    let length = match str::from_utf8(length) {
        Ok(length) => length,
        Err(_) => return Err(EntryFault::NotUtf8),
    };
    let diagram = match Diagram::read(diagram) {
        Ok(diagram) => diagram,
        Err(fault) => return Err(EntryFault::Diagram(fault)),
    };
    match Length::read(length) {
        Ok(length) => Ok(Problem { diagram, length }),
        Err(fault) => Err(EntryFault::Length(fault)),
    }
}

// The author's games, or the word by which they are none.
#[derive(Drop)]
struct Author {
    games: Games,
    bad: Option<BadMove>,
}

// The author's games that a text spells, or the first word of it that is no move.
fn read_spelled(alloc: Global, text: &str) -> Result<Author, EntryFault>
    ensures ok { IfOk result (λ a. IsAuthor text.now a.games a.bad) }
    ensures err { IfErr result (λ e. IsGamesFault text.now e) }
{
    match read_games(alloc, text) {
        Ok(games) => Ok(Author { games, bad: None }),
        Err(
            GamesFault::At {
                line: _,
                ply,
                cause,
            },
        ) => Ok(Author {
            games: Games::new(alloc),
            bad: Some(BadMove { ply, cause }),
        }),
        Err(GamesFault::TooMany { line }) => Err(EntryFault::Games(GamesFault::TooMany { line })),
        Err(GamesFault::Repeated { line }) => Err(EntryFault::Games(GamesFault::Repeated { line })),
        Err(GamesFault::Memory) => Err(EntryFault::Games(GamesFault::Memory)),
    }
}

// So of bytes.
fn read_author(alloc: Global, text: &[u8]) -> Result<Author, EntryFault>
    ensures ok { IfOk result (λ a. IsAuthor text.now a.games a.bad) }
    ensures err { IfErr result (λ e. IsGamesFault text.now e) }
{
    match str::from_utf8(text) {
        Ok(text) => read_spelled(alloc, text),
        Err(_) => Err(EntryFault::NotUtf8),
    }
}

// The problem of a line that begins with this name.
fn read_named<'a>(alloc: Global, name: &'a [u8], rest: &[u8]) -> Result<Entry<'a>, EntryFault>
    ensures ok { (line : List ℕ) → Begins line name.now rest.now → IfOk result (λ e. IsEntry line e) }
    ensures err { (line : List ℕ) → Begins line name.now rest.now → IfErr result (λ e. IsEntryFault line e) }
{
    if !is_name(name) {
        return Err(EntryFault::Name);
    }
    let name = match str::from_utf8(name) {
        Ok(name) => name,
        Err(_) => return Err(EntryFault::Name),
    };
    let Some(parts) = parts_of(rest) else {
        return Err(EntryFault::Short);
    };
    let problem = match read_problem(parts.diagram, parts.length) {
        Ok(problem) => problem,
        Err(fault) => return Err(fault),
    };
    match read_author(alloc, parts.games) {
        Ok(author) => Ok(Entry {
            name,
            problem,
            games: author.games,
            bad: author.bad,
        }),
        Err(fault) => Err(fault),
    }
}

// What a text in UTF-8 may begin with.
const MARK: [u8; 3] = [0xef, 0xbb, 0xbf];

// Whether bytes are a byte order mark.
fn are_mark(bytes: &[u8]) -> bool
    ensures { IsTrue result ↔ (bytes.now ≡ mark) }
{
    bytes == MARK.as_slice()
}

/// A list of problems without the byte order mark at its front, if it begins with one.
pub fn unmarked(text: &[u8]) -> &[u8]
    ensures { IsUnmarked text.now result.now }
{
    if text.len() < 3 {
        return text;
    }
    let (front, rest) = text.split_at(3);
    if are_mark(front) {
        return rest;
    }
    text
}

/// The problem that a line spells: words parted by spaces and tabs, of which the first is its name, the second a
/// diagram (the placement field of FEN; the PGN standard, section 16.1), and the third a length in moves such as
/// `18.5`; what stands behind them is the author's game, as `read_games` reads a line, or nothing. The name has letters
/// and digits of ASCII, hyphens, underscores and dots, and begins with no dot, so that it is fit for the name of a
/// file. None where the line has no words, or where its first word begins with `#`. Where a word of the game is no move
/// there are no games, and `bad` is that word. The games are taken from `alloc`.
///
/// # Errors
/// In this order: `Name` where the first word is no name; `Short` where there are fewer than three words; `NotUtf8`
/// where the second or the third is not UTF-8, then `Diagram` and `Length` where that one is refused; `NotUtf8` where
/// what stands behind them is not UTF-8; `Games` with `Memory` where memory is refused for it.
pub fn read_entry<'a>(alloc: Global, line: &'a [u8]) -> Result<Option<Entry<'a>>, EntryFault>
    ensures skipped { IfOk result (λ o. IfNone o (IsSkipped line.now)) }
    ensures ok { IfOk result (λ o. IfSome o (λ e. IsEntry line.now e)) }
    ensures err { IfErr result (λ e. IsEntryFault line.now e) }
{
    let Some((name, rest)) = name_of(line) else {
        return Ok(None);
    };
    match read_named(alloc, name, rest) {
        Ok(entry) => Ok(Some(entry)),
        Err(fault) => Err(fault),
    }
}
