//! Names for the games of a file, by their tags. Nothing rests on them: what is wanted of a name is tested.

use crate::letters::Letters;
use crate::reading::next_token;
use crate::signs::Sign;
use crate::tags::{tag_name, tag_value};
use crate::tokens::{TokenKind, body, kind_at};
use crate::words::{word_sign, write_said};
use arrayvec::ArrayString;
use pg_fen::text::digits;
use std::alloc::{AllocError, Global};
use std::collections::BTreeSet;

// The most bytes that a name has before a number.
const LONGEST: usize = 60;

// What is known of a game at a place in its text: the values of two of its tags, which are empty where they are
// wanting; whether a move stands before that place; and how many variations are open there.
#[derive(Clone, Copy)]
struct Walk<'t> {
    event: &'t [u8],
    white: &'t [u8],
    moved: bool,
    depth: usize,
}

// What a word says, whose text is written to `said`.
fn sign_of_word(word: &[u8], said: &mut String) -> Result<Sign, AllocError> {
    write_said(said, Letters::English, word)?;
    Ok(word_sign(said.as_bytes()))
}

// What a token says.
fn sign_of(token: &[u8], said: &mut String) -> Result<Sign, AllocError> {
    match kind_at(token) {
        TokenKind::Word => sign_of_word(token, said),
        TokenKind::Tag => Ok(Sign::Heads),
        TokenKind::Opens => Ok(Sign::Opening),
        TokenKind::Closes => Ok(Sign::Closing),
        TokenKind::Star => Ok(Sign::Result),
        _ => Ok(Sign::Nothing),
    }
}

// Keeps the value of a tag pair by which a game is named.
fn behind_tag<'t>(walk: Walk<'t>, token: &'t [u8]) -> Walk<'t> {
    let mut walk = walk;
    match tag_name(token) {
        b"Event" => walk.event = tag_value(token),
        b"White" => walk.white = tag_value(token),
        _ => {}
    }
    walk
}

// What is known behind a token that says this.
fn behind<'t>(walk: Walk<'t>, sign: Sign, token: &'t [u8]) -> Walk<'t> {
    let mut walk = walk;
    match sign {
        Sign::Heads => return behind_tag(walk, token),
        Sign::Opening => walk.depth = walk.depth.saturating_add(1),
        Sign::Closing => walk.depth = walk.depth.saturating_sub(1),
        Sign::Moves => walk.moved = walk.moved || walk.depth == 0,
        _ => {}
    }
    walk
}

// The token at the front of a text, and what stands behind it.
fn cut(text: &[u8]) -> Option<(&[u8], &[u8])> {
    if text.is_empty() {
        return None;
    }
    match next_token(text) {
        Ok((token, rest)) => Some((token, rest)),
        Err(_) => None,
    }
}

// The values of the tags of a game, and what stands behind the game.
#[derive(Clone, Copy)]
struct Headed<'t> {
    event: &'t [u8],
    white: &'t [u8],
    rest: &'t [u8],
}

// The game at the front of a text: it ends at a result, or before a tag pair behind a move.
fn first_game<'t>(text: &'t [u8], said: &mut String) -> Result<Headed<'t>, AllocError> {
    let mut walk = Walk {
        event: b"",
        white: b"",
        moved: false,
        depth: 0,
    };
    let mut rest = text;
    for _ in 0..text.len() {
        let Some((token, after)) = cut(rest) else {
            break;
        };
        let sign = sign_of(token, said)?;
        if walk.moved && sign == Sign::Heads {
            break;
        }
        rest = after;
        walk = behind(walk, sign, token);
        if walk.depth == 0 && sign == Sign::Result {
            break;
        }
    }
    Ok(Headed {
        event: walk.event,
        white: walk.white,
        rest,
    })
}

// A byte as it may stand in a name, behind another one or not; none where it goes on a character.
fn fit(byte: u8, front: bool) -> Option<char> {
    if byte.is_ascii_alphanumeric() || byte == b'-' || (byte == b'.' && !front) {
        return Some(char::from(byte));
    }
    match byte {
        128..=191 => None,
        _ => Some('_'),
    }
}

// Appends a byte of a string to a name, as it may stand there.
fn put_fit(name: &mut ArrayString<81>, byte: u8) {
    if let Some(character) = fit(byte, name.is_empty()) {
        let _ = name.try_push(character);
    }
}

// What the string at the front of a tag's value says, its first 60 characters, as a name may say it.
fn spelled(value: &[u8]) -> ArrayString<81> {
    let mut name = ArrayString::new();
    let Some((b'"', inside)) = value.split_first() else {
        return name;
    };
    let mut escaped = false;
    for byte in inside {
        if (*byte == b'"' && !escaped) || name.len() >= LONGEST {
            return name;
        }
        escaped = *byte == b'\\' && !escaped;
        if !escaped {
            put_fit(&mut name, *byte);
        }
    }
    name
}

// Whether a name has a letter or a digit.
fn says(name: &ArrayString<81>) -> bool {
    name.as_bytes().iter().any(|b| b.is_ascii_alphanumeric())
}

// A name with a number behind it.
fn numbered(name: &str, number: usize) -> ArrayString<81> {
    let mut text = ArrayString::new();
    let _ = text.try_push_str(name);
    let _ = text.try_push_str("_");
    let _ = text.try_push_str(digits(number).as_str());
    text
}

// The name of the game with this number, by its tags.
fn name_by(game: &Headed<'_>, number: usize) -> ArrayString<81> {
    let event = spelled(game.event);
    if says(&event) {
        return event;
    }
    let white = spelled(game.white);
    if says(&white) {
        return white;
    }
    numbered("game", number)
}

/// The names of the games of a text, from one game on: what stands of the text, the names that were told, and how many.
#[derive(Drop)]
pub(crate) struct Names<'t> {
    rest: &'t [u8],
    said: String,
    told: BTreeSet<ArrayString<81>>,
    count: usize,
}

impl<'t> Names<'t> {
    /// Before the first game of a text.
    pub(crate) fn new(alloc: Global, text: &'t [u8]) -> Names<'t> {
        Names {
            rest: body(text),
            said: String::new(alloc),
            told: BTreeSet::new(alloc),
            count: 0,
        }
    }

    /// The name of the next game, with its number behind it where that name was told before.
    ///
    /// # Errors
    /// Where memory is refused.
    pub(crate) fn next_name(&mut self) -> Result<ArrayString<81>, AllocError> {
        let game = first_game(self.rest, &mut self.said)?;
        self.rest = game.rest;
        self.count = self.count.saturating_add(1);
        let name = name_by(&game, self.count);
        if self.told.insert(name)? {
            return Ok(name);
        }
        let other = numbered(name.as_str(), self.count);
        self.told.insert(other)?;
        Ok(other)
    }
}
