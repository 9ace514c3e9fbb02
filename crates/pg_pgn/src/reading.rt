//! Reading a file of games.
ghost use Rattle.std.specs.Prelude.{◌≡◌, ℕ, ◌+◌, ◌<◌, ◌≤◌, List, [], length, map, OnOk, IfOk, IfErr, false};
ghost use Rattle.pg_pgn.specs.Tokens.{StartsWith, without_mark};
ghost use Rattle.pg_pgn.specs.declared.fault.PgnFault.TheVariants as PgnFault;
ghost use Rattle.pg_pgn.specs.declared.signs.Sign.TheVariants as Sign;
ghost use Rattle.pg_pgn.specs.declared.reading.Cause.TheVariants as Cause;
ghost use Rattle.pg_pgn.specs.Pgn.{said, sign_of, tag_sign, word_sign, Goes, at_game};
ghost use Rattle.pg_pgn.specs.Pgn.{ended, head, moved, all_games, IsFile, IsFirstFault};
ghost use Rattle.pg_pgn.specs.Steps.{at, AreLegal, IsCause, IsOfTag, IsOpen, Tells, open_fault};

use crate::fault::{FormFault, PgnFault};
use crate::games::PgnGames;
use crate::letters::Letters;
use crate::places::place_of;
use crate::signs::Sign;
use crate::tags::tag_sign;
use crate::tokens::{TokenKind, body, kind_at, kind_of, more_len};
use crate::words::{shown, word_sign, write_said};
use pg_position::{Move, Position};
use pg_san::{KnownReadings, SanFault};
use std::alloc::{AllocError, Global};
use std::mem;

// What is known of a text up to a place: the games that have ended; the moves of the game at hand, where they lead, and
// whether it has a tag pair; and how many variations are open.
#[derive(Drop)]
struct Reading {
    games: Vec<Vec<Move>>,
    moves: Vec<Move>,
    here: Position,
    headed: bool,
    depth: usize,
}

// Why a token is not read.
#[derive(Clone, Copy, Debug)]
enum Cause {
    Word(SanFault),
    Form(FormFault),
    NoMemory,
}

// Ends the game at hand.
fn end_game(alloc: Global, reading: &mut Reading, headed: bool) -> Result<(), AllocError>
    requires { reading.old.depth ≡ 0 }
    ensures { OnOk result (at reading.new ≡ at_game (ended (at reading.old)) headed) }
{
    let moves = mem::replace(&mut reading.moves, Vec::new(alloc));
    reading.games.push(moves)?;
    reading.here = Position::array();
    reading.headed = headed;
    Ok(())
}

// Ends the game at hand, where a token says so.
fn step_end(alloc: Global, reading: &mut Reading, headed: bool) -> Result<(), Cause>
    requires { reading.old.depth ≡ 0 }
    ensures ok { OnOk result (at reading.new ≡ at_game (ended (at reading.old)) headed) }
    ensures err { IfErr result (λ e. e ≡ Cause.NoMemory) }
{
    match end_game(alloc, reading, headed) {
        Ok(()) => Ok(()),
        Err(_) => Err(Cause::NoMemory),
    }
}

// Goes on behind a tag pair that a game may have.
fn step_head(alloc: Global, reading: &mut Reading) -> Result<(), Cause>
    requires { reading.old.depth ≡ 0 }
    ensures ok { OnOk result (at reading.new ≡ head (at reading.old)) }
    ensures err { IfErr result (λ e. e ≡ Cause.NoMemory) }
{
    if !reading.moves.is_empty() {
        return step_end(alloc, reading, true);
    }
    reading.headed = true;
    Ok(())
}

// Goes on behind a tag pair.
#[tactic(auto, unfolding(crate::specs::Pgn::Goes))]
fn step_tag(alloc: Global, reading: &mut Reading, sign: Sign) -> Result<(), Cause>
    requires { IsOfTag sign }
    ensures ok { (text : List ℕ) → OnOk result (Goes sign (at reading.old) text (at reading.new)) }
    ensures err { (text : List ℕ) → IfErr result (IsCause sign (at reading.old) text) }
{
    if reading.depth > 0 {
        return Err(Cause::Form(FormFault::Variation));
    }
    match sign {
        Sign::Fen => Err(Cause::Form(FormFault::Fen)),
        Sign::SetUp => Err(Cause::Form(FormFault::SetUp)),
        _ => step_head(alloc, reading),
    }
}

// Goes on behind a result.
#[tactic(auto, unfolding(crate::specs::Pgn::Goes))]
fn step_result(alloc: Global, reading: &mut Reading) -> Result<(), Cause>
    ensures ok { (text : List ℕ) → OnOk result (Goes Sign.Result (at reading.old) text (at reading.new)) }
    ensures err { IfErr result (λ e. e ≡ Cause.NoMemory) }
{
    if reading.depth > 0 {
        return Ok(());
    }
    step_end(alloc, reading, false)
}

// Goes on behind `)`.
#[tactic(auto, unfolding(crate::specs::Pgn::Goes))]
fn step_closing(reading: &mut Reading) -> Result<(), Cause>
    ensures ok { (text : List ℕ) → OnOk result (Goes Sign.Closing (at reading.old) text (at reading.new)) }
    ensures err { (text : List ℕ) → IfErr result (IsCause Sign.Closing (at reading.old) text) }
{
    if reading.depth == 0 {
        return Err(Cause::Form(FormFault::Closing));
    }
    reading.depth -= 1;
    Ok(())
}

// Keeps a move that leads to this position.
fn keep(reading: &mut Reading, m: Move, next: Position) -> Result<(), Cause>
    ensures ok { OnOk result (at reading.new ≡ moved (at reading.old) m next) }
    ensures err { IfErr result (λ e. e ≡ Cause.NoMemory) }
{
    match reading.moves.push(m) {
        Ok(()) => {
            reading.here = next;
            Ok(())
        }
        Err(_) => Err(Cause::NoMemory),
    }
}

// Goes on behind a move of the main line.
#[tactic(auto, unfolding(crate::specs::Pgn::Goes))]
fn step_move(reading: &mut Reading, known: &mut KnownReadings, text: &str) -> Result<(), Cause>
    requires { reading.old.depth ≡ 0 }
    ensures ok { OnOk result (Goes Sign.Moves (at reading.old) text.now (at reading.new)) }
    ensures err { IfErr result (IsCause Sign.Moves (at reading.old) text.now) }
{
    let mut here = reading.here;
    match known.read(&mut here, text.as_bytes()) {
        Ok(m) => keep(reading, m, here),
        Err(cause) => Err(Cause::Word(cause)),
    }
}

// Goes on behind a word of the main line, which says this.
#[tactic(auto, unfolding(crate::specs::Pgn::Goes))]
fn step_said(
    alloc: Global,
    reading: &mut Reading,
    known: &mut KnownReadings,
    text: &str,
) -> Result<(), Cause>
    requires { reading.old.depth ≡ 0 }
    ensures ok { OnOk result (Goes (word_sign text.now) (at reading.old) text.now (at reading.new)) }
    ensures err { IfErr result (IsCause (word_sign text.now) (at reading.old) text.now) }
{
    match word_sign(text.as_bytes()) {
        Sign::Moves => step_move(reading, known, text),
        Sign::Result => step_result(alloc, reading),
        _ => Ok(()),
    }
}

// Goes on behind a word.
#[tactic(auto, unfolding(crate::specs::Pgn::Goes))]
fn step_word(
    alloc: Global,
    reading: &mut Reading,
    known: &mut KnownReadings,
    letters: Letters,
    token: &[u8],
    text: &mut String,
) -> Result<(), Cause>
    ensures ok { OnOk result (Goes (word_sign (said letters token.now)) (at reading.old) (said letters token.now)
        (at reading.new)) }
    ensures err { IfErr result
        (IsCause (word_sign (said letters token.now)) (at reading.old) (said letters token.now)) }
{
    if reading.depth > 0 {
        return Ok(());
    }
    if write_said(text, letters, token).is_err() {
        return Err(Cause::NoMemory);
    }
    step_said(alloc, reading, known, text.as_str())
}

// Goes on behind a token.
#[tactic(auto, unfolding(crate::specs::Pgn::Goes))]
fn step(
    alloc: Global,
    reading: &mut Reading,
    known: &mut KnownReadings,
    letters: Letters,
    token: &[u8],
    text: &mut String,
) -> Result<(), Cause>
    requires { reading.old.depth < 18446744073709551615 }
    ensures ok { OnOk result
        (Goes (sign_of letters token.now) (at reading.old) (said letters token.now) (at reading.new)) }
    ensures err { IfErr result (IsCause (sign_of letters token.now) (at reading.old) (said letters token.now)) }
{
    match kind_at(token) {
        TokenKind::Word => step_word(alloc, reading, known, letters, token, text),
        TokenKind::Tag => step_tag(alloc, reading, tag_sign(token)),
        TokenKind::Opens => {
            reading.depth += 1;
            Ok(())
        }
        TokenKind::Closes => step_closing(reading),
        TokenKind::Star => step_result(alloc, reading),
        _ => Ok(()),
    }
}

// Why the token at the front of a text is not closed.
fn open_fault(kind: TokenKind) -> FormFault
    ensures { result ≡ open_fault kind }
{
    match kind {
        TokenKind::Comment => FormFault::Comment,
        _ => FormFault::Tag,
    }
}

/// The token at the front of a text that is not empty, and what stands behind it.
#[tactic(auto, using(crate::proofs::TokenLemmas::is_open))]
pub(crate) fn next_token(text: &[u8]) -> Result<(&[u8], &[u8]), FormFault>
    requires { 0 < length text.now }
    ensures ok { IfOk result (λ r. StartsWith text.now r.0.now r.1.now) }
    ensures less { IfOk result (λ r. length r.1.now < length text.now) }
    ensures err { IfErr result (IsOpen text.now) }
{
    let (front, more) = text.split_at(1);
    let kind = kind_of(front[0]);
    match more_len(kind, more) {
        Some(n) => Ok(text.split_at(n + 1)),
        None => Err(open_fault(kind)),
    }
}

fn form_fault(text: &[u8], rest: &[u8], game: usize, fault: FormFault) -> PgnFault
    requires { length rest.now ≤ length (without_mark text.now) }
    ensures { Tells text.now rest.now game 0 (Cause.Form fault) result }
{
    let place = place_of(text, rest);
    PgnFault::Form {
        line: place.line,
        column: place.column,
        game,
        fault,
    }
}

fn word_fault(
    text: &[u8],
    rest: &[u8],
    game: usize,
    ply: usize,
    token: &[u8],
    cause: SanFault,
) -> PgnFault
    requires { length rest.now ≤ length (without_mark text.now) }
    ensures { Tells text.now rest.now game ply (Cause.Word cause) result }
{
    let place = place_of(text, rest);
    PgnFault::At {
        line: place.line,
        column: place.column,
        game,
        ply,
        word: shown(token),
        cause,
    }
}

fn fault_of(
    text: &[u8],
    rest: &[u8],
    game: usize,
    ply: usize,
    token: &[u8],
    cause: Cause,
) -> PgnFault
    requires { length rest.now ≤ length (without_mark text.now) }
    ensures { Tells text.now rest.now game ply cause result }
{
    match cause {
        Cause::NoMemory => PgnFault::Memory,
        Cause::Form(fault) => form_fault(text, rest, game, fault),
        Cause::Word(cause) => word_fault(text, rest, game, ply, token, cause),
    }
}

// All games, at the end of a text.
fn all_of(alloc: Global, reading: Reading) -> Result<Vec<Vec<Move>>, AllocError>
    requires { reading.depth ≡ 0 }
    ensures { IfOk result (λ games. map (λ v. v.items) games.items ≡ all_games (at reading)) }
{
    let mut reading = reading;
    if reading.headed || !reading.moves.is_empty() {
        end_game(alloc, &mut reading, false)?;
    }
    Ok(reading.games)
}

// The games of a file, at its end.
#[tactic(auto, using(crate::proofs::LegalLemmas::games_legal))]
fn games_of(alloc: Global, reading: Reading) -> Result<PgnGames, PgnFault>
    requires depth { reading.depth ≡ 0 }
    requires legal { AreLegal (at reading) }
    ensures ok { IfOk result (λ games. games ≡ all_games (at reading)) }
    ensures err { IfErr result (λ e. e ≡ PgnFault.Memory) }
{
    match all_of(alloc, reading) {
        Ok(games) => Ok(PgnGames { games }),
        Err(_) => Err(PgnFault::Memory),
    }
}

// Before the first token.
fn begun(alloc: Global) -> Reading
    ensures { at result ≡ at_game [] false }
{
    Reading {
        games: Vec::new(alloc),
        moves: Vec::new(alloc),
        here: Position::array(),
        headed: false,
        depth: 0,
    }
}

// The number of the game at hand, counted from 1.
fn game_number(reading: &Reading) -> usize
    ensures { result ≡ length (at reading.now).games + 1 }
{
    reading.games.len() + 1
}

// The number of the ply at hand, counted from 1.
fn ply_number(reading: &Reading) -> usize
    ensures { result ≡ length (at reading.now).moves + 1 }
{
    reading.moves.len() + 1
}

/// The games of a text in PGN (the import format of the PGN standard, sections 7 and 8), each from the initial array
/// and in the order of the text, the same game as often as it stands there. The men's letters are those of a language,
/// or figurines; `:` and a cross stand for `x` too, a dash for `-`, and `o` for the letter of castling. Comments,
/// annotation glyphs, variations, marks and `e.p.` are passed over. A game ends at a result, at a tag pair behind a
/// move, or at the end of the text. Each move is read as by `pg_san::read`. The games are taken from `alloc`, and so
/// is, while a long text is read, room of some 43 KB.
///
/// # Errors
/// The first fault of the text: `At` with its place, where a word of the main line is no legal move, or more than one;
/// `Form` where a comment, a tag pair or a variation is not closed, a bracket closes nothing, or a tag pair sets up a
/// position; and `Memory` where memory is refused.
pub fn read_pgn(alloc: Global, text: &[u8], letters: Letters) -> Result<PgnGames, PgnFault>
    ensures ok { IfOk result (λ games. IsFile letters text.now games) }
    ensures err { IfErr result (λ e. IsFirstFault letters text.now e) }
{
    let mut known = KnownReadings::new(alloc, text.len());
    let mut reading = begun(alloc);
    let mut word = String::new(alloc);
    let mut rest = body(text);
    while !rest.is_empty() {
        let game = game_number(&reading);
        let ply = ply_number(&reading);
        let (token, after) = match next_token(rest) {
            Ok(cut) => cut,
            Err(fault) => return Err(form_fault(text, rest, game, fault)),
        };
        match step(alloc, &mut reading, &mut known, letters, token, &mut word) {
            Ok(()) => {}
            Err(cause) => return Err(fault_of(text, rest, game, ply, token, cause)),
        }
        rest = after;
    }
    if reading.depth > 0 {
        return Err(form_fault(text, rest, game_number(&reading), FormFault::Variation));
    }
    games_of(alloc, reading)
}
