//! Writing games.
ghost use Rattle.std.specs.Prelude.{◌≡◌, ℕ, ◌+◌, ◌<◌, ◌≤◌, List, Option, ◌++◌, ◌∷◌, [], length, IfOk, OnOk, OnErr, true, false};
ghost use Rattle.pg_certificate.specs.Pushing.{Adds, AddsSome, MayPush, Pushes};
ghost use Rattle.pg_position.specs.Step.{Legal};
ghost use Rattle.pg_san.specs.Games.{IsFromArray};
ghost use Rattle.pg_pgn.specs.Writing.{gap, columns, spaced, number, number_text, number_columns, IsGameText};
ghost use Rattle.pg_pgn.specs.Writing.{IsPgnText, AddsPly, AddsAllMoves};

use arrayvec::ArrayString;
use pg_certificate::{Refused, Sink};
use pg_fen::text::{digits, put};
use pg_position::{Move, Position};
use pg_san::{Games, write_with};

// A line has fewer columns.
const WIDTH: usize = 80;

const TAGS: &str =
    "[Event \"?\"]\n[Site \"?\"]\n[Date \"????.??.??\"]\n[Round \"?\"]\n[White \"?\"]\n[Black \"?\"]\n[Result \"*\"]\n\n";

// What stands before a word of this length behind n columns of a line.
fn gap(n: usize, long: usize) -> &'static [u8]
    requires { n + long < 18446744073709551615 }
    ensures { result.now ≡ gap n long }
{
    if n == 0 {
        b""
    } else if n + 1 + long < WIDTH {
        b" "
    } else {
        b"\n"
    }
}

// The columns of the line behind that word.
fn columns(n: usize, long: usize) -> usize
    requires { n + long < 18446744073709551615 }
    ensures value { result ≡ columns n long }
    ensures small { result ≤ 80 + long }
{
    if n == 0 {
        long
    } else if n + 1 + long < WIDTH {
        n + 1 + long
    } else {
        long
    }
}

// Writes a word behind n columns of a line; how many columns are behind it.
fn write_word<W: Sink>(n: usize, word: &[u8], out: &mut W) -> Result<usize, Refused>
    requires { n + length word.now < 18446744073709551615 }
    ensures push { Pushes W.held W.has_failed (Adds (spaced n word.now)) out.old out.new result }
    ensures columns { IfOk result (λ k. k ≡ columns n (length word.now)) }
    ensures small { IfOk result (λ k. k ≤ 80 + length word.now) }
{
    out.push(gap(n, word.len()))?;
    out.push(word)?;
    Ok(columns(n, word.len()))
}

// The number before a move of White's.
fn number(ply: usize) -> ArrayString<21>
    ensures { result.bytes ≡ number ply }
{
    let mut text = ArrayString::new();
    text.push_str(digits(ply / 2 + 1).as_str());
    put(&mut text, b'.');
    text
}

// Writes the number before a move of White's, behind n columns of a line; how many columns are behind it.
fn write_number<W: Sink>(n: usize, ply: usize, out: &mut W) -> Result<usize, Refused>
    requires { n ≤ 88 }
    ensures push { MayPush W.held W.has_failed (Adds (number_text n ply)) out.old out.new result }
    ensures columns { IfOk result (λ k. k ≡ number_columns n ply) }
    ensures small { IfOk result (λ k. k ≤ 101) }
{
    if ply % 2 != 0 {
        return Ok(n);
    }
    write_word(n, number(ply).as_bytes(), out)
}

// Writes a legal move, the ply with this number from 0, behind n columns of a line; how many columns are behind it. It
// leads to the position `next`.
fn write_ply<W: Sink>(
    n: usize,
    ply: usize,
    position: &Position,
    m: &Move,
    next: &Position,
    out: &mut W,
) -> Result<usize, Refused>
    requires legal { Legal position.now m.now next.now }
    requires small { n ≤ 88 }
    ensures text { IfOk result (λ k. AddsPly n ply position.now m.now k (W.held out.old) (W.held out.new)) }
    ensures runs { OnOk result (W.has_failed out.new ≡ false) }
    ensures same { OnOk result (W.has_failed out.new ≡ W.has_failed out.old) }
    ensures fault { OnErr result (W.has_failed out.new ≡ true) }
    ensures small { IfOk result (λ k. k ≤ 88) }
{
    let san = write_with(position, *m, next);
    let n = write_number(n, ply, out)?;
    write_word(n, san.as_bytes(), out)
}

// Writes the moves of a game; how many columns are behind them.
fn write_moves<W: Sink>(game: &[Move], out: &mut W) -> Result<usize, Refused>
    requires { IsFromArray game.now }
    ensures text { IfOk result (λ k. AddsAllMoves game.now k (W.held out.old) (W.held out.new)) }
    ensures same { OnOk result (W.has_failed out.new ≡ W.has_failed out.old) }
    ensures fault { OnErr result (W.has_failed out.new ≡ true) }
    ensures small { IfOk result (λ k. k ≤ 88) }
{
    let mut position = Position::array();
    let mut n = 0;
    for (ply, m) in game.iter().enumerate() {
        let next = position.after(m);
        n = write_ply(n, ply, &position, m, &next, out)?;
        position = next;
    }
    Ok(n)
}

/// Writes a game from the initial array: the seven tags of which nothing is known, an empty line, and the movetext in
/// lines below 80 columns, which end in `*`. Takes no memory.
///
/// # Errors
/// `Refused` where the sink has failed.
pub fn write_game<W: Sink>(game: &[Move], out: &mut W) -> Result<(), Refused>
    requires { IsFromArray game.now }
    ensures { Pushes W.held W.has_failed (AddsSome (IsGameText game.now)) out.old out.new result }
{
    out.push(TAGS.as_bytes())?;
    let n = write_moves(game, out)?;
    write_word(n, b"*", out)?;
    out.push(b"\n")
}

// Writes a game behind this many others: an empty line stands between two.
fn write_behind<W: Sink>(count: usize, game: &[Move], out: &mut W) -> Result<(), Refused>
    requires { IsFromArray game.now }
    ensures text { (games : List (List Move)) (before : Option (List ℕ)) → count ≡ length games
        → AddsSome (IsPgnText games) before (W.held out.old)
        → OnOk result (AddsSome (IsPgnText (games ++ game.now ∷ [])) before (W.held out.new)) }
    ensures runs { OnOk result ((W.has_failed out.old ≡ false) × (W.has_failed out.new ≡ false)) }
    ensures fault { OnErr result (W.has_failed out.new ≡ true) }
{
    if count == 0 {
        return write_game(game, out);
    }
    out.push(b"\n")?;
    write_game(game, out)
}

/// Writes the games of a list in canonical order, an empty line between two, each as by `write_game`. Takes no memory.
///
/// # Errors
/// `Refused` where the sink has failed.
pub fn write_pgn<W: Sink>(games: &Games, out: &mut W) -> Result<(), Refused>
    ensures { MayPush W.held W.has_failed (AddsSome (IsPgnText games.now)) out.old out.new result }
{
    for i in 0..games.len() {
        let Some(game) = games.game(i) else {
            unreachable!();
        };
        write_behind(i, game, out)?;
    }
    Ok(())
}

/// Writes the games of a list as `write_pgn` does, and another game behind them. Takes no memory.
///
/// # Errors
/// `Refused` where the sink has failed.
pub fn write_pgn_and<W: Sink>(games: &Games, last: &[Move], out: &mut W) -> Result<(), Refused>
    requires { IsFromArray last.now }
    ensures { Pushes W.held W.has_failed (AddsSome (IsPgnText (games.now ++ last.now ∷ []))) out.old out.new result }
{
    write_pgn(games, out)?;
    write_behind(games.len(), last, out)
}
