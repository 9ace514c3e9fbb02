//! Where two games part, and whether they are the same moves in another order.
ghost use Rattle.std.specs.Prelude.{◌≡◌, ◌≤◌};
ghost use Rattle.pg_certificate.specs.Pushing.{Adds, MayPush, Pushes};
ghost use Rattle.pg_cooks.specs.Parting.{agrees, apart_text, are_reordered, between_text, colour_text, is_same};
ghost use Rattle.pg_cooks.specs.Parting.{move_text, order_text, pair_text, parting, played, plays};

use pg_certificate::{Refused, Sink};
use pg_fen::text::digits;
use pg_position::{Move, move_order};
use pg_san::Games;

// Whether two moves are the same.
fn is_same(a: &Move, b: &Move) -> bool
    ensures { result ≡ is_same a.now b.now }
{
    move_order(a, b).is_eq()
}

// The ply, counted from 0, at which two games part.
fn part(a: &[Move], b: &[Move]) -> usize
    ensures { result ≡ parting a.now b.now }
{
    for i in 0..a.len() {
        if i >= b.len() {
            return i;
        }
        if !is_same(&a[i], &b[i]) {
            return i;
        }
    }
    a.len()
}

// Whether a ply is that of a colour, 0 for White and 1 for Black, and its move is this one: 1, or else 0.
fn played(colour: usize, ply: usize, m: &Move, at: &Move) -> usize
    ensures value { result ≡ played colour ply m.now at.now }
    ensures most { result ≤ 1 }
{
    if ply % 2 == colour && is_same(m, at) {
        1
    } else {
        0
    }
}

// How often a colour plays a move in a game.
fn plays(colour: usize, m: &Move, game: &[Move]) -> usize
    ensures { result ≡ plays colour 0 m.now game.now }
{
    let mut count = 0;
    for (ply, at) in game.iter().enumerate() {
        count += played(colour, ply, m, at);
    }
    count
}

// Whether each move of a game is played by its colour as often in one game as in another.
fn agrees(game: &[Move], a: &[Move], b: &[Move]) -> bool
    ensures { result ≡ agrees 0 game.now a.now b.now }
{
    for (ply, m) in game.iter().enumerate() {
        let in_a = plays(ply % 2, m, a);
        let in_b = plays(ply % 2, m, b);
        if in_a != in_b {
            return false;
        }
    }
    true
}

// Whether two games are the same moves in another order.
fn are_reordered(a: &[Move], b: &[Move]) -> bool
    ensures { result ≡ are_reordered a.now b.now }
{
    agrees(a, a, b) && agrees(b, a, b)
}

// The words for whose move a ply is.
fn colour_words(ply: usize) -> &'static str
    ensures { result.now ≡ colour_text ply }
{
    if ply % 2 == 0 {
        " of White"
    } else {
        " of Black"
    }
}

// The words for games that are the same moves in another order.
fn order_words(same: bool) -> &'static str
    ensures { result.now ≡ order_text same }
{
    if same {
        ", with the same moves in another order"
    } else {
        ""
    }
}

// Appends the number of the move of a ply, and whose it is.
fn write_move<W: Sink>(ply: usize, out: &mut W) -> Result<(), Refused>
    ensures { Pushes W.held W.has_failed (Adds (move_text ply)) out.old out.new result }
{
    out.push(b" at move ")?;
    out.push(digits(ply / 2 + 1).as_bytes())?;
    out.push(colour_words(ply).as_bytes())
}

// Appends where two games part, between two texts.
fn write_between<W: Sink>(
    before: &str,
    a: &[Move],
    b: &[Move],
    behind: &str,
    out: &mut W,
) -> Result<(), Refused>
    ensures { Pushes W.held W.has_failed
        (Adds (between_text before.now a.now b.now behind.now)) out.old out.new result }
{
    out.push(before.as_bytes())?;
    write_move(part(a, b), out)?;
    out.push(order_words(are_reordered(a, b)).as_bytes())?;
    out.push(behind.as_bytes())
}

/// Appends where a game parts from the first game of a list, and whether it has the same moves in another order,
/// between two texts: ` at move `, the number of the move, and ` of White` or ` of Black`; then, where each colour plays
/// the same moves in both, each as often, `, with the same moves in another order`. Nothing where the list has no game.
/// Takes no memory.
///
/// # Errors
/// `Refused` where the sink has failed.
pub fn write_apart<W: Sink>(
    before: &str,
    games: &Games,
    game: &[Move],
    behind: &str,
    out: &mut W,
) -> Result<(), Refused>
    ensures { MayPush W.held W.has_failed
        (Adds (apart_text before.now games.now game.now behind.now)) out.old out.new result }
{
    match games.game(0) {
        Some(first) => write_between(before, first, game, behind, out),
        None => Ok(()),
    }
}

/// Appends where the first two games of a list part, and whether they are the same moves in another order, between two
/// texts, as `write_apart` does. Nothing where the list has fewer games. Takes no memory.
///
/// # Errors
/// `Refused` where the sink has failed.
pub fn write_pair_apart<W: Sink>(
    before: &str,
    games: &Games,
    behind: &str,
    out: &mut W,
) -> Result<(), Refused>
    ensures { MayPush W.held W.has_failed
        (Adds (pair_text before.now games.now behind.now)) out.old out.new result }
{
    match games.game(1) {
        Some(second) => write_apart(before, games, second, behind, out),
        None => Ok(()),
    }
}
