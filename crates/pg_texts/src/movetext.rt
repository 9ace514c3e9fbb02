//! Games as text.
ghost use Rattle.std.specs.Prelude.{◌≡◌, ◌<◌, ◌++◌, true, false, length, All, IfOk, IfErr, OnOk, OnErr};
ghost use Rattle.pg_certificate.specs.Pushing.{Adds, AddsSome, MayPush, Pushes};
ghost use Rattle.pg_position.specs.Step.{Legal};
ghost use Rattle.pg_san.specs.Games.{IsFromArray};
ghost use Rattle.pg_san.specs.KnownTexts.{IsWritten};
ghost use Rattle.pg_texts.specs.Movetext.{AddsLongest, IsMovetext, number_text, space_text};
ghost use Rattle.pg_texts.specs.inner.Plies.{AddsPly, AddsAllPlies, IsPlayedOut};

use pg_certificate::{Refused, Sink, WriteFault};
use pg_fen::text::digits;
use pg_position::{Move, Position};
use pg_san::{San, Written, write_known, write_with};

// Appends the space before a ply, but for the first.
fn write_space<W: Sink>(ply: usize, out: &mut W) -> Result<(), Refused>
    ensures { MayPush W.held W.has_failed (Adds (space_text ply)) out.old out.new result }
{
    if ply == 0 {
        return Ok(());
    }
    out.push(b" ")
}

// Appends the number before a ply of White's.
fn write_number<W: Sink>(ply: usize, out: &mut W) -> Result<(), Refused>
    ensures { MayPush W.held W.has_failed (Adds (number_text ply)) out.old out.new result }
{
    if ply % 2 != 0 {
        return Ok(());
    }
    out.push(digits(ply / 2 + 1).as_bytes())?;
    out.push(b". ")
}

// Appends the text of a move, the ply with this number from 0, with what stands before it.
fn write_text<W: Sink>(ply: usize, san: &San, out: &mut W) -> Result<(), Refused>
    ensures { Pushes W.held W.has_failed
        (Adds (space_text ply ++ (number_text ply ++ san.now.bytes))) out.old out.new result }
{
    write_space(ply, out)?;
    write_number(ply, out)?;
    out.push(san.as_bytes())
}

// Appends a legal move, the ply with this number from 0, with what stands before it. It leads to the
// position `next`.
fn write_ply<W: Sink>(
    ply: usize,
    position: &Position,
    m: &Move,
    next: &Position,
    out: &mut W,
) -> Result<(), Refused>
    requires { Legal position.now m.now next.now }
    ensures { Pushes W.held W.has_failed (AddsPly ply position.now m.now) out.old out.new result }
{
    write_text(ply, &write_with(position, *m, next), out)
}

// Appends the moves up to the first that is not legal; how many they are.
fn write_plies<W: Sink>(moves: &[Move], out: &mut W) -> Result<usize, Refused>
    ensures plies { IfOk result (λ n. IsPlayedOut moves.now n (W.held out.old) (W.held out.new)) }
    ensures runs { IfOk result (λ n. (W.has_failed out.new ≡ W.has_failed out.old)
        × (0 < n → W.has_failed out.new ≡ false)) }
    ensures fault { OnErr result (W.has_failed out.new ≡ true) }
{
    let mut position = Position::array();
    for (ply, m) in moves.iter().enumerate() {
        match position.play(*m) {
            Ok(next) => {
                write_ply(ply, &position, m, &next, out)?;
                position = next;
            }
            Err(_) => return Ok(ply),
        }
    }
    Ok(moves.len())
}

// Appends the movetext of the longest front of the moves that is a game from the initial array.
pub(crate) fn append_movetext<W: Sink>(moves: &[Move], out: &mut W) -> Result<(), Refused>
    ensures { Pushes W.held W.has_failed (AddsLongest moves.now) out.old out.new result }
{
    if write_plies(moves, out)? == 0 {
        return out.push(b"-");
    }
    Ok(())
}

// Appends the moves of a game from the initial array, by what is known: none of them is tested.
fn write_game_plies<W: Sink>(
    game: &[Move],
    known: &mut [Written],
    out: &mut W,
) -> Result<(), Refused>
    requires game { IsFromArray game.now }
    requires known { All IsWritten known.old }
    ensures known { All IsWritten known.new }
    ensures plies { OnOk result (AddsAllPlies game.now (W.held out.old) (W.held out.new)) }
    ensures runs { OnOk result ((W.has_failed out.new ≡ W.has_failed out.old)
        × (0 < length game.now → W.has_failed out.new ≡ false)) }
    ensures fault { OnErr result (W.has_failed out.new ≡ true) }
{
    let mut position = Position::array();
    for (ply, m) in game.iter().enumerate() {
        let san = write_known(known, &mut position, m);
        write_text(ply, &san, out)?;
    }
    Ok(())
}

// Appends the movetext of a game from the initial array, by what is known.
pub(crate) fn append_game<W: Sink>(
    game: &[Move],
    known: &mut [Written],
    out: &mut W,
) -> Result<(), Refused>
    requires game { IsFromArray game.now }
    requires known { All IsWritten known.old }
    ensures known { All IsWritten known.new }
    ensures push { Pushes W.held W.has_failed (AddsSome (IsMovetext game.now)) out.old out.new result }
{
    if !game.is_empty() {
        write_game_plies(game, known, out)?;
        return Ok(());
    }
    out.push(b"-")
}

/// Writes the movetext of the longest front of the moves that is a game from the initial array, as
/// in `1. e4 e5 2. Nf3`: before each move of White its number, a dot and a space; one space between
/// two words; `-` for the game of no move. No line feed stands behind it. Takes no memory.
///
/// # Errors
/// `Write` where the sink has failed.
pub fn write_movetext<W: Sink>(moves: &[Move], out: &mut W) -> Result<(), WriteFault>
    ensures push { Pushes W.held W.has_failed (AddsLongest moves.now) out.old out.new result }
    ensures fault { IfErr result (λ e. e ≡ WriteFault.Write) }
{
    match append_movetext(moves, out) {
        Ok(()) => Ok(()),
        Err(Refused) => Err(WriteFault::Write),
    }
}
