//! The report on a list of games.
ghost use Rattle.std.specs.Prelude.{◌≡◌, All, IfOk, IfErr};
ghost use Rattle.pg_certificate.specs.Pushing.{Adds, AddsSome, MayPush, Pushes};
ghost use Rattle.pg_san.specs.Games.{IsFromArray};
ghost use Rattle.pg_san.specs.KnownTexts.{IsWritten};
ghost use Rattle.pg_texts.specs.Movetext.{IsMovetext};
ghost use Rattle.pg_texts.specs.Report.{AddsLine, AreGameLines, IsReport, IsVerdict, head_text, labelled_text};
ghost use Rattle.pg_texts.specs.Report.{line_text};

use crate::movetext::append_game;
use crate::verdict::{Verdict, verdict_on, words};
use pg_certificate::{Refused, Sink, WriteFault};
use pg_fen::text::digits;
use pg_fen::{Diagram, Length};
use pg_position::Move;
use pg_san::{Games, MOST_WRITTEN, Written, nothing_written};

// Fewer games than these are written with nothing known: they are too few to pay for the room, which is some 11 KB
// that are filled at first.
const FEW: usize = 128;

/// Appends a text and a line feed.
///
/// # Errors
/// `Refused` where the sink has failed.
pub fn write_line<W: Sink>(text: &str, out: &mut W) -> Result<(), Refused>
    ensures { Pushes W.held W.has_failed (Adds (line_text text.now)) out.old out.new result }
{
    out.push(text.as_bytes())?;
    out.push(b"\n")
}

// Appends a label, a text and a line feed.
fn write_labelled<W: Sink>(label: &str, text: &str, out: &mut W) -> Result<(), Refused>
    ensures { Pushes W.held W.has_failed (Adds (labelled_text label.now text.now)) out.old out.new result }
{
    out.push(label.as_bytes())?;
    write_line(text, out)
}

/// Appends the first lines of a report, each ended by a line feed: `diagram ` and the placement;
/// `length ` and the length in moves; `games ` and their number, which is for the caller to know.
///
/// # Errors
/// `Refused` where the sink has failed.
pub fn write_head<W: Sink>(
    diagram: &Diagram,
    length: Length,
    count: usize,
    out: &mut W,
) -> Result<(), Refused>
    ensures { Pushes W.held W.has_failed (Adds (head_text diagram.now length count)) out.old out.new result }
{
    write_labelled("diagram ", diagram.write().as_str(), out)?;
    write_labelled("length ", length.write().as_str(), out)?;
    write_labelled("games ", digits(count).as_str(), out)
}

// Appends the movetext of a game from the initial array, by what is known, and a line feed.
fn write_listed<W: Sink>(game: &[Move], known: &mut [Written], out: &mut W) -> Result<(), Refused>
    requires game { IsFromArray game.now }
    requires known { All IsWritten known.old }
    ensures known { All IsWritten known.new }
    ensures push { Pushes W.held W.has_failed (AddsLine (IsMovetext game.now)) out.old out.new result }
{
    append_game(game, known, out)?;
    out.push(b"\n")
}

/// Appends the movetext of a game from the initial array, and a line feed.
///
/// # Errors
/// `Refused` where the sink has failed.
pub fn write_game<W: Sink>(game: &[Move], out: &mut W) -> Result<(), Refused>
    requires { IsFromArray game.now }
    ensures { Pushes W.held W.has_failed (AddsLine (IsMovetext game.now)) out.old out.new result }
{
    write_listed(game, &mut [], out)
}

// Appends the movetext of each game of the list, by what is known, each ended by a line feed.
fn write_all<W: Sink>(games: &Games, known: &mut [Written], out: &mut W) -> Result<(), Refused>
    requires { All IsWritten known.old }
    ensures { MayPush W.held W.has_failed (AddsSome (AreGameLines games.now)) out.old out.new result }
{
    for i in 0..games.len() {
        let Some(game) = games.game(i) else {
            unreachable!();
        };
        write_listed(game, known, out)?;
    }
    Ok(())
}

// The same of many games. What is known of them stands in this function's own frame, which a list of few games does
// not pay for.
#[inline(never)]
fn write_many<W: Sink>(games: &Games, out: &mut W) -> Result<(), Refused>
    ensures { MayPush W.held W.has_failed (AddsSome (AreGameLines games.now)) out.old out.new result }
{
    let mut known = [nothing_written(); MOST_WRITTEN];
    write_all(games, &mut known, out)
}

/// Appends the movetext of each game of the list, in canonical order, each ended by a line feed.
///
/// # Errors
/// `Refused` where the sink has failed.
pub fn write_games<W: Sink>(games: &Games, out: &mut W) -> Result<(), Refused>
    ensures { MayPush W.held W.has_failed (AddsSome (AreGameLines games.now)) out.old out.new result }
{
    if games.len() < FEW {
        write_all(games, &mut [], out)
    } else {
        write_many(games, out)
    }
}

// Appends the report; what the verdict is.
fn append_report<W: Sink>(
    diagram: &Diagram,
    length: Length,
    games: &Games,
    out: &mut W,
) -> Result<Verdict, Refused>
    ensures push { Pushes W.held W.has_failed
        (AddsSome (IsReport diagram.now length games.now)) out.old out.new result }
    ensures verdict { IfOk result (λ v. IsVerdict games.now v) }
{
    let verdict = verdict_on(games);
    write_head(diagram, length, games.len(), out)?;
    write_games(games, out)?;
    write_line(words(verdict), out)?;
    Ok(verdict)
}

/// Writes the report on a list of games of the stated length to a diagram, and answers its verdict. The
/// report has these lines, each ended by a line feed: `diagram ` and the placement; `length ` and
/// the length; `games ` and their number; the movetext of each game, in canonical order; then
/// `sound`, `cooked` or `no game`. Takes no memory.
///
/// That the list is exactly the games of the diagram is for the caller to know.
///
/// # Errors
/// `Write` where the sink has failed.
pub fn write_report<W: Sink>(
    diagram: &Diagram,
    length: Length,
    games: &Games,
    out: &mut W,
) -> Result<Verdict, WriteFault>
    ensures push { Pushes W.held W.has_failed
        (AddsSome (IsReport diagram.now length games.now)) out.old out.new result }
    ensures verdict { IfOk result (λ v. IsVerdict games.now v) }
    ensures fault { IfErr result (λ e. e ≡ WriteFault.Write) }
{
    match append_report(diagram, length, games, out) {
        Ok(verdict) => Ok(verdict),
        Err(Refused) => Err(WriteFault::Write),
    }
}
