//! The reports: of games that are known, and of what was found beside them.
ghost use Rattle.std.specs.Prelude.{◌≡◌, ◌++◌, IfOk, decimal};
ghost use Rattle.pg_certificate.specs.Pushing.{Adds, AddsSome, Pushes};
ghost use Rattle.pg_san.specs.Games.{IsFromArray};
ghost use Rattle.pg_texts.specs.Report.{line_text};
ghost use Rattle.pg_cooks.specs.Standing.{IsKnownText, IsStanding, IsGamesReport};
ghost use Rattle.pg_cooks.specs.Cooks.{IsAnswerText, IsCookText, IsCooksReport, IsEndText, IsShorterText, IsTold};
ghost use Rattle.pg_cooks.specs.Cooks.{cook_text, foreign_text, none_text, unfound_text, unsound_text, within_text};

use crate::finding::CookAnswer;
use crate::parting::write_apart;
use crate::standing::{Standing, standing_of, standing_words};
use pg_certificate::{Refused, Sink};
use pg_fen::text::digits;
use pg_fen::{Diagram, Length};
use pg_position::Move;
use pg_san::Games;
use pg_searcher::LedEnd;
use pg_texts::{write_game, write_games, write_head, write_line};

/// Appends the lines that say what was asked, and the games that are known, each ended by a line feed: `diagram ` and
/// the placement; `length ` and the length; `games ` and their number; the movetext of each game, in canonical order.
///
/// # Errors
/// `Refused` where the sink has failed.
pub fn write_known<W: Sink>(
    diagram: &Diagram,
    length: Length,
    games: &Games,
    out: &mut W,
) -> Result<(), Refused>
    ensures { Pushes W.held W.has_failed (AddsSome (IsKnownText diagram.now length games.now)) out.old out.new result }
{
    write_head(diagram, length, games.len(), out)?;
    write_games(games, out)
}

/// Appends the report of games that are known: these lines, and what the games say, `not sound`, `at least one game` or
/// `no game given`; which of these it is. Nothing is tested here.
///
/// # Errors
/// `Refused` where the sink has failed.
pub fn write_standing<W: Sink>(
    diagram: &Diagram,
    length: Length,
    games: &Games,
    out: &mut W,
) -> Result<Standing, Refused>
    ensures push { Pushes W.held W.has_failed
        (AddsSome (IsGamesReport diagram.now length games.now)) out.old out.new result }
    ensures standing { IfOk result (λ s. IsStanding games.now s) }
{
    let standing = standing_of(games);
    write_known(diagram, length, games, out)?;
    write_line(standing_words(standing), out)?;
    Ok(standing)
}

// Appends a text, a number, a text and a line feed.
fn write_numbered<W: Sink>(before: &str, n: usize, behind: &str, out: &mut W) -> Result<(), Refused>
    ensures { Pushes W.held W.has_failed
        (Adds (before.now ++ (decimal n ++ line_text behind.now))) out.old out.new result }
{
    out.push(before.as_bytes())?;
    out.push(digits(n).as_bytes())?;
    write_line(behind, out)
}

// The words behind a number of foreign moves.
fn foreign_words(n: u8) -> &'static str
    ensures { result.now ≡ foreign_text n }
{
    match n {
        1 => " foreign move",
        _ => " foreign moves",
    }
}

// Appends that no game was found, and with how many foreign moves at most, where the search says it.
fn write_within<W: Sink>(foreign: Option<u8>, out: &mut W) -> Result<(), Refused>
    ensures { Pushes W.held W.has_failed (Adds (within_text foreign)) out.old out.new result }
{
    match foreign {
        Some(n) => {
            out.push(b"none with at most ")?;
            out.push(digits(usize::from(n)).as_bytes())?;
            out.push(foreign_words(n).as_bytes())
        }
        None => out.push(b"none found"),
    }
}

// Appends that, and in the same line why the search came to its end there.
fn write_because<W: Sink>(foreign: Option<u8>, why: &str, out: &mut W) -> Result<(), Refused>
    ensures { Pushes W.held W.has_failed (Adds (within_text foreign ++ line_text why.now)) out.old out.new result }
{
    write_within(foreign, out)?;
    write_line(why, out)
}

// Appends the line that no game was found, and how the search says that it came to its end.
fn write_unfound<W: Sink>(foreign: Option<u8>, end: LedEnd, out: &mut W) -> Result<(), Refused>
    ensures { Pushes W.held W.has_failed (Adds (unfound_text foreign end)) out.old out.new result }
{
    match end {
        LedEnd::All => write_line("none: the search went through all games", out),
        LedEnd::Foreign => write_because(foreign, ": no more were allowed", out),
        LedEnd::Nodes => write_because(foreign, ": node limit reached", out),
    }
}

// Appends that line, and the one that the problem is not sound where the listed games say it by themselves.
fn write_none<W: Sink>(
    foreign: Option<u8>,
    end: LedEnd,
    standing: Standing,
    out: &mut W,
) -> Result<(), Refused>
    ensures { Pushes W.held W.has_failed (Adds (none_text foreign end standing)) out.old out.new result }
{
    match standing {
        Standing::NotSound => {
            write_unfound(foreign, end, out)?;
            write_line("not sound", out)
        }
        Standing::AtLeastOne | Standing::NoneGiven => write_unfound(foreign, end, out),
    }
}

// Appends a game that was found, behind the line that says what it is.
fn write_found<W: Sink>(game: &[Move], out: &mut W) -> Result<(), Refused>
    requires { IsFromArray game.now }
    ensures { Pushes W.held W.has_failed (AddsSome (IsEndText unsound_text game.now)) out.old out.new result }
{
    write_game(game, out)?;
    write_line("not sound", out)
}

// Appends where another game parts from the first that is known, and that the problem is not sound.
fn write_parted<W: Sink>(games: &Games, game: &[Move], out: &mut W) -> Result<(), Refused>
    ensures { Pushes W.held W.has_failed (Adds (cook_text games.now game.now)) out.old out.new result }
{
    write_apart("it parts from the first", games, game, "\n", out)?;
    write_line("not sound", out)
}

// Appends another game that was found, behind the line that says so.
fn write_other<W: Sink>(games: &Games, game: &[Move], out: &mut W) -> Result<(), Refused>
    requires { IsFromArray game.now }
    ensures { Pushes W.held W.has_failed
        (AddsSome (IsEndText (cook_text games.now game.now) game.now)) out.old out.new result }
{
    write_game(game, out)?;
    write_parted(games, game, out)
}

/// Appends the lines of a game from the initial array that is another solution beside games that are known: `another
/// game`; its movetext; where it parts from the first of them, as `it parts from the first at move 4 of White`, and `,
/// with the same moves in another order` behind it where each colour plays the same moves in both; and `not sound`.
/// Each is ended by a line feed. Nothing is tested here.
///
/// # Errors
/// `Refused` where the sink has failed.
pub fn write_cook<W: Sink>(games: &Games, game: &[Move], out: &mut W) -> Result<(), Refused>
    requires { IsFromArray game.now }
    ensures { Pushes W.held W.has_failed (AddsSome (IsCookText games.now game.now)) out.old out.new result }
{
    write_line("another game", out)?;
    write_other(games, game, out)
}

/// Appends the lines of a game from the initial array that is shorter than stated: `a game of `, its number of plies
/// and ` plies`, its movetext and `not sound`, each ended by a line feed. Nothing is tested here.
///
/// # Errors
/// `Refused` where the sink has failed.
pub fn write_shorter<W: Sink>(game: &[Move], out: &mut W) -> Result<(), Refused>
    requires { IsFromArray game.now }
    ensures { Pushes W.held W.has_failed (AddsSome (IsShorterText game.now)) out.old out.new result }
{
    write_numbered("a game of ", game.len(), " plies", out)?;
    write_found(game, out)
}

// Appends the lines of what was found beside games that are known.
fn write_answer<W: Sink>(games: &Games, answer: &CookAnswer, out: &mut W) -> Result<(), Refused>
    requires { IsTold answer.now }
    ensures { Pushes W.held W.has_failed (AddsSome (IsAnswerText games.now answer.now)) out.old out.new result }
{
    match answer {
        CookAnswer::Cook(game) => write_cook(games, game.as_slice(), out),
        CookAnswer::Shorter(game) => write_shorter(game.as_slice(), out),
        CookAnswer::NotFound {
            foreign,
            nodes: _,
            end,
            standing,
        } => write_none(*foreign, *end, *standing, out),
    }
}

// Appends the report of games that are known and of what was found beside them.
pub(crate) fn write_cooks<W: Sink>(
    diagram: &Diagram,
    length: Length,
    games: &Games,
    answer: &CookAnswer,
    out: &mut W,
) -> Result<(), Refused>
    requires { IsTold answer.now }
    ensures { Pushes W.held W.has_failed
        (AddsSome (IsCooksReport diagram.now length games.now answer.now)) out.old out.new result }
{
    write_known(diagram, length, games, out)?;
    write_answer(games, answer, out)
}
