//! The report of what is found of a problem.
ghost use Rattle.std.specs.Prelude.{◌≡◌, ◌++◌, codes, IfErr};
ghost use Rattle.pg_certificate.specs.Pushing.{Adds, AddsSome, Pushes};
ghost use Rattle.pg_san.specs.Games.{IsFromArray};
ghost use Rattle.pg_texts.specs.Report.{line_text, verdict_text};
ghost use Rattle.pg_cooks.specs.Cooks.{IsCookText, IsShorterText};
ghost use Rattle.pg_cooks.specs.Standing.{IsKnownText};
ghost use Rattle.pg_judge.specs.Findings.{IsBeside, IsListed, IsTextOf, last_text};
ghost use Rattle.pg_judge.specs.Rows.{IsWritable, IsWritten, known_text};
ghost use Rattle.pg_judge.specs.Ruling.{IsFindingOf};
ghost use Rattle.pg_judge.specs.declared.ruling.Finding.{Finding};

use crate::entry::Entry;
use crate::rows::{verdict_words, write_known as write_what_is_known};
use crate::ruling::{Evidence, Finding, Known};
use pg_certificate::{Refused, Sink, WriteFault};
use pg_cooks::{write_cook, write_known, write_pair_apart, write_shorter};
use pg_position::Move;
use pg_san::Games;
use pg_texts::{Verdict, write_line as write_words};

// Appends the diagram, the length and the author's games.
fn write_asked<W: Sink>(entry: &Entry<'_>, out: &mut W) -> Result<(), Refused>
    ensures { Pushes W.held W.has_failed
        (AddsSome (IsKnownText entry.now.problem.diagram entry.now.problem.length entry.now.games))
        out.old out.new result }
{
    write_known(
        &entry.problem.diagram,
        entry.problem.length,
        &entry.games,
        out,
    )
}

// Appends where the first two games of a list part, and a line.
fn write_last<W: Sink>(games: &Games, words: &str, out: &mut W) -> Result<(), Refused>
    ensures { Pushes W.held W.has_failed (Adds (last_text games.now words.now)) out.old out.new result }
{
    write_pair_apart("the first two part", games, "\n", out)?;
    write_words(words, out)
}

// Appends the report of games that are known, with these words at its end.
fn write_listed<W: Sink>(
    entry: &Entry<'_>,
    games: &Games,
    words: &str,
    out: &mut W,
) -> Result<(), Refused>
    ensures { Pushes W.held W.has_failed
        (AddsSome (IsListed entry.now.problem.diagram entry.now.problem.length games.now words.now))
        out.old out.new result }
{
    write_known(&entry.problem.diagram, entry.problem.length, games, out)?;
    write_last(games, words, out)
}

// Appends the report of games that settle a problem.
fn write_settled<W: Sink>(
    entry: &Entry<'_>,
    verdict: Verdict,
    games: &Games,
    out: &mut W,
) -> Result<(), Refused>
    ensures { Pushes W.held W.has_failed
        (AddsSome (IsListed entry.now.problem.diagram entry.now.problem.length games.now (verdict_text verdict)))
        out.old out.new result }
{
    write_listed(entry, games, verdict_words(verdict), out)
}

// Appends the report of another game beside the author's.
fn write_another<W: Sink>(entry: &Entry<'_>, game: &[Move], out: &mut W) -> Result<(), Refused>
    requires { IsFromArray game.now }
    ensures { Pushes W.held W.has_failed
        (AddsSome (IsBeside entry.now.problem.diagram entry.now.problem.length entry.now.games
        (IsCookText entry.now.games game.now))) out.old out.new result }
{
    write_asked(entry, out)?;
    write_cook(&entry.games, game, out)
}

// Appends the report of a game that is shorter than stated.
fn write_less<W: Sink>(entry: &Entry<'_>, game: &[Move], out: &mut W) -> Result<(), Refused>
    requires { IsFromArray game.now }
    ensures { Pushes W.held W.has_failed
        (AddsSome (IsBeside entry.now.problem.diagram entry.now.problem.length entry.now.games
        (IsShorterText game.now))) out.old out.new result }
{
    write_asked(entry, out)?;
    write_shorter(game, out)
}

// Appends what is known where nothing is settled, and a line feed.
fn write_end<W: Sink>(known: &Known, out: &mut W) -> Result<(), Refused>
    ensures { Pushes W.held W.has_failed (Adds (line_text (known_text known.now))) out.old out.new result }
{
    write_what_is_known(known, out)?;
    out.push(b"\n")
}

// Appends a text, what is known where nothing is settled, and a line feed.
fn write_line<W: Sink>(label: &str, known: &Known, out: &mut W) -> Result<(), Refused>
    ensures { Pushes W.held W.has_failed
        (Adds (label.now ++ line_text (known_text known.now))) out.old out.new result }
{
    out.push(label.as_bytes())?;
    write_end(known, out)
}

// Appends the line of what is known where nothing is settled.
fn write_open<W: Sink>(known: &Known, out: &mut W) -> Result<(), Refused>
    ensures { Pushes W.held W.has_failed
        (Adds (codes "not settled: " ++ line_text (known_text known.now))) out.old out.new result }
{
    write_line("not settled: ", known, out)
}

// Appends the report of a problem that is not settled.
fn write_unsettled<W: Sink>(entry: &Entry<'_>, known: &Known, out: &mut W) -> Result<(), Refused>
    ensures { Pushes W.held W.has_failed
        (AddsSome (IsBeside entry.now.problem.diagram entry.now.problem.length entry.now.games
        (λ last. last ≡ codes "not settled: " ++ line_text (known_text known.now)))) out.old out.new result }
{
    write_asked(entry, out)?;
    write_open(known, out)
}

// Appends the report of a problem that is not sound.
fn write_not_sound<W: Sink>(
    entry: &Entry<'_>,
    evidence: &Evidence,
    out: &mut W,
) -> Result<(), Refused>
    requires { IsWritable evidence.now }
    ensures { Pushes W.held W.has_failed
        (AddsSome (IsTextOf entry.now (Finding.NotSound evidence.now))) out.old out.new result }
{
    match evidence {
        Evidence::Several(games) => write_listed(entry, games, "not sound", out),
        Evidence::Another(game) => write_another(entry, game.as_slice(), out),
        Evidence::Shorter(game) => write_less(entry, game.as_slice(), out),
    }
}

// Appends the report of what is found of a problem.
fn write_any<W: Sink>(entry: &Entry<'_>, finding: &Finding, out: &mut W) -> Result<(), Refused>
    requires { IsWritten finding.now }
    ensures { Pushes W.held W.has_failed
        (AddsSome (IsTextOf entry.now finding.now)) out.old out.new result }
{
    match finding {
        Finding::Settled(verdict, games) => write_settled(entry, *verdict, games, out),
        Finding::NotSound(evidence) => write_not_sound(entry, evidence, out),
        Finding::NotSettled(known) => write_unsettled(entry, known, out),
    }
}

/// Writes the report of what is found of a problem, each line ended by a line feed: `diagram ` and the placement;
/// `length ` and the length; `games ` and a number, and the movetext of as many games below. Where games settle the
/// problem they are these, and behind them stands `sound`, `cooked` or `no game`. Where two games at least are known
/// they are these, and behind them stands `not sound`. Before either line stands where the first two of them part, as
/// `the first two part at move 4 of White`, and `, with the same moves in another order` where they are. Else they are
/// the author's, and behind them stands `another game`, or `a game of `, its number of plies and ` plies`, with the
/// movetext of that game, of another where it parts from the first, and `not sound`; or `not settled: ` and what is
/// known, as the row of the problem has it. Takes no memory.
///
/// # Errors
/// `Write` where the sink has failed.
pub fn write_finding<W: Sink>(
    entry: &Entry<'_>,
    finding: &Finding,
    out: &mut W,
) -> Result<(), WriteFault>
    requires { IsFindingOf entry.now finding.now }
    ensures text { Pushes W.held W.has_failed
        (AddsSome (IsTextOf entry.now finding.now)) out.old out.new result }
    ensures fault { IfErr result (λ e. e ≡ WriteFault.Write) }
{
    match write_any(entry, finding, out) {
        Ok(()) => Ok(()),
        Err(Refused) => Err(WriteFault::Write),
    }
}
