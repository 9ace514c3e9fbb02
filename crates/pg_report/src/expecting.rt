//! How many nodes a search by journeys may visit, by a rule of thumb.
ghost use Rattle.std.specs.Prelude.{◌≡◌, ◌+◌, ◌≤◌, ◌↔◌, ◌/◌, ◌%◌, ℕ, IsTrue, IfOk};
ghost use Rattle.std.specs.Option.{option_map};
ghost use Rattle.pg_certificate.specs.Pushing.{Adds, Pushes};
ghost use Rattle.pg_report.specs.Expecting.{IsExpected, IsOpen, expected_text, end_text, power_text, range_text};
ghost use Rattle.pg_report.specs.Expecting.{rounded, digit_text, unit_text};
ghost use Rattle.pg_report.specs.Expecting.{by_journeys, captured_men, free_men};

use crate::within::Findings;
use pg_board::Color;
use pg_captures::all_men;
use pg_certificate::{Refused, Sink};
use pg_fen::{Diagram, Length};
use pg_journeys::Facts;
use pg_searcher::{forecast, slacks};
use std::alloc::{AllocError, Global};

// What may be expected of a search for games of a length: the hundredths of the logarithm to the base 10 of the nodes
// that one by journeys may visit, and whether one without them may visit ten times as many.
#[derive(Clone, Copy)]
pub(crate) struct Expected {
    pub(crate) hundredths: u16,
    pub(crate) is_longer: bool,
}

// A length that is longer than the least one by more plies than this is not forecast.
const MOST_SPARE: u8 = 4;

// Whether nothing is known against games of a length, and the least length is shorter by few plies at most.
fn is_open(length: &Length, known: &Findings) -> bool
    ensures { IsTrue result → IsOpen length.now known.now.facts known.now.least }
{
    match known.least {
        None => false,
        Some(least) => {
            known.facts.is_some()
                && least.plies() <= length.plies()
                && length.plies() <= least.plies() + MOST_SPARE
        }
    }
}

// How many men of the initial array may move or be captured in some games, by facts about these.
fn free_men(facts: &Facts) -> u8
    ensures { result ≡ free_men facts.now }
{
    32u8.saturating_sub(facts.still.len())
}

// How many men were captured where a game ends on a diagram.
fn captured_men(diagram: &Diagram) -> u8
    ensures { result ≡ captured_men diagram.now }
{
    let board = diagram.board();
    32u8.saturating_sub(all_men(&board, Color::White) + all_men(&board, Color::Black))
}

// The rule of thumb for games of `plies` plies, by men who may move or be captured, and by men who were captured.
fn by_journeys(plies: u8, free: u8, captured: u8) -> u16
    ensures { result ≡ by_journeys plies free captured }
{
    let quiet = 60 + 28 * u16::from(plies.min(14)) + 8 * u16::from(free.min(11));
    quiet.saturating_sub(28 * u16::from(captured.min(4)))
}

// What the rule says by facts about the games of `plies` plies.
fn by_facts(diagram: &Diagram, plies: u8, facts: &Option<Facts>) -> Option<u16>
    ensures { result ≡ option_map (λ f. by_journeys plies (free_men f) (captured_men diagram.now)) facts.now }
{
    match facts {
        None => None,
        Some(facts) => Some(by_journeys(plies, free_men(facts), captured_men(diagram))),
    }
}

// Whether a power of ten, by hundredths of its exponent, is ten times another or more.
fn is_tenfold(hundredths: u32, other: u16) -> bool
    ensures { IsTrue result ↔ (other + 100 ≤ hundredths) }
{
    u32::from(other) + 100 <= hundredths
}

// What may be expected of a search for games of a length; nothing where no length is asked, where something is known
// against such games, where the least length is shorter by many plies, or where a colour has too few plies for its men.
pub(crate) fn expected_of(
    alloc: Global,
    diagram: &Diagram,
    known: &Findings,
) -> Result<Option<Expected>, AllocError>
    ensures { IfOk result (λ o. IsExpected diagram.now known.now.asked known.now.facts known.now.least o) }
{
    let Some(length) = known.asked else {
        return Ok(None);
    };
    if !is_open(&length, known) {
        return Ok(None);
    }
    let leeway = match slacks(alloc, diagram, length) {
        Ok(leeway) => leeway,
        Err(fault) => return Err(fault),
    };
    let Some(white) = leeway.white else {
        return Ok(None);
    };
    let Some(black) = leeway.black else {
        return Ok(None);
    };
    let Some(hundredths) = by_facts(diagram, length.plies(), &known.facts) else {
        return Ok(None);
    };
    let is_longer = is_tenfold(forecast(white, black, length.plies()), hundredths);
    Ok(Some(Expected {
        hundredths,
        is_longer,
    }))
}

// The hundredths of an exponent, of the next power of ten where that is nearer than nine times the last one.
fn rounded(hundredths: u32) -> u32
    ensures { result ≡ rounded hundredths }
{
    if hundredths % 100 >= 98 {
        hundredths + 2
    } else {
        hundredths
    }
}

// The digit that is nearest to the power of ten whose exponent has these hundredths behind its point, fewer than 98.
fn digit_words(hundredths: u32) -> &'static str
    ensures { result.now ≡ digit_text hundredths }
{
    match hundredths {
        0..=17 => "1",
        0..=39 => "2",
        0..=54 => "3",
        0..=65 => "4",
        0..=74 => "5",
        0..=81 => "6",
        0..=87 => "7",
        0..=92 => "8",
        _ => "9",
    }
}

// `zeros` zeros, three of them as a word.
fn unit_words(zeros: u32) -> &'static str
    ensures { result.now ≡ unit_text zeros }
{
    match zeros {
        0 => "",
        0..=1 => "0",
        0..=2 => "00",
        0..=3 => " thousand",
        0..=4 => "0 thousand",
        0..=5 => "00 thousand",
        0..=6 => " million",
        0..=7 => "0 million",
        0..=8 => "00 million",
        0..=9 => " billion",
        0..=10 => "0 billion",
        0..=11 => "00 billion",
        _ => "000 billion or more",
    }
}

// Appends a power of ten, by hundredths of its exponent.
fn write_power<W: Sink>(hundredths: u32, out: &mut W) -> Result<(), Refused>
    ensures { Pushes W.held W.has_failed (Adds (power_text hundredths)) out.old out.new result }
{
    let exponent = rounded(hundredths);
    out.push(digit_words(exponent % 100).as_bytes())?;
    out.push(unit_words(exponent / 100).as_bytes())
}

// Appends a twentieth of a power of ten, by hundredths of its exponent, but at least one, and twenty times it.
fn write_range<W: Sink>(hundredths: u16, out: &mut W) -> Result<(), Refused>
    ensures { Pushes W.held W.has_failed (Adds (range_text hundredths)) out.old out.new result }
{
    let hundredths = u32::from(hundredths);
    write_power(hundredths.saturating_sub(130), out)?;
    out.push(b" to ")?;
    write_power(hundredths + 130, out)
}

// The end of the line.
fn end_words(is_longer: bool) -> &'static str
    ensures { result.now ≡ end_text is_longer }
{
    if is_longer {
        " nodes, as a guess; without journeys ten times more, or worse\n"
    } else {
        " nodes, as a guess\n"
    }
}

// Appends the line of what may be expected, where anything is.
pub(crate) fn write_expected<W: Sink>(
    expected: Option<Expected>,
    out: &mut W,
) -> Result<(), Refused>
    ensures { Pushes W.held W.has_failed (Adds (expected_text expected)) out.old out.new result }
{
    match expected {
        None => out.push(b""),
        Some(expected) => {
            out.push(b"a search by journeys may visit ")?;
            write_range(expected.hundredths, out)?;
            out.push(end_words(expected.is_longer).as_bytes())
        }
    }
}
