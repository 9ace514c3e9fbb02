//! What is said at once of a diagram, for the eye.
ghost use Rattle.std.specs.Prelude.{◌≡◌, ◌++◌, ◌⊎◌, ℕ, Option, IfErr, OnOk, codes, true, false};
ghost use Rattle.std.specs.Option.{option_map};
ghost use Rattle.std.specs.List.{list_any};
ghost use Rattle.pg_certificate.specs.Pushing.{Adds, AddsSome, Pushes};
ghost use Rattle.pg_position.specs.Array.{array_state};
ghost use Rattle.pg_board.specs.declared.man.Color.TheVariants.{White, Black};
ghost use Rattle.pg_report.specs.Shortest.{IsLeastLength, NoneBelow};
ghost use Rattle.pg_report.specs.Sides.{own_plies};
ghost use Rattle.pg_report.specs.Showing.{counted_text, men_text, captured_text, reason_text, behind_text, spare_text};
ghost use Rattle.pg_report.specs.Showing.{need_text, open_line, below_text};
ghost use Rattle.pg_report.specs.Showing.{IsSideLine, IsShown};
ghost use Rattle.pg_report.specs.Expecting.{IsExpected, expected_text};
ghost use Rattle.pg_report.specs.Within.{AreKnown, known_text};

use crate::expecting::{Expected, expected_of, write_expected};
use crate::fault::ShowFault;
use crate::lengths::{Offers, first_open, offers_of};
use crate::sides::{Need, Reason, need_of};
use crate::within::{Findings, facts_within, name_of, write_known};
use pg_board::Color;
use pg_captures::{Bound, all_men, plies_left, victims_of};
use pg_certificate::{Refused, Sink};
use pg_fen::text::digits;
use pg_fen::{Diagram, Length};
use pg_texts::write_board;
use pg_travel::Rows;
use std::alloc::{AllocError, Global};

// Appends a number, and what is said of one or of another number.
fn write_counted<W: Sink>(n: usize, one: &str, many: &str, out: &mut W) -> Result<(), Refused>
    ensures { Pushes W.held W.has_failed (Adds (counted_text n one.now many.now)) out.old out.new result }
{
    out.push(digits(n).as_bytes())?;
    let rest = if n == 1 { one } else { many };
    out.push(rest.as_bytes())
}

// Appends how many men a colour has.
fn write_men<W: Sink>(color: Color, diagram: &Diagram, out: &mut W) -> Result<(), Refused>
    ensures { Pushes W.held W.has_failed (Adds (men_text diagram.now color)) out.old out.new result }
{
    out.push(name_of(color).as_bytes())?;
    let men = all_men(&diagram.board(), color);
    write_counted(usize::from(men), " man, captured ", " men, captured ", out)
}

// Appends how many men of the other colour are gone of 16.
fn write_captured<W: Sink>(color: Color, diagram: &Diagram, out: &mut W) -> Result<(), Refused>
    ensures { Pushes W.held W.has_failed (Adds (captured_text diagram.now color)) out.old out.new result }
{
    let left = victims_of(&diagram.board(), color);
    out.push(digits(usize::from(16u8.saturating_sub(left))).as_bytes())?;
    out.push(b", ")
}

// Why a need is not smaller, in brackets.
fn reason_words(reason: Option<Reason>) -> &'static str
    ensures { result.now ≡ reason_text reason }
{
    match reason {
        None => "",
        Some(Reason::Captures) => " (captures)",
        Some(Reason::Promotions) => " (promotions)",
        Some(Reason::PawnFiles) => " (pawn files)",
        Some(Reason::Travel) => " (travel)",
        Some(Reason::Pairs) => " (travel, pair by pair)",
    }
}

// Appends a comma, a number, and what is said of it.
fn write_behind<W: Sink>(n: u8, words: &str, out: &mut W) -> Result<(), Refused>
    ensures { Pushes W.held W.has_failed (Adds (behind_text n words.now)) out.old out.new result }
{
    out.push(b", ")?;
    out.push(digits(usize::from(n)).as_bytes())?;
    out.push(words.as_bytes())
}

// Appends how many plies are left over, or short, of those that a colour has; the end of the line alone where no
// length is asked.
fn write_spare<W: Sink>(own: Option<u8>, needed: u8, out: &mut W) -> Result<(), Refused>
    ensures { Pushes W.held W.has_failed (Adds (spare_text own needed)) out.old out.new result }
{
    match own {
        None => out.push(b"\n"),
        Some(own) => {
            if needed <= own {
                write_behind(own - needed, " left over\n", out)
            } else {
                write_behind(needed - own, " short\n", out)
            }
        }
    }
}

// Appends how many plies a colour needs, and for what reason.
fn write_plies<W: Sink>(plies: u8, reason: Option<Reason>, out: &mut W) -> Result<(), Refused>
    ensures { Pushes W.held W.has_failed
        (Adds (codes "needs " ++ (counted_text plies (codes " ply") (codes " plies") ++ reason_text reason)))
        out.old out.new result }
{
    out.push(b"needs ")?;
    write_counted(usize::from(plies), " ply", " plies", out)?;
    out.push(reason_words(reason).as_bytes())
}

// Appends that no number of plies up to 64 is enough for a colour, and why.
fn write_never<W: Sink>(reason: Option<Reason>, out: &mut W) -> Result<(), Refused>
    ensures { Pushes W.held W.has_failed
        (Adds (codes "cannot stand so in 64.0 moves or less" ++ (reason_text reason ++ codes "\n")))
        out.old out.new result }
{
    out.push(b"cannot stand so in 64.0 moves or less")?;
    out.push(reason_words(reason).as_bytes())?;
    out.push(b"\n")
}

// The plies of a colour in a game of a length.
fn own_plies(color: Color, asked: &Option<Length>) -> Option<u8>
    ensures { result ≡ option_map (own_plies color) asked.now }
{
    match asked {
        None => None,
        Some(length) => Some(plies_left(Color::White, color, length.plies())),
    }
}

// Appends what a colour needs, and what is left over where a length is asked.
fn write_need<W: Sink>(
    color: Color,
    need: Need,
    asked: &Option<Length>,
    out: &mut W,
) -> Result<(), Refused>
    ensures { Pushes W.held W.has_failed
        (Adds (need_text color need.plies need.reason asked.now)) out.old out.new result }
{
    match need.plies {
        None => write_never(need.reason, out),
        Some(plies) => {
            write_plies(plies, need.reason, out)?;
            write_spare(own_plies(color, asked), plies, out)
        }
    }
}

// Appends the line of a colour.
fn write_side<W: Sink>(
    diagram: &Diagram,
    offers: &Offers,
    asked: &Option<Length>,
    out: &mut W,
) -> Result<(), Refused>
    ensures { Pushes W.held W.has_failed
        (AddsSome (IsSideLine diagram.now offers.now.color asked.now)) out.old out.new result }
{
    let need = need_of(diagram, offers);
    write_men(offers.color, diagram, out)?;
    write_captured(offers.color, diagram, out)?;
    write_need(offers.color, need, asked, out)
}

// Appends the line of the least length.
fn write_open<W: Sink>(least: Option<Length>, out: &mut W) -> Result<(), Refused>
    ensures { Pushes W.held W.has_failed (Adds (open_line least)) out.old out.new result }
{
    match least {
        None => out.push(b"no game of 64.0 moves or less\n"),
        Some(length) => {
            out.push(b"no game is shorter than ")?;
            out.push(length.write().as_bytes())?;
            out.push(b"\n")
        }
    }
}

// What is known, and what may be expected of a search.
#[derive(Clone, Copy)]
struct Below {
    known: Findings,
    expected: Option<Expected>,
}

// Appends what is written below the lines of the colours: what is known of the games of the length that is asked, the
// line of the least length, and that of what may be expected of a search.
fn write_below<W: Sink>(below: &Below, out: &mut W) -> Result<(), Refused>
    ensures { Pushes W.held W.has_failed (Adds (below_text below.now.known.asked below.now.known.facts
        below.now.known.least below.now.expected)) out.old out.new result }
{
    write_known(&below.known.asked, &below.known.facts, out)?;
    write_open(below.known.least, out)?;
    write_expected(below.expected, out)
}

// Appends the board, the lines of the colours, and what stands below them.
fn write_shown<W: Sink>(
    diagram: &Diagram,
    white: &Offers,
    black: &Offers,
    below: &Below,
    out: &mut W,
) -> Result<(), Refused>
    requires white { white.now.color ≡ White }
    requires black { black.now.color ≡ Black }
    requires known { AreKnown diagram.now below.now.known.asked below.now.known.facts }
    requires expected { IsExpected diagram.now below.now.known.asked below.now.known.facts below.now.known.least
        below.now.expected }
    ensures { Pushes W.held W.has_failed
        (AddsSome (IsShown diagram.now below.now.known.asked below.now.known.least)) out.old out.new result }
{
    match write_board(diagram, out) {
        Ok(()) => {}
        Err(_) => return Err(Refused),
    }
    write_side(diagram, white, &below.known.asked, out)?;
    write_side(diagram, black, &below.known.asked, out)?;
    write_below(below, out)
}

/// Writes what is known at once of a diagram: its board, as `write_board` writes it; a line for white
/// and one for black, with how many men it has, how many of the other colour's 16 men are gone, and how
/// many plies of its own it needs at least from the initial array, with what shows that (the men that it has to
/// capture, the moves of the nearest men, or those of its men pair by pair, by prices), or that 64 are not enough;
/// and the length in moves such that no game of fewer moves ends on the diagram, as `shortest` gives it. Each line ends
/// with a line feed. What finds these numbers takes memory from `alloc`, and nothing is written before.
///
/// With a length, behind what a colour needs stands how many of its plies of a game of that length are left over, or
/// how many are short. Below these lines stands what the bound by journeys knows of the games of that length: a line a
/// colour, with the squares on which its captures land, where they are eight or fewer, and its men who never move; no
/// line where neither is known. Where the bound excludes these games, one line says so. Where nothing is known against
/// them, the least length is shorter by four plies at most and neither colour has too few plies for its men, a last line
/// says from how many to how many nodes a search by journeys may visit, by a rule of thumb, and where by `forecast` one
/// without them visits ten times more.
///
/// # Errors
/// `Memory` where a growth was refused, and then the sink is as it was; `Write` where the sink has failed.
pub fn run_show<W: Sink>(
    alloc: Global,
    diagram: &Diagram,
    asked: Option<Length>,
    bounds: &[Box<dyn Bound>],
    out: &mut W,
) -> Result<(), ShowFault>
    ensures ok { OnOk result ((least : Option ℕ) × NoneBelow diagram.now least
        × IsLeastLength (λ m. list_any (λ b. excluded b diagram.now array_state m) bounds.now) diagram.now least
        × AddsSome (IsShown diagram.now asked least) (W.held out.old) (W.held out.new)) }
    ensures err { IfErr result (λ e. ((e ≡ ShowFault.Memory) × (out.new ≡ out.old))
        ⊎ ((e ≡ ShowFault.Write) × (W.has_failed out.new ≡ true))) }
    ensures runs { OnOk result ((W.has_failed out.old ≡ false) × (W.has_failed out.new ≡ false)) }
{
    let rows = Rows::new(diagram);
    let white = match offers_of(alloc, Color::White, diagram, &rows) {
        Ok(white) => white,
        Err(AllocError) => return Err(ShowFault::Memory),
    };
    let black = match offers_of(alloc, Color::Black, diagram, &rows) {
        Ok(black) => black,
        Err(AllocError) => return Err(ShowFault::Memory),
    };
    let known = Findings {
        asked,
        facts: facts_within(diagram, &asked),
        least: first_open(bounds, diagram, &white, &black),
    };
    let expected = match expected_of(alloc, diagram, &known) {
        Ok(expected) => expected,
        Err(AllocError) => return Err(ShowFault::Memory),
    };
    let below = Below { known, expected };
    match write_shown(diagram, &white, &black, &below, out) {
        Ok(()) => Ok(()),
        Err(Refused) => Err(ShowFault::Write),
    }
}
