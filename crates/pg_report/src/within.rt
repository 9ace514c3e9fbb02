//! What is known of the games of a length: where captures land, and which men never move.
ghost use Rattle.std.specs.Prelude.{◌≡◌, ℕ, ◌+◌, ◌<◌, ◌++◌, ◌&&◌, [], cond, IfOk, codes};
ghost use Rattle.pg_certificate.specs.Pushing.{Adds, MayPush, Pushes};
ghost use Rattle.pg_board.specs.Bits.{has};
ghost use Rattle.pg_board.specs.Tally.{one};
ghost use Rattle.pg_report.specs.Within.{AreKnown, name_of, square_text, piece_text, item_text, last_mark, mark_text};
ghost use Rattle.pg_report.specs.Within.{place_text, list_text};
ghost use Rattle.pg_fen.specs.Lengths.{length_text};
ghost use Rattle.pg_report.specs.declared.within.Naming.TheVariants.{Squares};
ghost use Rattle.pg_report.specs.Within.{are_few, are_some, captures_text, unmoved_text, said_text, known_line, stays};
ghost use Rattle.pg_report.specs.Within.{facts_text, known_text};

use pg_board::{Color, Kind, Man, Square, SquareSet};
use pg_certificate::{Refused, Sink};
use pg_fen::{Diagram, Length, letter_of};
use pg_journeys::{Facts, facts_for};
use pg_position::Position;

// How the squares of a list are named: by themselves, or as the men that stand there in the initial array.
#[derive(Clone, Copy)]
pub(crate) enum Naming {
    Squares,
    Men,
}

// What is asked of a diagram, and what is known of the games that end on it: facts about those of the length that
// is asked, and the least length.
#[derive(Clone, Copy)]
pub(crate) struct Findings {
    pub(crate) asked: Option<Length>,
    pub(crate) facts: Option<Facts>,
    pub(crate) least: Option<Length>,
}

// More squares than these, on which captures may land, are not named.
const MOST_SQUARES: u8 = 8;

// What the bound by journeys knows of the games of the length that is asked.
pub(crate) fn facts_within(diagram: &Diagram, asked: &Option<Length>) -> Option<Facts>
    ensures { AreKnown diagram.now asked.now result }
{
    match asked {
        None => None,
        Some(length) => facts_for(diagram, &Position::array(), length.plies()),
    }
}

// The name of a colour, and a space.
pub(crate) fn name_of(color: Color) -> &'static str
    ensures { result.now ≡ name_of color }
{
    match color {
        Color::White => "white ",
        Color::Black => "black ",
    }
}

// Appends the name of a square.
fn write_square<W: Sink>(square: Square, out: &mut W) -> Result<(), Refused>
    ensures { Pushes W.held W.has_failed (Adds (square_text square)) out.old out.new result }
{
    let index = square.index();
    out.push(&[b'a' + index % 8, b'1' + index / 8])
}

// Appends the letter of a piece.
fn write_piece<W: Sink>(man: Option<Man>, out: &mut W) -> Result<(), Refused>
    ensures { MayPush W.held W.has_failed (Adds (piece_text man)) out.old out.new result }
{
    match man {
        None => Ok(()),
        Some(man) => match man.kind {
            Kind::Pawn => Ok(()),
            kind => out.push(&[letter_of(Man::new(Color::White, kind))]),
        },
    }
}

// Appends the name of a square, or of the man that stands there in the initial array.
fn write_item<W: Sink>(how: Naming, square: Square, out: &mut W) -> Result<(), Refused>
    ensures { Pushes W.held W.has_failed (Adds (item_text how square)) out.old out.new result }
{
    match how {
        Naming::Squares => write_square(square, out),
        Naming::Men => {
            write_piece(Position::array().board().get(square), out)?;
            write_square(square, out)
        }
    }
}

// What stands before the last one of several.
fn last_mark(how: Naming) -> &'static str
    ensures { result.now ≡ last_mark how }
{
    match how {
        Naming::Squares => " or ",
        Naming::Men => ", ",
    }
}

// What stands before the one with this number, from 0, of `count`.
fn mark(how: Naming, number: u8, count: u8) -> &'static str
    requires { number < 64 }
    ensures { result.now ≡ mark_text how number count }
{
    if number == 0 {
        ""
    } else if number + 1 < count {
        ", "
    } else {
        last_mark(how)
    }
}

// Appends the name of a square behind its mark, where the set has it, and `before` squares before it; how many of its
// squares are named then.
fn write_place<W: Sink>(
    how: Naming,
    set: SquareSet,
    before: u8,
    square: Square,
    out: &mut W,
) -> Result<u8, Refused>
    requires { before < 64 }
    ensures count { IfOk result (λ n. n ≡ before + one (has set square)) }
    ensures push { MayPush W.held W.has_failed (Adds (place_text how (has set) before square)) out.old out.new result }
{
    if !set.contains(square) {
        return Ok(before);
    }
    out.push(mark(how, before, set.len()).as_bytes())?;
    write_item(how, square, out)?;
    Ok(before + 1)
}

// Appends the names of all squares of a set.
fn write_list<W: Sink>(how: Naming, set: SquareSet, out: &mut W) -> Result<(), Refused>
    ensures { MayPush W.held W.has_failed (Adds (list_text how (has set) 64)) out.old out.new result }
{
    let mut before = 0;
    for index in 0..64u8 {
        before = write_place(how, set, before, Square::at(index), out)?;
    }
    Ok(())
}

// Appends where captures land, of few squares.
fn write_landing<W: Sink>(lands: SquareSet, out: &mut W) -> Result<(), Refused>
    ensures { Pushes W.held W.has_failed
        (Adds (codes "captures on " ++ (list_text Squares (has lands) 64 ++ codes " alone"))) out.old out.new result }
{
    out.push(b"captures on ")?;
    write_list(Naming::Squares, lands, out)?;
    out.push(b" alone")
}

// Appends where captures land, if the squares are few.
fn write_captures<W: Sink>(lands: SquareSet, out: &mut W) -> Result<(), Refused>
    ensures { MayPush W.held W.has_failed (Adds (captures_text (has lands))) out.old out.new result }
{
    let count = lands.len();
    if count == 0 {
        out.push(b"captures nothing")
    } else if count <= MOST_SQUARES {
        write_landing(lands, out)
    } else {
        Ok(())
    }
}

// Appends who never moves, if anybody.
fn write_unmoved<W: Sink>(stays: SquareSet, out: &mut W) -> Result<(), Refused>
    ensures { MayPush W.held W.has_failed (Adds (unmoved_text (has stays))) out.old out.new result }
{
    if stays.len() > 0 {
        out.push(b"never moved: ")?;
        write_list(Naming::Men, stays, out)
    } else {
        Ok(())
    }
}

// Appends the mark between both.
fn write_joint<W: Sink>(lands: SquareSet, stays: SquareSet, out: &mut W) -> Result<(), Refused>
    ensures { MayPush W.held W.has_failed
        (Adds (cond (are_few (has lands) && are_some (has stays)) (codes "; ") [])) out.old out.new result }
{
    if lands.len() <= MOST_SQUARES && stays.len() > 0 {
        out.push(b"; ")
    } else {
        Ok(())
    }
}

// Appends both.
fn write_said<W: Sink>(lands: SquareSet, stays: SquareSet, out: &mut W) -> Result<(), Refused>
    ensures { MayPush W.held W.has_failed (Adds (said_text (has lands) (has stays))) out.old out.new result }
{
    write_captures(lands, out)?;
    write_joint(lands, stays, out)?;
    write_unmoved(stays, out)
}

// Appends the line of a colour, if there is anything to say.
fn write_line<W: Sink>(
    color: Color,
    lands: SquareSet,
    stays: SquareSet,
    out: &mut W,
) -> Result<(), Refused>
    ensures { MayPush W.held W.has_failed (Adds (known_line color (has lands) (has stays))) out.old out.new result }
{
    if lands.len() <= MOST_SQUARES || stays.len() > 0 {
        out.push(name_of(color).as_bytes())?;
        write_said(lands, stays, out)?;
        out.push(b"\n")
    } else {
        Ok(())
    }
}

// The squares of the men of a colour that stay from the initial array on.
fn stays(color: Color, facts: &Facts) -> SquareSet
    ensures { (q : ℕ) → q < 64 → has result q ≡ stays color facts.now q }
{
    facts.still & Position::array().board().squares_of_color(color)
}

// Appends the line of a colour by facts.
fn write_facts<W: Sink>(facts: &Facts, color: Color, out: &mut W) -> Result<(), Refused>
    ensures { MayPush W.held W.has_failed (Adds (facts_text facts.now color)) out.old out.new result }
{
    write_line(color, facts.lands(color), stays(color, facts), out)
}

// Appends that no game has this length.
fn write_no_game<W: Sink>(length: &Length, out: &mut W) -> Result<(), Refused>
    ensures { Pushes W.held W.has_failed
        (Adds (codes "no game of " ++ (length_text length.now ++ codes " moves\n"))) out.old out.new result }
{
    out.push(b"no game of ")?;
    out.push(length.write().as_bytes())?;
    out.push(b" moves\n")
}

// Appends what is known of the games of the length that is asked.
pub(crate) fn write_known<W: Sink>(
    asked: &Option<Length>,
    facts: &Option<Facts>,
    out: &mut W,
) -> Result<(), Refused>
    ensures { MayPush W.held W.has_failed (Adds (known_text asked.now facts.now)) out.old out.new result }
{
    match asked {
        None => Ok(()),
        Some(length) => match facts {
            None => write_no_game(length, out),
            Some(facts) => {
                write_facts(facts, Color::White, out)?;
                write_facts(facts, Color::Black, out)
            }
        },
    }
}
