//! The diagram as a drawing.
ghost use Rattle.std.specs.Prelude.{◌≡◌};
ghost use Rattle.pg_certificate.specs.Pushing.{Adds, MayPush, Pushes};
ghost use Rattle.pg_page.specs.Board.{board_text, class_of, counts_text, man_text, men_text, square_text};

use crate::lines::{write_around, write_escaped, write_number};
use pg_board::{Board, Color, Man, Square};
use pg_captures::all_men;
use pg_certificate::{Refused, Sink};
use pg_fen::{Diagram, letter_of};

// How a colour's men are drawn.
fn class_of(color: Color) -> &'static str
    ensures { result.now ≡ class_of color }
{
    match color {
        Color::White => "w",
        Color::Black => "b",
    }
}

// Appends a man at his place on the board.
fn write_man<W: Sink>(man: Man, square: Square, out: &mut W) -> Result<(), Refused>
    ensures { Pushes W.held W.has_failed (Adds (man_text man square)) out.old out.new result }
{
    write_around("<use class=\"", class_of(man.color), "\" href=\"#m", out)?;
    out.push(&[letter_of(Man::new(Color::White, man.kind))])?;
    write_number("\" x=\"", u64::from(square.file() - 1), out)?;
    write_number("\" y=\"", u64::from(8 - square.rank()), out)?;
    out.push(b"\" width=\"1\" height=\"1\"/>")
}

// Appends the man on a square, if there is one.
fn write_square<W: Sink>(man: Option<Man>, square: Square, out: &mut W) -> Result<(), Refused>
    ensures { MayPush W.held W.has_failed (Adds (square_text man square)) out.old out.new result }
{
    match man {
        Some(man) => write_man(man, square, out),
        None => Ok(()),
    }
}

// Appends the men of a board.
fn write_men<W: Sink>(board: &Board, out: &mut W) -> Result<(), Refused>
    ensures { MayPush W.held W.has_failed (Adds (men_text board.now 64)) out.old out.new result }
{
    for index in 0..64u8 {
        let square = Square::at(index);
        write_square(board.get(square), square, out)?;
    }
    Ok(())
}

// Appends how many men White and Black have.
fn write_counts<W: Sink>(board: &Board, out: &mut W) -> Result<(), Refused>
    ensures { Pushes W.held W.has_failed (Adds (counts_text board.now)) out.old out.new result }
{
    let white = all_men(board, Color::White);
    let black = all_men(board, Color::Black);
    write_number("(", u64::from(white), out)?;
    write_number("+", u64::from(black), out)?;
    out.push(b")")
}

// Appends the diagram as a board, with its men counted and its placement in letters.
pub(crate) fn write_board<W: Sink>(diagram: &Diagram, out: &mut W) -> Result<(), Refused>
    ensures { Pushes W.held W.has_failed (Adds (board_text diagram.now)) out.old out.new result }
{
    out.push(
        b"<figure><svg class=\"board\" viewBox=\"-.5 0 8.5 8.5\" role=\"img\" \
aria-label=\"The diagram\"><use href=\"#squares\"/>",
    )?;
    let board = diagram.board();
    write_men(&board, out)?;
    out.push(b"</svg><figcaption>")?;
    write_counts(&board, out)?;
    out.push(b"<br><code>")?;
    write_escaped(diagram.write().as_str(), out)?;
    out.push(b"</code></figcaption></figure>\n")
}
