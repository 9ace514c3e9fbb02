//! A diagram for the eye.
ghost use Rattle.std.specs.Prelude.{◌≡◌, ◌<◌, IfErr};
ghost use Rattle.pg_certificate.specs.Pushing.{Adds, MayPush, Pushes};
ghost use Rattle.pg_texts.specs.BoardText.{cell_of, squares_text, rank_line, upper_lines, board_text};

use pg_board::{Board, Man, Square};
use pg_certificate::{Refused, Sink, WriteFault};
use pg_fen::{Diagram, letter_of};

// What shows a square: the letter of its man, a dot where there is none.
fn cell_of(man: Option<Man>) -> u8
    ensures { result ≡ cell_of man }
{
    match man {
        None => b'.',
        Some(man) => letter_of(man),
    }
}

// Appends the squares of a rank, counted from 0, with a space before each.
fn write_cells<W: Sink>(board: &Board, rank: u8, out: &mut W) -> Result<(), Refused>
    requires { rank < 8 }
    ensures { MayPush W.held W.has_failed (Adds (squares_text board.now rank 8)) out.old out.new result }
{
    for file in 0..8u8 {
        let man = board.get(Square::at(8 * rank + file));
        out.push(&[b' ', cell_of(man)])?;
    }
    Ok(())
}

// Appends the line of a rank, counted from 0.
fn write_rank<W: Sink>(board: &Board, rank: u8, out: &mut W) -> Result<(), Refused>
    requires { rank < 8 }
    ensures { Pushes W.held W.has_failed (Adds (rank_line board.now rank)) out.old out.new result }
{
    out.push(&[b'1' + rank])?;
    write_cells(board, rank, out)?;
    out.push(b"\n")
}

// Appends the lines of the eight ranks, from the eighth down.
fn write_ranks<W: Sink>(board: &Board, out: &mut W) -> Result<(), Refused>
    ensures { MayPush W.held W.has_failed (Adds (upper_lines board.now 8)) out.old out.new result }
{
    for line in 0..8u8 {
        write_rank(board, 7 - line, out)?;
    }
    Ok(())
}

// Appends the board.
fn append_board<W: Sink>(board: &Board, out: &mut W) -> Result<(), Refused>
    ensures { Pushes W.held W.has_failed (Adds (board_text board.now)) out.old out.new result }
{
    write_ranks(board, out)?;
    out.push(b"  a b c d e f g h\n")
}

/// Writes a diagram as a board: a line for each rank, from the eighth down, with the rank's digit and
/// then its squares from file a to file h, a space before each; a man is its letter as in FEN, an
/// empty square a dot. The last line has the letters of the files. Each line ends with a line feed.
/// Takes no memory.
///
/// # Errors
/// `Write` where the sink has failed.
pub fn write_board<W: Sink>(diagram: &Diagram, out: &mut W) -> Result<(), WriteFault>
    ensures push { Pushes W.held W.has_failed (Adds (board_text diagram.now)) out.old out.new result }
    ensures fault { IfErr result (λ e. e ≡ WriteFault.Write) }
{
    match append_board(&diagram.board(), out) {
        Ok(()) => Ok(()),
        Err(Refused) => Err(WriteFault::Write),
    }
}
