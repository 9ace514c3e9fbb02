//! Writing the placement of men.
ghost use Rattle.std.specs.Prelude.{◌≡◌, ◌+◌, ◌++◌, ◌<◌, ◌≤◌, length};
ghost use Rattle.pg_fen.specs.PlacementText.{row, run_text, cells_text, placement_text};

use crate::letters::letter_of;
use crate::text::put;
use arrayvec::ArrayString;
use pg_board::{Board, Man, Square};

// The eight squares of rank n + 1.
fn row(board: &Board, n: u8) -> [Option<Man>; 8]
    requires { n < 8 }
    ensures { result ≡ row board.now n }
{
    let mut cells = [None; 8];
    for file in 0..8u8 {
        cells[usize::from(file)] = board.get(Square::at(8 * n + file));
    }
    cells
}

// Appends the digit for `empty` empty squares, and nothing for none.
fn put_run<const CAP: usize>(text: &mut ArrayString<CAP>, empty: u8)
    requires few { empty ≤ 8 }
    requires room { 0 < empty → length text.old.bytes < CAP }
    ensures { text.new.bytes ≡ text.old.bytes ++ run_text empty }
{
    if empty > 0 {
        put(text, b'0' + empty);
    }
}

// Appends the text of the squares of a rank.
fn put_rank<const CAP: usize>(text: &mut ArrayString<CAP>, rank: &[Option<Man>])
    requires wide { length rank.now ≤ 8 }
    requires room { length text.old.bytes + 8 ≤ CAP }
    ensures text { text.new.bytes ≡ text.old.bytes ++ cells_text 0 rank.now }
    ensures short { length text.new.bytes ≤ length text.old.bytes + 8 }
{
    let mut empty = 0;
    for cell in rank {
        match *cell {
            None => empty += 1,
            Some(man) => {
                put_run(text, empty);
                put(text, letter_of(man));
                empty = 0;
            }
        }
    }
    put_run(text, empty);
}

/// Appends the text of a board.
pub fn put_placement<const CAP: usize>(text: &mut ArrayString<CAP>, board: &Board)
    requires room { length text.old.bytes + 71 ≤ CAP }
    ensures text { text.new.bytes ≡ text.old.bytes ++ placement_text board.now }
    ensures short { length text.new.bytes ≤ length text.old.bytes + 71 }
{
    for i in 0..8u8 {
        if i > 0 {
            put(text, b'/');
        }
        put_rank(text, &row(board, 7 - i));
    }
}
