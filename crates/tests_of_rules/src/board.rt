//! Boards, held against a plain board of 64 cells.

mod callers;

use crate::texts::{cells, check_all, check_row, square};
use pg_board::*;
use std::process::Abort;

const COLORS: [Color; 2] = [Color::White, Color::Black];

const KINDS: [Kind; 6] = [
    Kind::Pawn,
    Kind::Knight,
    Kind::Bishop,
    Kind::Rook,
    Kind::Queen,
    Kind::King,
];

// The plain board of 64 cells: the program that `Board` is compared with.
#[derive(Drop)]
struct Cells {
    cells: [Option<Man>; 64],
}

impl Cells {
    fn count(&self, man: Man) -> usize {
        let mut count = 0usize;
        for i in 0..64u8 {
            if self.cells[i as usize] == Some(man) {
                count = count.saturating_add(1);
            }
        }
        count
    }

    fn king(&self, color: Color) -> Option<Square> {
        let king = Some(Man::new(color, Kind::King));
        for i in 0..64u8 {
            if self.cells[i as usize] == king {
                return Square::from_index(i);
            }
        }
        None
    }

    // Puts a man on a square, or none, and answers what stood there.
    fn replace(&mut self, square: Square, man: Option<Man>) -> Option<Man> {
        let i = square.index() as usize;
        let stood = self.cells[i];
        self.cells[i] = man;
        stood
    }
}

// Whether a square is to be of a set.
fn check_set(rt: &impl Abort, set: SquareSet, i: u8, wanted: bool) {
    if i < 64 {
        assert!(rt; set.contains(Square::at(i)) == wanted, "square {i}");
    }
}

// That each call that reads answers alike for the board and for the cells.
fn compare(rt: &impl Abort, board: &Board, cells: &Cells) {
    for i in 0..64u8 {
        let man = cells.cells[i as usize];
        assert!(rt; board.get(Square::at(i)) == man, "square {i}");
        check_set(rt, board.occupied(), i, man.is_some());
        for color in COLORS {
            let own = match man {
                Some(man) => man.color == color,
                None => false,
            };
            check_set(rt, board.squares_of_color(color), i, own);
        }
    }
    for color in COLORS {
        assert!(rt; board.king(color) == cells.king(color));
        for kind in KINDS {
            compare_man(rt, board, cells, Man::new(color, kind));
        }
    }
}

fn compare_man(rt: &impl Abort, board: &Board, cells: &Cells, man: Man) {
    assert!(rt; board.count(man) as usize == cells.count(man));
    for i in 0..64u8 {
        check_set(
            rt,
            board.squares_of(man),
            i,
            cells.cells[i as usize] == Some(man),
        );
    }
}

// Puts the man on the square, and takes away what stands some squares on.
fn change(rt: &impl Abort, board: &mut Board, cells: &mut Cells, square: Square, man: Man) {
    board.put(square, man);
    cells.replace(square, Some(man));
    compare(rt, board, cells);
    let far = Square::at((square.index() + 29) % 64);
    assert!(rt; board.take(far) == cells.replace(far, None));
    compare(rt, board, cells);
}

#[test]
fn agrees_with_cells(rt: HostRuntime) {
    let mut board = Board::empty();
    let mut cells = Cells { cells: [None; 64] };
    compare(&rt, &board, &cells);
    for i in 0..64u8 {
        for color in COLORS {
            for kind in KINDS {
                change(
                    &rt,
                    &mut board,
                    &mut cells,
                    Square::at(i),
                    Man::new(color, kind),
                );
            }
        }
    }
}

#[test]
fn equal_by_value(rt: HostRuntime) {
    let (a8, e1) = (square(&rt, "a8"), square(&rt, "e1"));
    let king = Man::new(Color::White, Kind::King);
    let mut board = Board::empty();
    board.put(a8, king);
    board.put(e1, king);
    assert!(rt; board.king(Color::White) == Some(e1) && board.king(Color::Black).is_none());
    let copy = board;
    assert!(rt; board.take(e1) == Some(king) && board.take(e1).is_none());
    assert!(rt; board != copy);
    board.put(e1, king);
    assert!(rt; board == copy);
}

#[test]
fn packed_boards(rt: HostRuntime) {
    let mut board = Board::empty();
    let without = board.packed();
    board.put(square(&rt, "e1"), Man::new(Color::White, Kind::King));
    let packed = board.packed();
    let kept = packed;
    assert!(rt; kept == board.packed() && packed != without);
    assert!(rt; packed.board() == board);
}

// A file, a rank, and the number of their square.
const SQUARES: &str = "1 | 1 => 0
8 | 1 => 7
5 | 4 => 28
1 | 8 => 56
8 | 8 => 63
0 | 1 => none
9 | 1 => none
1 | 0 => none
1 | 9 => none
255 | 255 => none";

#[test]
fn squares(rt: HostRuntime) {
    for row in SQUARES.lines() {
        check_square(&rt, row);
    }
    assert!(rt; Square::from_index(64).is_none());
}

fn number(rt: &impl Abort, text: &str) -> u8 {
    text.parse::<u8>().expect(rt, text)
}

fn check_square(rt: &impl Abort, row: &str) {
    let (file, rank, wanted) = cells(rt, row);
    let (file, rank) = (number(rt, file), number(rt, rank));
    match Square::new(file, rank) {
        Some(square) => {
            check_row(rt, row, wanted.parse::<u8>() == Ok(square.index()));
            check_row(rt, row, square.file() == file && square.rank() == rank);
            check_row(rt, row, Square::from_index(square.index()) == Some(square));
        }
        None => check_row(rt, row, wanted == "none"),
    }
}

// The set of the squares of these names, with blanks between them.
fn set(rt: &impl Abort, names: &str) -> SquareSet {
    let mut squares = SquareSet::empty();
    for name in names.split(' ') {
        squares = squares | SquareSet::single(square(rt, name));
    }
    squares
}

#[test]
fn sets_of_squares(rt: HostRuntime) {
    let ends = set(&rt, "h8 a1");
    let three = set(&rt, "h8 a1 e4");
    let e4 = Square::at(28);
    check_all(
        &rt,
        &[
            three == ends | SquareSet::single(e4),
            three - ends == SquareSet::single(e4),
            SquareSet::full() & ends == ends,
            SquareSet::of_bits(ends.bits()) == ends,
            three.meets(ends),
            !ends.contains(e4),
            (ends - three).is_empty(),
        ],
    );
}

#[test]
fn squares_of_sets(rt: HostRuntime) {
    let ends = set(&rt, "h8 a1");
    let three = set(&rt, "h8 a1 e4");
    check_all(
        &rt,
        &[
            three.len() == 3,
            three.first() == Some(Square::at(0)),
            three.last() == Some(Square::at(63)),
            three.first_from(29) == Some(Square::at(63)),
            ends.first_from(64).is_none(),
        ],
    );
}

#[test]
fn squares_in_order(rt: HostRuntime) {
    let mut left = set(&rt, "h8 a1 e4");
    let mut squares = left.squares();
    let start = squares;
    for index in [0, 28, 63] {
        let wanted = Square::from_index(index);
        assert!(rt;
            squares.next() == wanted && left.pop_first() == wanted,
            "{index}"
        );
    }
    let last = squares.next();
    let end = squares;
    check_all(
        &rt,
        &[
            last.is_none(),
            squares.next().is_none(),
            squares == end,
            squares != start,
            left.pop_first().is_none(),
            left == SquareSet::empty(),
        ],
    );
}

#[test]
fn orders(rt: HostRuntime) {
    assert!(rt; Square::at(7) < Square::at(8));
    let mut last = None;
    for kind in KINDS {
        assert!(rt; last < Some(kind));
        last = Some(kind);
    }
    assert!(rt; Color::White.other() == Color::Black && Color::Black.other() == Color::White);
}

#[test]
fn shades(rt: HostRuntime) {
    let (a1, h1) = (square(&rt, "a1"), square(&rt, "h1"));
    let (light, dark) = (SquareSet::light(), SquareSet::dark());
    check_all(
        &rt,
        &[
            light.contains(h1),
            !light.contains(a1),
            dark.contains(a1),
            !dark.contains(h1),
            light.len() == 32,
            dark.len() == 32,
        ],
    );
}
