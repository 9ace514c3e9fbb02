//! Boards as 32 bytes.
ghost use Rattle.std.specs.Prelude.{◌≡◌, ◌↔◌, ◌<◌, Some};
ghost use Rattle.pg_board.specs.lemmas.Codes.{kind_of_number};
ghost use Rattle.pg_board.specs.Placement.{Placement};
ghost use Rattle.pg_fen.specs.Packing.{cell_code, packed_of};
ghost use Rattle.pg_fen.specs.inner.Cells.{cell_from, number_at};

use pg_board::{Board, Color, Kind, Man, Square};

// The number of what stands on a square, 0 to 14.
fn cell_code(cell: Option<Man>) -> u8
    ensures value { result ≡ cell_code cell }
    ensures bound { result < 16 }
{
    match cell {
        None => 0,
        Some(man) => match man.color {
            Color::White => 1 + man.kind.number(),
            Color::Black => 9 + man.kind.number(),
        },
    }
}

/// The 32 bytes of a board.
pub fn packed_of(board: &Board) -> [u8; 32]
    ensures { result ≡ packed_of board.now }
{
    let mut bytes = [0; 32];
    for j in 0..32u8 {
        let low = cell_code(board.get(Square::at(2 * j)));
        let high = cell_code(board.get(Square::at(2 * j + 1)));
        bytes[usize::from(j)] = low + 16 * high;
    }
    bytes
}

// The kind of a number from 0 to 5; a king's for any other.
fn kind_of(number: u8) -> Kind
    ensures { result ≡ kind_of_number number }
{
    match number {
        0 => Kind::Pawn,
        1 => Kind::Knight,
        2 => Kind::Bishop,
        3 => Kind::Rook,
        4 => Kind::Queen,
        _ => Kind::King,
    }
}

// What stands on a square of this number, where a square has it.
fn cell_from(number: u8) -> Option<Man>
    ensures { result ≡ cell_from number }
{
    if number == 0 {
        None
    } else if number < 9 {
        Some(Man::new(Color::White, kind_of(number - 1)))
    } else {
        Some(Man::new(Color::Black, kind_of(number - 9)))
    }
}

// The number of what stands on a square.
fn number_at(bytes: &[u8; 32], square: u8) -> u8
    requires { square < 64 }
    ensures { result ≡ number_at bytes.now square }
{
    let byte = bytes[usize::from(square / 2)];
    if square % 2 == 0 {
        byte % 16
    } else {
        byte / 16
    }
}

/// The board with these 32 bytes; none where no board has them.
pub fn unpacked(bytes: &[u8; 32]) -> Option<Board>
    ensures { (b : Placement) → (result ≡ Some b) ↔ (packed_of b ≡ bytes.now) }
{
    let mut board = Board::empty();
    for square in 0..64u8 {
        if let Some(man) = cell_from(number_at(bytes, square)) {
            board.put(Square::at(square), man);
        }
    }
    if packed_of(&board) == *bytes {
        Some(board)
    } else {
        None
    }
}
