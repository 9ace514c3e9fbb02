//! Sets of squares left and right of the lines between files.
ghost use Rattle.std.specs.Prelude.{◌≡◌, ◌+◌, ◌<◌, ◌≤◌};
ghost use Rattle.pg_captures.specs.Counting.{men};
ghost use Rattle.pg_pawns.specs.PawnFiles.{pawn_left, pawn_right};

use pg_board::{Board, Color, Kind, Man, SquareSet};

/// The squares of the files up to the first, the second and so on: bit q for the square q.
pub static LEFT_FILES: [u64; 7] = [
    0x0101_0101_0101_0101,
    0x0303_0303_0303_0303,
    0x0707_0707_0707_0707,
    0x0f0f_0f0f_0f0f_0f0f,
    0x1f1f_1f1f_1f1f_1f1f,
    0x3f3f_3f3f_3f3f_3f3f,
    0x7f7f_7f7f_7f7f_7f7f,
];

/// The squares of the files beyond the first, the second and so on.
pub static RIGHT_FILES: [u64; 7] = [
    0xfefe_fefe_fefe_fefe,
    0xfcfc_fcfc_fcfc_fcfc,
    0xf8f8_f8f8_f8f8_f8f8,
    0xf0f0_f0f0_f0f0_f0f0,
    0xe0e0_e0e0_e0e0_e0e0,
    0xc0c0_c0c0_c0c0_c0c0,
    0x8080_8080_8080_8080,
];

/// How many pawns of the colour stand left of the line after the file `n + 1`.
pub fn left_pawns(board: &Board, color: Color, n: u8) -> u8
    requires { n < 7 }
    ensures value { result ≡ men color (pawn_left (n + 1)) board.now }
    ensures few { result ≤ 64 }
{
    (board.squares_of(Man::new(color, Kind::Pawn))
        & SquareSet::of_bits(LEFT_FILES[n as usize])).len()
}

/// How many pawns of the colour stand right of the line after the file `n + 1`.
pub fn right_pawns(board: &Board, color: Color, n: u8) -> u8
    requires { n < 7 }
    ensures value { result ≡ men color (pawn_right (n + 1)) board.now }
    ensures few { result ≤ 64 }
{
    (board.squares_of(Man::new(color, Kind::Pawn))
        & SquareSet::of_bits(RIGHT_FILES[n as usize])).len()
}
