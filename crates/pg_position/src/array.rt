//! The initial array.
ghost use Rattle.std.specs.Prelude.{◌≡◌};
ghost use Rattle.pg_position.specs.Array.{array_board};

use pg_board::{Board, Sets};

// The board as a game begins.
pub(crate) fn array_board() -> Board
    ensures { result ≡ array_board }
{
    Board::of_sets(Sets {
        pawns: 0x00ff_0000_0000_ff00,
        knights: 0x4200_0000_0000_0042,
        bishops: 0x2400_0000_0000_0024,
        rooks: 0x8100_0000_0000_0081,
        queens: 0x0800_0000_0000_0008,
        kings: 0x1000_0000_0000_0010,
        white: 0x0000_0000_0000_ffff,
        black: 0xffff_0000_0000_0000,
    })
}
