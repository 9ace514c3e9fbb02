//! Ways: no castling, or castling to a wing.
ghost use Rattle.std.specs.Prelude.{◌≡◌, ◌≤◌};
ghost use Rattle.pg_travel.specs.Origins.{counted, charge};

use pg_board::{Color, Square};
use pg_position::{Wing, king_crossed, king_home, king_target, rook_home};

// Where a way counts the man on a square.
pub(crate) fn counted(color: Color, way: Option<Wing>, origin: Square) -> Square
    ensures { result ≡ counted color way origin }
{
    match way {
        None => origin,
        Some(wing) => {
            if origin == king_home(color) {
                king_target(color, wing)
            } else if origin == rook_home(color, wing) {
                king_crossed(color, wing)
            } else {
                origin
            }
        }
    }
}

// The plies that a way costs besides the walks.
pub(crate) fn charge(way: Option<Wing>) -> u16
    ensures value { result ≡ charge way }
    ensures low { result ≤ 1 }
{
    match way {
        None => 0,
        Some(_) => 1,
    }
}
