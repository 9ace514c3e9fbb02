//! Castling to either wing.
ghost use Rattle.std.specs.Prelude.{◌≡◌, ◌↔◌, IsTrue};
ghost use Rattle.pg_san.specs.Matching.{GoesTwo};

use pg_board::Kind;
use pg_position::{Move, Wing};

/// Whether a man of this kind goes as a king that castles so. In a legal move only castling is so.
pub fn castles(kind: Kind, m: &Move, wing: Wing) -> bool
    ensures { IsTrue result ↔ ((kind ≡ Kind.King) × GoesTwo wing m.now.from m.now.to) }
{
    kind == Kind::King
        && match wing {
            Wing::KingSide => m.to.file() == m.from.file() + 2,
            Wing::QueenSide => m.from.file() == m.to.file() + 2,
        }
}
