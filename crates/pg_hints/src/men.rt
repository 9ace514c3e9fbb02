//! Men by their names.
ghost use Rattle.std.specs.Prelude.{◌≡◌};
ghost use Rattle.pg_hints.specs.Men.{man_text};

use pg_board::{Color, Kind, Man};

/// What stands on a square: a man by his colour and kind, as `white pawn`, or `empty`.
pub fn name_of(man: Option<Man>) -> &'static str
    ensures { result.now ≡ man_text man }
{
    let Some(man) = man else {
        return "empty";
    };
    match (man.color, man.kind) {
        (Color::White, Kind::Pawn) => "white pawn",
        (Color::White, Kind::Knight) => "white knight",
        (Color::White, Kind::Bishop) => "white bishop",
        (Color::White, Kind::Rook) => "white rook",
        (Color::White, Kind::Queen) => "white queen",
        (Color::White, Kind::King) => "white king",
        (Color::Black, Kind::Pawn) => "black pawn",
        (Color::Black, Kind::Knight) => "black knight",
        (Color::Black, Kind::Bishop) => "black bishop",
        (Color::Black, Kind::Rook) => "black rook",
        (Color::Black, Kind::Queen) => "black queen",
        (Color::Black, Kind::King) => "black king",
    }
}
