//! The ranks from which a pawn soon becomes another man.
ghost use Rattle.std.specs.Prelude.{◌≡◌, ℕ, ◌-◌, ◌<◌, ◌≤◌, ◌⊎◌};
ghost use Rattle.pg_travel.specs.inner.Formulas.{soonest};

use pg_board::Color;

/// Squares by their indexes: from the first on, and below `past`.
#[derive(Clone, Copy, Debug)]
pub struct Band {
    pub first: u8,
    pub past: u8,
}

pub(crate) fn whole_board() -> Band
    ensures first { result.first ≡ 0 }
    ensures past { result.past ≡ 64 }
{
    Band { first: 0, past: 64 }
}

// Squares outside of which a pawn of the colour needs at least `steps` steps to its last rank.
pub(crate) fn promoting(color: Color, steps: u8) -> Band
    ensures first { result.first ≤ 64 }
    ensures outside { (q : ℕ) → q < 64 → (q < result.first) ⊎ (result.past ≤ q) → steps ≤ soonest color q }
{
    // A step a rank from the third on, and no more from the second, whose first step may be two squares:
    // a pawn there is as near as one on the third, with five steps.
    let ranks = if steps <= 5 {
        8 - steps
    } else {
        7 - steps.min(7)
    };
    match color {
        Color::White => Band {
            first: 8 * ranks,
            past: 64,
        },
        Color::Black => Band {
            first: 0,
            past: 64 - 8 * ranks,
        },
    }
}
