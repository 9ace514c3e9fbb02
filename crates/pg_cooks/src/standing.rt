//! What a list of games alone says of a problem.
ghost use Rattle.std.specs.Prelude.{◌≡◌};
ghost use Rattle.pg_cooks.specs.Standing.{IsStanding, standing_text};

use pg_san::Games;

/// What games that are known to end on a diagram, and may not be all, say of its problem.
#[derive(Debug, Clone, Copy, PartialEq, Eq)]
pub enum Standing {
    /// There are two games or more, so the problem is not sound.
    NotSound,
    /// There is one game, and maybe others.
    AtLeastOne,
    /// No game is given.
    NoneGiven,
}

// What a list of games says.
pub(crate) fn standing_of(games: &Games) -> Standing
    ensures { IsStanding games.now result }
{
    match games.len() {
        0 => Standing::NoneGiven,
        1 => Standing::AtLeastOne,
        _ => Standing::NotSound,
    }
}

// The words for it.
pub(crate) fn standing_words(standing: Standing) -> &'static str
    ensures { result.now ≡ standing_text standing }
{
    match standing {
        Standing::NotSound => "not sound",
        Standing::AtLeastOne => "at least one game",
        Standing::NoneGiven => "no game given",
    }
}
