//! The games of a file.
ghost use Rattle.std.specs.Prelude.{◌≡◌, ◌≤◌, length, Some, IfSome, MatchOption, slice_get};
ghost use Rattle.pg_san.specs.Games.{IsFromArray};

use pg_position::Move;
use std::marker::Model;

/// The games of a file, in its order, each from the initial array. Contracts see the list of the games, each a list of
/// moves.
#[derive(Drop)]
pub struct PgnGames {
    pub(crate) games: Vec<Vec<Move>>,
}

impl Model for PgnGames {
    ghost use Rattle.std.specs.Prelude.{List, map, All};
    ghost use Rattle.pg_position.specs.declared.moves.Move.{Move};
    ghost use Rattle.pg_san.specs.Games.{IsFromArray};

    ghost Value = { List (List Move) };

    ghost view = { λ g. map (λ v. v.items) g.games.items };

    ghost invariant = { λ g. All IsFromArray (map (λ v. v.items) g.games.items) };
}

impl PgnGames {
    /// How many games there are.
    pub fn len(&self) -> usize
        ensures { result ≡ length self.now }
    {
        self.games.len()
    }

    /// The game with this index, counted from 0; none from `len` on.
    pub fn game(&self, i: usize) -> Option<&[Move]>
        ensures game { MatchOption result (length self.now ≤ i) (λ g. slice_get self.now i ≡ Some g.now) }
        ensures legal { IfSome result (λ g. IsFromArray g.now) }
    {
        match self.games.get(i) {
            Some(game) => Some(game.as_slice()),
            None => None,
        }
    }
}
