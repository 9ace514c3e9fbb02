//! The games that leaves give.
ghost use Rattle.std.specs.Prelude.{◌≡◌, ℕ, false, List, [], Bool, None};
ghost use Rattle.pg_board.specs.Placement.{Placement};
ghost use Rattle.pg_position.specs.declared.moves.Move.{Move};
ghost use Rattle.pg_checker.specs.Answer.{IsSolution};
ghost use Rattle.pg_checker.specs.inner.Finds.{Finding, IsFound, IsLacking, Serves, asked};

use pg_position::Move;
use pg_san::{AddFault, Games};
use std::alloc::Global;

// Why a game was not kept: the list holds as many as it may, or memory was refused.
#[derive(Clone, Copy)]
pub(crate) enum Loss {
    TooMany,
    Memory,
}

// The games that leaves on the diagram gave, and why one of them was not kept. From then on none is.
#[derive(Drop)]
pub(crate) struct Finds {
    pub(crate) games: Games,
    pub(crate) loss: Option<Loss>,
}

impl Finds {
    // Nothing is found. The list takes its room from `alloc`.
    pub(crate) fn new(alloc: Global) -> Finds
        ensures { result ≡ record { games = []; loss = None } }
    {
        Finds {
            games: Games::new(alloc),
            loss: None,
        }
    }
}

// Why a game was not kept that the list does not hold.
fn loss_of(fault: AddFault) -> Loss
    ensures { result ≡ Loss.TooMany → fault ≡ AddFault.TooMany }
{
    match fault {
        AddFault::TooMany => Loss::TooMany,
        AddFault::IllegalMove(_) => Loss::Memory,
        AddFault::Repeated => Loss::Memory,
        AddFault::Memory => Loss::Memory,
    }
}

// A game is kept, once.
fn keep(game: &[Move], finds: &mut Finds)
    ensures found { IsFound finds.new game.now }
    ensures finding { (d : Placement) (n : ℕ) → IsSolution d n game.now → Finding d n finds.old finds.new }
{
    if finds.loss.is_some() {
        return;
    }
    if finds.games.contains(game) {
        return;
    }
    match finds.games.add(game) {
        Ok(()) => {}
        Err(fault) => finds.loss = Some(loss_of(fault)),
    }
}

// Whether a solution counts as listed: where a list is asked, it is in that list; where none is, it is
// kept.
pub(crate) fn counts(games: Option<&Games>, game: &[Move], finds: &mut Finds) -> bool
    ensures listed { (listed : List Move → Bool) → Serves (asked games.entry) finds.new listed
        → listed game.now ≡ result }
    ensures lacks { result ≡ false → IsLacking (asked games.entry) game.now }
    ensures finding { (d : Placement) (n : ℕ) → IsSolution d n game.now → Finding d n finds.old finds.new }
{
    match games {
        Some(games) => games.contains(game),
        None => {
            keep(game, finds);
            true
        }
    }
}
