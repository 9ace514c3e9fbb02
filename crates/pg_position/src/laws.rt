//! Laws of legal moves and of games, each the contract of a function that does nothing.
ghost use Rattle.std.specs.Prelude.{◌≡◌, ◌↔◌, List};
ghost use Rattle.pg_position.specs.declared.state.State.{State};
ghost use Rattle.pg_position.specs.declared.moves.Move.{Move};
ghost use Rattle.pg_position.specs.Position.{IsPosition};
ghost use Rattle.pg_position.specs.Step.{Legal};
ghost use Rattle.pg_position.specs.Game.{IsGame, EndAlike};
ghost use Rattle.pg_position.specs.Future.{SameFuture};

/// A legal move leads from a position to a position.
pub fn legal_leads_to_a_position()
    ensures { (p : State) (m : Move) (q : State) → IsPosition p → Legal p m q → IsPosition q }
{}

/// A legal move leads to one position alone.
pub fn legal_leads_to_one_position()
    ensures { (p : State) (m : Move) (q : State) (r : State) → IsPosition p → Legal p m q → Legal p m r → q ≡ r }
{}

/// Two positions with the same future have the same games, and each game ends on the same placement
/// from both.
pub fn same_future_same_games()
    ensures games { (p : State) (q : State) (ms : List Move) → SameFuture p q
        → ((r : State) × IsGame p ms r) ↔ ((s : State) × IsGame q ms s) }
    ensures ends { (p : State) (q : State) → IsPosition p → IsPosition q → SameFuture p q → EndAlike p q }
{}
