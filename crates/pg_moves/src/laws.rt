//! Laws of lists of legal moves, each the contract of a function that does nothing.
ghost use Rattle.std.specs.Prelude.{◌≡◌, List, Option, Some, None, MatchOption, ℕ, ◌+◌, sum_by, ◌∷◌, ◌++◌};
ghost use Rattle.pg_position.specs.declared.state.State.{State};
ghost use Rattle.pg_position.specs.declared.moves.Move.{Move};
ghost use Rattle.std.specs.List.{Contains};
ghost use Rattle.pg_position.specs.Position.{IsPosition};
ghost use Rattle.pg_position.specs.Step.{Legal};
ghost use Rattle.pg_moves.specs.Counts.{IsFollowed, IsGameCount};
ghost use Rattle.pg_moves.specs.Moves.{IsMoveList, IsNext, IsLast, first_in};

/// Each position has one list of its legal moves.
pub fn one_move_list()
    ensures one { (p : State) (ms ns : List Move) → IsMoveList p ms → IsMoveList p ns → ms ≡ ns }
    ensures some { (p : State) → (ms : List Move) × IsMoveList p ms }
{}

/// The list of legal moves is a function of the position, and so is the position after a legal move.
pub fn moves_and_play_are_functions()
    ensures { (moves : State → List Move) × (play : State → Move → State)
        × ((p : State) → IsMoveList p (moves p))
        × ((p : State) (m : Move) (q : State) → IsPosition p → Legal p m q → play p m ≡ q) }
{}

/// There is one number of games of each number of plies from a position: 1 of none, and of one ply more the
/// sum over the move list of the games after each move.
pub fn one_game_count()
    ensures one { (p : State) (k m n : ℕ) → IsGameCount p k m → IsGameCount p k n → m ≡ n }
    ensures some { (p : State) (k : ℕ) → IsPosition p → (n : ℕ) × IsGameCount p k n }
    ensures none { (p : State) → IsGameCount p 0 1 }
    ensures more { (p : State) (k : ℕ) (ms : List Move) (after : Move → State) (games : Move → ℕ)
        → IsPosition p → IsMoveList p ms
        → ((m : Move) → Contains ms m → IsFollowed p k m (after m) (games m))
        → IsGameCount p (k + 1) (sum_by games ms) }
{}

/// The next legal move is the next of the list: with none handed in its first, after a move of the
/// list the one that follows.
pub fn next_in_list()
    ensures start { (p : State) (ms : List Move) (r : Option Move) → IsMoveList p ms
        → MatchOption r (IsLast p None) (λ m. IsNext p None m) → r ≡ first_in ms }
    ensures next { (p : State) (xs ys : List Move) (a : Move) (r : Option Move) → IsMoveList p (xs ++ a ∷ ys)
        → MatchOption r (IsLast p (Some a)) (λ m. IsNext p (Some a) m) → r ≡ first_in ys }
{}
