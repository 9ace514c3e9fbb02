//! Positions: the five clauses kept, the calls of a position.
ghost use Rattle.std.specs.Prelude.{◌≡◌, ◌↔◌, IsTrue, MatchResult, IfOk, IfErr};
ghost use Rattle.std.specs.Cmp.{partial_equiv_from_equiv, decided};
ghost use Rattle.pg_position.specs.Attack.{Attacks};
ghost use Rattle.pg_position.specs.Array.{array_state};
ghost use Rattle.pg_position.specs.Position.{parts, InCheck, IsPosition, IsFirstBroken};
ghost use Rattle.pg_board.specs.SquareSets.{IsSetOf};
ghost use Rattle.pg_position.specs.Step.{Legal, IsLegal, IsCause, CastlesTo};
ghost use Rattle.pg_position.specs.Future.{IsEffective, SameFuture};
ghost use Rattle.pg_position.specs.Equality.{state_eq};
ghost use Rattle.pg_position.specs.lemmas.Equalities.{state_eq_decides};
ghost use Rattle.pg_position.specs.declared.state.State.{State};

use crate::array::array_board;
use crate::boards::in_check;
use crate::clauses::{has_good_kings, has_good_passed, has_good_pawns, has_good_rights};
use crate::equality::same_state;
use crate::futures::same_future;
use crate::moves::Move;
use crate::refusals::{BadPosition, Illegal};
use crate::rights::Rights;
use crate::state::State;
use pg_board::{Board, Color, Square, SquareSet};
use std::marker::Model;

/// A chess position: a board, the side to move, the rights to castle and the passed square, a
/// square that a pawn has just crossed by an advance of two squares. Contracts see it as these four
/// parts. Every position meets five clauses:
///
/// 1. each colour has one king;
/// 2. no pawn stands on rank 1 or 8;
/// 3. each right has its king and its rook at home;
/// 4. a passed square is empty, on rank 6 with White to move and on rank 3 with Black to move, has
///    the other side's pawn one step ahead of it, and that pawn's home square is empty;
/// 5. the side that is not to move is not in check.
///
/// (FIDE articles 2.3, 3.7 to 3.9.)
#[derive(Clone, Copy, Debug)]
pub struct Position {
    state: State,
}

impl Model for Position {
    ghost use Rattle.pg_position.specs.declared.state.State.{State};
    ghost use Rattle.pg_position.specs.Position.{IsPosition};
    ghost use Rattle.pg_position.specs.contracts.state.State.{the_row as state_row};

    ghost Value = { State };

    ghost coded = { state_row.coded };

    ghost view = { λ p. p.state };

    ghost inverse = { λ s. record { state = s } };

    ghost invariant = { λ p. IsPosition p.state };
}

impl Position {
    /// The initial array, White to move, with all four rights and no passed square (FIDE
    /// article 2.3).
    #[tactic(auto, using(crate::proofs::ArrayLemmas::array_position), unfolding(crate::specs::Array::array_state))]
    pub fn array() -> Position
        ensures { result ≡ array_state }
    {
        Position {
            state: State {
                board: array_board(),
                side: Color::White,
                rights: Rights {
                    white_king: true,
                    white_queen: true,
                    black_king: true,
                    black_queen: true,
                },
                passed: None,
            },
        }
    }

    /// The position of these parts.
    ///
    /// # Errors
    /// The first clause that they break: `Kings`, `PawnRank`, `Rights`, `EnPassant` or `Check`.
    pub fn from_parts(
        board: Board,
        side: Color,
        rights: Rights,
        passed: Option<Square>,
    ) -> Result<Position, BadPosition>
        ensures { MatchResult result (λ p. (p ≡ parts board side rights passed) × IsPosition p)
            (λ e. IsFirstBroken (parts board side rights passed) e) }
    {
        let state = State {
            board,
            side,
            rights,
            passed,
        };
        if !has_good_kings(&state.board) {
            Err(BadPosition::Kings)
        } else if !has_good_pawns(&state.board) {
            Err(BadPosition::PawnRank)
        } else if !has_good_rights(&state.board, &state.rights) {
            Err(BadPosition::Rights)
        } else if !has_good_passed(&state) {
            Err(BadPosition::EnPassant)
        } else if in_check(&state.board, state.side.other()) {
            Err(BadPosition::Check)
        } else {
            Ok(Position { state })
        }
    }

    // The position of a state that meets the five clauses.
    pub(crate) fn of_state(state: State) -> Position
        requires { IsPosition state }
        ensures { result ≡ state }
    {
        Position { state }
    }

    /// The board.
    pub fn board(&self) -> Board
        ensures value { result ≡ self.now.board }
        ensures position { IsPosition self.now }
    {
        self.state.board
    }

    /// The side to move.
    pub fn side(&self) -> Color
        ensures value { result ≡ self.now.side }
        ensures position { IsPosition self.now }
    {
        self.state.side
    }

    /// The rights to castle.
    pub fn rights(&self) -> Rights
        ensures { result ≡ self.now.rights }
    {
        self.state.rights
    }

    /// The passed square: the one that the last move's pawn crossed by an advance of two squares,
    /// none after any other move (FIDE article 3.7.3.1).
    pub fn passed(&self) -> Option<Square>
        ensures { result ≡ self.now.passed }
    {
        self.state.passed
    }

    /// Whether a man of the colour attacks the square, be it one that may not itself move (FIDE
    /// articles 3.1.2 and 3.1.3).
    pub fn attacked(&self, square: Square, by: Color) -> bool
        ensures { IsTrue result ↔ Attacks self.now.board by square }
    {
        self.state.is_attacked(square, by)
    }

    /// Whether the king of the side to move is attacked (FIDE article 3.9.1).
    pub fn in_check(&self) -> bool
        ensures { IsTrue result ↔ InCheck self.now.board self.now.side }
    {
        self.state.is_in_check()
    }

    /// The position that a legal move leads to (FIDE articles 3.1 to 3.9).
    ///
    /// # Errors
    /// Of any other move the first of these that holds: `EmptyFrom`, no man stands on the square that
    /// it leaves; `OtherSide`, that man is not of the side to move; `NotAMove`, it does not move so, a
    /// wrong promotion and forbidden castling included; `LeavesCheck`, its king would be attacked.
    pub fn play(&self, m: Move) -> Result<Position, Illegal>
        ensures ok { IfOk result (λ q. (r : State) → (q ≡ r) ↔ Legal self.now m r) }
        ensures err { IfErr result (λ e. IsCause self.now m e × ((r : State) → ¬ Legal self.now m r)) }
        ensures position { IfOk result (λ q. IsPosition q) }
    {
        self.state.play(&m)
    }

    /// Whether the move is legal: whether `play` gives the position that it leads to.
    pub fn is_legal(&self, m: &Move) -> bool
        ensures { IsTrue result ↔ IsLegal self.now m.now }
    {
        self.play(*m).is_ok()
    }

    /// The position that a move leads to which is known to be legal: that of `play`, without its tests.
    pub fn after(&self, m: &Move) -> Position
        requires { IsLegal self.now m.now }
        ensures legal { Legal self.now m.now result }
        ensures from { IsPosition self.now }
    {
        Position {
            state: self.state.after_legal(m),
        }
    }

    /// The squares to which the king castles: the right is held, no man stands between king and rook, and
    /// the king's square, the one that he crosses and the one that he comes to are not attacked (FIDE
    /// article 3.8.2).
    #[inline(always)]
    pub fn castling_targets(&self) -> SquareSet
        ensures { IsSetOf result (CastlesTo self.now) }
    {
        self.state.castling_targets()
    }

    /// The passed square where a pawn of the side to move attacks it, whether or not it may capture there
    /// without leaving its king in check (FIDE articles 3.7.3.1 and 3.9.2); otherwise none.
    pub fn effective_passed(&self) -> Option<Square>
        ensures { IsEffective self.now result }
    {
        self.state.effective_passed()
    }

    /// Whether two positions have the same games: equal boards, sides and rights, and equal passed
    /// squares, where one that no pawn of the side to move attacks counts as none.
    pub fn same_future(&self, other: &Position) -> bool
        ensures { IsTrue result ↔ SameFuture self.now other.now }
    {
        same_future(&self.state, &other.state)
    }
}

/// Two positions are equal where their boards, sides, rights and passed squares are.
impl PartialEq for Position {
    ghost eq = { state_eq };

    ghost laws = { partial_equiv_from_equiv (decided state_eq state_eq_decides) };

    fn eq(&self, other: &Position) -> bool
        ensures value { result ≡ state_eq self.now other.now }
        ensures same { IsTrue result ↔ (self.now ≡ other.now) }
    {
        same_state(&self.state, &other.state)
    }
}

impl Eq for Position {
    ghost laws = { decided state_eq state_eq_decides };
}
