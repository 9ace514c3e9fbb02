//! The state that a step leaves.
ghost use Rattle.std.specs.Prelude.{◌≡◌, ◌≢◌, ℕ, ◌+◌, ◌-◌, ◌<◌, IsTrue, Some, None, true, false};
ghost use Rattle.pg_board.specs.Men.{other};
ghost use Rattle.pg_position.specs.Position.{parts, holds, IsPosition};
ghost use Rattle.pg_position.specs.Squares.{king_home};
ghost use Rattle.pg_position.specs.Step.{IsWay, relocated, board_after, passed_after, touches, keeps, rights_after};
ghost use Rattle.pg_position.specs.Step.{after};

use crate::moves::{Move, StepKind};
use crate::rights::{Rights, Wing};
use crate::squares::{ahead, castling_homes, king_crossed, king_home, rook_home};
use crate::state::State;
use pg_board::{Board, Color, Kind, Man, Square, SquareSet};

impl Move {
    fn touches(&self, square: Square) -> bool
        ensures { result ≡ touches self.now square }
    {
        self.from == square || self.to == square
    }

    // Whether it touches no home of a king or a rook: it then takes no right away.
    #[inline(always)]
    fn touches_no_home(&self) -> bool
        ensures rights { IsTrue result → (r : Rights) → r ≡ rights_after r self.now }
        ensures kings { IsTrue result → (c : Color) → self.now.from ≢ king_home c }
    {
        let touched = SquareSet::single(self.from) | SquareSet::single(self.to);
        !touched.meets(castling_homes())
    }
}

impl Rights {
    fn keeps(&self, m: &Move, color: Color, wing: Wing) -> bool
        ensures { result ≡ keeps self.now m.now color wing }
    {
        self.holds(color, wing)
            && !(m.touches(king_home(color)) || m.touches(rook_home(color, wing)))
    }

    // Whether none is held.
    #[inline(always)]
    fn is_none(&self) -> bool
        ensures none { IsTrue result → (c : Color) (w : Wing) → holds self.now c w ≡ false }
        ensures kept { IsTrue result → (m : Move) → self.now ≡ rights_after self.now m }
    {
        !self.white_king && !self.white_queen && !self.black_king && !self.black_queen
    }

    // The rights that a move leaves: all, where it touches no home of a king or a rook.
    fn after(&self, m: &Move) -> Rights
        ensures { result ≡ rights_after self.now m.now }
    {
        if m.touches_no_home() {
            return *self;
        }
        Rights {
            white_king: self.keeps(m, Color::White, Wing::KingSide),
            white_queen: self.keeps(m, Color::White, Wing::QueenSide),
            black_king: self.keeps(m, Color::Black, Wing::KingSide),
            black_queen: self.keeps(m, Color::Black, Wing::QueenSide),
        }
    }
}

impl State {
    // The square that a two-square advance passes, if the move is one.
    fn passed_after(&self, kind: Kind, m: &Move, way: StepKind) -> Option<Square>
        requires { IsWay self.now kind m.now way }
        ensures { result ≡ passed_after self.now m.now way }
    {
        match way {
            StepKind::DoubleAdvance => Some(ahead(self.side, 1, m.from)),
            _ => None,
        }
    }

    // The board that the move leaves.
    fn board_after(&self, kind: Kind, m: &Move, way: StepKind) -> Board
        requires position { IsPosition self.now }
        requires way { IsWay self.now kind m.now way }
        ensures { result ≡ board_after self.now m.now way }
    {
        let mut board = self.board;
        match way {
            StepKind::Plain | StepKind::Capture | StepKind::DoubleAdvance => board.relocate(
                m.from, m.to,
            ),
            StepKind::EnPassant => {
                board.relocate(m.from, m.to);
                board.take(ahead(self.side.other(), 1, m.to));
            }
            StepKind::Promotion(piece) => {
                board.take(m.from);
                board.put(m.to, Man::new(self.side, piece));
            }
            StepKind::Castling(wing) => {
                board.relocate(m.from, m.to);
                board.relocate(rook_home(self.side, wing), king_crossed(self.side, wing));
            }
        }
        board
    }

    // Whether the move does no more than take a man to a square: it promotes none, touches no home of
    // a king or a rook while a right is held, and does not go to the passed square. Most do no more, and
    // what they leave is made by fewer steps.
    #[inline(always)]
    pub(crate) fn is_common(&self, m: &Move) -> bool
        ensures unpromoted { IsTrue result → m.now.promotion ≡ None }
        ensures rights { IsTrue result → self.now.rights ≡ rights_after self.now.rights m.now }
        ensures home { IsTrue result → (w : Wing) → holds self.now.rights self.now.side w ≡ true →
            m.now.from ≢ king_home self.now.side }
        ensures passed { IsTrue result → self.now.passed ≢ Some m.now.to }
    {
        m.promotion.is_none()
            && (m.touches_no_home() || self.rights.is_none())
            && self.passed != Some(m.to)
    }

    // The state in which the man has gone, with this passed square and the same rights.
    #[inline(always)]
    pub(crate) fn carried(&self, m: &Move, passed: Option<Square>) -> State
        ensures { result ≡ parts (relocated self.now.board m.now.from m.now.to) (other self.now.side)
            self.now.rights passed }
    {
        let mut board = self.board;
        board.relocate(m.from, m.to);
        State {
            board,
            side: self.side.other(),
            rights: self.rights,
            passed,
        }
    }

    // The state that a common move leaves. It is no part of the code that then tests the king's safety:
    // there the board is made set by set, and not all eight at once.
    #[inline(never)]
    pub(crate) fn after_common(&self, kind: Kind, m: &Move, way: StepKind) -> State
        requires unpromoted { m.now.promotion ≡ None }
        requires rights { self.now.rights ≡ rights_after self.now.rights m.now }
        requires home { (w : Wing) → holds self.now.rights self.now.side w ≡ true →
            m.now.from ≢ king_home self.now.side }
        requires passed { self.now.passed ≢ Some m.now.to }
        requires way { IsWay self.now kind m.now way }
        ensures { result ≡ after self.now m.now way }
    {
        self.carried(m, self.passed_after(kind, m, way))
    }

    // The state that the move leaves.
    #[inline(always)]
    pub(crate) fn after(&self, kind: Kind, m: &Move, way: StepKind) -> State
        requires position { IsPosition self.now }
        requires way { IsWay self.now kind m.now way }
        ensures { result ≡ after self.now m.now way }
    {
        State {
            board: self.board_after(kind, m, way),
            side: self.side.other(),
            rights: self.rights.after(m),
            passed: self.passed_after(kind, m, way),
        }
    }
}
