//! Playing a move.
ghost use Rattle.std.specs.Prelude.{◌≡◌, ℕ, ◌↔◌, MatchResult, IfOk, IfErr};
ghost use Rattle.pg_position.specs.declared.state.State.{State};
ghost use Rattle.pg_position.specs.Position.{Stands, IsPosition};
ghost use Rattle.pg_position.specs.Step.{IsWay, passed_after, Step, Legal, IsLegal, IsCause};

use crate::boards::{in_check, stands};
use crate::cases::way;
use crate::legal_ways::{is_two_ranks, legal_way};
use crate::moves::{Move, StepKind};
use crate::position::Position;
use crate::refusals::Illegal;
use crate::squares::ahead;
use crate::state::State;
use pg_board::{Kind, Square};

impl State {
    // The kind of the man that moves.
    #[tactic(auto, using(crate::proofs::StepLemmas::same_color_else), unfolding(crate::specs::Step::IsEnemy))]
    fn mover(&self, m: &Move) -> Result<Kind, Illegal>
        ensures { MatchResult result (λ k. Stands self.now.board self.now.side k m.now.from)
            (λ e. IsCause self.now m.now e) }
    {
        match self.board.get(m.from) {
            None => Err(Illegal::EmptyFrom),
            Some(man) => {
                if man.color == self.side.other() {
                    Err(Illegal::OtherSide)
                } else {
                    Ok(man.kind)
                }
            }
        }
    }

    // The position after a legal move.
    pub(crate) fn play(&self, m: &Move) -> Result<Position, Illegal>
        requires { IsPosition self.now }
        ensures ok { IfOk result (λ q. IsPosition q × ((r : State) → (q ≡ r) ↔ Legal self.now m.now r)) }
        ensures err { IfErr result (λ e. IsCause self.now m.now e × ((r : State) → ¬ Legal self.now m.now r)) }
    {
        // Facts for the proof: both squares are on the board.
        m.from.index();
        m.to.index();
        let kind = match self.mover(m) {
            Ok(kind) => kind,
            Err(e) => return Err(e),
        };
        let way = match way(self, kind, m) {
            Some(way) => way,
            None => return Err(Illegal::NotAMove),
        };
        if !self.is_common(m) {
            return self.play_rare(kind, m, way);
        }
        let next = self.after_common(kind, m, way);
        if in_check(&next.board, self.side) {
            return Err(Illegal::LeavesCheck);
        }
        Ok(Position::of_state(next))
    }

    // The position after a move that is known to be a step, for those that do more than take a man to a
    // square.
    #[inline(never)]
    fn play_rare(&self, kind: Kind, m: &Move, way: StepKind) -> Result<Position, Illegal>
        requires position { IsPosition self.now }
        requires mover { Stands self.now.board self.now.side kind m.now.from }
        requires way { IsWay self.now kind m.now way }
        ensures ok { IfOk result (λ q. IsPosition q × ((r : State) → (q ≡ r) ↔ Legal self.now m.now r)) }
        ensures err { IfErr result (λ e. IsCause self.now m.now e × ((r : State) → ¬ Legal self.now m.now r)) }
    {
        // Facts for the proof: both squares are on the board.
        m.from.index();
        m.to.index();
        let left = self.after(kind, m, way);
        if in_check(&left.board, self.side) {
            return Err(Illegal::LeavesCheck);
        }
        Ok(Position::of_state(left))
    }

    // The square that a legal move passes: a pawn's by two ranks.
    #[inline(always)]
    fn passed_by(&self, m: &Move) -> Option<Square>
        requires { IsLegal self.now m.now }
        ensures { (k : Kind) (w : StepKind) → Stands self.now.board self.now.side k m.now.from →
            IsWay self.now k m.now w → result ≡ passed_after self.now m.now w }
    {
        let pawn = stands(&self.board, self.side, Kind::Pawn, m.from);
        if pawn && is_two_ranks(m) {
            Some(ahead(self.side, 1, m.from))
        } else {
            None
        }
    }

    // The state after a move that is known to be legal. What a rare move leaves has a name of its own: were it written
    // where the answer stands, that would be memory, and a common move's parts would be stored there and copied.
    // Inlined for the same reason.
    #[inline(always)]
    pub(crate) fn after_legal(&self, m: &Move) -> State
        requires position { IsPosition self.now }
        requires legal { IsLegal self.now m.now }
        ensures legal { Legal self.now m.now result }
        ensures position { IsPosition result }
    {
        let common = self.is_common(m);
        let passed = self.passed_by(m);
        if common {
            self.carried(m, passed)
        } else {
            let rare = self.after_rare(m);
            rare
        }
    }

    // The same for any legal move.
    #[inline(never)]
    fn after_rare(&self, m: &Move) -> State
        requires position { IsPosition self.now }
        requires legal { IsLegal self.now m.now }
        ensures legal { Legal self.now m.now result }
        ensures position { IsPosition result }
    {
        match self.board.get(m.from) {
            Some(man) => {
                let way = legal_way(self, man.kind, m);
                self.after(man.kind, m, way)
            }
            None => unreachable!(),
        }
    }
}
