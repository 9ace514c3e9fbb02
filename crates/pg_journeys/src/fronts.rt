//! Fronts: the men whom a search by counts has met, and the single steps that meet more of them.
ghost use Rattle.std.specs.Prelude.{◌≡◌, ◌≢◌, ℕ, ◌<◌, true, false};
ghost use Rattle.std.specs.Prelude.{MatchOption, IfNone};
ghost use Rattle.pg_board.specs.Bits.{has};
ghost use Rattle.pg_board.specs.declared.man.Kind.{Kind as KindOfMan};
ghost use Rattle.pg_board.specs.declared.man.Kind.TheVariants.{Pawn};
ghost use Rattle.pg_board.specs.Men.{number_of_kind};
ghost use Rattle.pg_board.specs.SquareSets.{IsSetOf};
ghost use Rattle.pg_captures.specs.FreeSteps.{Becomes};
ghost use Rattle.pg_journeys.specs.Known.{known};
ghost use Rattle.pg_journeys.specs.inner.Grounds.{IsGround};
ghost use Rattle.pg_journeys.specs.inner.Counts.{of_kind};
ghost use Rattle.pg_journeys.specs.inner.Fronts.{IsJoined, OnSet, PawnsOn, IsMeeting, AreTakenDue};
ghost use Rattle.pg_journeys.specs.inner.Fronts.{NoneDue, HasAdvanced, IsAdvanced, IsUnchanged, is_met, is_due};
ghost use Rattle.pg_journeys.specs.inner.Levels.{BackStep, FromSome};

use crate::facts::rank_set;
use crate::ground::Ground;
use pg_board::{Color, Kind, SquareSet};
use pg_position::last_rank;

// The kind with a number. By cases: a table of them is laid on the stack at each look.
pub(crate) fn kind_with(number: usize) -> Kind
    requires { number < 6 }
    ensures { number_of_kind result ≡ number }
{
    match number {
        0 => Kind::Pawn,
        1 => Kind::Knight,
        2 => Kind::Bishop,
        3 => Kind::Rook,
        4 => Kind::Queen,
        _ => Kind::King,
    }
}

// Joins a set to the set of a kind.
pub(crate) fn join(sets: &mut [SquareSet; 6], kind: Kind, set: SquareSet)
    ensures { IsJoined kind set sets.old sets.new }
{
    let k = usize::from(kind.number());
    sets[k] = sets[k] | set;
}

// Men of a kind on squares.
#[derive(Clone, Copy)]
pub(crate) struct Standing {
    pub(crate) kind: Kind,
    pub(crate) set: SquareSet,
}

// Men that were met, by kind: those met so far, those of them still to be looked at, and those that one count more
// meets.
#[derive(Drop)]
pub(crate) struct Front {
    pub(crate) met: [SquareSet; 6],
    pub(crate) due: [SquareSet; 6],
    pub(crate) next: [SquareSet; 6],
}

impl Front {
    // None is met; these are to be by no count.
    pub(crate) fn at(start: [SquareSet; 6]) -> Front
        ensures next { result.next ≡ start }
        ensures none { (k : KindOfMan) (s : ℕ) → is_met result k s ≡ false }
    {
        Front {
            met: [SquareSet::empty(); 6],
            due: [SquareSet::empty(); 6],
            next: start,
        }
    }

    // Meets men of a kind by this count, or by one more.
    pub(crate) fn meet(&mut self, kind: Kind, set: SquareSet, counts: bool)
        ensures { IsMeeting (OnSet kind set counts) self.old self.new }
    {
        if counts {
            join(&mut self.next, kind, set);
        } else {
            let new = set - self.met[usize::from(kind.number())];
            join(&mut self.met, kind, new);
            join(&mut self.due, kind, new);
        }
    }

    // Meets those of a kind whom one count more meets. False where that is nobody new.
    fn advance_kind(&mut self, k: usize) -> bool
        requires { k < 6 }
        ensures here { (j : KindOfMan) (s : ℕ) → number_of_kind j ≡ k → s < 64
            → IsAdvanced self.old self.new j s }
        ensures others { (j : KindOfMan) (s : ℕ) → number_of_kind j ≢ k → IsUnchanged self.old self.new j s }
        ensures idle { result ≡ false → (j : KindOfMan) (s : ℕ) → number_of_kind j ≡ k → s < 64
            → is_due self.new j s ≡ false }
    {
        let new = self.next[k] - self.met[k];
        self.met[k] = self.met[k] | new;
        self.due[k] = new;
        self.next[k] = SquareSet::empty();
        !new.is_empty()
    }

    // Meets what one count more meets. False where that is nobody new.
    pub(crate) fn advance(&mut self) -> bool
        ensures all { HasAdvanced self.old self.new }
        ensures idle { result ≡ false → NoneDue self.new }
    {
        let mut any = false;
        for k in 0..6usize {
            let some = self.advance_kind(k);
            any = any || some;
        }
        any
    }

    // Takes the men of one kind who are due.
    pub(crate) fn take_due(&mut self) -> Option<Standing>
        ensures taken { MatchOption result (NoneDue self.old) (λ m. AreTakenDue m.kind m.set self.old self.new) }
        ensures met { self.new.met ≡ self.old.met }
        ensures next { self.new.next ≡ self.old.next }
        ensures none { IfNone result (self.new ≡ self.old) }
    {
        for k in 0..6usize {
            let set = self.due[k];
            if let Some(_first) = set.first() {
                self.due[k] = SquareSet::empty();
                return Some(Standing {
                    kind: kind_with(k),
                    set,
                });
            }
        }
        None
    }
}

// Men of one kind on these squares.
pub(crate) fn only(kind: Kind, set: SquareSet) -> [SquareSet; 6]
    ensures here { of_kind result kind ≡ set }
    ensures others { (k : KindOfMan) → k ≢ kind → of_kind result k ≡ 0 }
{
    let mut men = [SquareSet::empty(); 6];
    men[usize::from(kind.number())] = set;
    men
}

// The squares of a set where a pawn that comes there may be of this kind.
fn becoming(color: Color, kind: Kind, set: SquareSet) -> SquareSet
    ensures { IsSetOf result (λ s. (has set s ≡ true) × Becomes color Pawn s kind) }
{
    let last = rank_set(last_rank(color));
    match kind {
        Kind::Pawn => set - last,
        Kind::King => SquareSet::empty(),
        _ => set & last,
    }
}

// Meets whoever of their own kind comes by one step to be one of these men.
fn meet_pieces_before(
    ground: &Ground,
    is_quiet: bool,
    kind: Kind,
    set: SquareSet,
    front: &mut Front,
)
    requires { IsGround ground.now }
    ensures { IsMeeting
        (λ j t w. (j ≢ Pawn) × FromSome (BackStep (known ground.now.facts) ground.now.color is_quiet kind) set j t w)
        front.old front.new }
{
    match kind {
        Kind::Pawn => {}
        _ => {
            let captured = set & ground.lands();
            let rest = set - captured;
            front.meet(kind, ground.steps_of(kind, captured), !is_quiet);
            front.meet(kind, ground.steps_of(kind, rest), true);
        }
    }
}

// Meets the pawns that come by one step to be one of these men.
fn meet_pawns_before(ground: &Ground, is_quiet: bool, kind: Kind, set: SquareSet, front: &mut Front)
    requires { IsGround ground.now }
    ensures { IsMeeting
        (λ j t w. (j ≡ Pawn) × FromSome (BackStep (known ground.now.facts) ground.now.color is_quiet kind) set j t w)
        front.old front.new }
{
    let to = becoming(ground.color, kind, set);
    if !to.is_empty() {
        front.meet(Kind::Pawn, ground.pushed_to(to), true);
        front.meet(Kind::Pawn, ground.captured_to(to), !is_quiet);
    }
}

// Meets whoever comes by one step to be one of these men.
pub(crate) fn meet_before(
    ground: &Ground,
    is_quiet: bool,
    kind: Kind,
    set: SquareSet,
    front: &mut Front,
)
    requires { IsGround ground.now }
    ensures { IsMeeting (FromSome (BackStep (known ground.now.facts) ground.now.color is_quiet kind) set)
        front.old front.new }
{
    meet_pieces_before(ground, is_quiet, kind, set, front);
    meet_pawns_before(ground, is_quiet, kind, set, front);
}

// Meets a pawn on squares of no last rank, and each that he may become on the last one.
pub(crate) fn meet_pawns(ground: &Ground, set: SquareSet, counts: bool, front: &mut Front)
    ensures { IsMeeting (PawnsOn ground.now.color set counts) front.old front.new }
{
    let last = rank_set(last_rank(ground.color));
    let promoted = set & last;
    front.meet(Kind::Pawn, set - last, counts);
    front.meet(Kind::Knight, promoted, counts);
    front.meet(Kind::Bishop, promoted, counts);
    front.meet(Kind::Rook, promoted, counts);
    front.meet(Kind::Queen, promoted, counts);
}
