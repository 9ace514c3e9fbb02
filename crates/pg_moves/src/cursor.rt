//! The legal moves of a position, one after the other.
ghost use Rattle.std.specs.Prelude.{◌≡◌, ℕ, ◌<◌, true, None, Some, MatchOption, IfSome, IfNone};
ghost use Rattle.pg_board.specs.Bits.{has};
ghost use Rattle.pg_board.specs.SquareSets.{IsSetOf, HasNoneFrom, IsLastIn};
ghost use Rattle.pg_moves.specs.Left.{IsPeeked, IsTurn, IsHandedOut, IsManDone, IsNextOfMan, IsRest, IsRestOf};
ghost use Rattle.pg_moves.specs.Left.{IsOneByOne, men_from, to_square};
ghost use Rattle.pg_moves.specs.inner.Men.{AreMen, AreToCome};
ghost use Rattle.pg_moves.specs.inner.Sources.{IsToldSource};
ghost use Rattle.pg_moves.specs.Moves.{IsNext, IsLast};
ghost use Rattle.pg_moves.specs.Targets.{FreeOff};

use crate::men::{Men, are_known, keep_men, no_men, own_men};
use crate::pins::{Pins, is_special, maybe_pinned};
use crate::places::Target;
use crate::sources::{Source, first_of_source, source_at};
use crate::turns::{Turn, begin_each, begin_next, no_turn};
use pg_board::{Square, SquareSet};
use pg_position::{Move, Position};
use std::marker::Model;

/// The next legal move of a position, with what was found for it.
// Men off `maybe_pinned` cannot be pinned: it is full where they go by what the cursor keeps of all men.
#[derive(Clone, Copy)]
pub struct Peeked {
    pub m: Move,
    maybe_pinned: SquareSet,
    source: Source,
}

/// The legal moves of a position past the last one that was handed out. What was found for that one
/// serves the next.
#[derive(Drop)]
pub struct LegalMoves {
    position: Position,
    maybe_pinned: SquareSet,
    men: Men,
    turn: Turn,
}

impl Model for LegalMoves {
    ghost use Rattle.pg_moves.specs.Left.{MovesLeft, moves_left_code, IsReady};
    ghost use Rattle.pg_moves.specs.Targets.{FreeOff};

    ghost Value = { MovesLeft };

    ghost coded = { moves_left_code };

    ghost view = { λ a. record { position = a.position; last = a.turn.last } };

    ghost invariant = { λ a. FreeOff a.position a.maybe_pinned × IsReady a.position a.turn.last a.men a.turn };
}

// The man of a move that was peeked at, whose set is not said to be exact: what was peeked at does not
// tell why his moves are tried one by one, so that is asked.
fn source_of_tried(position: &Position, peeked: &Peeked) -> Source
    requires { IsPeeked position.now peeked.now }
    ensures { IsToldSource position.now peeked.now.m.from result }
{
    // A fact for the proof: the square is on the board.
    peeked.m.from.index();
    let source = peeked.source;
    if is_special(position, source.kind, peeked.m.from) {
        return source;
    }
    source_at(&Pins::new(position, peeked.maybe_pinned), peeked.m.from)
}

// The squares of the set past a square.
#[inline(always)]
fn past(set: SquareSet, square: Square) -> SquareSet
    ensures { IsSetOf result (λ q. (has set q ≡ true) × (square < q)) }
{
    set - SquareSet::single(square).up_to_first()
}

// The next move of a man that has these further moves.
#[inline(always)]
fn first_of_rest(position: &Position, last: &Move, rest: SquareSet) -> Option<Move>
    requires { IsRestOf position.now last.now rest }
    ensures { MatchOption result (IsManDone position.now (Some last.now))
        (λ m. IsNextOfMan position.now (Some last.now) m) }
{
    // Facts for the proof: the squares are on the board.
    last.from.index();
    last.to.index();
    match rest.first() {
        Some(to) => Some(Move {
            from: last.from,
            to,
            promotion: None,
        }),
        None => None,
    }
}

// The next move of a man whose moves have to be tried.
fn next_tried(position: &Position, last: &Move, source: &Source) -> Option<Move>
    requires { IsToldSource position.now last.now.from source.now }
    ensures { MatchOption result (IsManDone position.now (Some last.now))
        (λ m. IsNextOfMan position.now (Some last.now) m) }
{
    // A fact for the proof: the square is on the board.
    last.from.index();
    first_of_source(position, last.from, source, Target::past(last))
}

// The first legal move of the men that did not yet move, with what is found for it, by what is kept of all men.
#[inline(always)]
fn peek_known(position: &Position, men: &Men, old: &Turn) -> Option<Peeked>
    requires men { AreMen position.now men.now }
    requires to_come { AreToCome position.now (men_from old.now.last) old.now.left }
    requires done { IsManDone position.now old.now.last }
    ensures { MatchOption result (IsLast position.now old.now.last)
        (λ a. IsNext position.now old.now.last a.m × IsPeeked position.now a) }
{
    let mut turn = *old;
    if !begin_next(position, men, old.left, &mut turn) {
        return None;
    }
    let last = turn.last;
    match last {
        Some(m) => Some(Peeked {
            m,
            maybe_pinned: SquareSet::full(),
            source: turn.source,
        }),
        None => unreachable!(),
    }
}

// The same where nothing is kept of them: each is looked at for himself.
#[inline(always)]
fn peek_each(pins: &Pins<'_>, old: &Turn) -> Option<Peeked>
    requires to_come { AreToCome pins.now (men_from old.now.last) old.now.left }
    requires done { IsManDone pins.now old.now.last }
    ensures { MatchOption result (IsLast pins.now old.now.last)
        (λ a. IsNext pins.now old.now.last a.m × IsPeeked pins.now a) }
{
    let mut turn = *old;
    if !begin_each(pins, old.left, &mut turn) {
        return None;
    }
    let last = turn.last;
    match last {
        Some(m) => Some(Peeked {
            m,
            maybe_pinned: pins.maybe_pinned(),
            source: turn.source,
        }),
        None => unreachable!(),
    }
}

// Goes past a move that was peeked at, whose man is told.
#[inline(always)]
fn pass_by(position: &Position, peeked: &Peeked, source: &Source, turn: &mut Turn)
    requires { IsToldSource position.now peeked.now.m.from source.now }
    ensures last { turn.new.last ≡ Some peeked.now.m }
    ensures turn { IsTurn position.now peeked.now.m turn.new }
{
    // Facts for the proof: the squares are on the board.
    peeked.m.from.index();
    peeked.m.to.index();
    turn.last = Some(peeked.m);
    turn.left = past(own_men(position), peeked.m.from);
    turn.rest = past(source.set, peeked.m.to);
    turn.source.set = source.set;
    turn.source.kind = source.kind;
    turn.source.exact = source.exact;
}

// The same where the set of the man is not said to be exact: not inlined, since it is rare.
#[inline(never)]
fn pass_tried(position: &Position, peeked: &Peeked, turn: &mut Turn)
    requires { IsPeeked position.now peeked.now }
    ensures last { turn.new.last ≡ Some peeked.now.m }
    ensures turn { IsTurn position.now peeked.now.m turn.new }
{
    let source = source_of_tried(position, peeked);
    pass_by(position, peeked, &source, turn);
}

// Goes past a move that was peeked at.
#[inline(always)]
fn pass(position: &Position, peeked: &Peeked, turn: &mut Turn)
    requires { IsPeeked position.now peeked.now }
    ensures last { turn.new.last ≡ Some peeked.now.m }
    ensures turn { IsTurn position.now peeked.now.m turn.new }
{
    // A fact for the proof: the square is on the board.
    peeked.m.from.index();
    if peeked.source.exact {
        pass_by(position, peeked, &peeked.source, turn);
    } else {
        pass_tried(position, peeked, turn);
    }
}

// Goes past a move that was peeked at, of the man that moved last: he is not looked at again.
#[inline(always)]
fn stay(position: &Position, last: &Move, m: &Move, turn: &mut Turn)
    requires turn { IsTurn position.now last.now turn.old }
    requires same { m.now.from ≡ last.now.from }
    ensures last { turn.new.last ≡ Some m.now }
    ensures turn { IsTurn position.now m.now turn.new }
{
    // A fact for the proof: the square is on the board.
    m.to.index();
    turn.last = Some(*m);
    turn.rest = past(turn.source.set, m.to);
}

impl LegalMoves {
    /// All legal moves of a position.
    #[tactic(auto, unfolding(crate::specs::Left::IsReady))]
    pub fn new(position: &Position) -> LegalMoves
        ensures position { result.position ≡ position.now }
        ensures last { result.last ≡ None }
    {
        LegalMoves {
            position: *position,
            maybe_pinned: SquareSet::full(),
            men: no_men(),
            turn: no_turn(own_men(position)),
        }
    }

    /// The position.
    pub fn position(&self) -> Position
        ensures { result ≡ self.now.position }
    {
        self.position
    }

    /// The move that was handed out last.
    pub fn last(&self) -> Option<Move>
        ensures { result ≡ self.now.last }
    {
        self.turn.last
    }

    // The legal move after the last one that the same man has.
    #[inline(always)]
    #[tactic(auto, unfolding(crate::specs::Left::IsReady))]
    fn next_of_man(&self) -> Option<Move>
        ensures { MatchOption result (IsManDone self.now.position self.now.last)
            (λ m. IsNextOfMan self.now.position self.now.last m) }
    {
        match self.turn.last {
            None => None,
            Some(last) => {
                if self.turn.source.exact {
                    first_of_rest(&self.position, &last, self.turn.rest)
                } else {
                    next_tried(&self.position, &last, &self.turn.source)
                }
            }
        }
    }

    // The men that may be pinned, as they were told with the moves that were peeked at.
    #[inline(always)]
    fn men_maybe_pinned(&self) -> SquareSet
        ensures { FreeOff self.now.position result }
    {
        match self.turn.last {
            None => maybe_pinned(&self.position),
            Some(_) => self.maybe_pinned,
        }
    }

    // The next legal move, once the man that moved last has none left, with what is found for it. A peek keeps
    // nothing, so it finds nothing of all men: each is looked at for himself, unless `next` has found them.
    #[inline(never)]
    fn peek_beyond(&self) -> Option<Peeked>
        requires { IsManDone self.now.position self.now.last }
        ensures { MatchOption result (IsLast self.now.position self.now.last)
            (λ a. IsNext self.now.position self.now.last a.m × IsPeeked self.now.position a) }
    {
        if are_known(&self.men) {
            peek_known(&self.position, &self.men, &self.turn)
        } else {
            peek_each(
                &Pins::new(&self.position, self.men_maybe_pinned()),
                &self.turn,
            )
        }
    }

    /// The next legal move. It stays the next one.
    #[tactic(auto, unfolding(crate::specs::Left::IsReady))]
    pub fn peek(&self) -> Option<Peeked>
        ensures { MatchOption result
            (IsLast self.now.position self.now.last)
            (λ a. IsNext self.now.position self.now.last a.m × IsPeeked self.now.position a) }
    {
        if let Some(m) = self.next_of_man() {
            return Some(Peeked {
                m,
                maybe_pinned: self.maybe_pinned,
                source: self.turn.source,
            });
        }
        self.peek_beyond()
    }

    // Hands out a move that was peeked at, of another man than the one that moved last.
    #[inline(never)]
    #[tactic(auto, unfolding(crate::specs::Left::IsReady))]
    fn go_to(&mut self, peeked: &Peeked)
        requires { IsPeeked self.old.position peeked.now }
        ensures { self.new ≡ record self.old { last = Some peeked.now.m } }
    {
        self.maybe_pinned = peeked.maybe_pinned;
        pass(&self.position, peeked, &mut self.turn);
    }

    /// Hands out a move that was peeked at.
    #[tactic(auto, unfolding(crate::specs::Left::IsReady))]
    pub fn advance(&mut self, peeked: &Peeked)
        requires { IsPeeked self.old.position peeked.now }
        ensures { self.new ≡ record self.old { last = Some peeked.now.m } }
    {
        match self.turn.last {
            None => self.go_to(peeked),
            Some(last) => {
                if last.from == peeked.m.from {
                    stay(&self.position, &last, &peeked.m, &mut self.turn);
                } else {
                    self.go_to(peeked);
                }
            }
        }
    }

    // Hands out the next legal move, once the man that moved last has none left: a function of its own, since `next` is
    // inlined where it is called, and most moves are further ones of the same man. Whether there is one is told, and
    // not which: the caller finds it where it is kept.
    #[inline(never)]
    #[tactic(auto, unfolding(crate::specs::Left::IsReady))]
    fn next_beyond(&mut self) -> bool
        requires { IsManDone self.old.position self.old.last }
        ensures { IsHandedOut self.old self.new result }
    {
        keep_men(&self.position, &mut self.men);
        let all = self.turn.left;
        begin_next(&self.position, &self.men, all, &mut self.turn)
    }

    // The next legal move, once the man that moved last has none left.
    #[inline(always)]
    fn next_kept(&mut self) -> Option<Move>
        requires { IsManDone self.old.position self.old.last }
        ensures answer { MatchOption result
            (IsLast self.old.position self.old.last)
            (λ m. IsNext self.old.position self.old.last m) }
        ensures some { IfSome result (λ m. self.new ≡ record self.old { last = Some m }) }
        ensures none { IfNone result (self.new ≡ self.old) }
    {
        if !self.next_beyond() {
            return None;
        }
        self.turn.last
    }

    /// The squares to which the man that moved last has further legal moves, past the last one: all without
    /// promotion, and he has no others. None where no move was handed out yet, or where he is a pawn that may
    /// promote or capture en passant, whose moves have to be handed out one by one.
    #[inline(always)]
    #[tactic(auto, unfolding(crate::specs::Left::IsReady))]
    pub fn rest_of_man(&self) -> Option<SquareSet>
        ensures some { IfSome result (λ rest. IsRest self.now.position self.now.last rest) }
        ensures none { IfNone result (IsOneByOne self.now.position self.now.last) }
    {
        match self.turn.last {
            None => None,
            Some(last) => {
                // A fact for the proof: what is kept is of the man that made this move.
                last.from.index();
                if self.turn.source.exact {
                    Some(self.turn.rest)
                } else {
                    None
                }
            }
        }
    }

    /// Passes over all further moves of the man that moved last, as if each was handed out: the squares
    /// are those that `rest_of_man` answered.
    #[inline(always)]
    #[tactic(auto, unfolding(crate::specs::Left::IsReady))]
    pub fn skip_rest(&mut self, rest: SquareSet)
        requires { IsRest self.old.position self.old.last rest }
        ensures position { self.new.position ≡ self.old.position }
        ensures some { (s : ℕ) → IsLastIn rest s
            → self.new ≡ record self.old { last = to_square self.old.last s } }
        ensures none { HasNoneFrom rest 0 → self.new ≡ self.old }
    {
        match self.turn.last {
            None => {}
            Some(last) => match rest.last() {
                None => {}
                Some(to) => {
                    self.turn.last = Some(Move {
                        from: last.from,
                        to,
                        promotion: None,
                    });
                    self.turn.rest = SquareSet::empty();
                }
            },
        }
    }

    // Hands out a further move of the man that moved last.
    #[inline(always)]
    #[tactic(auto, unfolding(crate::specs::Left::IsReady))]
    fn go_on(&mut self, m: &Move)
        requires { IsNextOfMan self.old.position self.old.last m.now }
        ensures { self.new ≡ record self.old { last = Some m.now } }
    {
        // A fact for the proof: the square is on the board.
        m.to.index();
        self.turn.last = Some(*m);
        self.turn.rest = past(self.turn.rest, m.to);
    }

    /// The next legal move.
    #[inline(always)]
    pub fn next(&mut self) -> Option<Move>
        ensures answer { MatchOption result
            (IsLast self.old.position self.old.last)
            (λ m. IsNext self.old.position self.old.last m) }
        ensures some { IfSome result (λ m. self.new ≡ record self.old { last = Some m }) }
        ensures none { IfNone result (self.new ≡ self.old) }
    {
        match self.next_of_man() {
            Some(m) => {
                self.go_on(&m);
                Some(m)
            }
            None => self.next_kept(),
        }
    }
}
