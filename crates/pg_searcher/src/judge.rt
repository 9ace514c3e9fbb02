//! Which cut excludes a node, by what is remembered of the men and rights of either colour.
ghost use Rattle.std.specs.Prelude.{◌≡◌, IfSome, MatchOption, false};
ghost use Rattle.std.specs.Option.{option_map};
ghost use Rattle.pg_captures.specs.Lists.{first_of};

use crate::known::{Known, MISSING, after_plain};
use crate::outlook::Outlook;
use crate::sides::{Change, Changes, Side, Sides, side_of};
use pg_board::Color;
use pg_captures::{Bound, Captures, Promotions, plies_left};
use pg_fen::Diagram;
use pg_journeys::Journeys;
use pg_pawns::PawnFiles;
use pg_position::Position;
use pg_prices::{NEVER, Needs, Rows, UNKNOWN};
use pg_travel::{Prices, Travel};
use std::alloc::{AllocError, Global};

// What judges nodes by their cuts for a diagram.
#[derive(Drop)]
pub(crate) struct Judge {
    white: Known,
    black: Known,
}

// The bound that excludes a node.
#[derive(Clone, Copy, Debug, PartialEq, Eq)]
pub(crate) enum CutBy {
    Captures,
    Promotions,
    PawnFiles,
    Travel,
    Journeys,
}

impl CutBy {
    // The code by which a certificate names the bound.
    pub(crate) fn code(self) -> u8 {
        match self {
            CutBy::Captures => Captures::CODE,
            CutBy::Promotions => Promotions::CODE,
            CutBy::PawnFiles => PawnFiles::CODE,
            CutBy::Travel => Travel::CODE,
            CutBy::Journeys => Journeys::CODE,
        }
    }
}

// What becomes of a node: a bound excludes it, or prices of one colour's pawns or of one colour's
// travel do, or none does; or that is not known.
#[derive(Clone, Copy, Debug, PartialEq, Eq)]
pub(crate) enum Cutting {
    Cut(CutBy),
    Pawns(Color),
    Travel(Color),
    Stays,
    Unknown,
}

// One colour's numbers at a node: how many captures it owes, and how many plies it has left.
#[derive(Clone, Copy)]
pub(crate) struct Means {
    pub(crate) owed: i16,
    pub(crate) plies: u8,
}

// What judges the plain moves of a colour at a node that no cut excludes: the colour, its numbers after such a move,
// and whether captures exclude then.
#[derive(Clone, Copy)]
pub(crate) struct PlainTest {
    color: Color,
    means: Means,
    cut_by_captures: bool,
}

// Both colours, from a colour and the other one.
fn sides_by(color: Color, own: Side, other: Side) -> Sides {
    match color {
        Color::White => Sides {
            white: own,
            black: other,
        },
        Color::Black => Sides {
            white: other,
            black: own,
        },
    }
}

/// Both colours of a position. What they need is missing.
pub fn sides_of(position: &Position) -> Sides {
    let board = position.board();
    let rights = position.rights();
    Sides {
        white: side_of(&board, rights, Color::White, MISSING),
        black: side_of(&board, rights, Color::Black, MISSING),
    }
}

// Whether the captures that a colour owes are fewer than none or more than its plies.
fn captures_exclude(means: Means) -> bool {
    means.owed < 0 || means.owed > i16::from(means.plies)
}

// The bound of promotions, pawn files or travel that excludes for a colour.
fn bound_for(means: Means, needs: &Needs) -> Option<CutBy> {
    if needs.need == NEVER {
        Some(CutBy::Promotions)
    } else if i16::from(needs.shift) > means.owed {
        Some(CutBy::PawnFiles)
    } else if needs.need > means.plies {
        Some(CutBy::Travel)
    } else {
        None
    }
}

// Of the colours for which prices exclude, the one with the fewer bytes.
fn shorter(white: Option<u16>, black: Option<u16>) -> Option<Color> {
    match white {
        None => match black {
            None => None,
            Some(_) => Some(Color::Black),
        },
        Some(length) => match black {
            Some(other) if other < length => Some(Color::Black),
            _ => Some(Color::White),
        },
    }
}

// How many price bytes a cut by pawn files has, where the prices exclude: one for each pawn of the side, and of the
// diagram, which has `goal`.
fn pawn_length(means: Means, side: &Side, goal: u8) -> Option<u16> {
    if i16::from(side.needs.pawns) > means.owed {
        Some(u16::from(side.pawns) + u16::from(goal))
    } else {
        None
    }
}

// How many price bytes a cut by travel has, where the prices exclude: for each way one for each man of the side, and
// of the diagram, which has `goal`.
fn travel_length(means: Means, side: &Side, goal: u8) -> Option<u16> {
    if side.needs.travel > means.plies {
        let men = u16::from(side.men) + u16::from(goal);
        Some(men.saturating_mul(u16::from(side.ways)))
    } else {
        None
    }
}

// Whether a bound excludes for a colour, or its prices do, where they are known.
fn excludes(means: Means, needs: &Needs) -> bool {
    if bound_for(means, needs).is_some() {
        return true;
    }
    needs.travel != UNKNOWN && (i16::from(needs.pawns) > means.owed || needs.travel > means.plies)
}

// The bound by journeys, as a search asks it of the way to a diagram.
#[derive(Clone, Copy)]
pub(crate) struct Asked<'a> {
    diagram: &'a Diagram,
    bound: &'a Box<dyn Bound>,
}

impl<'a> Asked<'a> {
    // A bound that is asked of the way to a diagram.
    pub(crate) fn of(diagram: &'a Diagram, bound: &'a Box<dyn Bound>) -> Asked<'a> {
        Asked { diagram, bound }
    }

    // Whether it excludes a node with `left` plies left. It stands out of line: where it is not asked, nothing is to
    // make room for what it needs.
    #[inline(never)]
    fn exclude(&self, position: &Position, left: u8) -> bool
        ensures { result ≡ excluded self.now.bound.now self.now.diagram.now position.now left }
    {
        self.bound.excludes(self.diagram, position, left)
    }
}

// The code by which a certificate names a bound.
fn code_of_box(bound: &Box<dyn Bound>) -> u8
    ensures { result ≡ code_of bound.now }
{
    bound.code()
}

// The first of these bounds that has the code of journeys, if there is one.
pub(crate) fn journeys_among<'a>(
    diagram: &'a Diagram,
    bounds: &'a [Box<dyn Bound>],
) -> Option<Asked<'a>>
    ensures first { option_map (λ asked. asked.bound.now) result ≡ first_of (λ b. code_of b) 5 bounds.now }
    ensures same { IfSome result (λ asked. asked.diagram.now ≡ diagram.now) }
{
    for bound in bounds {
        if code_of_box(bound) == Journeys::CODE {
            return Some(Asked { diagram, bound });
        }
    }
    None
}

// Whether journeys, where they are asked, exclude a node with `left` plies left. Where they are not, that is but one
// branch.
#[inline(always)]
pub(crate) fn is_cut_by_journeys(asked: Option<Asked<'_>>, position: &Position, left: u8) -> bool
    ensures { MatchOption asked.entry (result ≡ false)
        (λ asked. result ≡ excluded asked.bound.now asked.diagram.now position.now left) }
{
    match asked {
        Some(asked) => asked.exclude(position, left),
        None => false,
    }
}

impl Judge {
    // What judges nodes by their cuts for a diagram.
    pub(crate) fn new(alloc: Global, diagram: &Diagram) -> Result<Judge, AllocError> {
        Ok(Judge {
            white: Known::new(alloc, Color::White, diagram)?,
            black: Known::new(alloc, Color::Black, diagram)?,
        })
    }

    // The distances of a colour's men.
    pub(crate) fn rows(&self, color: Color) -> &Rows {
        &self.known(color).rows
    }

    // What is known of a colour.
    fn known(&self, color: Color) -> &Known {
        match color {
            Color::White => &self.white,
            Color::Black => &self.black,
        }
    }

    // A colour's numbers where the other one has `other_men` men.
    fn means(&self, color: Color, other_men: u8, side: Color, left: u8) -> Means {
        let goal = self.known(color.other()).goal_men;
        Means {
            owed: i16::from(other_men) - i16::from(goal),
            plies: plies_left(side, color, left),
        }
    }

    // What becomes of a node with this side to move and `left` plies left.
    fn verdict(&self, sides: &Sides, side: Color, left: u8) -> Cutting {
        let white = self.means(Color::White, sides.black.men, side, left);
        let black = self.means(Color::Black, sides.white.men, side, left);
        if captures_exclude(white) || captures_exclude(black) {
            return Cutting::Cut(CutBy::Captures);
        }
        if let Some(bound) = bound_for(white, &sides.white.needs) {
            return Cutting::Cut(bound);
        }
        if let Some(bound) = bound_for(black, &sides.black.needs) {
            return Cutting::Cut(bound);
        }
        if sides.white.needs.travel == UNKNOWN || sides.black.needs.travel == UNKNOWN {
            return Cutting::Unknown;
        }
        self.priced(sides, white, black)
    }

    // Whether prices exclude a node.
    fn priced(&self, sides: &Sides, white: Means, black: Means) -> Cutting {
        let pawns = shorter(
            pawn_length(white, &sides.white, self.white.goal_pawns),
            pawn_length(black, &sides.black, self.black.goal_pawns),
        );
        if let Some(color) = pawns {
            return Cutting::Pawns(color);
        }
        let travel = shorter(
            travel_length(white, &sides.white, self.white.goal_men),
            travel_length(black, &sides.black, self.black.goal_men),
        );
        match travel {
            Some(color) => Cutting::Travel(color),
            None => Cutting::Stays,
        }
    }

    // A colour after a move, with its needs where they are known.
    fn after(&self, color: Color, side: &Side, change: &Change) -> Side {
        let needs = match self.known(color).get(change.key_after(side)) {
            Some(needs) => needs,
            None => MISSING,
        };
        change.applied(side, needs)
    }

    // What becomes of a node after a move of a colour, by what is known. Both colours are those there from now on,
    // where captures do not exclude.
    pub(crate) fn quick(
        &self,
        color: Color,
        sides: &mut Sides,
        changes: &Changes,
        left: u8,
    ) -> Cutting {
        let (own, other) = (sides.of(color), sides.of(color.other()));
        let other_men = match &changes.other {
            Some(change) => change.men_after(other),
            None => other.men,
        };
        if captures_exclude(self.means(color, other_men, color.other(), left)) {
            return Cutting::Cut(CutBy::Captures);
        }
        let own = self.after(color, own, &changes.own);
        let other = match &changes.other {
            Some(change) => self.after(color.other(), other, change),
            None => *other,
        };
        *sides = sides_by(color, own, other);
        if own.needs.need == UNKNOWN || other.needs.need == UNKNOWN {
            return Cutting::Unknown;
        }
        self.verdict(sides, color.other(), left)
    }

    // What judges the plain moves of a colour at a node, after which `left` plies are left.
    pub(crate) fn plain_test(&self, color: Color, sides: &Sides, left: u8) -> PlainTest {
        let other = color.other();
        let means = self.means(color, sides.of(other).men, other, left);
        PlainTest {
            color,
            means,
            cut_by_captures: captures_exclude(means),
        }
    }

    // What a colour needs after a plain move to men and rights with this key, by what is known; none where a cut
    // excludes. That is what `quick` judges: the other colour has the men and the plies that it had before the move,
    // when no cut excluded it.
    #[inline(always)]
    pub(crate) fn needs_after(&self, test: &PlainTest, key: u64) -> Option<Needs> {
        if test.cut_by_captures {
            return None;
        }
        let Some(needs) = self.known(test.color).get(key) else {
            return Some(MISSING);
        };
        if needs.need != UNKNOWN && excludes(test.means, &needs) {
            return None;
        }
        Some(needs)
    }

    // What becomes of a node after a plain move of a colour that no bound excludes, after which it has this need
    // of travel and these numbers. The other colour is as before the move, when no cut excluded it; what is known of
    // this one is that after the move from now on.
    pub(crate) fn after_plain(
        &self,
        color: Color,
        sides: &mut Sides,
        change: &Change,
        need: u8,
        means: Means,
    ) -> Cutting {
        let known = self.known(color);
        let before = sides.of(color);
        let needs = match known.get(change.key_after(before)) {
            Some(needs) => needs,
            None => after_plain(&before.needs, need),
        };
        let own = change.applied(before, needs);
        sides.set(color, own);
        if needs.travel == UNKNOWN {
            Cutting::Unknown
        } else if i16::from(needs.pawns) > means.owed {
            Cutting::Pawns(color)
        } else if needs.travel > means.plies {
            Cutting::Travel(color)
        } else {
            Cutting::Stays
        }
    }

    // What is known of a node that opens with `left` plies left.
    pub(crate) fn outlook(&self, position: &Position, sides: &Sides, left: u8) -> Outlook {
        let left = left.saturating_sub(1);
        if left < 2 {
            return Outlook::of(sides, left);
        }
        let color = position.side();
        let other = color.other();
        let means = self.means(color, sides.of(other).men, other, left);
        if captures_exclude(means) {
            return Outlook::owing(sides, left, position, means);
        }
        Outlook::new(sides, left, self.rows(color), position, means)
    }

    // What becomes of a node of which so much is known, with `left` plies left, and both its colours.
    pub(crate) fn enter(
        &mut self,
        diagram: &Diagram,
        position: &Position,
        known: Option<Sides>,
        left: u8,
    ) -> Result<(Cutting, Sides), AllocError> {
        let mut sides = match known {
            Some(sides) => sides,
            None => sides_of(position),
        };
        self.fill(diagram, position, &mut sides)?;
        let verdict = self.judged(position, &mut sides, left)?;
        Ok((verdict, sides))
    }

    // Finds the needs by bounds that are missing.
    fn fill(
        &mut self,
        diagram: &Diagram,
        position: &Position,
        sides: &mut Sides,
    ) -> Result<(), AllocError> {
        if sides.white.needs.need == UNKNOWN {
            sides.white.needs = self.white.needs(diagram, position, sides.white.key)?;
        }
        if sides.black.needs.need == UNKNOWN {
            sides.black.needs = self.black.needs(diagram, position, sides.black.key)?;
        }
        Ok(())
    }

    // What becomes of a node with `left` plies left. Its colours' needs are complete afterwards, where
    // no bound excludes it.
    fn judged(
        &mut self,
        position: &Position,
        sides: &mut Sides,
        left: u8,
    ) -> Result<Cutting, AllocError> {
        let side = position.side();
        let verdict = self.verdict(sides, side, left);
        if verdict != Cutting::Unknown {
            return Ok(verdict);
        }
        let (white, black) = (sides.white, sides.black);
        let plies = plies_left(side, Color::White, left);
        sides.white.needs = self
            .white
            .complete(position, white.key, white.needs, plies)?;
        let plies = plies_left(side, Color::Black, left);
        sides.black.needs = self
            .black
            .complete(position, black.key, black.needs, plies)?;
        Ok(self.verdict(sides, side, left))
    }

    // The price lists of travel of a colour that are kept.
    pub(crate) fn kept_prices(&self, color: Color, key: u64) -> Option<Prices> {
        self.known(color).kept_prices(key)
    }

    // The price list of a colour's pawns.
    pub(crate) fn pawn_prices(
        &mut self,
        color: Color,
        position: &Position,
    ) -> Result<Option<Prices>, AllocError> {
        match color {
            Color::White => self.white.pawn_prices(position),
            Color::Black => self.black.pawn_prices(position),
        }
    }

    // The price lists of a colour's travel.
    pub(crate) fn travel_prices(
        &mut self,
        color: Color,
        position: &Position,
        side: &Side,
    ) -> Result<Option<Prices>, AllocError> {
        match color {
            Color::White => self.white.travel_prices(position, side.key, side.needs),
            Color::Black => self.black.travel_prices(position, side.key, side.needs),
        }
    }
}
