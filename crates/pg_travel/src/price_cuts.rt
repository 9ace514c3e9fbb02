//! The test of price lists.
ghost use Rattle.std.specs.Prelude.{◌≡◌, ◌≤◌, ◌↔◌, IsTrue, true, cond, Some};
ghost use Rattle.pg_position.specs.Game.{Barren};
ghost use Rattle.pg_position.specs.Position.{holds};
ghost use Rattle.pg_captures.specs.PriceLists.{list_of};
ghost use Rattle.pg_price_lists.specs.PriceRecords.{list_at};
ghost use Rattle.pg_travel.specs.TravelPrices.{WayPricesExclude, TravelPricesExclude};
ghost use Rattle.pg_travel.specs.inner.PriceTests.{EachExcludes};

use crate::castling::charge;
use crate::rows::Rows;
use crate::sources::fit_by;
use pg_board::Color;
use pg_captures::{all_men, plies_left, price_sum};
use pg_fen::Diagram;
use pg_position::{Position, Wing};
use pg_price_lists::Prices;

// Whether the list of a way excludes it.
fn way_excludes(
    rows: &Rows,
    position: &Position,
    left: u8,
    color: Color,
    way: Option<Wing>,
    u: &[u8],
    v: &[u8],
) -> bool
    ensures { IsTrue result ↔ WayPricesExclude rows.now position.now left color way (list_of u.now v.now) }
{
    let board = position.board();
    if u.len() != all_men(&board, color) as usize {
        return false;
    }
    if v.len() != rows.men(color) as usize {
        return false;
    }
    let plies = u16::from(plies_left(position.side(), color, left));
    if price_sum(v) + charge(way) <= plies + price_sum(u) {
        return false;
    }
    fit_by(rows, &board, color, way, u, v)
}

// Whether castling by a right is excluded as a way of the colour to the diagram: it may not castle to that wing any
// more, or list `i` shows that its men need more plies than it has left even where king and rook castle so.
fn castled_excludes(
    rows: &Rows,
    position: &Position,
    left: u8,
    color: Color,
    right: Wing,
    prices: &Prices,
    i: usize,
) -> bool
    ensures { IsTrue result ↔ (holds position.now.rights color right ≡ true
        → WayPricesExclude rows.now position.now left color (Some right) (list_at prices.now i)) }
{
    if position.rights().holds(color, right) {
        way_excludes(
            rows,
            position,
            left,
            color,
            Some(right),
            prices.u(i),
            prices.v(i),
        )
    } else {
        true
    }
}

// How many ways there are by a right: one where it is held.
fn ways_by(position: &Position, color: Color, right: Wing) -> usize
    ensures value { result ≡ cond (holds position.now.rights color right) 1 0 }
    ensures low { result ≤ 1 }
{
    if position.rights().holds(color, right) {
        1
    } else {
        0
    }
}

// Whether there is one list for each way, and it excludes that.
fn excluded(rows: &Rows, position: &Position, left: u8, color: Color, prices: &Prices) -> bool
    ensures { IsTrue result ↔ EachExcludes rows.now position.now left color prices.now }
{
    let short = ways_by(position, color, Wing::KingSide);
    let long = ways_by(position, color, Wing::QueenSide);
    let next = 1 + short;
    prices.ways() == next + long
        && way_excludes(rows, position, left, color, None, prices.u(0), prices.v(0))
        && castled_excludes(rows, position, left, color, Wing::KingSide, prices, 1)
        && castled_excludes(rows, position, left, color, Wing::QueenSide, prices, next)
}

/// Whether price lists exclude every game of `left` plies from the position to the diagram. There is
/// one list for each way of the colour: no castling, castling king side, castling queen side, in this
/// order, the castling ways where the right is held. A list has a number for each man of the colour in
/// the position, its source, and for each in the diagram, its target, in order of their squares. In
/// each way every target pays no more than any source that has a distance to it, and that distance;
/// and what the targets pay less what the sources pay, plus 1 with castling, is above the colour's
/// plies left. False for any other lists. It makes the rows of the diagram for this one answer.
pub fn prices_exclude(
    diagram: &Diagram,
    position: &Position,
    left: u8,
    color: Color,
    prices: &Prices,
) -> bool
    ensures exact { IsTrue result ↔ TravelPricesExclude diagram.now position.now left color prices.now }
    ensures barren { IsTrue result → Barren diagram.now position.now left }
{
    // A fact for the proof: what is handed in is a position.
    position.side();
    let rows = Rows::new(diagram);
    excluded(&rows, position, left, color, prices)
}

/// The same answer, by rows of distances where they are those of the diagram: for a diagram that is asked
/// about often.
pub fn prices_exclude_by(
    rows: &Rows,
    diagram: &Diagram,
    position: &Position,
    left: u8,
    color: Color,
    prices: &Prices,
) -> bool
    ensures exact { IsTrue result ↔ TravelPricesExclude diagram.now position.now left color prices.now }
    ensures barren { IsTrue result → Barren diagram.now position.now left }
{
    if rows.is_of(diagram) {
        // A fact for the proof: what is handed in is a position.
        position.side();
        excluded(rows, position, left, color, prices)
    } else {
        prices_exclude(diagram, position, left, color, prices)
    }
}
