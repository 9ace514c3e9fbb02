//! The least length that neither a bound nor prices exclude.
ghost use Rattle.std.specs.Prelude.{◌≡◌, IsTrue, IfOk, false};
ghost use Rattle.std.specs.List.{list_any};
ghost use Rattle.pg_position.specs.Array.{array_state};
ghost use Rattle.pg_position.specs.Game.{Barren};
ghost use Rattle.pg_report.specs.Shortest.{ArePriced, HasPawnPrices, HasTravelPrices, IsExcluded, IsLeastLength};
ghost use Rattle.pg_report.specs.Shortest.{NoneBelow};

use pg_board::Color;
use pg_captures::{Bound, ask};
use pg_fen::{Diagram, Length};
use pg_position::Position;
use pg_prices::{Lists, Rows, pawn_lists, prices_of, travel_lists};
use pg_travel::prices_exclude_by;
use std::alloc::{AllocError, Global};

// Prices of a colour at the initial array, of its travel and of its pawns, which are trusted for nothing; and the rows
// of the diagram, by which those of travel are tested.
#[derive(Clone, Copy)]
pub(crate) struct Offers<'a> {
    pub(crate) color: Color,
    pub(crate) travel: Lists,
    pub(crate) pawns: Lists,
    pub(crate) tested_by: &'a pg_travel::Rows,
}

// The prices that least assignments give.
pub(crate) fn offers_of<'a>(
    alloc: Global,
    color: Color,
    diagram: &Diagram,
    tested_by: &'a pg_travel::Rows,
) -> Result<Offers<'a>, AllocError>
    ensures { IfOk result (λ offers. offers.color ≡ color) }
{
    let rows = Rows::new(alloc, color, diagram)?;
    let array = Position::array();
    let (_, travel) = travel_lists(&rows, &array);
    let (_, pawns) = pawn_lists(&rows, &array);
    Ok(Offers {
        color,
        travel,
        pawns,
        tested_by,
    })
}

// Whether prices of a colour's travel exclude the games of `plies` plies.
pub(crate) fn travel_excludes(diagram: &Diagram, plies: u8, offers: &Offers) -> bool
    ensures priced { IsTrue result → HasTravelPrices diagram.now plies offers.now.color }
    ensures barren { IsTrue result → Barren diagram.now array_state plies }
{
    match prices_of(offers.travel.as_slice()) {
        None => false,
        Some(prices) => prices_exclude_by(
            offers.tested_by,
            diagram,
            &Position::array(),
            plies,
            offers.color,
            &prices,
        ),
    }
}

// Whether prices of a colour's pawns exclude the games of `plies` plies, as they do of any number.
pub(crate) fn pawns_exclude(diagram: &Diagram, plies: u8, color: Color, lists: &Lists) -> bool
    ensures priced { IsTrue result → HasPawnPrices diagram.now color }
    ensures barren { IsTrue result → Barren diagram.now array_state plies }
{
    match prices_of(lists.as_slice()) {
        None => false,
        Some(prices) => {
            let (u, v) = (prices.u(0), prices.v(0));
            pg_pawns::prices_exclude(diagram, &Position::array(), color, u, v)
        }
    }
}

// Whether prices of a colour exclude the games of `plies` plies.
fn offers_exclude(diagram: &Diagram, plies: u8, offers: &Offers) -> bool
    ensures priced { IsTrue result → ArePriced diagram.now plies }
    ensures barren { IsTrue result → Barren diagram.now array_state plies }
{
    travel_excludes(diagram, plies, offers)
        || pawns_exclude(diagram, plies, offers.color, &offers.pawns)
}

// Whether some bound of the list excludes every game of `plies` plies to the diagram.
fn any_excludes(bounds: &[Box<dyn Bound>], diagram: &Diagram, plies: u8) -> bool
    ensures value { result ≡ list_any (λ b. excluded b diagram.now array_state plies) bounds.now }
    ensures barren { IsTrue result → Barren diagram.now array_state plies }
{
    let array = Position::array();
    for bound in bounds {
        if ask(bound, diagram, &array, plies) {
            return true;
        }
    }
    false
}

// Whether prices exclude the games of `plies` plies, or a bound does. Bounds are asked last, since one may be dear.
fn is_excluded(
    bounds: &[Box<dyn Bound>],
    diagram: &Diagram,
    plies: u8,
    white: &Offers,
    black: &Offers,
) -> bool
    ensures yes { IsTrue result → IsExcluded (λ m. list_any (λ b. excluded b diagram.now array_state m) bounds.now)
        diagram.now plies }
    ensures no { result ≡ false → list_any (λ b. excluded b diagram.now array_state plies) bounds.now ≡ false }
    ensures barren { IsTrue result → Barren diagram.now array_state plies }
{
    offers_exclude(diagram, plies, white)
        || offers_exclude(diagram, plies, black)
        || any_excludes(bounds, diagram, plies)
}

// The least number of plies that is not excluded.
pub(crate) fn first_open(
    bounds: &[Box<dyn Bound>],
    diagram: &Diagram,
    white: &Offers,
    black: &Offers,
) -> Option<Length>
    ensures headline { NoneBelow diagram.now result }
    ensures least { IsLeastLength (λ m. list_any (λ b. excluded b diagram.now array_state m) bounds.now) diagram.now
        result }
{
    for plies in 0..129u8 {
        if !is_excluded(bounds, diagram, plies, white, black) {
            return Length::from_plies(plies);
        }
    }
    None
}

/// The least number of plies such that neither a bound of the list nor prices exclude the games of that many plies from
/// the initial array to the diagram; none where all lengths up to 128 plies are excluded. So no game of fewer plies
/// ends on the diagram, whatever bounds the list holds. The prices are those of least assignments, of either colour's
/// travel and pawns, each tested as a certificate's are. What finds them takes memory from `alloc`.
///
/// # Errors
/// `AllocError` where a growth was refused.
pub fn shortest(
    alloc: Global,
    diagram: &Diagram,
    bounds: &[Box<dyn Bound>],
) -> Result<Option<Length>, AllocError>
    ensures headline { IfOk result (NoneBelow diagram.now) }
    ensures least { IfOk result (IsLeastLength
        (λ m. list_any (λ b. excluded b diagram.now array_state m) bounds.now) diagram.now) }
{
    let rows = pg_travel::Rows::new(diagram);
    let white = offers_of(alloc, Color::White, diagram, &rows)?;
    let black = offers_of(alloc, Color::Black, diagram, &rows)?;
    Ok(first_open(bounds, diagram, &white, &black))
}
