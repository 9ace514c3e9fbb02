//! What a colour needs at least to come from the initial array to a diagram, and what shows it.
ghost use Rattle.std.specs.Prelude.{◌≡◌, ◌↔◌, IsTrue, IsSome, IfSome, IfNone};
ghost use Rattle.pg_captures.specs.Owed.{CapturesFor, PromotionsFor};
ghost use Rattle.pg_pawns.specs.PawnFiles.{PawnFilesFor};
ghost use Rattle.pg_position.specs.Array.{array_state};
ghost use Rattle.pg_position.specs.Game.{Barren};
ghost use Rattle.pg_board.specs.declared.man.Color.TheVariants.{White};
ghost use Rattle.pg_travel.specs.Needs.{TravelTest};
ghost use Rattle.pg_report.specs.Sides.{Binds, IsOpenFor, IsSideNeed};

use crate::lengths::{Offers, pawns_exclude, travel_excludes};
use pg_board::Color;
use pg_captures::{is_short, owed, plies_left};
use pg_fen::Diagram;
use pg_pawns::shift_need;
use pg_position::Position;
use pg_travel::need;

// What shows that a colour needs some plies of its own: the men that it has to capture; the pieces that its pawns
// have to become, and the files that they have to change, which no number of plies is enough for; the moves of the
// nearest men, and those of its men pair by pair.
#[derive(Clone, Copy, Debug, PartialEq, Eq)]
pub(crate) enum Reason {
    Captures,
    Promotions,
    PawnFiles,
    Travel,
    Pairs,
}

// What a colour needs: how many plies of its own, none where more than 64; and why not one fewer.
#[derive(Clone, Copy)]
pub(crate) struct Need {
    pub(crate) plies: Option<u8>,
    pub(crate) reason: Option<Reason>,
}

// Whether what a colour has to capture excludes games of `plies` plies.
fn captures_exclude(diagram: &Diagram, plies: u8, color: Color) -> bool
    ensures { IsTrue result ↔ CapturesFor diagram.now array_state.board White plies color }
{
    let owed = owed(color, diagram, &Position::array());
    owed < 0 || i16::from(plies_left(Color::White, color, plies)) < owed
}

// Whether a colour has fewer pawns than pieces to make of them and pawns to keep.
fn promotions_exclude(diagram: &Diagram, color: Color) -> bool
    ensures { IsTrue result ↔ PromotionsFor diagram.now array_state.board color }
{
    is_short(&diagram.board(), &Position::array().board(), color)
}

// Whether a colour has fewer men to capture than its pawns have to change files, by lines between files.
fn files_exclude(diagram: &Diagram, color: Color) -> bool
    ensures { IsTrue result ↔ PawnFilesFor diagram.now array_state.board color }
{
    let array = Position::array();
    i32::from(owed(color, diagram, &array)) < i32::from(shift_need(color, diagram, &array))
}

// Whether the moves of a colour's nearest men exclude games of `plies` plies.
fn needs_exclude(diagram: &Diagram, plies: u8, color: Color) -> bool
    ensures { IsTrue result ↔ TravelTest diagram.now array_state plies color }
{
    match need(color, diagram, &Position::array()) {
        None => true,
        Some(need) => u16::from(plies_left(Color::White, color, plies)) < need,
    }
}

// The first reason why no game of `plies` plies from the array ends on the diagram, on account of one colour.
fn reason_of(diagram: &Diagram, plies: u8, offers: &Offers) -> Option<Reason>
    ensures binds { IfSome result (λ reason. Binds diagram.now plies offers.now.color reason) }
    ensures is_open { IfNone result (IsOpenFor diagram.now plies offers.now.color) }
{
    if captures_exclude(diagram, plies, offers.color) {
        Some(Reason::Captures)
    } else if promotions_exclude(diagram, offers.color) {
        Some(Reason::Promotions)
    } else if files_exclude(diagram, offers.color) {
        Some(Reason::PawnFiles)
    } else if needs_exclude(diagram, plies, offers.color) {
        Some(Reason::Travel)
    } else if pawns_exclude(diagram, plies, offers.color, &offers.pawns) {
        Some(Reason::PawnFiles)
    } else if travel_excludes(diagram, plies, offers) {
        Some(Reason::Pairs)
    } else {
        None
    }
}

// What a colour needs: the first number of plies from 0 on for which there is no reason against it.
pub(crate) fn need_of(diagram: &Diagram, offers: &Offers) -> Need
    ensures { IsSideNeed diagram.now offers.now.color result.plies result.reason }
{
    let mut reason = None;
    for plies in 0..129u8 {
        match reason_of(diagram, plies, offers) {
            Some(found) => reason = Some(found),
            None => {
                return Need {
                    plies: Some(plies_left(Color::White, offers.color, plies)),
                    reason,
                };
            }
        }
    }
    Need {
        plies: None,
        reason,
    }
}
