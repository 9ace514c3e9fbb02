//! Diagrams.
ghost use Rattle.std.specs.Prelude.{◌≡◌, ◌↔◌, IsTrue, IfOk, Ok, Some};
ghost use Rattle.std.specs.Cmp.{partial_equiv_from_equiv, decided};
ghost use Rattle.pg_board.specs.Placement.{Placement};
ghost use Rattle.pg_board.specs.Equality.{placement_eq, placement_eq_decides};
ghost use Rattle.pg_fen.specs.Fields.{fields};
ghost use Rattle.pg_fen.specs.PlacementText.{placement_text};
ghost use Rattle.pg_fen.specs.Packing.{packed_of};
ghost use Rattle.pg_fen.specs.DiagramText.{IsDiagram, diagram_of};

use crate::details::details_of;
use crate::fault::FenFault;
use crate::fields::fields_of;
use crate::packing::{packed_of, unpacked};
use crate::placement::{is_diagram, read_placement};
use crate::writing::put_placement;
use arrayvec::ArrayString;
use pg_board::Board;
use pg_position::Position;
use std::marker::Model;

/// A board with one king of each colour and no pawn on rank 1 or 8: what a chess problem shows.
/// Contracts see it as its placement. It says nothing of the side to move, of castling rights or of
/// a passed square.
#[derive(Clone, Copy, Debug)]
pub struct Diagram {
    board: Board,
}

impl Model for Diagram {
    ghost use Rattle.pg_board.specs.Placement.{Placement};
    ghost use Rattle.pg_board.specs.lemmas.Codes.{placement_code};
    ghost use Rattle.pg_fen.specs.DiagramText.{IsDiagram};

    ghost Value = { Placement };

    ghost coded = { placement_code };

    ghost view = { λ d. d.board };

    ghost invariant = { λ d. IsDiagram d.board };

    ghost inverse = { λ b. record { board = b } };
}

// The board of a diagram that a text spells, or the first fault.
#[tactic(auto, unfolding(crate::specs::DiagramText::diagram_of))]
fn read_board(text: &[u8]) -> Result<Board, FenFault>
    ensures { result ≡ diagram_of (fields text.now) }
{
    let Some(fields) = fields_of(text) else {
        return Err(FenFault::Fields);
    };
    let board = match read_placement(fields.placement) {
        Ok(board) => board,
        Err(fault) => return Err(fault),
    };
    if let Some(details) = fields.details {
        if let Err(fault) = details_of(&details) {
            return Err(fault);
        }
    }
    Ok(board)
}

impl Diagram {
    /// The diagram that a text spells in Forsyth-Edwards notation (the PGN standard, section 16.1).
    /// The text has one field, the placement, or the six fields of a position; fields are separated
    /// by runs of spaces, tabs, carriage returns and line feeds. Of six fields the last five must be
    /// well formed, and are not used.
    ///
    /// # Errors
    /// The first fault of the whole text, in the order of `FenFault`, which says when each comes.
    pub fn read(text: &str) -> Result<Diagram, FenFault>
        ensures value { result ≡ diagram_of (fields text.now) }
        ensures diagram { IfOk result IsDiagram }
    {
        match read_board(text.as_bytes()) {
            Ok(board) => Ok(Diagram { board }),
            Err(fault) => Err(fault),
        }
    }

    /// The placement as text: ranks from 8 to 1 with a slash between two of them, men as letters and
    /// runs of empty squares as one digit. It reads as this diagram, and no other placement is
    /// written so.
    pub fn write(&self) -> ArrayString<71>
        ensures text { result.bytes ≡ placement_text self.now }
        ensures read_again { diagram_of (fields result.bytes) ≡ Ok self.now }
        ensures alone { (other : Placement) → placement_text other ≡ result.bytes → other ≡ self.now }
    {
        let mut text = ArrayString::new();
        put_placement(&mut text, &self.board);
        text
    }

    /// The placement as 32 bytes: byte j holds square 2 * j in its low half and square 2 * j + 1 in
    /// its high half. 0 is an empty square, 1 to 6 are White's pawn, knight, bishop, rook, queen and
    /// king, 9 to 14 are Black's. Other diagrams have other bytes.
    pub fn packed(&self) -> [u8; 32]
        ensures bytes { result ≡ packed_of self.now }
        ensures alone { (other : Placement) → packed_of other ≡ result → other ≡ self.now }
    {
        packed_of(&self.board)
    }

    /// The diagram with these 32 bytes, which are as `packed` gives them; none where no diagram has them.
    pub fn from_packed(bytes: &[u8; 32]) -> Option<Diagram>
        ensures { (d : Placement) → (result ≡ Some d) ↔ (IsDiagram d × (packed_of d ≡ bytes.now)) }
    {
        let board = unpacked(bytes)?;
        if is_diagram(&board) {
            Some(Diagram { board })
        } else {
            None
        }
    }

    /// The diagram of a position: its placement alone.
    pub fn of(position: &Position) -> Diagram
        ensures { result ≡ position.now.board }
    {
        Diagram {
            board: position.board(),
        }
    }

    /// Whether the position has this placement. Its side to move, rights and passed square do not
    /// matter.
    pub fn matches(&self, position: &Position) -> bool
        ensures { IsTrue result ↔ (position.now.board ≡ self.now) }
    {
        position.board() == self.board
    }

    /// The board.
    pub fn board(&self) -> Board
        ensures value { result ≡ self.now }
        ensures diagram { IsDiagram self.now }
    {
        self.board
    }
}

/// Two diagrams are equal where they have the same man on each square.
impl PartialEq for Diagram {
    ghost eq = { placement_eq };

    ghost laws = { partial_equiv_from_equiv (decided placement_eq placement_eq_decides) };

    fn eq(&self, other: &Diagram) -> bool
        ensures value { result ≡ placement_eq self.now other.now }
        ensures same { IsTrue result ↔ (self.now ≡ other.now) }
    {
        let (mine, theirs) = (self.board, other.board);
        mine == theirs
    }
}

impl Eq for Diagram {
    ghost laws = { decided placement_eq placement_eq_decides };
}
