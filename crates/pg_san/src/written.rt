//! Texts of moves that are known: games of one list come again and again to the same positions, and go on alike there.
ghost use Rattle.std.specs.Prelude.{◌≡◌, IsTrue, All, IfSome, true};
ghost use Rattle.pg_position.specs.Step.{Legal, IsLegal};
ghost use Rattle.pg_san.specs.Writing.{IsSan};
ghost use Rattle.pg_san.specs.KnownTexts.{IsWritten};

use crate::numbers::position_number;
use crate::writing::{San, write_with};
use pg_position::{Move, Position};

/// How many texts are kept at most: two at each place. They are few, since they stand in a frame of the stack.
pub const MOST_WRITTEN: usize = 64;

/// The text of a legal move of a position, and where the move leads; or nothing.
#[derive(Clone, Copy)]
pub struct Written {
    pub(crate) position: Position,
    pub(crate) next: Position,
    pub(crate) text: San,
    pub(crate) m: Move,
    pub(crate) told: bool,
}

/// What says nothing: what room for texts is filled with at first.
pub fn nothing_written() -> Written
    ensures { IsWritten result }
{
    Written {
        position: Position::array(),
        next: Position::array(),
        text: San::new(),
        m: Move::default(),
        told: false,
    }
}

// The first of the two places where the text of a move is kept, and no other is looked for: by the highest bits, in
// which all squares tell.
fn place_of(position: &Position, m: &Move) -> usize {
    let squares = u64::from(m.from.index()) * 64 + u64::from(m.to.index());
    let number = position_number(position) ^ squares.wrapping_mul(0xff51_afd7_ed55_8ccd);
    ((number >> 58) as usize % MOST_WRITTEN) & !1
}

// Whether it is the text of this move in this position.
fn is_text_of(written: &Written, position: &Position, m: &Move) -> bool
    ensures { IsTrue result → (written.now.told ≡ true) × (written.now.m ≡ m.now)
        × (written.now.position ≡ position.now) }
{
    written.told && written.m == *m && written.position == *position
}

// What is kept of this move in this position, at the place or beside it.
fn find<'a>(
    known: &'a [Written],
    place: usize,
    position: &Position,
    m: &Move,
) -> Option<&'a Written>
    requires { All IsWritten known.now }
    ensures { IfSome result (λ w. Legal position.now m.now w.now.next × IsSan position.now m.now w.now.text.bytes) }
{
    if place < known.len() && is_text_of(&known[place], position, m) {
        return Some(&known[place]);
    }
    let beside = place | 1;
    if beside < known.len() && is_text_of(&known[beside], position, m) {
        return Some(&known[beside]);
    }
    None
}

// Keeps a text at the place, if there is one. What stood there stands beside it then, in place of an older one.
fn remember(known: &mut [Written], place: usize, written: Written)
    requires known { All IsWritten known.old }
    requires new { IsWritten written }
    ensures { All IsWritten known.new }
{
    if place >= known.len() {
        return;
    }
    let beside = place | 1;
    if beside < known.len() {
        known[beside] = known[place];
    }
    known[place] = written;
}

// Writes a move, goes on to where it leads, and keeps its text.
fn write_new(known: &mut [Written], place: usize, here: &mut Position, m: &Move) -> San
    requires known { All IsWritten known.old }
    requires legal { IsLegal here.old m.now }
    ensures text { IsSan here.old m.now result.bytes }
    ensures next { Legal here.old m.now here.new }
    ensures known { All IsWritten known.new }
{
    let next = here.after(m);
    let text = write_with(here, *m, &next);
    let written = Written {
        position: *here,
        next,
        text,
        m: *m,
        told: true,
    };
    remember(known, place, written);
    *here = next;
    text
}

/// The text of a legal move, as `write` has it, and goes on to where the move leads: by what is known, which grows, or
/// by writing it. Room of any length will do, also none: a text is kept where its place is within. Takes no memory.
pub fn write_known(known: &mut [Written], here: &mut Position, m: &Move) -> San
    requires known { All IsWritten known.old }
    requires legal { IsLegal here.old m.now }
    ensures text { IsSan here.old m.now result.bytes }
    ensures next { Legal here.old m.now here.new }
    ensures known { All IsWritten known.new }
{
    if known.is_empty() {
        return write_new(known, 0, here, m);
    }
    let place = place_of(here, m);
    if let Some(kept) = find(known, place, here, m) {
        *here = kept.next;
        return kept.text;
    }
    write_new(known, place, here, m)
}
