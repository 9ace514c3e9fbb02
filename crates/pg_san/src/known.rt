//! Readings that are known: games of one text come again and again to the same positions, and read the same
//! words there.
ghost use Rattle.std.specs.Prelude.{◌≡◌, ◌≤◌, IsTrue, All, IfSome, OnErr, length, take, Ok};
ghost use Rattle.pg_san.specs.inner.Walk.{IsTextReading};
ghost use Rattle.pg_san.specs.KnownReadings.{IsKnown, IsStepRead};

use crate::fault::SanFault;
use crate::numbers::position_number;
use crate::reading::{Found, read_step};
use pg_position::{Move, Position};
use std::alloc::Global;
use std::marker::Model;

// For a text of fewer bytes there is no room: its games are too few to pay for some 43 KB that are filled at first.
const SHORT: usize = 8000;

// The longest word that is kept.
const LONGEST: usize = 8;

// How many readings are kept at most: two at each place.
const MOST_KNOWN: usize = 256;

// A word that was read in a position: the move that it names there, and where the move leads. A length above the
// longest says nothing.
#[derive(Clone, Copy)]
pub(crate) struct Known {
    pub(crate) position: Position,
    pub(crate) next: Position,
    pub(crate) text: [u8; LONGEST],
    pub(crate) length: usize,
    pub(crate) m: Move,
}

// What says nothing.
fn nothing() -> Known
    ensures { IsKnown result }
{
    Known {
        position: Position::array(),
        next: Position::array(),
        text: [0; LONGEST],
        length: LONGEST + 1,
        m: Move::default(),
    }
}

// A number of a text, in which its last eight bytes tell.
fn text_number(text: &[u8]) -> u64 {
    let mut number = 0u64;
    for byte in text {
        number = (number << 8) ^ u64::from(*byte);
    }
    number.wrapping_mul(0xff51_afd7_ed55_8ccd)
}

// The first of the two places where the reading of a text in a position is kept, and no other is looked for: by the
// highest bits, in which all squares tell.
fn place_of(position: &Position, text: &[u8]) -> usize {
    let number = position_number(position) ^ text_number(text);
    ((number >> 56) as usize % MOST_KNOWN) & !1
}

// Whether this text was read in this position.
fn is_known(known: &Known, position: &Position, text: &[u8]) -> bool
    ensures { IsTrue result → (known.now.length ≤ 8) × (take known.now.length known.now.text ≡ text.now)
        × (known.now.position ≡ position.now) }
{
    known.length == text.len()
        && known.length <= LONGEST
        && &known.text[..known.length] == text
        && known.position == *position
}

// What is kept of this text in this position, at the place or beside it.
fn find<'a>(known: &'a [Known], place: usize, position: &Position, text: &[u8]) -> Option<&'a Known>
    requires { All IsKnown known.now }
    ensures { IfSome result (λ k. IsStepRead position.now text.now k.now.next (Ok k.now.m)) }
{
    if place < known.len() && is_known(&known[place], position, text) {
        return Some(&known[place]);
    }
    let beside = place | 1;
    if beside < known.len() && is_known(&known[beside], position, text) {
        return Some(&known[beside]);
    }
    None
}

// What is kept of a reading.
fn known_of(position: &Position, text: &[u8], found: &Found) -> Known
    requires short { length text.now ≤ 8 }
    requires reading { IsTextReading position.now text.now (Ok found.now) }
    ensures { IsKnown result }
{
    let mut bytes = [0; LONGEST];
    bytes[..text.len()].copy_from_slice(text);
    Known {
        position: *position,
        next: found.next,
        text: bytes,
        length: text.len(),
        m: found.m,
    }
}

// Keeps a reading at the place, if there is one and the text is short. What stood there stands beside it then, in
// place of an older one.
fn remember(known: &mut [Known], place: usize, position: &Position, text: &[u8], found: &Found)
    requires known { All IsKnown known.old }
    requires reading { IsTextReading position.now text.now (Ok found.now) }
    ensures { All IsKnown known.new }
{
    if place >= known.len() || text.len() > LONGEST {
        return;
    }
    let beside = place | 1;
    if beside < known.len() {
        known[beside] = known[place];
    }
    known[place] = known_of(position, text, found);
}

// Reads a text, goes on to where its move leads, and keeps the reading.
fn read_new(
    known: &mut [Known],
    place: usize,
    here: &mut Position,
    text: &[u8],
) -> Result<Move, SanFault>
    requires { All IsKnown known.old }
    ensures read { IsStepRead here.old text.now here.new result }
    ensures same { OnErr result (here.new ≡ here.old) }
    ensures known { All IsKnown known.new }
{
    match read_step(here, text) {
        Ok(found) => {
            remember(known, place, here, text, &found);
            *here = found.next;
            Ok(found.m)
        }
        Err(fault) => Err(fault),
    }
}

// Goes on by a text that is read: by what is known, which grows, or by reading. Room of any length will do, also none.
fn read_known(known: &mut [Known], here: &mut Position, text: &[u8]) -> Result<Move, SanFault>
    requires { All IsKnown known.old }
    ensures read { IsStepRead here.old text.now here.new result }
    ensures same { OnErr result (here.new ≡ here.old) }
    ensures known { All IsKnown known.new }
{
    if known.is_empty() || text.len() > LONGEST {
        return read_new(known, 0, here, text);
    }
    let place = place_of(here, text);
    if let Some(kept) = find(known, place, here, text) {
        *here = kept.next;
        return Ok(kept.m);
    }
    read_new(known, place, here, text)
}

/// What the words of games are known to name, for a reader of many games. Contracts see nothing of it: what is known
/// changes no answer.
#[derive(Drop)]
pub struct KnownReadings {
    known: Vec<Known>,
}

impl Model for KnownReadings {
    ghost use Rattle.std.specs.Prelude.{All};
    ghost use Rattle.pg_san.specs.KnownReadings.{IsKnown};

    ghost Value = { Unit {0} };

    ghost view = { λ _. tt };

    ghost invariant = { λ r. All IsKnown r.known.items };
}

impl KnownReadings {
    /// Nothing is known. For a text of 8,000 bytes or more room of some 43 KB is taken from `alloc`; where it is
    /// refused, and for a shorter text, nothing will be known.
    pub fn new(alloc: Global, length: usize) -> KnownReadings {
        if length < SHORT {
            return KnownReadings {
                known: Vec::new(alloc),
            };
        }
        match Vec::from_elem(alloc, nothing(), MOST_KNOWN) {
            Ok(known) => KnownReadings { known },
            Err(_) => KnownReadings {
                known: Vec::new(alloc),
            },
        }
    }

    /// The one legal move that a text names in the position `here`, read as by `read`, and goes on to where it leads.
    ///
    /// # Errors
    /// Those of `read`; `here` is as it was then.
    pub fn read(&mut self, here: &mut Position, text: &[u8]) -> Result<Move, SanFault>
        ensures read { IsStepRead here.old text.now here.new result }
        ensures same { OnErr result (here.new ≡ here.old) }
    {
        read_known(self.known.as_mut_slice(), here, text)
    }
}
