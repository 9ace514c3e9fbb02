//! Certificates, lists and limits that were made wrong.
use crate::case::{Case, part};
use crate::dice::Dice;
use crate::lists;
use pg_certificate::format::HEADER_LENGTH;
use pg_fen::Length;
use pg_san::Games;
use std::alloc::{AllocError, Global};

// What a check is asked in place of a case's own question.
#[derive(Drop)]
pub(crate) struct Mutant {
    pub(crate) length: Length,
    // The list, where it is not the case's own.
    pub(crate) games: Option<Games>,
    pub(crate) bytes: Vec<u8>,
    pub(crate) most_records: u64,
    pub(crate) most_named: u32,
}

// Above what any certificate needs here.
const AMPLE_RECORDS: u64 = 1_000_000;

// Above what any certificate names here.
const AMPLE_NAMED: u32 = 100_000;

impl Mutant {
    // The case's own question and list, with these bytes and ample limits.
    pub(crate) fn of(case: &Case, bytes: Vec<u8>) -> Mutant {
        Mutant {
            length: case.length,
            games: None,
            bytes,
            most_records: AMPLE_RECORDS,
            most_named: AMPLE_NAMED,
        }
    }
}

// These pieces, one behind the other.
fn joined(alloc: Global, pieces: &[&[u8]]) -> Result<Vec<u8>, AllocError> {
    let mut bytes = Vec::new(alloc);
    for piece in pieces {
        bytes.extend_from_slice(piece)?;
    }
    Ok(bytes)
}

// A byte changed, put in or taken out, a few bytes taken out, or the end cut off or made longer;
// seldom in the header.
fn by_bytes(alloc: Global, dice: &mut Dice, bytes: &[u8]) -> Result<Vec<u8>, AllocError> {
    let end = bytes.len();
    let at = if dice.below(8) == 0 {
        dice.below(end)
    } else {
        end.min(HEADER_LENGTH)
            .saturating_add(dice.below(end.saturating_sub(HEADER_LENGTH)))
    };
    let front = part(bytes, 0, at);
    let next = at.saturating_add(1);
    let byte = [dice.byte()];
    match dice.below(8) {
        0 | 1 | 2 => joined(alloc, &[front, &byte, part(bytes, next, end)]),
        3 => joined(alloc, &[front, &byte, part(bytes, at, end)]),
        4 => joined(alloc, &[front, part(bytes, next, end)]),
        5 => {
            let next = next.saturating_add(dice.below(6));
            joined(alloc, &[front, part(bytes, next, end)])
        }
        6 => joined(alloc, &[front]),
        _ => joined(alloc, &[bytes, &byte]),
    }
}

// A record left out, put in twice, or in its place one of another certificate or of this one; two
// swapped; or the front of this certificate and the back of another, cut between records.
fn by_records(
    alloc: Global,
    dice: &mut Dice,
    case: &Case,
    other: &Case,
) -> Result<Vec<u8>, AllocError> {
    let bytes = case.bytes.as_slice();
    let i = dice.below(case.records());
    let record = case.record(i);
    let front = part(bytes, 0, case.start(i));
    let back = part(bytes, case.start(i.saturating_add(1)), bytes.len());
    let j = dice.below(other.records());
    match dice.below(7) {
        0 => joined(alloc, &[front, back]),
        1 => joined(alloc, &[front, record, record, back]),
        2 => joined(alloc, &[front, other.record(j), back]),
        3 => {
            let own = case.record(dice.below(case.records()));
            joined(alloc, &[front, own, back])
        }
        4 => {
            let rest = part(other.bytes.as_slice(), other.start(j), other.bytes.len());
            joined(alloc, &[front, rest])
        }
        5 => {
            let rest = part(other.bytes.as_slice(), other.start(i), other.bytes.len());
            joined(alloc, &[front, rest])
        }
        _ => swapped(alloc, case, i, dice.below(case.records())),
    }
}

// Two records in each other's place.
fn swapped(alloc: Global, case: &Case, i: usize, j: usize) -> Result<Vec<u8>, AllocError> {
    let bytes = case.bytes.as_slice();
    let (i, j) = (i.min(j), i.max(j));
    if i == j {
        return joined(alloc, &[bytes]);
    }
    let front = part(bytes, 0, case.start(i));
    let between = part(bytes, case.start(i.saturating_add(1)), case.start(j));
    let back = part(bytes, case.start(j.saturating_add(1)), bytes.len());
    joined(
        alloc,
        &[front, case.record(j), between, case.record(i), back],
    )
}

// A reference or a cut in the place of a record, one that expands its node where such a one is soon
// drawn.
fn ended_early(alloc: Global, dice: &mut Dice, case: &Case) -> Result<Vec<u8>, AllocError> {
    let bytes = case.bytes.as_slice();
    let mut i = dice.below(case.records());
    for _ in 0..64u8 {
        if matches!(case.record(i), [1] | [5]) {
            break;
        }
        i = dice.below(case.records());
    }
    let front = part(bytes, 0, case.start(i));
    let back = part(bytes, case.start(i.saturating_add(1)), bytes.len());
    if dice.below(2) == 0 {
        joined(alloc, &[front, &[2, dice.byte()], back])
    } else {
        let number = u8::try_from(dice.below(20)).unwrap_or(0);
        joined(alloc, &[front, &[3, 0, 0, 0, number], back])
    }
}

// The header, half of the times some records behind it, and cuts in the place of all the others.
fn cut_off(alloc: Global, dice: &mut Dice, case: &Case) -> Result<Vec<u8>, AllocError> {
    let i = if dice.below(2) == 0 {
        0
    } else {
        dice.below(case.records())
    };
    let mut bytes = joined(alloc, &[part(case.bytes.as_slice(), 0, case.start(i))])?;
    let code = dice.byte();
    for _ in 0..dice.below(14) {
        bytes.extend_from_slice(&[2, code])?;
    }
    Ok(bytes)
}

// The certificate with one byte for another: that of a record which names its node for that of one
// which does not, or the other way round; or the number of the other version.
fn renamed(alloc: Global, dice: &mut Dice, case: &Case) -> Result<Vec<u8>, AllocError> {
    let bytes = case.bytes.as_slice();
    let at = if dice.below(4) == 0 {
        3
    } else {
        case.start(dice.below(case.records()))
    };
    let front = part(bytes, 0, at);
    let back = part(bytes, at.saturating_add(1), bytes.len());
    match bytes.get(at) {
        Some(1) => joined(alloc, &[front, &[5], back]),
        Some(5) => joined(alloc, &[front, &[1], back]),
        Some(b'1') => joined(alloc, &[front, b"2", back]),
        Some(b'2') => joined(alloc, &[front, b"1", back]),
        _ => joined(alloc, &[bytes]),
    }
}

// The certificate for another length, in its header and in the question alike, mostly with no game
// in the list.
fn at_length(alloc: Global, dice: &mut Dice, mutant: &mut Mutant) {
    let plies = u8::try_from(dice.below(14)).unwrap_or(0);
    if let (Some(length), Some(place)) = (Length::from_plies(plies), mutant.bytes.get_mut(4)) {
        mutant.length = length;
        *place = plies;
    }
    if dice.below(4) != 0 {
        mutant.games = Some(Games::new(alloc));
    }
}

// A mutant of the case: its bytes, records or names, its length or limits changed, one time in three
// its list too, and one time in six a byte more. What it takes from another certificate or list is the
// other case's.
pub(crate) fn make_mutant(
    alloc: Global,
    dice: &mut Dice,
    case: &Case,
    other: &Case,
) -> Result<Mutant, AllocError> {
    let kind = dice.below(18);
    let bytes = match kind {
        0..=4 => by_bytes(alloc, dice, case.bytes.as_slice())?,
        5..=9 => by_records(alloc, dice, case, other)?,
        10 => renamed(alloc, dice, case)?,
        11 | 12 => ended_early(alloc, dice, case)?,
        13 | 14 => cut_off(alloc, dice, case)?,
        _ => joined(alloc, &[case.bytes.as_slice()])?,
    };
    let mut mutant = Mutant::of(case, bytes);
    if dice.below(3) == 0 {
        mutant.games = Some(lists::changed(alloc, dice, case, other)?);
    }
    if kind == 15 {
        at_length(alloc, dice, &mut mutant);
    } else if kind == 16 {
        mutant.most_records = u64::try_from(dice.below(case.records())).unwrap_or(0);
        mutant.most_named = u32::try_from(dice.below(8)).unwrap_or(0);
    }
    if dice.below(6) == 0 {
        mutant.bytes = by_bytes(alloc, dice, mutant.bytes.as_slice())?;
    }
    Ok(mutant)
}
