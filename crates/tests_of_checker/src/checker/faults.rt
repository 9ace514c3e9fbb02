//! Each fault of a list, a header and a record; reads and growths that are refused.

use super::*;
use arrayvec::ArrayVec;
use pg_trial::Endless;
use std::io::Read;

// What the check of the listed games alone answers.
fn listed<R: Abort + AllocGlobal>(rt: &R, asked: &str) -> Said {
    let diagram = field(asked, 0);
    let length = field(asked, 1);
    let games = field(asked, 2);
    let diagram = diagram_of(rt, diagram);
    let games = games_of(rt, games);
    match check_listed(&diagram, length_of(rt, length), &games) {
        Ok(()) => words(&"right"),
        Err(fault) => words(&format_args!("Listed({fault:?})")),
    }
}

// A game too long, and no certificate; another game's diagram, and the header alone.
const LISTED: &str = "after-e4-e5 | 0.5 | 1. e4 e5 |  | 0 |  |  => Listed(WrongLength(0))
after-e4 | 0.5 | d4/e4 |  | 0 | 1 after-e4 0.5 |  => Listed(NotReaching(0))";

#[test]
fn listed_games(rt: HostRuntime) {
    check_table(&rt, LISTED);
    for row in LISTED.lines() {
        let (asked, wanted) = halves(&rt, row, " => ");
        assert_eq!(rt; listed(&rt, asked).as_str(), wanted);
    }
    let second = listed(&rt, "after-e4 | 0.5 | e4/g4");
    assert_eq!(rt; second.as_str(), "Listed(NotReaching(1))");
    assert_eq!(rt; listed(&rt, "after-e4 | 0.5 | e4").as_str(), "right");
}

// The certificate of one ply to other problems, the first fault of each; and bytes that are no header.
const HEADERS: &str = "after-e4 | 1.0 |  |  | 0 | 1 after-e4 0.5 | 01 => OtherLength
after-e4-e5 | 1.0 |  |  | 0 | 1 after-e4 0.5 | 01 => OtherLength
after-e4-e5 | 0.5 |  | 0 | 0 | 1 after-e4 0.5 | 01 => OtherDiagram
after-e4 | 0.5 | e4 |  | 0 |  | 50474331 01 24533642 11111011 00*6 01 00*9 99*4 acdbbe | 36 => Truncated
after-e4 | 0.5 | e4 |  | 0 |  | 58474331 01 24533642 11111011 00*6 01 00*9 99*4 acdbbeca | 37 => Magic
after-e4-e5 | 1.0 |  |  | 0 |  | 58474331 01 24533642 11111011 00*6 01 00*9 99*4 acdbbeca => Magic
after-e4 | 0.5 | e4 |  | 0 |  | 58474331 01 24533642 11111011 00*6 01 00*9 99*4 acdbbe | 36 => Truncated";

#[test]
fn each_fault_of_the_header(rt: HostRuntime) {
    check_table(&rt, HEADERS);
}

const RECORDS: &str = "after-e4 | 0.5 | e4 |  | 0 | 1 after-e4 0.5 | 07 => UnknownRecord(7)
after-e4 | 0.5 | e4 | 0 | 0 | 1 after-e4 0.5 | 07 => Budget
after-e4 | 0.5 | e4 |  | 0 | 1 after-e4 0.5 | 0101 => Trailing
after-e4-e5 | 1.0 | 1. e4 e5 |  | 0 | 1 after-e4-e5 1.0 | 0204 01 0204*13 01 0204*6 00 => Trailing";

#[test]
fn each_fault_of_a_record(rt: HostRuntime) {
    check_table(&rt, RECORDS);
}

const OPEN_GAME: &str =
    "after-e4-e5 | 1.0 | 1. e4 e5 |  | 9 | 1 after-e4-e5 1.0 | 0204 01 0204*13 01 0204*6";

#[test]
fn each_proper_prefix(rt: HostRuntime) {
    each_prefix_is_truncated(&rt, OPEN_GAME);
}

// Whether a certificate with another byte at this place is accepted.
fn is_accepted<R: Abort + AllocGlobal>(rt: &R, bytes: &[u8], place: usize, byte: u8) -> bool {
    let said = checked(rt, OPEN_GAME, &mut FromRead::new(bytes));
    if !is_yes(&said) {
        return false;
    }
    let named = (place == 39 || place == 66) && byte == 5;
    let later = place == 3 && byte == b'2';
    assert!(rt; named || later);
    assert_eq!(rt; said.as_str(), if named { "22 1" } else { "22 0" });
    true
}

// Writes a byte over another.
fn put(bytes: &mut [u8], place: usize, byte: u8) {
    if let Some(kept) = bytes.get_mut(place) {
        *kept = byte;
    }
}

// How many of the other bytes at this place are accepted.
fn accepted_at<R: Abort + AllocGlobal>(rt: &R, bytes: &mut [u8], place: usize) -> u32 {
    let kept = bytes.get(place).copied().unwrap_or(0);
    let mut accepted = 0u32;
    for change in 1..=255u8 {
        put(bytes, place, kept ^ change);
        if is_accepted(rt, bytes, place, kept ^ change) {
            accepted = accepted.saturating_add(1);
        }
    }
    put(bytes, place, kept);
    accepted
}

#[test]
fn each_change_of_a_byte(rt: HostRuntime) {
    let mut bytes = bytes_of(&rt, OPEN_GAME);
    let mut accepted = 0u32;
    for place in 0..79usize {
        accepted = accepted.saturating_add(accepted_at(&rt, &mut bytes, place));
    }
    assert!(rt; bytes.len() == 79 && accepted == 3);
}

// The answer to a header, and then one byte for ever.
fn check_endless<R: Abort + AllocGlobal>(rt: &R, asked: &str, byte: u8, wanted: &str) {
    let header = headed(rt, "1 pawn-on-d3 64.0");
    let endless = header.as_slice().chain(Endless::new(byte));
    let said = checked(rt, asked, &mut FromRead::new(endless));
    assert_eq!(rt; said.as_str(), wanted);
}

#[test]
fn endless_certificates(rt: HostRuntime) {
    check_endless(&rt, "pawn-on-d3 | 64.0 |  | 1000 | 0", 1, "Budget");
    check_endless(&rt, "pawn-on-d3 | 64.0 |  |  | 10", 5, "TooManyNamed");
}

// A source over a reader that refuses each byte, whatever the reader has, does not give these.
#[test]
fn std_reader_always_fails(rt: HostRuntime) {
    let mut source = FromRead::new(b"bytes".as_slice());
    let mut buffer = [0u8; 5];
    let pulled = source.pull(&mut buffer).unwrap_or(0);
    assert!(rt; pulled == 5 && buffer.as_slice() == b"bytes".as_slice());
}

#[test]
fn each_read_failing_in_turn(rt: HostRuntime) {
    each_read_fails(&rt, OPEN_GAME, 80);
}

const FAULTS: [Fault; 18] = [
    Fault::Listed(ListFault::WrongLength(0)),
    Fault::Listed(ListFault::NotReaching(11)),
    Fault::Magic,
    Fault::OtherLength,
    Fault::OtherDiagram,
    Fault::Budget,
    Fault::Truncated,
    Fault::Read,
    Fault::UnknownRecord(7),
    Fault::UnknownBound(9),
    Fault::CutFails(3),
    Fault::RefUnknown,
    Fault::RefDiffers,
    Fault::RefFertile,
    Fault::TooManyNamed,
    Fault::Memory,
    Fault::Shorter(3),
    Fault::Trailing,
];

// Their texts in turn.
const TEXTS: &str = "game 1 does not have the stated length
game 12 does not end on the diagram
not a certificate
certificate for another length
certificate for another diagram
record limit reached
truncated certificate
read fault
unknown record byte 7
unknown bound 9
cut 3 does not exclude
reference to no closed node
reference to another position
reference to a node with a game
too many named nodes
out of memory
a game of 3 plies reaches the diagram
bytes after the certificate
";

#[test]
fn faults_have_their_texts(rt: HostRuntime) {
    let mut said = ArrayString::<1024>::new();
    for fault in &FAULTS {
        let _ = writeln!(said, "{fault}");
    }
    assert_eq!(rt; said.as_str(), TEXTS);
    let unlisted = Fault::Unlisted(ArrayVec::new());
    assert_eq!(rt; words(&unlisted).as_str(), "unlisted game: ");
}
