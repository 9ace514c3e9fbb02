//! Checks of small certificates: what the tests share.

mod answers;
mod bounds;
mod examples;
mod faults;
mod references;
mod version2;

use crate::shared::{append, field, halves};
use arrayvec::ArrayString;
use pg_captures::{Bound, Captures, Promotions};
use pg_certificate::{FromRead, Source};
use pg_checker::*;
use pg_fen::{Diagram, Length};
use pg_pawns::PawnFiles;
use pg_position::Move;
use pg_san::{Games, read_games};
use pg_travel::Travel;
use pg_trial::{FailsAt, OneByte};
use std::fmt::{Display, Write};
use std::io::ErrorKind;
use std::process::Abort;
use std::test::*;

// More than any certificate here needs.
const MANY: u64 = 1_000_000;

// What is answered, in words.
type Said = ArrayString<256>;

// Diagrams by their names.
const NAMES: &str = "array rnbqkbnr/pppppppp/8/8/8/8/PPPPPPPP/RNBQKBNR
after-e4 rnbqkbnr/pppppppp/8/8/4P3/8/PPPP1PPP/RNBQKBNR
after-e4-e5 rnbqkbnr/pppp1ppp/8/4p3/4P3/8/PPPP1PPP/RNBQKBNR
pawn-on-a3 rnbqkbnr/pppppppp/8/8/8/P7/PPPPPPPP/RNBQKBNR
pawn-on-d3 rnbqkbnr/pppppppp/8/8/8/3P4/PPPP1PPP/RNBQKBNR
bishop-on-d3 rnbqkbnr/pppppppp/8/8/8/3B4/PPPPPPPP/RN1QKBNR
two-pawns rnbqkbnr/pppp1ppp/4p3/8/8/3PP3/PPP2PPP/RNBQKBNR
four-pawns rnbqkbnr/ppp2ppp/3pp3/8/8/3PP3/PPP2PPP/RNBQKBNR
pawn-on-d4 rnbqkbnr/pppp1ppp/4p3/8/3P4/4P3/PPP2PPP/RNBQKBNR
pawn-on-d6 rnbqkbnr/1pp1pppp/p2P4/8/8/8/PPPP1PPP/RNBQKBNR
recaptured rnb1kbnr/ppp1pppp/8/3q4/8/8/PPPP1PPP/RNBQKBNR
fools-mate rnb1kbnr/pppp1ppp/8/4p3/6Pq/5P2/PPPPP2P/RNBQKBNR
far rnbqkbnr/pppppppp/8/8/PPPPPPPP/8/8/RNBQKBNR";

// The diagram that has this name.
fn diagram_of(rt: &impl Abort, text: &str) -> Diagram {
    for line in NAMES.lines() {
        let (name, fen) = halves(rt, line, " ");
        if name == text {
            return Diagram::read(fen).expect(rt, fen);
        }
    }
    panic!(rt; "{text}")
}

fn length_of(rt: &impl Abort, text: &str) -> Length {
    Length::read(text).expect(rt, text)
}

// The games that a text gives, of which a slash parts the lines.
fn games_of<R: Abort + AllocGlobal>(rt: &R, text: &str) -> Games {
    let text = text.replace(rt.alloc(), '/', "\n").expect(rt, text);
    read_games(rt.alloc(), text.as_str()).expect(rt, text.as_str())
}

// What a value says, or the arguments of a format.
fn words(text: &impl Display) -> Said {
    let mut said = Said::new();
    let _ = write!(said, "{text}");
    said
}

// A game by the indexes of the squares.
fn squares_of(game: &[Move]) -> Said {
    let mut said = Said::new();
    for m in game {
        let _ = write!(said, " {}-{}", m.from.index(), m.to.index());
    }
    said
}

// How many records and named nodes a certificate has, or the fault, or the game that the list lacks.
fn told(answer: &Result<Proved, Fault>) -> Said {
    match answer {
        Ok(proved) => words(&format_args!("{} {}", proved.records, proved.named)),
        Err(Fault::Unlisted(game)) => words(&format_args!("lacks{}", squares_of(game))),
        Err(fault) => words(&format_args!("{fault:?}")),
    }
}

// Whether the answer is yes: it begins with a number.
fn is_yes(said: &Said) -> bool {
    matches!(said.as_str().bytes().next(), Some(b'0'..=b'9'))
}

// The header that has the version, the diagram and the length in this text; none where that is empty.
fn headed<R: Abort + AllocGlobal>(rt: &R, header: &str) -> Vec<u8> {
    let Some((version, problem)) = header.split_once(' ') else {
        return Vec::new(rt.alloc());
    };
    let (diagram, length) = halves(rt, problem, " ");
    let digit = version.bytes().next().expect(rt, header);
    let diagram = diagram_of(rt, diagram);
    let length = length_of(rt, length);
    pg_trial::certificate(rt.alloc(), digit, &diagram, length, &[]).expect(rt, header)
}

// The same with the records that a text spells.
fn certificate<R: Abort + AllocGlobal>(rt: &R, header: &str, records: &str) -> Vec<u8> {
    let mut bytes = headed(rt, header);
    append(rt, &mut bytes, records);
    bytes
}

fn boxed<R: Abort + AllocGlobal, B>(rt: &R, bound: B) -> Box<B> {
    Box::new(rt.alloc(), bound).expect(rt, "memory")
}

fn add<R: Abort>(rt: &R, bounds: &mut Vec<Box<dyn Bound>>, bound: Box<dyn Bound>) {
    bounds.push(bound).expect(rt, "memory");
}

// The four bounds, in the order of their codes.
fn four_bounds<R: Abort + AllocGlobal>(rt: &R) -> Vec<Box<dyn Bound>> {
    let mut bounds: Vec<Box<dyn Bound>> = Vec::new(rt.alloc());
    add(rt, &mut bounds, boxed(rt, Captures));
    add(rt, &mut bounds, boxed(rt, Promotions));
    add(rt, &mut bounds, boxed(rt, PawnFiles));
    add(rt, &mut bounds, boxed(rt, Travel));
    bounds
}

// What is answered with these bounds. A diagram, a length, games, and the limits of records, if there is one, and
// of named nodes are asked.
fn judged<R: Abort + AllocGlobal, S: Source>(
    rt: &R,
    asked: &str,
    bounds: &[Box<dyn Bound>],
    source: &mut S,
) -> Said {
    let diagram = field(asked, 0);
    let length = field(asked, 1);
    let games = field(asked, 2);
    let records = field(asked, 3);
    let named = field(asked, 4);
    let diagram = diagram_of(rt, diagram);
    let length = length_of(rt, length);
    let games = games_of(rt, games);
    let records = records.parse().unwrap_or(MANY);
    let named = named.parse().expect(rt, asked);
    let alloc = rt.alloc();
    told(&check(
        alloc, &diagram, length, &games, bounds, source, records, named,
    ))
}

// What is answered with the four bounds.
fn checked<R: Abort + AllocGlobal, S: Source>(rt: &R, asked: &str, source: &mut S) -> Said {
    judged(rt, asked, &four_bounds(rt), source)
}

// What is answered with these bounds, through a reader of one byte a call and one of many.
fn said_to<R: Abort + AllocGlobal>(
    rt: &R,
    asked: &str,
    bounds: &[Box<dyn Bound>],
    bytes: &[u8],
) -> Said {
    let slowly = judged(rt, asked, bounds, &mut FromRead::new(OneByte::new(bytes)));
    let said = judged(rt, asked, bounds, &mut FromRead::new(bytes));
    assert_eq!(rt; said.as_str(), slowly.as_str(), "{asked}");
    said
}

// This is answered with the four bounds.
fn check_bytes<R: Abort + AllocGlobal>(rt: &R, asked: &str, bytes: &[u8], wanted: &str) {
    let said = said_to(rt, asked, &four_bounds(rt), bytes);
    assert_eq!(rt; said.as_str(), wanted, "{asked}");
}

// The certificate of a row: what its header has, its records, and how many bytes it has, if that is told.
fn bytes_of<R: Abort + AllocGlobal>(rt: &R, asked: &str) -> Vec<u8> {
    let header = field(asked, 5);
    let records = field(asked, 6);
    let length = field(asked, 7);
    let bytes = certificate(rt, header, records);
    if !length.is_empty() {
        assert_eq!(rt; words(&bytes.len()).as_str(), length, "{asked}");
    }
    bytes
}

// This is answered to a row with these bounds.
fn check_judged<R: Abort + AllocGlobal>(
    rt: &R,
    asked: &str,
    bounds: &[Box<dyn Bound>],
    wanted: &str,
) {
    let bytes = bytes_of(rt, asked);
    let said = said_to(rt, asked, bounds, bytes.as_slice());
    assert_eq!(rt; said.as_str(), wanted, "{asked}");
}

// A row of a table: what is asked, and behind an arrow what is answered.
fn check_row<R: Abort + AllocGlobal>(rt: &R, row: &str) {
    let (asked, wanted) = halves(rt, row, " => ");
    check_judged(rt, asked, &four_bounds(rt), wanted);
}

fn check_table<R: Abort + AllocGlobal>(rt: &R, table: &str) {
    for row in table.lines() {
        check_row(rt, row);
    }
}

// Every proper prefix of the certificate is truncated.
fn each_prefix_is_truncated<R: Abort + AllocGlobal>(rt: &R, asked: &str) {
    let bytes = bytes_of(rt, asked);
    for n in 0..bytes.len() {
        check_bytes(rt, asked, &bytes[..n], "Truncated");
    }
}

// The read of a byte with this number refuses.
fn check_read<R: Abort + AllocGlobal>(rt: &R, asked: &str, bytes: &[u8], at: u64) {
    let reader = FailsAt::new(OneByte::new(bytes), at, ErrorKind::Interrupted);
    let said = checked(rt, asked, &mut FromRead::new(reader));
    assert_eq!(rt; said.as_str(), "Read", "{at}");
}

// Each of `reads` reads of a byte refuses in turn.
fn each_read_fails<R: Abort + AllocGlobal>(rt: &R, asked: &str, reads: u64) {
    let bytes = bytes_of(rt, asked);
    for at in 0..reads {
        check_read(rt, asked, bytes.as_slice(), at);
    }
}
