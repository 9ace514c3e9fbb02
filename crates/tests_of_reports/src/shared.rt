//! What the tests of reports and of explanations share: tables of texts, a case a line. A bar separates the
//! fields of a case, an arrow what is asked from what is answered, and a dollar stands for the end of a line.

use arrayvec::ArrayString;
use pg_board::Square;
use pg_captures::{Bound, Captures, Promotions};
use pg_certificate::Source;
use pg_checker::{OpenFault, Opened, Problem, open};
use pg_fen::{Diagram, Length};
use pg_journeys::Journeys;
use pg_pawns::PawnFiles;
use pg_report::AnswerRunFault;
use pg_tolls::Tariff;
use pg_travel::Travel;
use pg_trial::append_spelled;
use std::fmt::{Debug, Display, Write};
use std::process::Abort;
use std::str;

// More than any certificate here needs.
pub(crate) const MANY: u64 = 1_000_000;

// What a call answers, in words.
pub(crate) type Said = ArrayString<256>;

// Diagrams and positions by their names.
const NAMES: &str = "array rnbqkbnr/pppppppp/8/8/8/8/PPPPPPPP/RNBQKBNR
after-e4 rnbqkbnr/pppppppp/8/8/4P3/8/PPPP1PPP/RNBQKBNR
after-e4-e5 rnbqkbnr/pppp1ppp/8/4p3/4P3/8/PPPP1PPP/RNBQKBNR
two-orders rnbqkbnr/pppp1ppp/4p3/8/8/3PP3/PPP2PPP/RNBQKBNR
en-passant rnbqkbnr/1pp1pppp/p2P4/8/8/8/PPPP1PPP/RNBQKBNR
recaptured rnb1kbnr/ppp1pppp/8/3q4/8/8/PPPP1PPP/RNBQKBNR
fools-mate rnb1kbnr/pppp1ppp/8/4p3/6Pq/5P2/PPPPP2P/RNBQKBNR
schweig r1bqkbnr/ppp2ppp/3p4/8/8/8/PPPPPPPP/R1BQKBNR
knight-gone rnbqkbnr/pppppppp/8/8/8/8/PPPPPPPP/RNBQKB1R
rook-for-pawns Rnb1kbnr/p1p1pppp/8/3p4/8/8/1PPPPP2/RNBQ1KNR
two-bishops-out rnbqk1nr/ppppppbp/6p1/8/8/5NP1/PPPPPPBP/RNBQ1RK1
castled-apart 2kr3r/8/8/8/8/8/8/R4RK1
sixteen-queens QQQQKQQQ/QQQQQQQQ/Q7/8/8/8/8/4k3
shut-in rnbqkbnr/1pppppp1/p6p/8/8/P3B2P/1PPPPPP1/RN1QKBNR
start rnbqkbnr/pppppppp/8/8/8/8/PPPPPPPP/RNBQKBNR w KQkq - 0 1
middle-game r3k2r/p1ppqpb1/bn2pnp1/3PN3/1p2P3/2N2Q1p/PPPBBPPP/R3K2R w KQkq - 0 1
castlers r3k2r/8/8/8/8/8/8/R3K2R w KQkq - 0 1
far-pawns 4k3/P1P4p/1p4P1/8/8/8/p5pP/4K2R w K - 0 1
endgame 8/2p5/3p4/KP5r/1R3p1k/8/4P1P1/8 w - - 0 1
mated rnb1kbnr/pppp1ppp/8/4p3/6Pq/5P2/PPPPP2P/RNBQKBNR w KQkq - 1 3";

// The diagram or the position that has this name; what has none stands for itself.
pub(crate) fn named<'a>(text: &'a str) -> &'a str {
    for line in NAMES.lines() {
        if let Some((name, fen)) = line.split_once(' ') {
            if name == text {
                return fen;
            }
        }
    }
    text
}

// The diagram that a text gives.
pub(crate) fn diagram_of(rt: &impl Abort, text: &str) -> Diagram {
    Diagram::read(named(text)).expect(rt, text)
}

// The length that a text gives.
pub(crate) fn length_of(rt: &impl Abort, text: &str) -> Length {
    Length::read(text).expect(rt, text)
}

// The problem of a diagram and a length.
pub(crate) fn problem_of(rt: &impl Abort, diagram: &str, length: &str) -> Problem {
    Problem {
        diagram: diagram_of(rt, diagram),
        length: length_of(rt, length),
    }
}

// The bytes as a text.
pub(crate) fn text_of<'a>(rt: &impl Abort, bytes: &'a [u8]) -> &'a str {
    str::from_utf8(bytes).expect(rt, "a text")
}

// The text with ends of lines.
pub(crate) fn lines_of<R: Abort + AllocGlobal>(rt: &R, row: &str) -> String {
    row.replace(rt.alloc(), '$', "\n").expect(rt, "memory")
}

// What stands before a mark, and what behind it.
pub(crate) fn halves<'a>(rt: &impl Abort, text: &'a str, mark: &str) -> (&'a str, &'a str) {
    text.split_once(mark).expect(rt, text)
}

// The field of a case with this number from 0, between bars; empty where the case has fewer.
pub(crate) fn field<'a>(case: &'a str, number: usize) -> &'a str {
    case.split(" | ").nth(number).unwrap_or("")
}

// What a value says, or the arguments of a format.
pub(crate) fn words(text: &impl Display) -> Said {
    let mut said = Said::new();
    let _ = write!(said, "{text}");
    said
}

// The value that was answered, or the fault and its text.
pub(crate) fn told<T: Debug, E: Debug + Display>(answer: &Result<T, E>) -> Said {
    match answer {
        Ok(value) => words(&format_args!("{value:?}")),
        Err(fault) => words(&format_args!("{fault:?}: {fault}")),
    }
}

// The certificate that a source gives, which is one of this problem.
pub(crate) fn opened_for<S: Source>(
    rt: &impl Abort,
    problem: &Problem,
    source: &mut S,
) -> Result<Opened, OpenFault> {
    let opened = match open(source) {
        Ok(opened) => opened,
        Err(fault) => return Err(fault),
    };
    assert!(rt; opened.problem() == *problem);
    Ok(opened)
}

// What is answered where a certificate is not opened.
pub(crate) fn unopened(fault: OpenFault) -> Said {
    let fault = AnswerRunFault::of_opening(fault);
    words(&format_args!("{fault:?}: {fault}"))
}

// The bytes that a text spells.
pub(crate) fn spelled<R: Abort + AllocGlobal>(rt: &R, text: &str) -> Vec<u8> {
    let mut bytes = Vec::new(rt.alloc());
    assert!(rt; append_spelled(&mut bytes, text), "{text}");
    bytes
}

// The certificate with these records, whose header has the version, the diagram and the length in this text;
// where that is empty, the records alone.
pub(crate) fn certificate<R: Abort + AllocGlobal>(rt: &R, header: &str, records: &str) -> Vec<u8> {
    let records = spelled(rt, records);
    let Some((version, problem)) = header.split_once(' ') else {
        return records;
    };
    let digit = version.bytes().next().expect(rt, header);
    let (diagram, length) = halves(rt, problem, " ");
    let diagram = diagram_of(rt, diagram);
    let length = length_of(rt, length);
    pg_trial::certificate(rt.alloc(), digit, &diagram, length, records.as_slice()).expect(
        rt, header,
    )
}

// A bound in a box.
pub(crate) fn boxed<R: Abort + AllocGlobal, B: Bound>(rt: &R, bound: B) -> Box<B> {
    Box::new(rt.alloc(), bound).expect(rt, "memory")
}

// Puts a bound behind the others.
pub(crate) fn add(rt: &impl Abort, bounds: &mut Vec<Box<dyn Bound>>, bound: Box<dyn Bound>) {
    bounds.push(bound).expect(rt, "memory");
}

// The bounds by captures, promotions, pawn files and travel.
pub(crate) fn four_bounds<R: Abort + AllocGlobal>(rt: &R) -> Vec<Box<dyn Bound>> {
    let mut bounds: Vec<Box<dyn Bound>> = Vec::new(rt.alloc());
    add(rt, &mut bounds, boxed(rt, Captures));
    add(rt, &mut bounds, boxed(rt, Promotions));
    add(rt, &mut bounds, boxed(rt, PawnFiles));
    add(rt, &mut bounds, boxed(rt, Travel));
    bounds
}

// These four, and behind them the bound by journeys.
pub(crate) fn five_bounds<R: Abort + AllocGlobal>(rt: &R) -> Vec<Box<dyn Bound>> {
    let mut bounds = four_bounds(rt);
    add(rt, &mut bounds, boxed(rt, Journeys));
    bounds
}

// The five bounds where this word asks for journeys, else four.
pub(crate) fn bounds_for<R: Abort + AllocGlobal>(rt: &R, word: &str) -> Vec<Box<dyn Bound>> {
    if word == "journeys" {
        return five_bounds(rt);
    }
    four_bounds(rt)
}

// The square of a name such as `e4`.
fn square_of(rt: &impl Abort, name: &str) -> Square {
    let mut bytes = name.bytes();
    let file = bytes.next().unwrap_or(0).wrapping_sub(b'`');
    let rank = bytes.next().unwrap_or(0).wrapping_sub(b'0');
    Square::new(file, rank).expect(rt, name)
}

// Tolls with the one that a square and a number spell, as `e4=-9`.
fn with_toll(rt: &impl Abort, tolls: [i8; 64], word: &str) -> [i8; 64] {
    let (name, number) = halves(rt, word, "=");
    let square = square_of(rt, name);
    let toll = number.parse::<i8>().expect(rt, word);
    let mut all = tolls;
    all[usize::from(square.index())] = toll;
    all
}

// The tariff of a text such as `14 12 We4=-9 Bd5=7`: the weights of White and of Black, and tolls; others are 0.
pub(crate) fn tariff_of(rt: &impl Abort, text: &str) -> Tariff {
    let mut words = text.split(' ');
    let first = words.next().expect(rt, text);
    let second = words.next().expect(rt, text);
    let mut white = [0i8; 64];
    let mut black = [0i8; 64];
    for word in words {
        if let Some(toll) = word.strip_prefix('W') {
            let next = with_toll(rt, white, toll);
            white = next;
        } else if let Some(toll) = word.strip_prefix('B') {
            let next = with_toll(rt, black, toll);
            black = next;
        }
    }
    Tariff {
        weights: [
            first.parse::<u8>().expect(rt, text),
            second.parse::<u8>().expect(rt, text),
        ],
        tolls: [white, black],
    }
}
