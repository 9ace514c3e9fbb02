//! The bounds, readers and writers that serve tests.

use crate::shared::field;
use pg_captures::Bound;
use pg_fen::{Diagram, Length, read_position};
use pg_trial::*;
use std::io::{ErrorKind, Read, Write};
use std::process::Abort;

const ARRAY: &str = "rnbqkbnr/pppppppp/8/8/8/8/PPPPPPPP/RNBQKBNR";

fn diagram(rt: &impl Abort, text: &str) -> Diagram {
    Diagram::read(text).expect(rt, text)
}

// Whether a bound excludes a diagram from a position with `left` plies left.
fn excludes(rt: &impl Abort, bound: &impl Bound, goal: &str, from: &str, left: u8) -> bool {
    let position = read_position(from).expect(rt, from).position;
    bound.excludes(&diagram(rt, goal), &position, left)
}

// A diagram, a position, the plies left, and whether the diagram is excluded. After 1. e4 d5 2. exd5 Black has lost a
// pawn, and one ply on the queen has recaptured.
const MEN: &str =
    "rnbqkbnr/pppppppp/8/8/8/8/PPPPPPPP/RNBQKBNR | rnbqkbnr/ppp1pppp/8/3P4/8/8/PPPP1PPP/RNBQKBNR b KQkq - 0 2 | 255 | true
rnbqkbnr/ppp1pppp/8/3P4/8/8/PPPP1PPP/RNBQKBNR | rnb1kbnr/ppp1pppp/8/3q4/8/8/PPPP1PPP/RNBQKBNR w KQkq - 0 3 | 255 | true
rnbqkbnr/ppp1pppp/8/3P4/8/8/PPPP1PPP/RNBQKBNR | rnbqkbnr/pppppppp/8/8/8/8/PPPPPPPP/RNBQKBNR w KQkq - 0 1 | 0 | false
rnbqkbnr/pppppppp/8/8/8/8/PPPPPPPP/RNBQKBNR | rnbqkbnr/pppppppp/8/8/8/8/PPPPPPPP/RNBQKBNR w KQkq - 0 1 | 0 | false";

#[test]
fn no_game_adds_men(rt: HostRuntime) {
    assert_eq!(rt; Men.code(), 9);
    for row in MEN.lines() {
        let left = field(row, 2).parse().expect(&rt, row);
        let excluded = excludes(&rt, &Men, field(row, 0), field(row, 1), left);
        let wanted = field(row, 3).parse().expect(&rt, row);
        assert!(rt; excluded == wanted, "{row}");
    }
}

#[test]
fn one_that_never_excludes(rt: HostRuntime) {
    let never = Never::new(200);
    assert_eq!(rt; never.code(), 200);
    let captured = "rnbqkbnr/ppp1pppp/8/3P4/8/8/PPPP1PPP/RNBQKBNR b KQkq - 0 2";
    assert!(rt; !excludes(&rt, &never, ARRAY, captured, 0));
}

// 300 bytes, the same ones each time.
fn some_bytes() -> [u8; 300] {
    let mut bytes = [0; 300];
    let mut next = 7u8;
    for byte in bytes.iter_mut() {
        *byte = next;
        next = next.wrapping_mul(5).wrapping_add(3);
    }
    bytes
}

// The reader gives those bytes.
fn check_reader<R: Abort + AllocGlobal>(rt: &R, reader: &mut impl Read) {
    let mut read = Vec::new(rt.alloc());
    let count = reader.read_to_end(&mut read).expect(rt, "reads on");
    assert_eq!(rt; count, 300);
    assert!(rt; read.as_slice() == some_bytes().as_slice());
}

#[test]
fn a_fault_out_of_reach_reads_everything(rt: HostRuntime) {
    let bytes = some_bytes();
    check_reader(
        &rt,
        &mut FailsAt::new(bytes.as_slice(), 400, ErrorKind::Other),
    );
    let mut reader = FailsAt::new(OneByte::new(bytes.as_slice()), 400, ErrorKind::Other);
    check_reader(&rt, &mut reader);
    assert_eq!(rt; reader.calls(), 301);
    assert_eq!(rt; reader.into_inner().into_inner().len(), 0);
}

// A writer where no call fails takes those bytes and a flush, by `calls` calls; what it wrote to.
fn written<W: Write + Drop>(rt: &impl Abort, inner: W, calls: u64) -> W {
    let mut writer = FailsAt::new(inner, 400, ErrorKind::Other);
    writer.write_all(&some_bytes()).expect(rt, "writes on");
    writer.flush().expect(rt, "flushes");
    assert_eq!(rt; writer.calls(), calls);
    writer.into_inner()
}

#[test]
fn a_fault_out_of_reach_writes_everything(rt: HostRuntime) {
    let bytes = some_bytes();
    let many = written(&rt, Vec::new(rt.alloc()), 2);
    assert!(rt; many.as_slice() == bytes.as_slice());
    let pieces = written(&rt, OneByte::new(Vec::new(rt.alloc())), 301);
    assert!(rt; pieces.into_inner().as_slice() == bytes.as_slice());
}

// One byte a call on the way to what is behind, and each flush is handed on.
#[test]
fn one_byte_hands_on_each_write(rt: HostRuntime) {
    let bytes = some_bytes();
    let inner = FailsAt::new(Vec::new(rt.alloc()), 300, ErrorKind::Other);
    let mut pieces = OneByte::new(inner);
    pieces.write_all(&bytes).expect(&rt, "writes on");
    assert!(rt; pieces.flush().is_err());
    assert!(rt; pieces.flush().is_ok());
    let inner = pieces.into_inner();
    assert_eq!(rt; inner.calls(), 302);
    assert!(rt; inner.into_inner().as_slice() == bytes.as_slice());
}

#[test]
fn one_byte_hands_on_each_read(rt: HostRuntime) {
    let bytes = some_bytes();
    let mut pieces = OneByte::new(FailsAt::new(bytes.as_slice(), 2, ErrorKind::Other));
    let mut room = [0; 8];
    assert!(rt; matches!(pieces.read(&mut room), Ok(1)));
    assert!(rt; matches!(pieces.read(&mut room[1..]), Ok(1)));
    assert!(rt; pieces.read(&mut room[2..]).is_err());
    assert!(rt; matches!(pieces.read(&mut room[2..]), Ok(1)));
    assert!(rt; room[..3] == bytes[..3]);
    assert!(rt; matches!(pieces.read(&mut []), Ok(0)));
}

#[test]
fn counts_and_keeps_none(rt: HostRuntime) {
    let mut writer = Counted::new();
    assert_eq!(rt; writer.bytes(), 0);
    writer.write_all(&some_bytes()).expect(&rt, "counts");
    writer.write_all(&[7]).expect(&rt, "counts");
    writer.flush().expect(&rt, "flushes");
    assert_eq!(rt; writer.bytes(), 301);
}

// The header of the array has the packed bytes that the format gives.
#[test]
fn certificates_begin_with_their_header(rt: HostRuntime) {
    let array = diagram(&rt, ARRAY);
    let one = Length::read("1.0").expect(&rt, "a length");
    let bytes = certificate(rt.alloc(), b'1', &array, one, &[5; 22]).expect(&rt, "memory");
    assert_eq!(rt; bytes.as_slice(), named_expansions(&array).as_slice());
    assert!(rt; bytes.starts_with(b"PGC1\x02\x24\x53\x36\x42\x11\x11\x11\x11\0"));
    assert!(rt;
        bytes.ends_with(&[
            0x99, 0xac, 0xdb, 0xbe, 0xca, 5, 5, 5, 5, 5, 5, 5, 5, 5, 5, 5, 5, 5, 5, 5, 5, 5, 5, 5,
            5, 5, 5
        ])
    );
}
