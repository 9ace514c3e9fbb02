//! Bytes that go out one by one in one call.

use crate::shared::repeated;
use pg_certificate::{Refused, Sink, ToWrite};
use pg_streams::Gathered;
use pg_trial::FailsAt;
use std::io;
use std::io::{ErrorKind, Write};
use std::process::Abort;

// Keeps what is written, with a mark behind each write.
#[derive(Drop)]
struct Pieces {
    bytes: Vec<u8>,
}

impl Write for Pieces {
    ghost use Rattle.std.specs.Prelude.{None};

    ghost contents = { λ _. None };

    fn write(&mut self, bytes: &[u8]) -> io::Result<usize> {
        if self.bytes.extend_from_slice(bytes).is_err() || self.bytes.push(b'|').is_err() {
            return Err(ErrorKind::OutOfMemory.into());
        }
        Ok(bytes.len())
    }

    fn flush(&mut self) -> io::Result<()> {
        Ok(())
    }
}

// Pushes of one byte each.
fn push_singly<W: Sink>(bytes: &[u8], out: &mut W) -> Result<(), Refused> {
    for byte in bytes {
        out.push(&[*byte])?;
    }
    Ok(())
}

// What one try has: a text that is pushed first, the bytes that go out one by one behind it, and the write that fails.
#[derive(Drop)]
struct Asked<'a> {
    before: &'a [u8],
    bytes: &'a [u8],
    at: u64,
}

// What the pushes of one try answer, and whether nothing was refused to the end.
type Answers = (Result<(), Refused>, Result<(), Refused>, bool);

// What the pushes of one try answer: of the bytes one by one, and of a last text.
fn pushed<W: Sink>(
    asked: &Asked<'_>,
    is_single: bool,
    out: &mut W,
) -> (Result<(), Refused>, Result<(), Refused>) {
    let _ = out.push(asked.before);
    let each = if is_single {
        push_singly(asked.bytes, out)
    } else {
        out.push_each(asked.bytes)
    };
    (each, out.push(b"end"))
}

// One try, over a sink that gathers or over one that hands each push on as it comes.
fn try_of(asked: &Asked<'_>, is_gathered: bool, is_single: bool, pieces: &mut Pieces) -> Answers {
    let mut sink = ToWrite::new(FailsAt::new(pieces, asked.at, ErrorKind::Other));
    if is_gathered {
        let mut out = Gathered::new(sink);
        let (each, after) = pushed(asked, is_single, &mut out);
        (each, after, out.finish().is_ok())
    } else {
        let (each, after) = pushed(asked, is_single, &mut sink);
        (each, after, !sink.failed())
    }
}

// One call answers what pushes of one byte each answer, and writes the same pieces.
fn check_pieces<R: Abort + AllocGlobal>(rt: &R, asked: &Asked<'_>, is_gathered: bool) {
    let mut single = Pieces {
        bytes: Vec::new(rt.alloc()),
    };
    let mut each = Pieces {
        bytes: Vec::new(rt.alloc()),
    };
    let wanted = try_of(asked, is_gathered, true, &mut single);
    let answers = try_of(asked, is_gathered, false, &mut each);
    let place = (asked.before.len(), asked.bytes.len(), asked.at);
    assert!(rt; answers == wanted, "{place:?}");
    assert!(rt; each.bytes == single.bytes, "{place:?}");
}

// The same where each of the first writes fails, or none does.
fn check_lengths<R: Abort + AllocGlobal>(rt: &R, text: &[u8], before: usize, count: usize) {
    let (Some(before), Some(bytes)) = (text.get(..before), text.get(..count)) else {
        panic!(rt; "a text of {count} bytes behind one of {before}");
    };
    for at in 0..5u64 {
        check_pieces(rt, &Asked { before, bytes, at }, true);
    }
}

// The same of texts about as long as the room, which is 4,096 bytes, behind `before` bytes.
fn check_behind<R: Abort + AllocGlobal>(rt: &R, text: &[u8], before: usize) {
    for count in [0, 1, 2, 4095, 4096, 4097, 8193] {
        check_lengths(rt, text, before, count);
    }
}

#[test]
fn pieces_of_single_bytes(rt: HostRuntime) {
    let text = repeated(&rt, b'x', 8193);
    for before in [0, 1, 4095, 4096, 4097] {
        check_behind(&rt, text.as_slice(), before);
    }
}

// Nothing is gathered: each byte is a write of its own, of which each fails once.
#[test]
fn pieces_of_a_writer(rt: HostRuntime) {
    for bytes in [b"".as_slice(), b"a", b"<a>", b"twelve bytes"] {
        for before in [b"".as_slice(), b"before"] {
            for at in 0..16u64 {
                check_pieces(&rt, &Asked { before, bytes, at }, false);
            }
        }
    }
}

// Two bytes are too many for a room that lacks one: the piece is full all the same.
#[test]
fn a_full_piece(rt: HostRuntime) {
    let text = repeated(&rt, b'x', 4095);
    let mut pieces = Pieces {
        bytes: Vec::new(rt.alloc()),
    };
    let asked = Asked {
        before: text.as_slice(),
        bytes: b"yz",
        at: 9,
    };
    assert_eq!(rt;
        try_of(&asked, true, false, &mut pieces),
        (Ok(()), Ok(()), true)
    );
    assert_eq!(rt; pieces.bytes.len(), 4102);
    assert!(rt; pieces.bytes.as_slice().ends_with(b"xxy|zend|"));
}

// A sink that failed refuses each byte, and no byte is no push.
fn check_failed<W: Sink>(rt: &impl Abort, out: &mut W) {
    assert_eq!(rt; out.push_each(b"some"), Err(Refused));
    assert!(rt; out.failed());
    assert_eq!(rt; out.push_each(b""), Ok(()));
    assert_eq!(rt; out.push_each(b"a"), Err(Refused));
}

#[test]
fn no_bytes_are_no_push(rt: HostRuntime) {
    let text = repeated(&rt, b'x', 4096);
    let writer = FailsAt::new(Vec::new(rt.alloc()), 0, ErrorKind::Other);
    check_failed(&rt, &mut ToWrite::new(writer));
    let writer = FailsAt::new(Vec::new(rt.alloc()), 0, ErrorKind::Other);
    let mut out = Gathered::new(ToWrite::new(writer));
    assert_eq!(rt; out.push(text.as_slice()), Ok(()));
    check_failed(&rt, &mut out);
}
