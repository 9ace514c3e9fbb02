//! Lines that spell no problem.

use super::*;
use crate::shared::halves;

// The name of a problem, and why the author's game is none.
fn told<R: Abort + AllocGlobal>(rt: &R, entry: &Entry<'_>) -> String {
    let name = entry.name;
    match &entry.bad {
        Some(bad) => format!(in rt.alloc(); "a problem, {name}, ply {}: {}", bad.ply, bad.cause),
        None => format!(in rt.alloc(); "a problem, {name}"),
    }
    .expect(rt, "memory")
}

// What a line is refused for; `skipped` where it spells no problem and is none.
fn check_line<R: Abort + AllocGlobal>(rt: &R, line: &[u8], wanted: &str) {
    let found = match read_entry(rt.alloc(), line) {
        Ok(None) => String::from_str(rt.alloc(), "skipped").expect(rt, "memory"),
        Ok(Some(entry)) => told(rt, &entry),
        Err(fault) => format!(in rt.alloc(); "{fault}").expect(rt, "memory"),
    };
    assert_eq!(rt; found.as_str(), wanted);
}

const LINES: &str = " => skipped
 \t  => skipped
# a comment => skipped
  #1 => skipped
a.b-C_9 rnbqkbnr/pppppppp/8/8/8/8/PPPPPPPP/RNBQKBNR\t0 => a problem, a.b-C_9
 x rnbqkbnr/pppppppp/8/8/8/8/PPPPPPPP/RNBQKBNR 0 -  => a problem, x
.x rnbqkbnr/pppppppp/8/8/8/8/PPPPPPPP/RNBQKBNR 0 => bad name
a/b rnbqkbnr/pppppppp/8/8/8/8/PPPPPPPP/RNBQKBNR 0 => bad name
../b => bad name
\u{e4} rnbqkbnr/pppppppp/8/8/8/8/PPPPPPPP/RNBQKBNR 0 => bad name
x => a name, a diagram and a length are wanted
x rnbqkbnr/pppppppp/8/8/8/8/PPPPPPPP/RNBQKBNR => a name, a diagram and a length are wanted
x rnbqkbnr/pppppppp/8/8/8/8/PPPPPPPP/RNBQKBN 0 => bad rank
x rnbqkbnr/pppppppp/8/8/8/8/PPPPPPPP/RNBQKBNR 0,5 => bad length
x rnbqkbnr/pppppppp/8/8/8/8/PPPPPPPP/RNBQKBNR 64.5 => length above 64.0
x rnbqkbnr/pppppppp/8/8/8/8/PPPPPPPP/RNBQKBNR 2 1. e4 e4 => a problem, x, ply 2: no such legal move
x rnbqkbnr/pppppppp/8/8/8/8/PPPPPPPP/RNBQKBNR 2 1. e4 ?? => a problem, x, ply 2: not a move";

#[test]
fn lines(rt: HostRuntime) {
    for row in LINES.lines() {
        let (line, wanted) = halves(&rt, row, " => ");
        check_line(&rt, line.as_bytes(), wanted);
    }
    check_line(&rt, b"x \xff 2", "not UTF-8");
    check_line(&rt, b"\xff rnbqkbnr 2", "bad name");
}
