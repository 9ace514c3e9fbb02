//! What the tests of files and of streams share.

use pg_files::Obstacle;
use std::process::Abort;

// A byte, `times` times.
pub(crate) fn repeated<R: Abort + AllocGlobal>(rt: &R, byte: u8, times: usize) -> Vec<u8> {
    let mut bytes = Vec::new(rt.alloc());
    for _ in 0..times {
        assert!(rt; bytes.push(byte).is_ok());
    }
    bytes
}

// The word of a row with this place from 0, between spaces; empty where the row has fewer.
pub(crate) fn word<'a>(row: &'a str, place: usize) -> &'a str {
    row.split(' ').nth(place).unwrap_or("")
}

// The number that a text is.
pub(crate) fn number(rt: &impl Abort, text: &str) -> u64 {
    text.parse().expect(rt, text)
}

// The same, as a size.
pub(crate) fn size(rt: &impl Abort, text: &str) -> usize {
    text.parse().expect(rt, text)
}

// The same, as a byte.
pub(crate) fn byte(rt: &impl Abort, text: &str) -> u8 {
    text.parse().expect(rt, text)
}

// What an obstacle says.
pub(crate) fn to_text<R: Abort + AllocGlobal>(rt: &R, obstacle: Obstacle) -> String {
    let Ok(text) = obstacle.to_string(rt.alloc()) else {
        panic!(rt; "memory");
    };
    text
}
