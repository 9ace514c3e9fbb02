//! What the tests of certificates and of the checker share: tables of texts, a case a line, and texts that spell
//! bytes.

use pg_trial::append_spelled;
use std::process::Abort;

// What stands before a mark, and what behind it.
pub(crate) fn halves<'a>(rt: &impl Abort, text: &'a str, mark: &str) -> (&'a str, &'a str) {
    text.split_once(mark).expect(rt, text)
}

// The field of a case with this number from 0, between bars; empty where the case has fewer.
pub(crate) fn field<'a>(case: &'a str, number: usize) -> &'a str {
    case.split(" | ").nth(number).unwrap_or("")
}

// Appends the bytes that a text spells.
pub(crate) fn append(rt: &impl Abort, bytes: &mut Vec<u8>, text: &str) {
    assert!(rt; append_spelled(bytes, text), "{text}");
}
