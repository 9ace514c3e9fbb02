//! Certificates as bytes: what the tests of reading and writing share, and the texts of faults.

mod prices;
mod reading;
mod writing;

use crate::shared::{append, halves};
use pg_certificate::*;
use std::fmt::{Display, Write};
use std::process::Abort;
use std::test::*;

// A header of the array in 0 plies, behind its magic.
const ARRAY: &str = "00 24533642 11*4 00*16 99*4 acdbbeca";

// The bytes of a header of the array of this version, if it is told, and of records.
fn spelled<R: Abort + AllocGlobal>(rt: &R, version: &str, records: &str) -> Vec<u8> {
    let mut bytes = Vec::new(rt.alloc());
    if !version.is_empty() {
        append(
            rt,
            &mut bytes,
            words(rt, &format_args!("5047433{version}")).as_str(),
        );
        append(rt, &mut bytes, ARRAY);
    }
    append(rt, &mut bytes, records);
    bytes
}

// What a value says, or the arguments of a format.
fn words<R: Abort + AllocGlobal>(rt: &R, text: &impl Display) -> String {
    format!(in rt.alloc(); "{text}").expect(rt, "memory")
}

static READ_FAULTS: [ReadFault; 7] = [
    ReadFault::Truncated,
    ReadFault::Magic,
    ReadFault::UnknownRecord(7),
    ReadFault::UnknownRecord(255),
    ReadFault::Read,
    ReadFault::Trailing,
    ReadFault::Failed,
];

// Their texts in turn, and then those of faults of writing, and of a refusal.
const TEXTS: &str = "truncated certificate
not a certificate
unknown record byte 7
unknown record byte 255
read fault
bytes after the certificate
reading went on after a fault
write fault
writing went on after a fault
the source or the sink has failed";

// A fault reads so.
fn tells<R: Abort + AllocGlobal>(rt: &R, fault: &impl Display, text: &str) {
    let told = words(rt, fault);
    assert_eq!(rt; told.as_str(), text);
}

#[test]
fn faults_have_their_texts(rt: HostRuntime) {
    let mut lines = TEXTS.lines();
    for fault in &READ_FAULTS {
        tells(&rt, fault, lines.next().unwrap_or(""));
    }
    tells(&rt, &WriteFault::Write, lines.next().unwrap_or(""));
    tells(&rt, &WriteFault::Failed, lines.next().unwrap_or(""));
    tells(&rt, &Refused, lines.next().unwrap_or(""));
    assert!(rt; lines.next().is_none());
}
