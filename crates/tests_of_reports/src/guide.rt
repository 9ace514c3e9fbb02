//! Explanations of a line: what the tests share.

mod cuts;
mod growths;
mod lines;
mod refusals;
mod tolls;

use crate::shared::{
    MANY, Said, bounds_for, certificate, diagram_of, field, halves, length_of, lines_of,
    opened_for, problem_of, text_of, told, unopened, words,
};
use pg_captures::Bound;
use pg_certificate::format::MOST_NAMED;
use pg_certificate::{FromRead, Sink, Source, ToWrite};
use pg_guide::*;
use std::alloc::Global;
use std::process::Abort;

// What is answered with the four bounds, or with journeys as a fifth where the row ends so, by a reading of the
// certificate. The row has the diagram and the length that the certificate is for, and moves.
fn explain<R: Abort + AllocGlobal, S: Source, W: Sink>(
    rt: &R,
    asked: &str,
    source: &mut S,
    out: &mut W,
) -> Said {
    let bounds = bounds_for(rt, field(asked, 5));
    let problem = problem_of(rt, field(asked, 0), field(asked, 1));
    let moves = field(asked, 2);
    let mut opened = match opened_for(rt, &problem, source) {
        Ok(opened) => opened,
        Err(fault) => return unopened(fault),
    };
    told(&why(
        rt.alloc(),
        &mut opened,
        moves,
        &[],
        &bounds,
        source,
        out,
        MANY,
        MOST_NAMED,
    ))
}

// What is answered over these bytes.
fn explain_bytes<R: Abort + AllocGlobal, W: Sink>(
    rt: &R,
    asked: &str,
    bytes: &[u8],
    out: &mut W,
) -> Said {
    explain(rt, asked, &mut FromRead::new(bytes), out)
}

// This is answered over these bytes; what is written.
fn told_of<R: Abort + AllocGlobal>(rt: &R, asked: &str, bytes: &[u8], answer: &str) -> Vec<u8> {
    let mut out = ToWrite::new(Vec::new(rt.alloc()));
    let said = explain_bytes(rt, asked, bytes, &mut out);
    assert_eq!(rt; said.as_str(), answer, "{asked}");
    out.into_inner()
}

// This is answered over these bytes, and these lines are written.
fn check<R: Abort + AllocGlobal>(rt: &R, asked: &str, bytes: &[u8], answer: &str, lines: &str) {
    let text = told_of(rt, asked, bytes, answer);
    assert_eq!(rt; text_of(rt, text.as_slice()), lines, "{asked}");
}

// The certificate of a row: what its header has, and its records.
fn bytes_of<R: Abort + AllocGlobal>(rt: &R, asked: &str) -> Vec<u8> {
    let header = field(asked, 3);
    let records = field(asked, 4);
    certificate(rt, header, records)
}

// What is answered to a row, and the lines that are written: an arrow stands before the answer, and one
// before the lines.
fn check_row<R: Abort + AllocGlobal>(rt: &R, row: &str) {
    let row = lines_of(rt, row);
    let (asked, rest) = halves(rt, row.as_str(), " => ");
    let (answer, lines) = rest.split_once(" => ").unwrap_or((rest, ""));
    check(rt, asked, bytes_of(rt, asked).as_slice(), answer, lines);
}

// So is each row of a table.
fn check_table<R: Abort + AllocGlobal>(rt: &R, table: &str) {
    for row in table.lines() {
        check_row(rt, row);
    }
}
