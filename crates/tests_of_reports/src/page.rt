//! Pages that show a certificate: what the tests share.

mod bytes;
mod numbers;
mod refusals;
mod tolls;
mod trees;

use crate::shared::{
    MANY, Said, bounds_for, certificate, field, halves, lines_of, opened_for, problem_of, text_of,
    told, unopened,
};
use pg_certificate::format::MOST_NAMED;
use pg_certificate::{FromRead, Sink, Source, ToWrite};
use pg_page::*;
use std::process::Abort;

// What is answered with the four bounds, or with journeys as a fifth where the row ends so, by a reading of the
// certificate. The row has the diagram and the length that the certificate is for, and a number of nodes; last may stand
// a title and an author.
fn show<R: Abort + AllocGlobal, S: Source, W: Sink>(
    rt: &R,
    asked: &str,
    source: &mut S,
    out: &mut W,
) -> Said {
    let bounds = bounds_for(rt, field(asked, 5));
    let problem = problem_of(rt, field(asked, 0), field(asked, 1));
    let nodes = field(asked, 2).parse::<u64>().expect(rt, asked);
    let caption = Caption {
        title: field(asked, 6),
        author: field(asked, 7),
    };
    let mut opened = match opened_for(rt, &problem, source) {
        Ok(opened) => opened,
        Err(fault) => return unopened(fault),
    };
    told(&page(
        rt.alloc(),
        &mut opened,
        &caption,
        nodes,
        &[],
        &bounds,
        source,
        out,
        MANY,
        MOST_NAMED,
    ))
}

// What is answered over these bytes.
fn show_bytes<R: Abort + AllocGlobal, W: Sink>(
    rt: &R,
    asked: &str,
    bytes: &[u8],
    out: &mut W,
) -> Said {
    show(rt, asked, &mut FromRead::new(bytes), out)
}

// This is answered over these bytes; what is written.
fn page_of<R: Abort + AllocGlobal>(rt: &R, asked: &str, bytes: &[u8], answer: &str) -> Vec<u8> {
    let mut out = ToWrite::new(Vec::new(rt.alloc()));
    let said = show_bytes(rt, asked, bytes, &mut out);
    assert_eq!(rt; said.as_str(), answer, "{asked}");
    out.into_inner()
}

// The certificate of a row: what its header has, and its records.
fn bytes_of<R: Abort + AllocGlobal>(rt: &R, asked: &str) -> Vec<u8> {
    certificate(rt, field(asked, 3), field(asked, 4))
}
