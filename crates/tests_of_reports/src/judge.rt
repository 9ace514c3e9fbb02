//! Lines that are judged, and their rows: what the tests share.
ghost use Rattle.pg_judge.specs.Ruling.{IsFindingOf};

mod faults;
mod growing;
mod reports;
mod rows;
mod scratches;
mod standing;
mod tolling;

use crate::shared::{five_bounds, text_of};
use pg_certificate::ToWrite;
use pg_judge::*;
use pg_searcher::SearchProgress;
use std::io::Cursor;
use std::process::Abort;

// The problem that a line spells.
fn entry_of<'a, R: Abort + AllocGlobal>(rt: &R, line: &'a str) -> Entry<'a> {
    match read_entry(rt.alloc(), line.as_bytes()) {
        Ok(Some(entry)) => entry,
        _ => panic!(rt; "{line}"),
    }
}

// Limits of this many nodes, within which one search is enough that meets two games.
fn nodes(max_nodes: u64) -> Limits {
    Limits {
        max_nodes,
        enough: Enough::OneSearch,
    }
}

// The row of a ruling, as a text in which bars stand for tabs.
fn row_of<R: Abort + AllocGlobal>(rt: &R, entry: &Entry<'_>, ruling: &Ruling, old: Old) -> String
    requires { IsFindingOf entry.now ruling.now.finding }
{
    let mut out = ToWrite::new(Vec::new(rt.alloc()));
    assert!(rt; write_row(entry, ruling, old, &mut out).is_ok());
    let bytes = out.into_inner();
    text_of(rt, bytes.as_slice())
        .replace(rt.alloc(), '\t', "|")
        .expect(rt, "memory")
}

// What is found of a problem within limits, by its first searches.
fn ruling_of<R: Abort + AllocGlobal, S: Scratch, P: JudgeProgress>(
    rt: &R,
    entry: &Entry<'_>,
    limits: Limits,
    scratch: &mut S,
    watch: &mut P,
) -> Ruling
    ensures { IsFindingOf entry.now result.finding }
{
    let bounds = five_bounds(rt);
    match judge(rt.alloc(), entry, bounds.as_slice(), limits, scratch, watch) {
        Ok(ruling) => ruling,
        Err(pending) => pending.ruling(entry),
    }
}

// Judges a problem within limits, and tells a watch.
fn ruled<R: Abort + AllocGlobal, S: Scratch, P: JudgeProgress>(
    rt: &R,
    line: &str,
    limits: Limits,
    scratch: &mut S,
    watch: &mut P,
) -> String {
    let entry = entry_of(rt, line);
    let ruling = ruling_of(rt, &entry, limits, scratch, watch);
    row_of(rt, &entry, &ruling, Old::Absent)
}
