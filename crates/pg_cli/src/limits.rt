//! How far a search goes, as the words of a command say it.

use clap::ArgMatches;
use clap::parser::ValueSource;
use pg_streams::{Allowed, amount_of, milliseconds_of};

// How far a search goes: the most nodes, the most milliseconds, if they are limited, and the most bytes of a certificate
// that is written to a file.
#[derive(Clone, Copy)]
pub(crate) struct Reach {
    pub(crate) nodes: u64,
    pub(crate) milliseconds: Option<u64>,
    pub(crate) bytes: u64,
}

impl Reach {
    // What a search is allowed.
    pub(crate) fn allowed(&self) -> Allowed {
        Allowed {
            nodes: self.nodes,
            milliseconds: self.milliseconds,
        }
    }
}

// The most bytes of a certificate, where the words do not say it.
const BYTES: u64 = 4_000_000_000;

// The milliseconds that the words say, if they do.
fn milliseconds(words: &ArgMatches<'_>) -> Option<u64> {
    milliseconds_of(words.get_str("minutes")?)
}

// The number of nodes or of bytes that the word with this name says; the usual one where there is no such word.
pub(crate) fn amount(words: &ArgMatches<'_>, name: &str, usual: u64) -> u64 {
    match words.get_str(name) {
        Some(text) => amount_of(text).unwrap_or(usual),
        None => usual,
    }
}

// How far the words let a search go: with minutes and no number of nodes, so far as the time reaches.
pub(crate) fn reach_of(words: &ArgMatches<'_>, usual: u64) -> Reach {
    let milliseconds = milliseconds(words);
    let nodes = amount(words, "nodes", usual);
    let is_said = words.value_source("nodes") == Some(ValueSource::CommandLine);
    Reach {
        nodes: if milliseconds.is_some() && !is_said {
            u64::MAX
        } else {
            nodes
        },
        milliseconds,
        bytes: amount(words, "bytes", BYTES),
    }
}

// Whether the number of minutes that a command's words may say is one.
pub(crate) fn are_minutes(words: &ArgMatches<'_>) -> bool {
    match words.get_str("minutes") {
        Some(minutes) => milliseconds_of(minutes).is_some(),
        None => true,
    }
}

// Whether the number of nodes or of bytes that a command's word with this name may say is one.
pub(crate) fn is_amount(words: &ArgMatches<'_>, name: &str) -> bool {
    match words.get_str(name) {
        Some(number) => amount_of(number).is_some(),
        None => true,
    }
}
