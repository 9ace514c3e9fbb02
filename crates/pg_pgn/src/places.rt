//! Lines and columns.
ghost use Rattle.std.specs.Prelude.{◌≡◌, ◌+◌, ◌<◌, ◌≤◌, length};
ghost use Rattle.pg_pgn.specs.Places.{begins_feed, ends_line, goes_on, next_line, next_column, line_from, column_from};
ghost use Rattle.pg_pgn.specs.Tokens.{without_mark};
ghost use Rattle.pg_pgn.specs.Pgn.{IsPlace};

use crate::tokens::without_mark;

/// A line and a column, counted from 1.
#[derive(Clone, Copy, Debug, PartialEq, Eq)]
pub(crate) struct Place {
    pub(crate) line: usize,
    pub(crate) column: usize,
}

fn begins_feed(text: &[u8]) -> bool
    ensures { result ≡ begins_feed text.now }
{
    matches!(text.split_first(), Some((b'\n', _)))
}

fn ends_line(byte: u8, more: &[u8]) -> bool
    ensures { result ≡ ends_line byte more.now }
{
    byte == b'\n' || byte == b'\r' && !begins_feed(more)
}

fn goes_on(byte: u8) -> bool
    ensures { result ≡ goes_on byte }
{
    byte >= 128 && byte < 192
}

// The line that is reached behind a byte in a line, before these.
fn next_line(line: usize, byte: u8, more: &[u8]) -> usize
    requires { line < 18446744073709551615 }
    ensures value { result ≡ next_line line byte more.now }
    ensures small { result ≤ line + 1 }
{
    if ends_line(byte, more) {
        line + 1
    } else {
        line
    }
}

// The line that is reached behind a text.
#[tactic(auto, unfolding(crate::specs::Places::line_from))]
fn line_behind(text: &[u8]) -> usize
    ensures { result ≡ line_from 1 text.now }
{
    let mut line = 1;
    let mut rest = text;
    while let Some((byte, more)) = rest.split_first() {
        line = next_line(line, *byte, more);
        rest = more;
    }
    line
}

// The column that is reached from a column on behind a byte, before these.
fn next_column(column: usize, byte: u8, more: &[u8]) -> usize
    requires { column < 18446744073709551615 }
    ensures value { result ≡ next_column column byte more.now }
    ensures small { result ≤ column + 1 }
{
    if ends_line(byte, more) {
        1
    } else if goes_on(byte) {
        column
    } else {
        column + 1
    }
}

// The column that is reached behind a text.
#[tactic(auto, unfolding(crate::specs::Places::column_from))]
fn column_behind(text: &[u8]) -> usize
    ensures { result ≡ column_from 1 text.now }
{
    let mut column = 1;
    let mut rest = text;
    while let Some((byte, more)) = rest.split_first() {
        column = next_column(column, *byte, more);
        rest = more;
    }
    column
}

/// The place in a text where its rest begins.
pub(crate) fn place_of(text: &[u8], rest: &[u8]) -> Place
    requires { length rest.now ≤ length (without_mark text.now) }
    ensures { IsPlace text.now rest.now result.line result.column }
{
    let text = without_mark(text);
    let before = &text[..text.len() - rest.len()];
    Place {
        line: line_behind(before),
        column: column_behind(before),
    }
}
