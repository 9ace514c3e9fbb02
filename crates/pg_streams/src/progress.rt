//! How much of a certificate has passed by, on the terminal.
ghost use Rattle.std.specs.Prelude.{◌≤◌};

use crate::line::{Line, Terminal, WIDTH};
use arrayvec::ArrayString;
use pg_certificate::{FromRead, Refused, Source};
use std::fmt::Write;
use std::io::{Eprint, Read};
use std::time::Clock;

// How many hundredths of the limit a count is, 100 at most.
pub(crate) fn share(count: u64, limit: u64) -> u64
    ensures { result ≤ 100 }
{
    if count >= limit {
        return 100;
    }
    let hundredths = u128::from(count) * 100 / u128::from(limit);
    hundredths.min(100) as u64
}

// A number in thousands, millions and so on, so that it is below 100,000, and the letter that says in
// which; what is left over is dropped.
pub(crate) fn scaled(number: u64) -> (u64, &'static str)
    ensures { result.0 ≤ 99999 }
{
    match number {
        0..=99_999 => (number, ""),
        0..=99_999_999 => (number / 1_000, "k"),
        0..=99_999_999_999 => (number / 1_000_000, "M"),
        0..=99_999_999_999_999 => (number / 1_000_000_000, "G"),
        0..=99_999_999_999_999_999 => (number / 1_000_000_000_000, "T"),
        _ => (number / 1_000_000_000_000_000, "P"),
    }
}

/// The line of a check: how many bytes of a certificate have passed by, and how many hundredths of all those are, where
/// their number is known.
pub fn line_of(bytes: u64, size: Option<u64>) -> ArrayString<WIDTH> {
    let mut line = ArrayString::new();
    let (number, unit) = scaled(bytes);
    let _ = write!(line, "{number}{unit} bytes");
    if let Some(size) = size {
        let share = share(bytes, size);
        let _ = write!(line, " {share}% of file");
    }
    line
}

// Shows how many bytes have passed by.
#[derive(Drop)]
struct Watch<'a, R> {
    line: Line<'a, R>,
    size: Option<u64>,
    bytes: u64,
}

impl<R: Clock + Eprint> Watch<'_, R> {
    // `count` bytes more have passed by.
    fn pass(&mut self, count: usize) {
        self.bytes = self.bytes.saturating_add(count as u64);
        if self.line.is_due() {
            self.line.show(line_of(self.bytes, self.size).as_str());
        }
    }
}

/// A certificate that passes by, with a line on the terminal that says how much of it has.
pub struct Passing<'a, T, R> {
    inner: T,
    watch: Watch<'a, R>,
}

impl<'a, C: Read + Drop, R: Clock + Eprint> Passing<'a, FromRead<C>, R> {
    /// A certificate that a reader gives, of `size` bytes, where that is known.
    pub fn new(
        rt: &'a R,
        terminal: &'a Terminal,
        certificate: C,
        size: Option<u64>,
    ) -> Passing<'a, FromRead<C>, R> {
        let watch = Watch {
            line: Line::new(rt, terminal),
            size,
            bytes: 0,
        };
        Passing {
            inner: FromRead::new(certificate),
            watch,
        }
    }
}

impl<T: Drop, R: Clock + Eprint> Passing<'_, T, R> {
    /// Takes the line away, and drops what passed by.
    pub fn end(self) {
        let Passing {
            inner: _,
            mut watch,
        } = self;
        watch.line.end();
    }
}

impl<T: Source, R: Clock + Eprint> Source for Passing<'_, T, R> {
    ghost left = { λ s. T.left s.inner };

    ghost has_failed = { λ s. T.has_failed s.inner };

    fn pull(&mut self, buffer: &mut [u8]) -> Result<usize, Refused> {
        match self.inner.pull(buffer) {
            Ok(count) => {
                if count == 0 {
                    self.watch.line.end();
                } else {
                    self.watch.pass(count);
                }
                Ok(count)
            }
            Err(Refused) => {
                self.watch.line.end();
                Err(Refused)
            }
        }
    }

    fn failed(&self) -> bool {
        self.inner.failed()
    }
}
