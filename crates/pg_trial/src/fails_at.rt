//! A reader or a writer that fails at one call.
ghost use Rattle.std.specs.Prelude.{◌≡◌};

use std::io;
use std::io::{ErrorKind, Read, Write};

/// Passes each read, write and flush on to a reader or a writer, and answers one of them, by its
/// number from 0, with an error in its place. The calls after it are passed on again, so that one
/// who tries again is found out.
#[derive(Drop)]
pub struct FailsAt<T> {
    inner: T,
    at: u64,
    kind: ErrorKind,
    calls: u64,
}

impl<T> FailsAt<T> {
    /// One that no call has reached yet, and that answers the call with this number by an error of
    /// this kind.
    pub fn new(inner: T, at: u64, kind: ErrorKind) -> FailsAt<T> {
        FailsAt {
            inner,
            at,
            kind,
            calls: 0,
        }
    }

    /// The number of calls so far, the one that failed included.
    pub fn calls(&self) -> u64 {
        self.calls
    }

    /// The reader or the writer.
    pub fn into_inner(self) -> T {
        let FailsAt {
            inner,
            at: _,
            kind: _,
            calls: _,
        } = self;
        inner
    }

    // Counts a call, and answers whether it is the one that fails.
    fn fails(&mut self) -> bool
        ensures { self.new.inner ≡ self.old.inner }
    {
        let fails = self.calls == self.at;
        self.calls = self.calls.saturating_add(1);
        fails
    }
}

impl<R: Read> Read for FailsAt<R> {
    ghost remaining = { λ s. R.remaining s.inner };

    fn read(&mut self, buffer: &mut [u8]) -> io::Result<usize> {
        if self.fails() {
            return Err(self.kind.into());
        }
        self.inner.read(buffer)
    }
}

impl<W: Write> Write for FailsAt<W> {
    ghost contents = { λ s. W.contents s.inner };

    fn write(&mut self, bytes: &[u8]) -> io::Result<usize> {
        if self.fails() {
            return Err(self.kind.into());
        }
        self.inner.write(bytes)
    }

    fn flush(&mut self) -> io::Result<()> {
        if self.fails() {
            return Err(self.kind.into());
        }
        self.inner.flush()
    }
}
