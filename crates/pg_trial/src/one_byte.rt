//! A reader or a writer of one byte a call.

use std::io;
use std::io::{Read, Write};

/// Hands each read and write on to a reader or a writer with one byte alone, however many there are
/// or are wanted.
#[derive(Drop)]
pub struct OneByte<T> {
    inner: T,
}

impl<T> OneByte<T> {
    /// One byte a call of this reader or writer.
    pub fn new(inner: T) -> OneByte<T> {
        OneByte { inner }
    }

    /// The reader or the writer.
    pub fn into_inner(self) -> T {
        let OneByte { inner } = self;
        inner
    }
}

impl<R: Read> Read for OneByte<R> {
    ghost remaining = { λ s. R.remaining s.inner };

    fn read(&mut self, buffer: &mut [u8]) -> io::Result<usize> {
        let room = buffer.len().min(1);
        self.inner.read(&mut buffer[..room])
    }
}

impl<W: Write> Write for OneByte<W> {
    ghost contents = { λ s. W.contents s.inner };

    fn write(&mut self, bytes: &[u8]) -> io::Result<usize> {
        let count = bytes.len().min(1);
        self.inner.write(&bytes[..count])
    }

    fn flush(&mut self) -> io::Result<()> {
        self.inner.flush()
    }
}
