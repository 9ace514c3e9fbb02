//! Readers of std as sources.
ghost use Rattle.std.specs.Prelude.{◌≡◌, false};

use crate::source::{Refused, Source};
use std::io::Read;

/// A reader of std as a source, with the bytes that the reader tells. A read that is interrupted is
/// a fault like any other, and no read is tried again.
#[derive(Drop)]
pub struct FromRead<R> {
    inner: R,
    failed: bool,
}

impl<R: Read> FromRead<R> {
    ghost use Rattle.pg_certificate.specs.Stream.{reader_of};

    /// The reader as a source that has not failed.
    pub fn new(inner: R) -> FromRead<R>
        ensures inner { reader_of result ≡ inner }
        ensures left { ⟦<FromRead<R> as Source>⟧.left result ≡ R.remaining inner }
        ensures runs { ⟦<FromRead<R> as Source>⟧.has_failed result ≡ false }
    {
        FromRead {
            inner,
            failed: false,
        }
    }

    /// The reader, after all that was pulled.
    pub fn into_inner(self) -> R
        ensures inner { result ≡ reader_of self }
        ensures left { R.remaining result ≡ ⟦<FromRead<R> as Source>⟧.left self }
    {
        let FromRead { inner, failed: _ } = self;
        inner
    }
}

impl<R: Read> Source for FromRead<R> {
    ghost left = { λ s. R.remaining s.inner };

    ghost has_failed = { λ s. s.failed };

    fn pull(&mut self, buffer: &mut [u8]) -> Result<usize, Refused> {
        if self.failed {
            return Err(Refused);
        }
        match self.inner.read(buffer) {
            Ok(count) => Ok(count),
            Err(_) => {
                self.failed = true;
                Err(Refused)
            }
        }
    }

    fn failed(&self) -> bool {
        self.failed
    }
}
