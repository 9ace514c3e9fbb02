//! Writers of std as sinks.
ghost use Rattle.std.specs.Prelude.{◌≡◌, false};

use crate::source::{Refused, Sink};
use std::io::Write;

/// A writer of std as a sink, with the bytes that the writer tells. A write that is interrupted, or
/// that takes nothing, is a fault like any other, and no write is tried again.
#[derive(Drop)]
pub struct ToWrite<W> {
    inner: W,
    failed: bool,
}

impl<W: Write> ToWrite<W> {
    ghost use Rattle.pg_certificate.specs.Stream.{writer_of};

    /// The writer as a sink that has not failed.
    pub fn new(inner: W) -> ToWrite<W>
        ensures inner { writer_of result ≡ inner }
        ensures held { ⟦<ToWrite<W> as Sink>⟧.held result ≡ W.contents inner }
        ensures runs { ⟦<ToWrite<W> as Sink>⟧.has_failed result ≡ false }
    {
        ToWrite {
            inner,
            failed: false,
        }
    }

    /// The writer, after all that was pushed. It is not flushed.
    pub fn into_inner(self) -> W
        ensures inner { result ≡ writer_of self }
        ensures held { W.contents result ≡ ⟦<ToWrite<W> as Sink>⟧.held self }
    {
        let ToWrite { inner, failed: _ } = self;
        inner
    }
}

impl<W: Write> Sink for ToWrite<W> {
    ghost held = { λ s. W.contents s.inner };

    ghost has_failed = { λ s. s.failed };

    fn push(&mut self, bytes: &[u8]) -> Result<(), Refused> {
        if self.failed {
            return Err(Refused);
        }
        let mut at = 0;
        while at < bytes.len() {
            match self.inner.write(&bytes[at..]) {
                Ok(count) if count > 0 => at += count,
                _ => {
                    self.failed = true;
                    return Err(Refused);
                }
            }
        }
        Ok(())
    }

    fn failed(&self) -> bool {
        self.failed
    }
}
