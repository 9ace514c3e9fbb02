//! A source that gives no more when its time is over.
ghost use Rattle.std.specs.Prelude.{◌≡◌, ◌||◌};
ghost use Rattle.pg_streams.specs.Ending.{has_ended, is_ended, source_of};

use crate::deadline::Deadline;
use pg_certificate::{Refused, Source};
use std::time::Clock;

/// The bytes of a source up to a deadline: when that is over the source has failed, and gives no more. The clock is
/// asked at each pull. A check pulls 4,096 bytes at a time, which have 2,048 cuts by journeys at most, the dearest
/// records: it comes to the next pull in a fraction of a second.
#[derive(Drop)]
pub struct Until<'a, T, R> {
    inner: T,
    deadline: Deadline<'a, R>,
}

impl<'a, T: Source, R: Clock> Until<'a, T, R> {
    /// Of a source, up to this deadline.
    pub fn new(inner: T, deadline: Deadline<'a, R>) -> Until<'a, T, R>
        ensures inner { source_of result ≡ inner }
        ensures over { is_ended result ≡ has_ended deadline.entry }
        ensures left { ⟦<Until<'a, T, R> as Source>⟧.left result ≡ T.left inner }
        ensures runs { ⟦<Until<'a, T, R> as Source>⟧.has_failed result
            ≡ T.has_failed inner || has_ended deadline.entry }
    {
        Until { inner, deadline }
    }

    /// Whether its time was over at a pull, which was refused for that.
    pub fn is_over(&self) -> bool
        ensures { result ≡ is_ended self.now }
    {
        self.deadline.has_ended()
    }

    /// The source, after all that was pulled.
    pub fn into_inner(self) -> T
        ensures inner { result ≡ source_of self.entry }
        ensures left { T.left result ≡ ⟦<Until<'a, T, R> as Source>⟧.left self.entry }
    {
        let Until { inner, deadline: _ } = self;
        inner
    }
}

impl<T: Source, R: Clock> Source for Until<'_, T, R> {
    ghost left = { λ s. T.left s.inner };

    ghost has_failed = { λ s. T.has_failed s.inner || has_ended s.deadline };

    fn pull(&mut self, buffer: &mut [u8]) -> Result<usize, Refused> {
        if self.deadline.is_over_now() {
            return Err(Refused);
        }
        self.inner.pull(buffer)
    }

    fn failed(&self) -> bool {
        self.inner.failed() || self.deadline.has_ended()
    }
}
