//! A sink for the certificate of a walk that is made for something else, and a watch that is told no game twice.

use crate::progress::SearchProgress;
use pg_certificate::{Refused, Sink};

// Keeps no byte.
#[derive(Drop)]
pub(crate) struct Unkept;

impl Sink for Unkept {
    ghost use Rattle.std.specs.Prelude.{false, None};

    ghost held = { λ s. None };

    ghost has_failed = { λ s. false };

    fn push(&mut self, _bytes: &[u8]) -> Result<(), Refused> {
        Ok(())
    }

    fn failed(&self) -> bool {
        false
    }
}

// Tells another watch how far a walk is, and nothing of the games, which it was told before.
#[derive(Drop)]
pub(crate) struct Again<'a, P> {
    pub(crate) watch: &'a mut P,
}

impl<P: SearchProgress> SearchProgress for Again<'_, P> {
    fn reached(&mut self, plies: u8, left: u64) {
        self.watch.reached(plies, left);
    }

    fn goes_on(&mut self) -> bool {
        self.watch.goes_on()
    }
}
