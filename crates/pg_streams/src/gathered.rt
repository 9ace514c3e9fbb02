//! A sink that gathers bytes before it hands them on.
ghost use Rattle.std.specs.Prelude.{◌≡◌, ◌≤◌, ◌<◌, [], length, take, true, false, IfOk, OnOk, OnErr};
ghost use Rattle.std.specs.Io.KnownBytes.{Appends, Keeps, append_known};
ghost use Rattle.pg_streams.specs.Buffer.{IsHandedOn, sink_of};

use arrayvec::ArrayVec;
use pg_certificate::{Refused, Sink};
use std::fmt;

// The most bytes that are held.
const ROOM: usize = 4096;

/// Hands the bytes that it takes on to a sink, up to 4,096 of small pieces at a time, so that a text of
/// many short pieces costs few writes. What it counts as held is what that sink holds and then the
/// bytes that it has not handed on. `finish` hands on the last.
#[derive(Drop)]
pub struct Gathered<W> {
    inner: W,
    bytes: ArrayVec<u8, ROOM>,
}

impl<W: Sink> Gathered<W> {
    /// Over a sink, with nothing gathered.
    pub fn new(inner: W) -> Gathered<W>
        ensures held { Keeps (W.held inner) (⟦<Gathered<W> as Sink>⟧.held result) }
        ensures runs { ⟦<Gathered<W> as Sink>⟧.has_failed result ≡ W.has_failed inner }
    {
        Gathered {
            inner,
            bytes: ArrayVec::new(),
        }
    }

    // Hands on what is gathered.
    fn hand_on(&mut self) -> Result<(), Refused>
        ensures bytes { OnOk result (Keeps (append_known (W.held self.old.inner) self.old.bytes.items)
            (W.held self.new.inner)) }
        ensures empty { OnOk result (self.new.bytes.items ≡ []) }
        ensures runs { OnOk result ((W.has_failed self.old.inner ≡ false) × (W.has_failed self.new.inner ≡ false)) }
        ensures fault { OnErr result (W.has_failed self.new.inner ≡ true) }
    {
        match self.inner.push(self.bytes.as_slice()) {
            Ok(()) => {
                self.bytes.clear();
                Ok(())
            }
            Err(Refused) => Err(Refused),
        }
    }

    // Takes as many of the bytes as there is room for, and answers their number. Only where there is no room at
    // all is what is held handed on first, which is when a push of one byte does so.
    fn fill(&mut self, bytes: &[u8]) -> Result<usize, Refused>
        requires { 0 < length bytes.now }
        ensures some { IfOk result (λ n. 0 < n × n ≤ length bytes.now) }
        ensures bytes { IfOk result (λ n. Appends (⟦<Gathered<W> as Sink>⟧.held self.old)
            (⟦<Gathered<W> as Sink>⟧.held self.new) (take n bytes.now)) }
        ensures runs { OnOk result ((⟦<Gathered<W> as Sink>⟧.has_failed self.old ≡ false)
            × (⟦<Gathered<W> as Sink>⟧.has_failed self.new ≡ false)) }
        ensures fault { OnErr result (⟦<Gathered<W> as Sink>⟧.has_failed self.new ≡ true) }
    {
        if self.inner.failed() {
            return Err(Refused);
        }
        if self.bytes.is_full() {
            self.hand_on()?;
        }
        let count = bytes.len().min(self.bytes.remaining_capacity());
        match self.bytes.try_extend_from_slice(&bytes[..count]) {
            Ok(()) => Ok(count),
            Err(_) => Err(Refused),
        }
    }

    /// Hands on the bytes that are held; the sink then holds all that was pushed.
    ///
    /// # Errors
    /// `Refused` where the sink refuses them, which has failed then.
    pub fn flush(&mut self) -> Result<(), Refused>
        ensures handed { OnOk result (Keeps (⟦<Gathered<W> as Sink>⟧.held self.old) (W.held (sink_of self.new))) }
        ensures all { OnOk result (IsHandedOn self.new) }
        ensures runs { OnOk result ((⟦<Gathered<W> as Sink>⟧.has_failed self.old ≡ false)
            × (⟦<Gathered<W> as Sink>⟧.has_failed self.new ≡ false)) }
        ensures fault { OnErr result (⟦<Gathered<W> as Sink>⟧.has_failed self.new ≡ true) }
    {
        self.hand_on()
    }

    /// Hands on the last bytes; the sink then holds all that was pushed.
    ///
    /// # Errors
    /// `Refused` where the sink refuses them.
    pub fn finish(self) -> Result<W, Refused>
    where
        W: Drop,
        ensures held { IfOk result (λ w. Keeps (⟦<Gathered<W> as Sink>⟧.held self) (W.held w)) }
        ensures runs { IfOk result (λ w. W.has_failed w ≡ false) }
    {
        let mut last = self;
        match last.hand_on() {
            Ok(()) => {
                let Gathered { inner, bytes: _ } = last;
                Ok(inner)
            }
            Err(Refused) => Err(Refused),
        }
    }
}

impl<W: Sink> Sink for Gathered<W> {
    ghost held = { λ s. append_known (W.held s.inner) s.bytes.items };

    ghost has_failed = { λ s. W.has_failed s.inner };

    fn push(&mut self, bytes: &[u8]) -> Result<(), Refused> {
        if self.inner.failed() {
            return Err(Refused);
        }
        match self.bytes.try_extend_from_slice(bytes) {
            Ok(()) => return Ok(()),
            Err(_) => {}
        }
        self.hand_on()?;
        match self.bytes.try_extend_from_slice(bytes) {
            Ok(()) => Ok(()),
            Err(_) => self.inner.push(bytes),
        }
    }

    // The bytes go out in the pieces that pushes of one byte each make: of 4,096 bytes, each when the next byte comes.
    fn push_each(&mut self, bytes: &[u8]) -> Result<(), Refused> {
        let mut at = 0;
        while at < bytes.len() {
            at += self.fill(&bytes[at..])?;
        }
        Ok(())
    }

    fn failed(&self) -> bool {
        self.inner.failed()
    }
}

impl<W: Sink> fmt::Write for Gathered<W> {
    ghost write_str_gives = { λ old text new.
        Appends (⟦<Gathered<W> as Sink>⟧.held old) (⟦<Gathered<W> as Sink>⟧.held new) text };

    fn write_str(&mut self, text: &str) -> fmt::Result {
        match self.push(text.as_bytes()) {
            Ok(()) => Ok(()),
            Err(Refused) => Err(fmt::Error),
        }
    }
}
