//! A writer whose bytes are limited.
ghost use Rattle.std.specs.Prelude.{◌≡◌, ◌↔◌, ◌⊎◌, length, IfOk, IsErr, IsNone, IsTrue, None, OnErr, Some};
ghost use Rattle.std.specs.Io.{WritesAtMost};
ghost use Rattle.std.specs.Io.KnownBytes.{WriteAppends};
ghost use Rattle.pg_streams.specs.Room.{IsLeftAfter, room_of, writer_of};

use crate::room::Room;
use std::io;
use std::io::{ErrorKind, Write};

/// Hands writes on to a writer, as far as its room goes. A write that would pass that is refused whole, by an error of
/// the kind `FileTooLarge`, and so is each write after it. What the writer below does not take has no part in the count.
#[derive(Drop)]
pub struct Limited<W> {
    inner: W,
    room: Room,
}

impl<W> Limited<W> {
    /// Over a writer, for `most` bytes.
    pub fn new(inner: W, most: u64) -> Limited<W>
        ensures inner { writer_of result ≡ inner }
        ensures room { room_of result ≡ Some most }
    {
        Limited {
            inner,
            room: Room::new(most),
        }
    }

    /// Whether a write was refused since it would have passed the limit.
    pub fn is_full(&self) -> bool
        ensures { IsTrue result ↔ IsNone (room_of self.now) }
    {
        self.room.is_full()
    }

    /// The writer, after all that was handed on.
    pub fn into_inner(self) -> W
        ensures { result ≡ writer_of self }
    {
        let Limited { inner, room: _ } = self;
        inner
    }
}

impl<W: Write> Write for Limited<W> {
    ghost contents = { λ s. W.contents s.inner };

    // It comes once in some thousand bytes: inlined, it would keep the writing of a single byte from being so.
    #[inline(never)]
    fn write(&mut self, bytes: &[u8]) -> io::Result<usize>
        ensures bound { WritesAtMost result bytes.now }
        ensures bytes { WriteAppends (W.contents (writer_of self.old)) (W.contents (writer_of self.new)) result
            bytes.now }
        ensures room { IfOk result (λ n. IsLeftAfter (room_of self.old) n (room_of self.new)) }
        ensures full { IsLeftAfter (room_of self.old) (length bytes.now) None
            → IsErr result × (room_of self.new ≡ None) × (writer_of self.new ≡ writer_of self.old) }
        ensures fault { OnErr result ((room_of self.new ≡ None) ⊎ (room_of self.new ≡ room_of self.old)) }
    {
        let mut wanted = self.room;
        if !wanted.take(bytes.len()) {
            self.room = wanted;
            return Err(ErrorKind::FileTooLarge.into());
        }
        let count = self.inner.write(bytes)?;
        let _ = self.room.take(count);
        Ok(count)
    }

    fn flush(&mut self) -> io::Result<()> {
        self.inner.flush()
    }
}
