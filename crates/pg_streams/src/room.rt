//! How many bytes may still be written.
ghost use Rattle.std.specs.Prelude.{◌≡◌, ◌↔◌, IsNone, IsSome, IsTrue, Some};
ghost use Rattle.pg_streams.specs.Room.{IsLeftAfter, left_of};

/// How many bytes may still be written. Once some did not fit it is full, and nothing fits any more.
#[derive(Clone, Copy, Debug, PartialEq, Eq)]
pub struct Room {
    /// None where it is full.
    left: Option<u64>,
}

impl Room {
    /// For `most` bytes.
    pub fn new(most: u64) -> Room
        ensures { left_of result ≡ Some most }
    {
        Room { left: Some(most) }
    }

    /// Whether `count` bytes more fit. Where they do, they are taken from what is left; where they do not, it is full
    /// from then on.
    pub fn take(&mut self, count: usize) -> bool
        ensures left { IsLeftAfter (left_of self.old) count (left_of self.new) }
        ensures fits { IsTrue result ↔ IsSome (left_of self.new) }
    {
        self.left = match self.left {
            Some(left) => left.checked_sub(count as u64),
            None => None,
        };
        self.left.is_some()
    }

    /// Whether some bytes did not fit.
    pub fn is_full(&self) -> bool
        ensures { IsTrue result ↔ IsNone (left_of self.now) }
    {
        self.left.is_none()
    }
}
