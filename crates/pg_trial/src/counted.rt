//! A writer that counts bytes and keeps none.
ghost use Rattle.std.specs.Prelude.{None};

use std::io;
use std::io::Write;

/// Takes all bytes of each write, counts them and keeps none, so that it takes no memory.
#[derive(Clone, Copy, Debug)]
pub struct Counted {
    bytes: usize,
}

impl Counted {
    /// One that no byte was written to.
    pub fn new() -> Counted {
        Counted { bytes: 0 }
    }

    /// How many bytes were written.
    pub fn bytes(&self) -> usize {
        self.bytes
    }
}

impl Write for Counted {
    ghost contents = { λ _. None };

    fn write(&mut self, bytes: &[u8]) -> io::Result<usize> {
        self.bytes = self.bytes.saturating_add(bytes.len());
        Ok(bytes.len())
    }

    fn flush(&mut self) -> io::Result<()> {
        Ok(())
    }
}
