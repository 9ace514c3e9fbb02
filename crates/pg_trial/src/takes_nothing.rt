//! A writer that takes nothing.
ghost use Rattle.std.specs.Prelude.{Some, []};

use std::io;
use std::io::Write;

/// Answers each write with 0 bytes taken, which is no error.
#[derive(Clone, Copy, Debug)]
pub struct TakesNothing;

impl Write for TakesNothing {
    ghost contents = { λ _. Some [] };

    fn write(&mut self, _bytes: &[u8]) -> io::Result<usize> {
        Ok(0)
    }

    fn flush(&mut self) -> io::Result<()> {
        Ok(())
    }
}
