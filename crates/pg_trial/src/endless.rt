//! A reader that never ends.

use std::io;
use std::io::Read;

/// Gives one byte for ever.
#[derive(Clone, Copy, Debug)]
pub struct Endless {
    byte: u8,
}

impl Endless {
    /// A reader of this byte.
    pub fn new(byte: u8) -> Endless {
        Endless { byte }
    }
}

impl Read for Endless {
    fn read(&mut self, buffer: &mut [u8]) -> io::Result<usize> {
        buffer.fill(self.byte);
        Ok(buffer.len())
    }
}
