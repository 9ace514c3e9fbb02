//! Where a certificate is written, and read again.

use crate::ruling::Reason;
use pg_certificate::Refused;
use std::io::{Cursor, Read, Write};

/// Where a search writes its certificate, from which it is read again to be checked.
pub trait Scratch: Read + Write {
    /// Why a write was refused.
    fn lack(&self) -> Reason;

    /// Whether all that was written since it was empty is there to be read. One that keeps few bytes may take more and
    /// drop them all.
    fn is_whole(&self) -> bool {
        true
    }

    /// Makes room for a certificate that was not kept whole, and is written once more from here on. It is empty then.
    ///
    /// # Errors
    /// `Refused` where that cannot be done.
    fn widen(&mut self) -> Result<(), Refused> {
        Err(Refused)
    }

    /// Drops what was written: it is empty then.
    ///
    /// # Errors
    /// `Refused` where that cannot be done.
    fn clear(&mut self) -> Result<(), Refused>;

    /// Goes to the first byte, from which it is read.
    ///
    /// # Errors
    /// `Refused` where that cannot be done.
    fn rewind(&mut self) -> Result<(), Refused>;
}

impl Scratch for Cursor<Vec<u8>> {
    fn lack(&self) -> Reason {
        Reason::Memory
    }

    fn clear(&mut self) -> Result<(), Refused> {
        let alloc = *self.get_ref().allocator();
        *self = Cursor::new(Vec::new(alloc));
        Ok(())
    }

    fn rewind(&mut self) -> Result<(), Refused> {
        self.set_position(0);
        Ok(())
    }
}
