//! A digest of numbers and bytes, which stands in rows of tests for what would be too long there.

/// What numbers come to, one behind the other: FNV-1a with 64 bits, a number at a time. It stands in rows, so it is
/// written down here: a hash of std may be another one in the next kit.
#[derive(Clone, Copy, Debug)]
pub struct Digest {
    state: u64,
}

impl Digest {
    /// The digest of nothing.
    pub fn new() -> Digest {
        Digest {
            state: 0xcbf2_9ce4_8422_2325,
        }
    }

    /// The digest of bytes.
    pub fn of(bytes: &[u8]) -> Digest {
        let mut digest = Digest::new();
        digest.add_bytes(bytes);
        digest
    }

    /// Takes a number in.
    pub fn add(&mut self, number: u64) {
        self.state = (self.state ^ number).wrapping_mul(0x0000_0100_0000_01b3);
    }

    /// Takes bytes in, each as a number.
    pub fn add_bytes(&mut self, bytes: &[u8]) {
        for byte in bytes {
            self.add(u64::from(*byte));
        }
    }

    /// The digest of all that was taken in.
    pub fn value(&self) -> u64 {
        self.state
    }
}
