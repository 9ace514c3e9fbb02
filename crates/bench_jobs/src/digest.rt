//! What a job answered, as one number: any other answer gives another one, as good as always.

// A number that all results went into, in their order.
#[derive(Clone, Copy, Debug)]
pub(crate) struct Digest {
    state: u64,
    bytes: u64,
}

impl Digest {
    // The digest of nothing.
    pub(crate) fn new() -> Digest {
        Digest {
            state: 0x243f_6a88_85a3_08d3,
            bytes: 0,
        }
    }

    // Takes a number in.
    pub(crate) fn number(&mut self, n: u64) {
        let mixed = (self.state ^ n).wrapping_mul(0x9e37_79b9_7f4a_7c15);
        self.state = mixed ^ (mixed >> 29);
    }

    // Takes bytes in, eight at a time, and how many they are.
    pub(crate) fn text(&mut self, bytes: &[u8]) {
        for chunk in bytes.chunks(8) {
            let mut n = 0u64;
            for byte in chunk {
                n = (n << 8) | u64::from(*byte);
            }
            self.number(n);
        }
        self.number(bytes.len() as u64);
        self.bytes = self.bytes.saturating_add(bytes.len() as u64);
    }

    // The number, and how many bytes of texts went in.
    pub(crate) fn value(&self) -> (u64, u64) {
        (self.state, self.bytes)
    }
}
