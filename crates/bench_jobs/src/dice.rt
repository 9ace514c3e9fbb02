//! Numbers drawn by a fixed rule from a seed, the same at each run.

// Draws numbers by a linear congruence of 64 bits.
#[derive(Clone, Copy, Debug)]
pub(crate) struct Dice {
    state: u64,
}

impl Dice {
    // The draws of a job that begin with this seed.
    pub(crate) fn new(seed: u64) -> Dice {
        Dice {
            state: seed.wrapping_mul(0x9e37_79b9_7f4a_7c15) ^ 0xd1b5_4a32_d192_ed03,
        }
    }

    // A number below `bound`, and 0 where `bound` is 0.
    pub(crate) fn below(&mut self, bound: usize) -> usize {
        self.state = self
            .state
            .wrapping_mul(6_364_136_223_846_793_005)
            .wrapping_add(1_442_695_040_888_963_407);
        match usize::try_from(self.state >> 33) {
            Ok(drawn) => if bound == 0 { 0 } else { drawn % bound },
            Err(_) => 0,
        }
    }
}
