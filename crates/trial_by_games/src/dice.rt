//! Numbers drawn by a fixed rule, the same at each run.

// Draws numbers by a linear congruence of 64 bits.
#[derive(Clone, Copy, Debug)]
pub(crate) struct Dice {
    state: u64,
}

impl Dice {
    // The draws that begin with this number.
    pub(crate) fn new(seed: u64) -> Dice {
        Dice { state: seed }
    }

    // A number below `bound`, and 0 where `bound` is 0.
    pub(crate) fn below(&mut self, bound: usize) -> usize {
        self.state = self
            .state
            .wrapping_mul(6_364_136_223_846_793_005)
            .wrapping_add(1_442_695_040_888_963_407);
        match usize::try_from(self.state >> 33) {
            Ok(drawn) => if bound == 0 { 0 } else { drawn % bound },
            Err(_) => 0,
        }
    }
    // A number from `least` to `most`.
    pub(crate) fn between(&mut self, least: i16, most: i16) -> i16 {
        let count = usize::from(most.abs_diff(least)).saturating_add(1);
        let drawn = i16::try_from(self.below(count)).unwrap_or(0);
        least.saturating_add(drawn)
    }
}
