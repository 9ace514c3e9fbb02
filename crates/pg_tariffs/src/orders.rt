//! In which order tariffs are tried.

// How many are kept of those with the least to spare.
const MOST: usize = 8;

/// The tariffs with the least to spare at a node, the least first.
#[derive(Clone, Copy)]
pub(crate) struct Order {
    count: usize,
    numbers: [u8; MOST],
    spares: [i32; MOST],
}

impl Order {
    /// None.
    pub(crate) const EMPTY: Order = Order {
        count: 0,
        numbers: [0; MOST],
        spares: [0; MOST],
    };

    /// Puts a tariff at its place, if it is among those that have the least to spare.
    pub(crate) fn offer(&mut self, number: u8, spare: i32) {
        let (mut number, mut spare) = (number, spare);
        for at in 0..MOST {
            if at >= self.count {
                self.numbers[at] = number;
                self.spares[at] = spare;
                self.count = at + 1;
                return;
            }
            let (kept, most) = (self.numbers[at], self.spares[at]);
            if spare < most {
                self.numbers[at] = number;
                self.spares[at] = spare;
                number = kept;
                spare = most;
            }
        }
    }

    /// The tariff at a place of the order.
    pub(crate) fn get(&self, at: usize) -> Option<usize> {
        if at < self.count && at < MOST {
            Some(usize::from(self.numbers[at]))
        } else {
            None
        }
    }
}

/// All tariffs, the last that was found to exclude a node first.
#[derive(Clone, Copy)]
pub(crate) struct Recency {
    count: usize,
    numbers: [u8; 256],
}

impl Recency {
    /// None.
    pub(crate) fn new() -> Recency {
        Recency {
            count: 0,
            numbers: [0; 256],
        }
    }

    /// Adds the tariff of the next number, as the first.
    pub(crate) fn add(&mut self, number: usize) {
        let last = self.count.min(255);
        self.numbers[last] = (number % 256) as u8;
        self.count = last + 1;
        self.bring_forward(number);
    }

    /// Makes a tariff the first.
    pub(crate) fn bring_forward(&mut self, number: usize) {
        let mut carried = (number % 256) as u8;
        for at in 0..self.count.min(256) {
            let next = self.numbers[at];
            self.numbers[at] = carried;
            if usize::from(next) == number {
                return;
            }
            carried = next;
        }
    }

    /// The tariff at a place of the order.
    pub(crate) fn get(&self, at: usize) -> Option<usize> {
        if at < self.count && at < 256 {
            Some(usize::from(self.numbers[at]))
        } else {
            None
        }
    }
}
