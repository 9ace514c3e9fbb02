//! Price lists of one colour as bytes.

use crate::assignment::{Assignment, MOST_MEN};
use pg_travel::Prices;

/// How many bytes there are at most: three numbers, and three lists of 16 sources and 16 targets.
pub const MOST_BYTES: usize = 99;

/// Price lists of one colour, one for each way: how many lists there are, how many sources and how many
/// targets each has, and then for each list the prices of the sources and those of the targets.
#[derive(Clone, Copy, Debug, PartialEq, Eq)]
pub struct Lists {
    bytes: [u8; MOST_BYTES],
    end: usize,
}

impl Lists {
    /// No list, for `sources` sources and `targets` targets, at most 16 each.
    pub fn new(sources: usize, targets: usize) -> Lists {
        let mut bytes = [0; MOST_BYTES];
        bytes[1] = sources.min(MOST_MEN) as u8;
        bytes[2] = targets.min(MOST_MEN) as u8;
        Lists { bytes, end: 3 }
    }

    /// Adds the prices of a way.
    pub fn add(&mut self, answer: &Assignment) {
        let (sources, targets) = (self.bytes[1], self.bytes[2]);
        self.add_row(&answer.sources, sources);
        self.add_row(&answer.targets, targets);
        self.bytes[0] = self.bytes[0].saturating_add(1);
    }

    // Adds the first `count` numbers of a row.
    fn add_row(&mut self, row: &[u8; MOST_MEN], count: u8) {
        let end = self.end;
        for i in 0..MOST_MEN {
            if i < usize::from(count) {
                self.put(end.saturating_add(i), row[i]);
            }
        }
        self.end = end.saturating_add(usize::from(count));
    }

    // Writes a byte, where there is room.
    fn put(&mut self, at: usize, byte: u8) {
        if at < MOST_BYTES {
            self.bytes[at] = byte;
        }
    }

    /// The bytes.
    pub fn as_slice(&self) -> &[u8] {
        match self.bytes.get(..self.end) {
            Some(bytes) => bytes,
            None => &[],
        }
    }
}

// The byte at a place, 0 where there is none.
fn number_at(bytes: &[u8], at: usize) -> usize {
    match bytes.get(at) {
        Some(number) => usize::from(*number),
        None => 0,
    }
}

// `count` bytes from a place on, none where there are fewer.
fn part(bytes: &[u8], at: usize, count: usize) -> &[u8] {
    match bytes.get(at..at.saturating_add(count)) {
        Some(part) => part,
        None => &[],
    }
}

/// The price lists with which bytes begin; none where they are no lists.
pub fn prices_of(bytes: &[u8]) -> Option<Prices> {
    let ways = number_at(bytes, 0);
    let sources = number_at(bytes, 1);
    let targets = number_at(bytes, 2);
    let after = sources.saturating_add(3);
    let mut prices = match Prices::new(part(bytes, 3, sources), part(bytes, after, targets)) {
        Some(prices) => prices,
        None => return None,
    };
    let step = sources.saturating_add(targets);
    for way in 1..ways.min(3) {
        let at = step.saturating_mul(way);
        let u = part(bytes, at.saturating_add(3), sources);
        let v = part(bytes, at.saturating_add(after), targets);
        if !prices.add(u, v) {
            return None;
        }
    }
    Some(prices)
}
