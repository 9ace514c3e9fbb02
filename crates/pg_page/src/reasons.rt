//! The reasons that were told last: one that comes again is told by its place.

use pg_sentences::Sentence;
use std::alloc::Global;

// How many are known.
const KNOWN: usize = 64;

// The last different reasons, each at a place; where all places are taken, the oldest gives way.
#[derive(Drop)]
pub(crate) struct Reasons {
    last: Vec<Sentence>,
    next: usize,
    /// Whether room for one was refused: none is known again then.
    is_lost: bool,
}

impl Reasons {
    // None.
    pub(crate) fn new(alloc: Global) -> Reasons {
        Reasons {
            last: Vec::new(alloc),
            next: 0,
            is_lost: false,
        }
    }

    // The place of a reason, where it is known; else it is known from now on.
    pub(crate) fn meet(&mut self, words: &Sentence) -> Option<usize> {
        if self.is_lost {
            return None;
        }
        for i in 0..self.last.len() {
            if is_at(self.last.as_slice(), i, words) {
                return Some(i);
            }
        }
        self.keep(words);
        None
    }

    // Keeps a reason.
    fn keep(&mut self, words: &Sentence) {
        if self.last.len() < KNOWN {
            self.is_lost = self.last.push(*words).is_err();
            return;
        }
        if let Some(place) = self.last.get_mut(self.next) {
            *place = *words;
        }
        self.next = self.next.saturating_add(1);
        if self.next >= KNOWN {
            self.next = 0;
        }
    }
}

// Whether this reason stands at a place.
fn is_at(last: &[Sentence], place: usize, words: &Sentence) -> bool {
    match last.get(place) {
        Some(kept) => kept.as_str() == words.as_str(),
        None => false,
    }
}
