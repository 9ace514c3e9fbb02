//! How far a problem is searched.

/// Which games are enough.
#[derive(Clone, Copy, Debug, PartialEq, Eq)]
pub enum Enough {
    /// The shortest one, of a problem whose length is not known: no search leaves the order of lengths.
    Shortest,
    /// Two: a search ends at the second one, since no problem with two is sound.
    SecondGame,
    /// What one search meets: where two games are known behind it no other search follows.
    OneSearch,
    /// All: searches go on whatever games are known.
    AllGames,
}

/// How far a problem is searched.
#[derive(Clone, Copy, Debug, PartialEq, Eq)]
pub struct Limits {
    /// The most nodes that one search visits.
    pub max_nodes: u64,
    /// The games that are enough.
    pub enough: Enough,
}

// The most nodes of the first search, and of one for cooks.
const FIRST: u64 = 1_000_000;

// The most nodes of a search by journeys that no tariffs help.
const JOURNEYS: u64 = 20_000;

impl Limits {
    // The most nodes of a search for cooks, and of the first one that writes a certificate.
    pub(crate) fn first(self) -> u64 {
        self.max_nodes.min(FIRST)
    }

    // The most nodes of the first search that cuts by journeys too.
    pub(crate) fn by_journeys(self) -> u64 {
        self.max_nodes.min(JOURNEYS)
    }

    // Whether searches may have more nodes than these first ones.
    pub(crate) fn go_on(self) -> bool {
        self.max_nodes > JOURNEYS
    }

    // Whether a search may go into the tree of the stated length alone.
    pub(crate) fn draw(self) -> bool {
        self.enough != Enough::Shortest
    }

    // Whether a search goes on where `count` games are known.
    pub(crate) fn search_on(self, count: usize) -> bool {
        !matches!(self.enough, Enough::Shortest | Enough::SecondGame) || count < 2
    }

    // Whether another search follows one behind which `count` games are known.
    pub(crate) fn search_again(self, count: usize) -> bool {
        self.enough == Enough::AllGames || count < 2
    }
}
