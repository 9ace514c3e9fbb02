//! What a search asks of tariffs, and when it looks for new ones.

use crate::judge::{Asked, is_cut_by_journeys};
use crate::sides::Sides;
use pg_fen::Diagram;
use pg_journeys::Journeys;
use pg_position::Position;
use pg_tariffs::{Keys, Tariffs};
use pg_tolls::{Tariff, Tolls};
use std::alloc::{AllocError, Global};

// With fewer plies left not all tariffs are asked: a subtree is then too small to pay for them.
const LEAST_FOR_ALL: u8 = 6;

// With fewer plies left no tariff is looked for.
const LEAST_FOR_LOOKS: u8 = 8;

// After how many nodes below a node a tariff is looked for there: at first, and at least and at most later.
const FIRST_AFTER: u64 = 50;

const LEAST_AFTER: u64 = 20;

const MOST_AFTER: u64 = 400;

// How many times as many nodes are visited below the same node when the next look at it comes.
const GROWTH: u64 = 4;

// How many nodes a step of a look is as dear as: with journeys and without.
const NODES_BY_JOURNEYS: u64 = 6;

const NODES: u64 = 16;

// How looks go: after how many nodes below a node one is made there, how many nodes a step is as dear as, and how many
// nodes might be visited at the outset.
#[derive(Clone, Copy)]
struct Looks {
    after: u64,
    step: u64,
    most_nodes: u64,
}

impl Looks {
    // The next looks come later where those so far, of `steps` steps, were dearer than the nodes that were visited,
    // where `nodes` are left; else sooner.
    fn paced(self, steps: u64, nodes: u64) -> Looks {
        let visited = self.most_nodes.saturating_sub(nodes);
        let after = if steps.saturating_mul(self.step) > visited {
            (self.after.saturating_mul(3) / 2)
                .saturating_add(1)
                .min(MOST_AFTER)
        } else {
            (self.after.saturating_mul(4) / 5).max(LEAST_AFTER)
        };
        Looks { after, ..self }
    }
}

// How many nodes might still be visited when a node opened, and after how many more a tariff is looked for there.
#[derive(Clone, Copy)]
struct Since {
    opened: u64,
    after: u64,
}

impl Since {
    // How many nodes were visited since the node opened, where `nodes` are left.
    fn visited(&self, nodes: u64) -> u64 {
        self.opened.saturating_sub(nodes)
    }
}

// The numbers of a node's colours.
pub(crate) fn keys_of(sides: &Sides) -> Keys {
    Keys {
        white: sides.white.key,
        black: sides.black.key,
    }
}

// The code by which a certificate names the tariff of a number.
fn code_of(number: usize) -> u8 {
    let number = number.min(Tariffs::MOST - 1) as u8;
    Tolls::FIRST_CODE.saturating_add(number)
}

// No node has opened.
const NO_NODE: Since = Since {
    opened: 0,
    after: u64::MAX,
};

// The tariffs of a search, and how it looks for new ones, if it does; and for each number of plies left, when it does
// so at the open node with that number.
#[derive(Drop)]
pub(crate) struct Tolled {
    tariffs: Tariffs,
    looks: Option<Looks>,
    since: [Since; 256],
}

impl Tolled {
    // Of these tariffs, up to the first for which there is no room. No others are looked for.
    pub(crate) fn fixed(
        alloc: Global,
        diagram: &Diagram,
        tariffs: &[Tariff],
    ) -> Result<Box<Tolled>, AllocError> {
        let mut kept = Tariffs::new(alloc, diagram)?;
        for tariff in tariffs {
            if kept.add(tariff)?.is_none() {
                break;
            }
        }
        let tolls = Tolled {
            tariffs: kept,
            looks: None,
            since: [NO_NODE; 256],
        };
        Ok(Box::new(alloc, tolls)?)
    }

    // Of no tariff yet, for a search of `most_nodes` nodes that looks for them, by journeys or without.
    pub(crate) fn looking(
        alloc: Global,
        diagram: &Diagram,
        by_journeys: bool,
        most_nodes: u64,
    ) -> Result<Box<Tolled>, AllocError> {
        let step = if by_journeys {
            NODES_BY_JOURNEYS
        } else {
            NODES
        };
        let tolls = Tolled {
            tariffs: Tariffs::new(alloc, diagram)?,
            looks: Some(Looks {
                after: FIRST_AFTER,
                step,
                most_nodes,
            }),
            since: [NO_NODE; 256],
        };
        Ok(Box::new(alloc, tolls)?)
    }

    // No others are looked for from now on.
    pub(crate) fn settle(&mut self) {
        self.looks = None;
    }

    // The tariffs.
    pub(crate) fn tariffs(&self) -> &Tariffs {
        &self.tariffs
    }

    // A node with `left` plies left opens while `nodes` nodes may be visited.
    pub(crate) fn opens(&mut self, left: u8, nodes: u64) {
        let after = match &self.looks {
            Some(looks) => looks.after,
            None => u64::MAX,
        };
        self.since[usize::from(left)] = Since {
            opened: nodes,
            after,
        };
    }

    // Whether a tariff is to be looked for at the open node with `left` plies left, while `nodes` nodes may be visited.
    pub(crate) fn is_due(&self, left: u8, nodes: u64) -> bool {
        let since = self.since[usize::from(left)];
        since.visited(nodes) >= since.after
            && left >= LEAST_FOR_LOOKS
            && self.tariffs.len() < Tariffs::MOST
    }

    // The next look at the open node with `left` plies left waits till many more nodes were visited.
    fn put_off(&mut self, left: u8, nodes: u64) {
        let since = self.since[usize::from(left)];
        self.since[usize::from(left)] = Since {
            opened: since.opened,
            after: since.visited(nodes).saturating_mul(GROWTH),
        };
    }

    // The code by which a certificate names what excludes a node with `left` plies left, at least two: a tariff that is
    // tried first, journeys where they are asked, or any tariff. Journeys take far more time than the first, and
    // exclude many nodes at which no tariff does.
    pub(crate) fn code_excluding(
        &mut self,
        journeys: Option<Asked<'_>>,
        position: &Position,
        keys: Keys,
        left: u8,
    ) -> Result<Option<u8>, AllocError> {
        if let Some(number) = self.tariffs.quick(position, keys, left)? {
            return Ok(Some(code_of(number)));
        }
        if is_cut_by_journeys(journeys, position, left) {
            return Ok(Some(Journeys::CODE));
        }
        if left < LEAST_FOR_ALL {
            return Ok(None);
        }
        match self.tariffs.all(position, keys, left)? {
            Some(number) => Ok(Some(code_of(number))),
            None => Ok(None),
        }
    }

    // Whether a tariff excludes the open node with `left` plies left, while `nodes` nodes may be visited: one that is
    // kept, of which some are newer than the node, or one that is found now and kept.
    pub(crate) fn look(
        &mut self,
        position: &Position,
        keys: Keys,
        left: u8,
        nodes: u64,
    ) -> Result<bool, AllocError> {
        self.put_off(left, nodes);
        if self.tariffs.all(position, keys, left)?.is_some() {
            return Ok(true);
        }
        let found = self.tariffs.find(position, left)?;
        if let Some(looks) = self.looks {
            self.looks = Some(looks.paced(self.tariffs.steps(), nodes));
        }
        match found {
            Some(tariff) => Ok(self.tariffs.add(&tariff)?.is_some()),
            None => Ok(false),
        }
    }
}
