//! What a check meets, as far as a page tells it.

use crate::floors::{Depths, Floor, Tree};
use pg_certificate::Bare;
use pg_checker::{CheckWatch, Problem, Spot};
use pg_position::{Move, Position};
use pg_price_lists::Prices;
use pg_tolls::Tariff;
use std::alloc::{AllocError, Global};

// What a line of the trees says: that a tree of so many plies begins; that a node with so many plies left is expanded,
// or has a record with nothing below it, whose price lists, where it has any, stand at a place of their own; that an
// expanded node closes, its number where it is named, and how many games are below; and that the tree ends, with so
// many expanded nodes.
#[derive(Clone, Copy)]
pub(crate) enum Said {
    Began,
    Opened,
    Ended { said: Bare, at: usize },
    Closed { number: Option<u32>, games: u64 },
    Over(u64),
}

// A line of the trees: the move that leads to the node, which a root has not, the plies left there, and what is said.
#[derive(Clone, Copy)]
pub(crate) struct Item {
    pub(crate) m: Option<Move>,
    pub(crate) left: u8,
    pub(crate) said: Said,
}

// Where the check is: the plies of the tree, how many of its nodes are expanded, how many games were met, how many
// before each open node, by the plies left there, and how many named nodes have closed.
#[derive(Drop)]
struct Whereabouts {
    tree: u8,
    expanded: u64,
    games: u64,
    before: [u64; 129],
    closed: u32,
}

// The lines of the trees, so far as they are told by what was met, and the price lists that they have; whether there
// was no room for one of them; and how deep the tree of the stated length and the shorter ones are told. The tariffs
// are those that stand before the certificate.
#[derive(Drop)]
pub(crate) struct Log<'a> {
    pub(crate) alloc: Global,
    pub(crate) tariffs: &'a [Tariff],
    plies: u8,
    place: Whereabouts,
    last: Floor,
    shorter: Floor,
    pub(crate) items: Vec<Item>,
    pub(crate) lists: Vec<u8>,
    pub(crate) is_lost: bool,
}

// Keeps the price lists of a record: how many ways, sources and targets there are, and then way by way the prices of
// the sources and of the targets.
fn keep_lists(lists: &mut Vec<u8>, prices: &Prices) -> Result<(), AllocError> {
    let ways = prices.ways();
    let sources = prices.sources();
    let targets = prices.targets();
    lists.extend_from_slice(&[ways as u8, sources as u8, targets as u8])?;
    for way in 0..ways {
        lists.extend_from_slice(prices.u(way))?;
        lists.extend_from_slice(prices.v(way))?;
    }
    Ok(())
}

// The next price lists at a place of the list, and the place behind them: where they do not stand there, none.
fn next_of(lists: &[u8], at: usize, count: usize) -> &[u8] {
    match lists.get(at..at.saturating_add(count)) {
        Some(part) => part,
        None => &[],
    }
}

// The number at a place of a list of bytes; 0 where there is none.
fn number_at(lists: &[u8], at: usize) -> usize {
    match lists.get(at) {
        Some(number) => usize::from(*number),
        None => 0,
    }
}

// Puts the price lists that are kept at a place into `prices`.
pub(crate) fn read_lists(lists: &[u8], at: usize, prices: &mut Prices) {
    let ways = number_at(lists, at);
    let sources = number_at(lists, at.saturating_add(1));
    let targets = number_at(lists, at.saturating_add(2));
    let mut from = at.saturating_add(3);
    for way in 0..ways {
        let u = next_of(lists, from, sources);
        from = from.saturating_add(sources);
        let v = next_of(lists, from, targets);
        from = from.saturating_add(targets);
        if way == 0 {
            prices.set(u, v);
        } else {
            prices.add(u, v);
        }
    }
}

impl<'a> Log<'a> {
    // Nothing is met, and of the tree of the stated length so many expanded nodes are told at most, and of the shorter
    // ones together. What is kept takes its room from `alloc`.
    pub(crate) fn new(
        alloc: Global,
        problem: &Problem,
        tariffs: &'a [Tariff],
        nodes: u64,
    ) -> Log<'a> {
        Log {
            alloc,
            tariffs,
            plies: problem.length.plies(),
            place: Whereabouts {
                tree: 0,
                expanded: 0,
                games: 0,
                before: [0; 129],
                closed: 0,
            },
            last: Floor::new(nodes),
            shorter: Floor::new(nodes),
            items: Vec::new(alloc),
            lists: Vec::new(alloc),
            is_lost: false,
        }
    }

    // How deep the trees are told by what was met.
    pub(crate) fn depths(&self) -> Depths {
        Depths {
            plies: self.plies,
            floor: self.last.left,
            shorter_floor: self.shorter.left,
        }
    }

    // The tree at work.
    #[inline(always)]
    fn tree(&self) -> Tree {
        Tree {
            depths: self.depths(),
            plies: self.place.tree,
        }
    }

    // Keeps a line.
    fn keep(&mut self, m: Option<Move>, left: u8, said: Said) {
        if self.is_lost {
            return;
        }
        match self.items.push(Item { m, left, said }) {
            Ok(()) => {}
            Err(_) => self.is_lost = true,
        }
    }

    // Only those lines stay that are told by now.
    #[inline(never)]
    fn sift(&mut self) {
        let mut tree = Tree {
            depths: self.depths(),
            plies: 0,
        };
        let mut kept = 0usize;
        for i in 0..self.items.len() {
            let Some(item) = self.items.get(i) else {
                return;
            };
            let item = *item;
            if let Said::Began = &item.said {
                tree.plies = item.left;
            }
            if is_edge(&item) || tree.may_have_line(item.left) {
                if let Some(place) = self.items.get_mut(kept) {
                    *place = item;
                }
                kept = kept.saturating_add(1);
            }
        }
        self.items.truncate(kept);
    }

    // An expanded node with so many plies left is met.
    #[inline(always)]
    fn open(&mut self, left: u8) {
        let at = usize::from(left);
        if at < 129 {
            self.place.before[at] = self.place.games;
        }
        self.place.expanded = self.place.expanded.saturating_add(1);
        let rises = if self.place.tree == self.plies {
            self.last.meet(left)
        } else {
            self.shorter.meet(left)
        };
        if rises {
            self.sift();
        }
    }

    // Keeps the line of a record with nothing below it.
    #[inline(never)]
    fn keep_end(&mut self, m: Option<Move>, left: u8, said: &Bare, prices: &Prices) {
        let at = self.lists.len();
        self.keep(m, left, Said::Ended { said: *said, at });
        let Bare::Priced { .. } = said else {
            return;
        };
        match keep_lists(&mut self.lists, prices) {
            Ok(()) => {}
            Err(AllocError) => self.is_lost = true,
        }
    }

    // How many games there are below the open node with so many plies left.
    fn games_below(&self, left: u8) -> u64 {
        match self.place.before.get(usize::from(left)) {
            Some(before) => self.place.games.saturating_sub(*before),
            None => 0,
        }
    }

    // The number of the node that closes, where it is named.
    fn take_number(&mut self, named: bool) -> Option<u32> {
        if !named {
            return None;
        }
        let number = self.place.closed;
        self.place.closed = number.saturating_add(1);
        Some(number)
    }

    // The tree at work ends.
    pub(crate) fn end_tree(&mut self) {
        let expanded = self.place.expanded;
        self.keep(None, 0, Said::Over(expanded));
    }
}

// Whether a line is that before a tree or behind it.
fn is_edge(item: &Item) -> bool {
    matches!(&item.said, Said::Began | Said::Over(_))
}

impl CheckWatch for Log<'_> {
    fn began(&mut self, plies: u8) {
        if plies > 0 {
            self.end_tree();
        }
        self.place.tree = plies;
        self.place.expanded = 0;
        self.keep(None, plies, Said::Began);
    }

    fn met(&mut self, spot: &Spot, left: u8, said: &Bare, prices: &Prices) {
        if let Bare::Expand { named } = said {
            self.open(left);
            if self.tree().has_line(left, *named) {
                self.keep(spot.m, left, Said::Opened);
            }
        } else if self.tree().has_end(left) {
            self.keep_end(spot.m, left, said, prices);
        }
    }

    fn ended(&mut self, _spot: &Spot) {
        self.place.games = self.place.games.saturating_add(1);
    }

    fn closed(&mut self, _position: &Position, left: u8, named: bool) {
        let number = self.take_number(named);
        if self.tree().has_line(left, named) {
            let games = self.games_below(left);
            self.keep(None, left, Said::Closed { number, games });
        }
    }
}
