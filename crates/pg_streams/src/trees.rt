//! How many nodes the trees of a search had, and how many the one at work may come to.

use pg_searcher::next_tree;

// The trees of a search: the plies of the one at work, the nodes that stood before it and that stand now, and the nodes
// of the three trees before it, the longest last; 0 where there was none.
#[derive(Clone, Copy)]
pub(crate) struct Trees {
    plies: u8,
    before: u64,
    now: u64,
    last: [u64; 3],
}

impl Trees {
    // No tree yet.
    pub(crate) fn new() -> Trees {
        Trees {
            plies: 0,
            before: 0,
            now: 0,
            last: [0; 3],
        }
    }

    // A tree has ended with `nodes` nodes.
    fn end_tree(&mut self, nodes: u64) {
        let [_, second, third] = self.last;
        self.last = [second, third, nodes];
    }

    // The tree of `plies` plies is at work, and `nodes` nodes were visited in all. A tree that nobody told of was cut
    // at its root, which tells nothing of the next.
    pub(crate) fn reach(&mut self, plies: u8, nodes: u64) {
        if plies != self.plies {
            self.end_tree(self.now.saturating_sub(self.before));
            let untold = plies.saturating_sub(self.plies).saturating_sub(1);
            for _ in 0..untold.min(3) {
                self.end_tree(0);
            }
            self.plies = plies;
            self.before = self.now;
        }
        self.now = nodes;
    }

    // How many nodes the tree at work may come to; none where one of the three before it was cut at its root.
    pub(crate) fn expected(&self) -> Option<u64> {
        let [first, second, third] = self.last;
        match next_tree(first, second, third) {
            Some(0) | None => None,
            Some(nodes) => Some(nodes),
        }
    }
}
