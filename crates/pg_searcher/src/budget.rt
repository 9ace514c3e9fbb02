//! How many nodes a search may still visit.

// The nodes that may still be visited.
#[derive(Clone, Copy)]
pub(crate) struct Budget {
    pub(crate) nodes: u64,
}

impl Budget {
    // Counts a node, and answers whether it may be visited.
    pub(crate) fn visit(&mut self) -> bool {
        if self.nodes == 0 {
            return false;
        }
        self.nodes -= 1;
        true
    }

    // Counts `count` nodes, and answers whether all of them may be visited; else none is counted.
    pub(crate) fn visit_all(&mut self, count: u64) -> bool {
        if self.nodes < count {
            return false;
        }
        self.nodes -= count;
        true
    }
}
