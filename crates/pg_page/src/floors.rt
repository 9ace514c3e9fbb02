//! Which nodes have a line on a page, by how many plies are left at them.

// How many expanded nodes are met with each number of plies left, and the least number of plies left down to which they
// are no more than may be told.
#[derive(Drop)]
pub(crate) struct Floor {
    most: u64,
    expanded: [u64; 129],
    above: u64,
    pub(crate) left: u8,
}

// What is told: the tree of so many plies, down to the nodes with a number of plies left; of the shorter ones where
// their expanded nodes stand, which a reference may name, down to a number of plies left of their own.
#[derive(Clone, Copy)]
pub(crate) struct Depths {
    pub(crate) plies: u8,
    pub(crate) floor: u8,
    pub(crate) shorter_floor: u8,
}

// A tree of so many plies that is told so far.
#[derive(Clone, Copy)]
pub(crate) struct Tree {
    pub(crate) depths: Depths,
    pub(crate) plies: u8,
}

impl Floor {
    // No node is met, and so many may be told.
    pub(crate) fn new(most: u64) -> Floor {
        Floor {
            most,
            expanded: [0; 129],
            above: 0,
            left: 1,
        }
    }

    // One expanded node more is met with so many plies left; whether that raised the floor.
    #[inline(always)]
    pub(crate) fn meet(&mut self, left: u8) -> bool {
        let at = usize::from(left);
        if at >= 129 {
            return false;
        }
        self.expanded[at] = self.expanded[at].saturating_add(1);
        if left < self.left {
            return false;
        }
        self.above = self.above.saturating_add(1);
        if self.above <= self.most {
            return false;
        }
        self.rise();
        true
    }

    // The floor rises to where the nodes down to it may be told.
    #[inline(never)]
    fn rise(&mut self) {
        for _ in 0..128u8 {
            let at = usize::from(self.left);
            if self.above <= self.most || at >= 129 {
                return;
            }
            self.above = self.above.saturating_sub(self.expanded[at]);
            self.left = self.left.saturating_add(1);
        }
    }
}

impl Tree {
    // Whether it is that of the stated length.
    pub(crate) fn is_last(self) -> bool {
        self.plies == self.depths.plies
    }

    // Whether a node with so many plies left has its moves told: it is of the tree of the stated length.
    pub(crate) fn is_told(self, left: u8) -> bool {
        self.is_last() && left >= self.depths.floor
    }

    // Whether a node with so many plies left may have a line: a root, and what a node above the floor leads to, but of
    // the shorter trees none below their own floor.
    #[inline(always)]
    pub(crate) fn may_have_line(self, left: u8) -> bool {
        let is_above = self.is_last() || left >= self.depths.shorter_floor;
        left == self.plies || is_above && left.saturating_add(1) >= self.depths.floor
    }

    // Whether an expanded node has a line: of the shorter trees none that no reference is likely to name.
    #[inline(always)]
    pub(crate) fn has_line(self, left: u8, named: bool) -> bool {
        self.may_have_line(left) && (self.is_last() || left == self.plies || left >= 2 || named)
    }

    // Whether a node that is not expanded has a line: it is a root, or of the tree of the stated length.
    #[inline(always)]
    pub(crate) fn has_end(self, left: u8) -> bool {
        left == self.plies || self.is_last() && self.may_have_line(left)
    }
}
