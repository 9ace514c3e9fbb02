//! Nodes that may be gone into, and which of them comes first.

use pg_position::{Move, Position};

// A node that no cheap bound excludes: the move that led to it, none at the initial array; its position, its key, how
// much travel is left, and a drawn number.
#[derive(Clone, Copy)]
pub(crate) struct Child {
    pub(crate) m: Option<Move>,
    pub(crate) position: Position,
    pub(crate) key: u64,
    pub(crate) travel: u8,
    pub(crate) drawn: u64,
}

// Whether a node comes before another one: by the travel that is left, then by the number that was drawn.
fn comes_before(a: &Child, b: &Child) -> bool {
    a.travel < b.travel || a.travel == b.travel && a.drawn < b.drawn
}

// The place of that of the nodes from a place on that comes first; their number where there is none.
fn place_of_first(children: &[Child], from: usize) -> usize {
    let Some(mut best) = children.get(from) else {
        return children.len();
    };
    let mut place = from;
    for i in from..children.len() {
        if let Some(child) = children.get(i) {
            if comes_before(child, best) {
                best = child;
                place = i;
            }
        }
    }
    place
}

// Takes out that of the nodes from a place on that comes first; none where there is none.
pub(crate) fn take_first(children: &mut Vec<Child>, from: usize) -> Option<Child> {
    let place = place_of_first(children.as_slice(), from);
    if place < children.len() {
        Some(children.swap_remove(place))
    } else {
        None
    }
}
