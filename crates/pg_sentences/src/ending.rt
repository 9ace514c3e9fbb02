//! What ends a line of moves.

use pg_certificate::Record;

/// What ends a line: a leaf, which is on the diagram or not, or a record that has nothing below it.
#[derive(Clone, Copy)]
pub enum Ending {
    Leaf(bool),
    Said(Record),
}
