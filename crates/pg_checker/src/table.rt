//! The table of named nodes.
ghost use Rattle.std.specs.Prelude.{◌≡◌, ◌+◌, ◌-◌, ◌<◌, [], ◌∷◌, ◌++◌, Some, None, MatchOption, slice_get, OnOk, OnErr};

use pg_position::{PackedPosition, Position};
use std::alloc::{AllocError, Global};
use std::marker::Model;

// A named node that has closed: its position, its plies left, and whether a game below it ends on
// the diagram.
#[derive(Drop)]
pub(crate) struct Entry {
    pub(crate) position: PackedPosition,
    pub(crate) plies: u8,
    pub(crate) fertile: bool,
}

// The entries of named nodes, numbered from 0 as they close. A node takes its place before it
// closes, so closing takes no memory.
#[derive(Drop)]
pub(crate) struct Table {
    places: Vec<Entry>,
    closed: usize,
}

// The nodes that have closed fill the first places.
impl Model for Table {
    ghost use Rattle.std.specs.Prelude.{◌-◌, ◌≤◌, length, take};
    ghost use Rattle.std.specs.Coded.{codes};
    ghost use Rattle.pg_checker.specs.contracts.table.Entry as entry;
    ghost use Rattle.pg_checker.specs.inner.Table.{TableState};

    ghost Value = { TableState };

    ghost coded = { Prim.hlevel (codes, entry.the_row.coded) };

    ghost view = { λ t. record { entries = take t.closed t.places.items; kept = length t.places.items - t.closed } };

    ghost invariant = { λ t. t.closed ≤ length t.places.items };
}

impl Table {
    // A table without entries. Its places are taken from `alloc`.
    pub(crate) fn new(alloc: Global) -> Table
        ensures entries { result.entries ≡ [] }
        ensures kept { result.kept ≡ 0 }
    {
        Table {
            places: Vec::new(alloc),
            closed: 0,
        }
    }

    // Keeps a place for one more node. The position only fills it.
    pub(crate) fn keep(&mut self, position: &Position) -> Result<(), AllocError>
        ensures entries { self.new.entries ≡ self.old.entries }
        ensures ok { OnOk result (self.new.kept ≡ self.old.kept + 1) }
        ensures err { OnErr result (self.new ≡ self.old) }
    {
        self.places.push(Entry {
            position: position.packed(),
            plies: 0,
            fertile: true,
        })?;
        Ok(())
    }

    // Enters a node that closes, in the next place that is kept.
    pub(crate) fn close(&mut self, entry: Entry)
        requires { 0 < self.old.kept }
        ensures entries { self.new.entries ≡ self.old.entries ++ entry ∷ [] }
        ensures kept { self.new.kept + 1 ≡ self.old.kept }
    {
        self.places[self.closed] = entry;
        self.closed += 1;
    }

    // The entry with a number; none where no closed node has it.
    pub(crate) fn get(&self, number: u32) -> Option<&Entry>
        ensures { MatchOption result (slice_get self.now.entries number ≡ None)
            (λ e. slice_get self.now.entries number ≡ Some e.now) }
    {
        let number = number as usize;
        if number < self.closed {
            Some(&self.places[number])
        } else {
            None
        }
    }
}
