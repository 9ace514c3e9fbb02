//! One to three price lists of the same lengths.
ghost use Rattle.std.proofs.Common.{sym};
ghost use Rattle.std.specs.Prelude.{◌≡◌, ℕ, ◌↔◌, ◌<◌, ◌≤◌, IsTrue, cond, List, [], ◌∷◌, ◌++◌, length, take};
ghost use Rattle.pg_price_lists.specs.PriceLists.{PriceList, list_of};
ghost use Rattle.pg_price_lists.specs.PriceRecords.{list_at, sources, targets, u_at, v_at, NewIs, CanAdd};
ghost use Rattle.pg_price_lists.specs.inner.Rows.{row_list, rows, AreRows, padded, row_of, sources_of, targets_of};
ghost use Rattle.pg_price_lists.specs.inner.Rows.{ways_of, source_number, target_number};

use std::marker::Model;

#[derive(Clone, Copy, Debug, PartialEq, Eq)]
struct Row {
    u: [u8; 64],
    v: [u8; 64],
}

/// Price lists, one for each way: numbers for the sources and for the targets. They take no memory,
/// and are copied.
#[derive(Clone, Copy, Debug, PartialEq, Eq)]
pub struct Prices {
    first: Row,
    second: Row,
    third: Row,
    ways: usize,
    sources: usize,
    targets: usize,
}

impl Model for Prices {
    ghost Value = { List PriceList };

    ghost view = { λ s. rows s.ways s.sources s.targets s.first s.second s.third };

    ghost invariant = { λ s. AreRows s.ways s.sources s.targets s.first s.second s.third };

    ghost inverse = { λ ls. record {
      first = row_of (list_at ls 0);
      second = row_of (list_at ls 1);
      third = row_of (list_at ls 2);
      ways = length ls;
      sources = source_number ls;
      targets = target_number ls;
    } };

    ghost inverse_ok = { λ s h i. record {
      first = sym h.6 i;
      second = sym h.7 i;
      third = sym h.8 i;
      ways = ways_of s.ways s.sources s.targets s.first s.second s.third h.1 i;
      sources = sources_of s.ways s.sources s.targets s.first s.second s.third h.0 h.2 h.4 i;
      targets = targets_of s.ways s.sources s.targets s.first s.second s.third h.0 h.3 h.5 i;
    } };
}

// Puts these bytes into the row, and zeros after them.
#[tactic(auto, unfolding(crate::specs::inner::Rows::padded))]
fn pad(row: &mut [u8; 64], xs: &[u8])
    requires { length xs.now ≤ 64 }
    ensures list { take (length xs.now) row.new ≡ xs.now }
    ensures zeros { row.new ≡ padded xs.now }
{
    *row = [0; 64];
    row[..xs.len()].copy_from_slice(xs);
}

// Puts a list into the row, and zeros after its numbers.
fn fill(row: &mut Row, u: &[u8], v: &[u8])
    requires { (length u.now ≤ 64) × (length v.now ≤ 64) }
    ensures zeros { row.new ≡ row_of (list_of u.now v.now) }
    ensures list { row_list (length u.now) (length v.now) row.new ≡ list_of u.now v.now }
    ensures room { (length row.new.u ≡ 64) × (length row.new.v ≡ 64) }
{
    pad(&mut row.u, u);
    pad(&mut row.v, v);
}

// The row of a list.
fn filled(u: &[u8], v: &[u8]) -> Row
    requires { (length u.now ≤ 64) × (length v.now ≤ 64) }
    ensures zeros { result ≡ row_of (list_of u.now v.now) }
    ensures list { row_list (length u.now) (length v.now) result ≡ list_of u.now v.now }
    ensures room { (length result.u ≡ 64) × (length result.v ≡ 64) }
{
    let mut row = Row {
        u: [0; 64],
        v: [0; 64],
    };
    fill(&mut row, u, v);
    row
}

impl Prices {
    /// One list: a number, 0 to 255, for each source and each target, in the order of their squares.
    /// None where there are more than 64 sources or more than 64 targets.
    pub fn new(u: &[u8], v: &[u8]) -> Option<Prices>
        ensures { NewIs u.now v.now result }
    {
        if 64 < u.len() || 64 < v.len() {
            return None;
        }
        let only = filled(u, v);
        let none = filled(&[], &[]);
        Some(Prices {
            first: only,
            second: none,
            third: none,
            ways: 1,
            sources: u.len(),
            targets: v.len(),
        })
    }

    /// Puts this one list in place of all that are held. False, and the lists are as they were, where
    /// there are more than 64 sources or more than 64 targets.
    pub fn set(&mut self, u: &[u8], v: &[u8]) -> bool
        ensures when { IsTrue result ↔ ((length u.now ≤ 64) × (length v.now ≤ 64)) }
        ensures set { self.new ≡ cond result (list_of u.now v.now ∷ []) self.old }
    {
        if 64 < u.len() || 64 < v.len() {
            return false;
        }
        fill(&mut self.first, u, v);
        self.second = filled(&[], &[]);
        self.third = filled(&[], &[]);
        self.ways = 1;
        self.sources = u.len();
        self.targets = v.len();
        true
    }

    /// Adds a list, for the next way. False, and the lists are as they were, where it has another
    /// number of sources or of targets than the first, or where three lists are held.
    pub fn add(&mut self, u: &[u8], v: &[u8]) -> bool
        ensures when { IsTrue result ↔ CanAdd self.old u.now v.now }
        ensures added { self.new ≡ cond result (self.old ++ list_of u.now v.now ∷ []) self.old }
    {
        if u.len() != self.sources || v.len() != self.targets {
            return false;
        }
        if self.ways == 1 {
            fill(&mut self.second, u, v);
            self.ways = 2;
            true
        } else if self.ways == 2 {
            fill(&mut self.third, u, v);
            self.ways = 3;
            true
        } else {
            false
        }
    }

    /// How many lists are held, 1 to 3.
    pub fn ways(&self) -> usize
        ensures number { result ≡ length self.now }
        ensures bound { (0 < result) × (result ≤ 3) }
    {
        self.ways
    }

    /// How many sources each list is for, 0 to 64.
    pub fn sources(&self) -> usize
        ensures number { result ≡ sources self.now }
        ensures bound { result ≤ 64 }
    {
        self.sources
    }

    /// How many targets each list is for, 0 to 64.
    pub fn targets(&self) -> usize
        ensures number { result ≡ targets self.now }
        ensures bound { result ≤ 64 }
    {
        self.targets
    }

    /// The numbers of the sources in a way, from 0; none from the number of lists on.
    pub fn u(&self, way: usize) -> &[u8]
        ensures { result.now ≡ u_at self.now way }
    {
        if self.ways <= way {
            &[]
        } else if way == 0 {
            &self.first.u[..self.sources]
        } else if way == 1 {
            &self.second.u[..self.sources]
        } else {
            &self.third.u[..self.sources]
        }
    }

    /// The numbers of the targets in a way, from 0; none from the number of lists on.
    pub fn v(&self, way: usize) -> &[u8]
        ensures { result.now ≡ v_at self.now way }
    {
        if self.ways <= way {
            &[]
        } else if way == 0 {
            &self.first.v[..self.targets]
        } else if way == 1 {
            &self.second.v[..self.targets]
        } else {
            &self.third.v[..self.targets]
        }
    }
}
