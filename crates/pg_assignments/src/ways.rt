//! The shortest ways of handing columns on, by the method of Floyd and Warshall. What its steps keep is proved, so
//! nothing that it finds is tested.
ghost use Rattle.std.specs.Prelude.{ℕ, ◌<◌, ◌≤◌, get_or, []};
ghost use Rattle.pg_assignments.specs.Handing.{AreWithin};
ghost use Rattle.pg_assignments.specs.Ways.{AreLow, IsKey, AreKeys, AreFirstKeys, IsNearer, IsNearerRow, AreNearer};
ghost use Rattle.pg_assignments.specs.Ways.{AreNearerFrom, AreWays, AreSixteenths};

use crate::propose::Row;

// Sixteen times the length of the shortest way from each column to each, and one for each of its steps: by the column
// that is left and then by the one that is reached. 65535 is none. By the number of steps each step leads nearer, also
// where it costs nothing.
pub(crate) type Keys = [Row; 16];

// What a step costs. Sums vectorize; a product that stops at 65535 does not.
#[inline(always)]
fn key(slack: u16) -> u16
    ensures { IsKey slack result }
{
    let two = slack.saturating_add(slack);
    let four = two.saturating_add(two);
    let eight = four.saturating_add(four);
    eight.saturating_add(eight).saturating_add(1)
}

// What the steps from a row's column cost.
#[inline(always)]
fn steps_from(slack: &Row) -> Row
    ensures { AreKeys slack.now result 16 }
{
    let mut steps = [0u16; 16];
    for t in 0..16usize {
        steps[t] = key(slack[t]);
    }
    steps
}

// The same, and no way from the column to itself. Keys are written where they stay.
#[inline(always)]
fn first_keys(slack: &Row, column: usize, keys: &mut Row)
    requires { column < 16 }
    ensures { AreFirstKeys slack.now column keys.new }
{
    *keys = steps_from(slack);
    keys[column] = 0;
}

// Ways of one step.
#[inline(always)]
fn begin(size: usize, slacks: &[Row; 16], owner: &[u8; 16], keys: &mut Keys)
    requires size { size ≤ 16 }
    requires owned { AreWithin owner.now size 16 }
    ensures { AreWays slacks.now owner.now size 0 keys.new }
{
    for q in 0..size {
        let row = usize::from(owner[q]);
        first_keys(&slacks[row], q, &mut keys[q]);
    }
}

// The less of a key and of a way in two parts.
#[inline(always)]
fn lesser(old: u16, middle: u16, rest: u16) -> u16
    ensures { IsNearer old middle rest result }
{
    old.min(middle.saturating_add(rest))
}

// Keys are less where ways by a column are shorter.
#[inline(always)]
fn lower(keys: &mut Row, middle: Row, rest: u16)
    ensures { IsNearerRow keys.old middle rest keys.new 16 }
{
    for t in 0..16usize {
        keys[t] = lesser(keys[t], middle[t], rest);
    }
}

// The same, and nothing is read where there is no way to that column. Rows are changed in place: a row that is handed
// out is copied on the stack.
#[inline(always)]
fn lower_by(keys: &mut Row, middle: Row, rest: u16)
    requires { AreLow keys.old }
    ensures { IsNearerRow keys.old middle rest keys.new 16 }
{
    if rest < u16::MAX {
        lower(keys, middle, rest);
    }
}

// Ways from some of the columns by one more, whose row is `middle`.
#[inline(always)]
fn go_from(first: usize, end: usize, m: usize, middle: Row, keys: &mut Keys)
    requires first { first ≤ end }
    requires end { end ≤ 16 }
    requires middle { m < 16 }
    requires low { (q : ℕ) → first ≤ q → q < end → AreLow (get_or keys.old q []) }
    ensures { AreNearerFrom first end m middle keys.old keys.new }
{
    for q in first..end {
        let rest = keys[q][m];
        lower_by(&mut keys[q], middle, rest);
    }
}

// Ways by one more column. Those that start there stay as they are.
#[inline(always)]
fn go_by(size: usize, m: usize, keys: &mut Keys)
    requires size { size ≤ 16 }
    requires middle { m < size }
    requires low { (q : ℕ) → q < size → AreLow (get_or keys.old q []) }
    ensures { AreNearer m keys.old keys.new size }
{
    let middle = keys[m];
    go_from(0, m, m, middle, keys);
    go_from(m + 1, size, m, middle, keys);
}

// Finds the shortest ways of handing columns on.
#[inline(never)]
pub(crate) fn find_ways(size: usize, slacks: &[Row; 16], owner: &[u8; 16], keys: &mut Keys)
    requires size { size ≤ 16 }
    requires owned { AreWithin owner.now size 16 }
    ensures { AreWays slacks.now owner.now size size keys.new }
{
    begin(size, slacks, owner, keys);
    for m in 0..size {
        go_by(size, m, keys);
    }
}

// The lengths of the ways to a column.
#[inline(always)]
pub(crate) fn lengths_to(keys: &Keys, column: usize) -> Row
    requires { column < 16 }
    ensures { AreSixteenths keys.now column result 16 }
{
    let mut lengths = [0u16; 16];
    for q in 0..16usize {
        lengths[q] = keys[q][column] / 16;
    }
    lengths
}
