//! Least totals of assignments: worked examples.

use crate::texts::{check_all, check_line};
use pg_assignments::{Costs, LeastTotals, NONE, least_total, least_totals, least_with_all};
use std::process::Abort;

// Numbers by rows and columns, 65535 for none.
type Table = [[u16; 16]; 16];

// The numbers of a text such as `1 - 3`, where `-` is none.
fn numbers(rt: &impl Abort, text: &str) -> [u16; 16] {
    let mut row = [u16::MAX; 16];
    let mut column = 0usize;
    for word in text.split(' ') {
        assert!(rt; column < 16, "{text}");
        if word != "-" {
            row[column] = word.parse::<u16>().expect(rt, text);
        }
        column += 1;
    }
    row
}

// The table of a text such as `1 - / 2 3`.
fn table(rt: &impl Abort, text: &str) -> Table {
    let mut table = all(u16::MAX);
    let mut at = 0usize;
    for row in text.split(" / ") {
        assert!(rt; at < 16, "{text}");
        table[at] = numbers(rt, row);
        at += 1;
    }
    table
}

// A row of costs, 255 for none.
fn bytes(numbers: &[u16; 16]) -> [u8; 16] {
    let mut row = [NONE; 16];
    for i in 0..16usize {
        row[i] = numbers[i].min(255) as u8;
    }
    row
}

fn costs(table: &Table, size: usize) -> Costs {
    let mut rows = [[NONE; 16]; 16];
    for i in 0..16usize {
        rows[i] = bytes(&table[i]);
    }
    Costs { size, rows }
}

// Whether tables are the same in the first `size` rows and columns.
fn is_same(a: &Table, b: &Table, size: usize) -> bool {
    let size = size.min(16);
    let mut same = true;
    for i in 0..size {
        same &= a[i][..size] == b[i][..size];
    }
    same
}

// Whether this is the least total, and these are the pairs', also within a budget.
fn has_totals(found: Option<LeastTotals>, least: u16, pairs: &Table, size: usize) -> bool {
    match found {
        None => least == u16::MAX,
        Some(totals) => totals.least == least && is_same(&totals.pairs, pairs, size),
    }
}

// Whether all that is asked of these costs answers the least total and the pairs' totals, and nothing in a budget
// below.
fn says(costs: &Costs, least: u16, pairs: &Table) -> bool {
    costs.size <= 16
        && least_total(costs).unwrap_or(u16::MAX) == least
        && is_same(&least_with_all(costs), pairs, costs.size)
        && has_totals(least_totals(costs, least), least, pairs, costs.size)
        && (least == 0 || least_totals(costs, least - 1).is_none())
}

// Costs by rows, the least total, and the totals of all pairs of a row and a column.
const TOTALS: &str = "3 => 3 | 3
0 => 0 | 0
254 => 254 | 254
- => - | -
1 2 / 2 1 => 2 | 2 4 / 4 2
1 2 / 1 9 => 3 | 10 3 / 3 10
- 5 / 5 - => 10 | - 10 / 10 -
0 - / 0 0 => 0 | 0 - / - 0
- - / 1 1 => - | - - / - -
1 - / 1 - => - | - - / - -
4 1 3 / 2 0 5 / 3 2 2 => 5 | 6 5 6 / 5 6 9 / 6 7 5
0 1 - / - 0 1 / 1 - 0 => 0 | 0 3 - / - 0 3 / 3 - 0
7 - - / 7 7 - / 7 7 7 => 21 | 21 - - / - 21 - / - - 21
9 9 0 / 9 9 0 / 0 9 9 => 9 | 18 9 9 / 18 9 9 / 9 18 27";

#[test]
fn small_tables(rt: HostRuntime) {
    for line in TOTALS.lines() {
        let (case, wanted) = line.split_once(" => ").expect(&rt, line);
        let (least, pairs) = wanted.split_once(" | ").expect(&rt, line);
        let size = case.split(" / ").count();
        let holds = says(
            &costs(&table(&rt, case), size),
            numbers(&rt, least)[0],
            &table(&rt, pairs),
        );
        check_line(&rt, line, holds);
    }
}

#[test]
fn no_rows(rt: HostRuntime) {
    assert!(rt; says(&costs(&all(u16::MAX), 0), 0, &all(u16::MAX)));
}

fn all(number: u16) -> Table {
    [[number; 16]; 16]
}

// Each row goes to its own column or to the next one, the last row to the first.
fn ring(own: u16, next: u16) -> Table {
    let mut table = all(u16::MAX);
    for i in 0..16usize {
        table[i][i] = own;
        table[i][(i + 1) % 16] = next;
    }
    table
}

// Two rows go to one column alone, and it is the same.
fn blocked() -> Table {
    let mut table = all(7);
    let mut lone = [u16::MAX; 16];
    lone[5] = 7;
    table[3] = lone;
    table[9] = lone;
    table
}

// Where a row of a ring leaves its own column all rows have to.
#[test]
fn sixteen_rows(rt: HostRuntime) {
    check_all(
        &rt,
        &[
            says(&costs(&ring(0, 1), 16), 0, &ring(0, 16)),
            says(&costs(&ring(254, 0), 16), 0, &ring(4064, 0)),
            says(&costs(&all(254), 16), 4064, &all(4064)),
            says(&costs(&all(0), 16), 0, &all(0)),
            says(&costs(&blocked(), 16), u16::MAX, &all(u16::MAX)),
        ],
    );
}
