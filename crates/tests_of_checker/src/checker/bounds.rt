//! Cuts by bounds that are handed in.

use super::*;
use pg_trial::{Men, Never};

const HOLD: &str = "pawn-on-d3 | 2.0 |  |  | 0 | 1 pawn-on-d3 2.0 | 0203*4 => 4 0
bishop-on-d3 | 2.0 |  |  | 0 | 1 bishop-on-d3 2.0 | 0202*4 => 4 0";

#[test]
fn cuts_that_hold(rt: HostRuntime) {
    check_table(&rt, HOLD);
}

// Each code at the array with one ply left; two cuts in a row, of which the second one is read; codes that no
// bound has; and cuts before and after an expansion.
const DO_NOT: &str = "bishop-on-d3 | 2.0 |  |  | 0 | 1 bishop-on-d3 2.0 | 0201 => CutFails(1)
bishop-on-d3 | 2.0 |  |  | 0 | 1 bishop-on-d3 2.0 | 0203 => CutFails(3)
bishop-on-d3 | 2.0 |  |  | 0 | 1 bishop-on-d3 2.0 | 0204 => CutFails(4)
pawn-on-d3 | 2.0 |  |  | 0 | 1 pawn-on-d3 2.0 | 0201 => CutFails(1)
pawn-on-d3 | 2.0 |  |  | 0 | 1 pawn-on-d3 2.0 | 0202 => CutFails(2)
pawn-on-d3 | 2.0 |  |  | 0 | 1 pawn-on-d3 2.0 | 0204 => CutFails(4)
after-e4-e5 | 1.0 |  |  | 0 | 1 after-e4-e5 1.0 | 0203 => CutFails(3)
after-e4-e5 | 1.0 |  |  | 0 | 1 after-e4-e5 1.0 | 0202 => CutFails(2)
after-e4-e5 | 1.0 |  |  | 0 | 1 after-e4-e5 1.0 | 0204*2 => CutFails(4)
after-e4-e5 | 1.0 |  |  | 0 | 1 after-e4-e5 1.0 | 0200 => UnknownBound(0)
after-e4-e5 | 1.0 |  |  | 0 | 1 after-e4-e5 1.0 | 0205 => UnknownBound(5)
after-e4-e5 | 1.0 |  |  | 0 | 1 after-e4-e5 1.0 | 02ff => UnknownBound(255)
recaptured | 2.0 | 1. e4 d5 2. exd5 Qxd5 |  | 0 | 1 recaptured 2.0 | 01 0201 => CutFails(1)
recaptured | 2.0 | 1. e4 d5 2. exd5 Qxd5 |  | 0 | 1 recaptured 2.0 | 0201 0203 => CutFails(3)";

#[test]
fn cuts_that_do_not(rt: HostRuntime) {
    check_table(&rt, DO_NOT);
}

// The array with a pawn more, and what as many men as in the array say.
#[test]
fn a_bound_of_ones_own(rt: HostRuntime) {
    let more = "pawn-on-a3 | 0.5 |  |  | 0 | 1 pawn-on-a3 0.5 | 0209";
    let as_many = "after-e4 | 0.5 | e4 |  | 0 | 1 after-e4 0.5 | 0209";
    check_judged(&rt, more, &four_bounds(&rt), "UnknownBound(9)");
    let mut bounds: Vec<Box<dyn Bound>> = Vec::new(rt.alloc());
    add(&rt, &mut bounds, boxed(&rt, Captures));
    add(&rt, &mut bounds, boxed(&rt, Men));
    check_judged(&rt, more, &bounds, "1 0");
    check_judged(&rt, as_many, &bounds, "CutFails(9)");
}

#[test]
fn the_first_bound_of_a_code_decides(rt: HostRuntime) {
    let asked = "recaptured | 2.0 | 1. e4 d5 2. exd5 Qxd5 |  | 0 | 1 recaptured 2.0 | 0201 01*9765";
    let mut bounds: Vec<Box<dyn Bound>> = Vec::new(rt.alloc());
    check_judged(&rt, asked, &bounds, "UnknownBound(1)");
    add(&rt, &mut bounds, boxed(&rt, Never::new(1)));
    add(&rt, &mut bounds, boxed(&rt, Captures));
    check_judged(&rt, asked, &bounds, "CutFails(1)");
    bounds.clear();
    add(&rt, &mut bounds, boxed(&rt, Captures));
    add(&rt, &mut bounds, boxed(&rt, Never::new(1)));
    check_judged(&rt, asked, &bounds, "9766 0");
}
