//! Certificates that are right, or lack a game.

use super::references::write_tree;
use super::*;

// No ply; one ply; two by cuts of travel, by expansions, and by named ones.
const OPEN_GAMES: &str = "array | 0 | - |  | 0 | 1 array 0 |  | 37 => 0 0
after-e4 | 0.5 | e4 |  | 0 | 1 after-e4 0.5 | 01 | 38 => 1 0
after-e4-e5 | 1.0 | 1. e4 e5 | 22 | 0 | 1 after-e4-e5 1.0 | 0204 01 0204*13 01 0204*6 | 79 => 22 0
after-e4-e5 | 1.0 | 1. e4 e5 | 21 | 0 | 1 after-e4-e5 1.0 | 0204 01 0204*13 01 0204*6 => Budget
after-e4-e5 | 1.0 | 1. e4 e5 | 22 | 0 | 1 after-e4-e5 1.0 | 01*22 | 59 => 22 0
after-e4-e5 | 1.0 | 1. e4 e5 | 21 | 0 | 1 after-e4-e5 1.0 | 01*22 => Budget
after-e4-e5 | 1.0 | 1. e4 e5 | 22 | 22 | 1 after-e4-e5 1.0 | 05*22 => 22 22
after-e4-e5 | 1.0 | 1. e4 e5 | 22 | 21 | 1 after-e4-e5 1.0 | 05*22 => TooManyNamed";

#[test]
fn games_of_two_plies_or_fewer(rt: HostRuntime) {
    check_table(&rt, OPEN_GAMES);
}

// A check that answers that memory is refused, whatever is asked, does not say yes here.
#[test]
fn always_out_of_memory(rt: HostRuntime) {
    check_row(
        &rt,
        "after-e4 | 0.5 | e4 |  | 0 | 1 after-e4 0.5 | 01 => 1 0",
    );
}

// Two games in either order, with one of them left out, and by expansions.
const TWO_ORDERS: &str =
    "two-pawns | 1.5 | 1. d3 e6 2. e3/1. e3 e6 2. d3 | 63 | 0 | 1 two-pawns 1.5 | \
    0204*2 01 0204*10 01 0204*9 01 0204*11 01 0204*9 01 0204*17 | 158 => 63 0
two-pawns | 1.5 | 1. d3 e6 2. e3/1. e3 e6 2. d3 | 62 | 0 | 1 two-pawns 1.5 | \
    0204*2 01 0204*10 01 0204*9 01 0204*11 01 0204*9 01 0204*17 => Budget
two-pawns | 1.5 | 1. d3 e6 2. e3 |  | 0 | 1 two-pawns 1.5 | \
    0204*2 01 0204*10 01 0204*9 01 0204*11 01 0204*9 01 0204*17 => lacks 12-20 52-44 11-19
two-pawns | 1.5 | 1. e3 e6 2. d3 |  | 0 | 1 two-pawns 1.5 | \
    0204*2 01 0204*10 01 0204*9 01 0204*11 01 0204*9 01 0204*17 => lacks 11-19 52-44 12-20
two-pawns | 1.5 | 1. d3 e6 2. e3/1. e3 e6 2. d3 | 443 | 0 | 1 two-pawns 1.5 | 01*443 => 443 0
two-pawns | 1.5 | 1. d3 e6 2. e3/1. e3 e6 2. d3 | 442 | 0 | 1 two-pawns 1.5 | 01*443 => Budget";

#[test]
fn two_move_orders(rt: HostRuntime) {
    check_table(&rt, TWO_ORDERS);
}

const NO_GAME: &str = "after-e4-e5 | 0.5 |  |  | 0 | 1 after-e4-e5 0.5 | 0204 => 1 0
after-e4-e5 | 0.5 |  |  | 0 | 1 after-e4-e5 0.5 | 01 => 1 0";

#[test]
fn no_game(rt: HostRuntime) {
    check_table(&rt, NO_GAME);
}

// Listed games that are longer; no game is listed; another parity.
const SHORTER: &str = "array | 2.0 | 1. Nf3 Nf6 2. Ng1 Ng8 |  | 0 | 1 array 2.0 |  => Shorter(0)
array | 2.0 |  |  | 0 | 1 array 2.0 |  => Shorter(0)
after-e4 | 2.0 |  |  | 0 | 1 after-e4 2.0 | 01 => Shorter(1)";

#[test]
fn a_shorter_game(rt: HostRuntime) {
    check_table(&rt, SHORTER);
}

// What is answered to a list of games, by this certificate.
fn answer_to<R: Abort + AllocGlobal>(rt: &R, games: &str, bytes: &[u8]) -> Said {
    let asked = words(&format_args!("pawn-on-d6 | 2.5 | {games} |  | 0"));
    said_to(rt, asked.as_str(), &four_bounds(rt), bytes)
}

// Black's pawns on a7 and d7 have moved, and White's pawn stands on d6.
#[test]
fn four_games(rt: HostRuntime) {
    let all =
        "1. e4 a6 2. e5 d5 3. exd6/1. e4 a6 2. e5 d6 3. exd6/1. e4 d5 2. exd5 a6 3. d6/1. e4 d6 2. e5 a6 3. exd6/";
    assert_eq!(rt; games_of(&rt, all).len(), 4);
    let mut bytes = certificate(&rt, "1 pawn-on-d6 2.5", "0204*4");
    write_tree(&rt, &mut bytes, &diagram_of(&rt, "pawn-on-d6"), 5);
    let said = answer_to(&rt, all, bytes.as_slice());
    assert!(rt; is_yes(&said), "{said}");
    let three = "1. e4 a6 2. e5 d6 3. exd6/1. e4 d5 2. exd5 a6 3. d6/1. e4 d6 2. e5 a6 3. exd6";
    let said = answer_to(&rt, three, bytes.as_slice());
    assert_eq!(rt; said.as_str(), "lacks 12-28 48-40 28-36 51-35 36-43");
}

// A queen recaptures, by expansions, and by a cut in the tree of one ply; two ways to a mate.
const LONG: &str =
    "recaptured | 2.0 | 1. e4 d5 2. exd5 Qxd5 |  | 0 | 1 recaptured 2.0 | 01*9766 | 9803 => 9766 0
recaptured | 2.0 | 1. e4 d5 2. exd5 Qxd5 |  | 0 | 1 recaptured 2.0 | 0201 01*9765 | 9804 => 9766 0
fools-mate | 2.0 | 1. f3 e5 2. g4 Qh4#/1. g4 e5 2. f3 Qh4# |  | 0 | 1 fools-mate 2.0 | 01*9766 => 9766 0";

#[test]
fn expansions_of_four_plies(rt: HostRuntime) {
    check_table(&rt, LONG);
}
