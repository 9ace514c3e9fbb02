//! Distances, the bound by travel, and its prices: worked examples.

use crate::texts::{
    NumberList, Row, check_all, check_bound, check_line, color, diagram, is_yes, numbers, position,
    row_of,
};
use pg_board::{Color, Kind, Man, Square};
use pg_captures::Bound;
use pg_fen::man_of;
use pg_travel::*;
use std::process::Abort;

// A diagram, a position and a colour, and the least plies of that colour. Without the right to castle, or with the
// other one, a castled rook needs three; rooks that can each go to either of two squares need one each.
const NEEDS: &str = "4k3/8/8/8/8/8/8/R4RK1 | 4k3/8/8/8/8/8/8/R3K2R w K - 0 1 | White => 1
4k3/8/8/8/8/8/8/R4RK1 | 4k3/8/8/8/8/8/8/R3K2R w K - 0 1 | Black => 0
4k3/8/8/8/8/8/8/R4RK1 | 4k3/8/8/8/8/8/8/R3K2R w - - 0 1 | White => 3
4k3/8/8/8/8/8/8/R4RK1 | 4k3/8/8/8/8/8/8/R3K2R w Q - 0 1 | White => 3
4k3/8/8/8/8/R7/R7/4K3 | 4k3/8/8/8/8/8/8/R3K2R w - - 0 1 | White => 2
rnbqkbnr/pppppppp/8/8/8/3B4/PPPPPPPP/RN1QKBNR | rnbqkbnr/pppppppp/8/8/8/8/PPPPPPPP/RNBQKBNR w KQkq - 0 1 | White => 1";

#[test]
fn needs(rt: HostRuntime) {
    for line in NEEDS.lines() {
        let row = row_of(&rt, line);
        let by = color(&rt, row.asked);
        let found = need(by, &diagram(&rt, row.diagram), &position(&rt, row.position));
        check_line(&rt, line, found == row.wanted.parse::<u16>().ok());
    }
}

const TRAVEL: &str = "4k3/8/8/8/8/8/8/R4RK1 | 4k3/8/8/8/8/8/8/R3K2R w K - 0 1 | 1 => no
4k3/8/8/8/8/8/8/R4RK1 | 4k3/8/8/8/8/8/8/R3K2R w - - 0 1 | 4 => yes
4k3/8/8/8/8/8/8/R4RK1 | 4k3/8/8/8/8/8/8/R3K2R w - - 0 1 | 5 => no
4k3/8/8/8/8/R7/R7/4K3 | 4k3/8/8/8/8/8/8/R3K2R w - - 0 1 | 2 => yes
4k3/8/8/8/8/R7/R7/4K3 | 4k3/8/8/8/8/8/8/R3K2R w - - 0 1 | 4 => no
4k3/8/8/8/8/R7/R7/4K3 | 4k3/8/8/8/8/8/8/R3K2R w - - 0 1 | 5 => no
rnbqkbnr/pppppppp/8/8/8/3B4/PPPPPPPP/RN1QKBNR | rnbqkbnr/pppppppp/8/8/8/8/PPPPPPPP/RNBQKBNR w KQkq - 0 1 | 4 => no
rnbqkbnr/pppppppp/8/8/8/3B4/PPPPPPPP/RN1QKBNR | rnbqkbnr/pppppppp/8/8/8/8/PPPPPPPP/RNBQKBNR w KQkq - 0 1 | 0 => yes";

#[test]
fn travel(rt: HostRuntime) {
    check_bound(&rt, &Travel, TRAVEL);
    assert!(rt; Travel.code() == 4);
}

// By the rows of one of the diagrams: the others are asked as without rows.
#[test]
fn travel_by_rows(rt: HostRuntime) {
    let rows = Rows::new(&diagram(&rt, "4k3/8/8/8/8/8/8/R4RK1"));
    let bound = TravelByRows { rows };
    check_bound(&rt, &bound, TRAVEL);
    assert!(rt; bound.code() == 4);
}

// The man and the square of a text such as `Pe2`, a white pawn, or `pe7`, a black one.
fn placed(rt: &impl Abort, text: &str) -> (Man, Square) {
    let bytes = text.as_bytes();
    assert!(rt; bytes.len() == 3);
    let man = man_of(bytes[0]).expect(rt, text);
    let (file, rank) = (bytes[1].wrapping_sub(b'`'), bytes[2].wrapping_sub(b'0'));
    (man, Square::new(file, rank).expect(rt, text))
}

// A number of moves, or none for `never`.
fn moves_of(rt: &impl Abort, wanted: &str) -> Option<u8> {
    if wanted == "never" {
        None
    } else {
        Some(wanted.parse::<u8>().expect(rt, wanted))
    }
}

// That each row's man comes to its square as such a man by the row's number of moves, or never.
fn check_distances(rt: &impl Abort, table: &str) {
    for line in table.lines() {
        let (case, wanted) = line.split_once(" => ").expect(rt, line);
        let (from, to) = case.split_once(' ').expect(rt, line);
        let (man, from) = placed(rt, from);
        let (other, to) = placed(rt, to);
        let found = distance(man, from, other.kind, to);
        check_line(rt, line, found == moves_of(rt, wanted));
    }
}

const DISTANCES: &str = "Pe2 Pd6 => 3
Pe2 Qe8 => 5
Pe4 Pe2 => never
Na1 Nb2 => 4
Bc1 Bd1 => never
Rc1 Qc1 => never
Pa8 Qa8 => never";

#[test]
fn some_distances(rt: HostRuntime) {
    check_distances(&rt, DISTANCES);
}

const PROMOTIONS: &str = "Pe2 Ne8 => 5
pe7 ne1 => 5
Pe2 Na1 => 9
pe7 na8 => 9
Pe2 Be8 => 5
pe7 be1 => 5
Pe2 Ba1 => 6
pe7 ba8 => 6
Pe2 Re8 => 5
pe7 re1 => 5
Pe2 Ra1 => 6
pe7 ra8 => 6
Pe2 Qe8 => 5
pe7 qe1 => 5
Pe2 Qa1 => 6
pe7 qa8 => 6
Pe7 Ke8 => never";

#[test]
fn promotions_of_both_colors(rt: HostRuntime) {
    check_distances(&rt, PROMOTIONS);
}

// The least knight moves from a1, rank 1 first.
const FROM_CORNER: [u8; 64] = [
    0, 3, 2, 3, 2, 3, 4, 5, 3, 4, 1, 2, 3, 4, 3, 4, 2, 1, 4, 3, 2, 3, 4, 5, 3, 2, 3, 2, 3, 4, 3, 4,
    2, 3, 2, 3, 4, 3, 4, 5, 3, 4, 3, 4, 3, 4, 5, 4, 4, 3, 4, 3, 4, 5, 4, 5, 5, 4, 5, 4, 5, 4, 5, 6,
];

#[test]
fn knights_from_the_corner(rt: HostRuntime) {
    let corner = Square::at(0);
    let knight = Man {
        color: Color::White,
        kind: Kind::Knight,
    };
    for i in 0..64u8 {
        let found = distance(knight, corner, Kind::Knight, Square::at(i));
        assert!(rt; found == Some(FROM_CORNER[i as usize]), "square {i}");
    }
}

// The numbers on either side of the colon of a text such as `1 0 0 : 0 2 2`.
fn list_of(rt: &impl Abort, text: &str) -> (NumberList, NumberList) {
    let (sources, targets) = text.split_once(" : ").expect(rt, text);
    (numbers(rt, sources), numbers(rt, targets))
}

fn one_list(rt: &impl Abort, text: &str) -> Option<Prices> {
    let (u, v) = list_of(rt, text);
    Prices::new(u.as_slice(), v.as_slice())
}

fn adds(rt: &impl Abort, prices: &mut Prices, text: &str) -> bool {
    let (u, v) = list_of(rt, text);
    prices.add(u.as_slice(), v.as_slice())
}

// The prices of a text with a list for each way and `, ` between lists.
fn prices_of(rt: &impl Abort, text: &str) -> Prices {
    let (first, more) = text.split_once(", ").unwrap_or((text, ""));
    let mut prices = one_list(rt, first).expect(rt, text);
    let mut ways = 1usize;
    for list in more.split(", ") {
        if !list.is_empty() {
            check_line(rt, text, adds(rt, &mut prices, list));
            ways = ways.saturating_add(1);
        }
    }
    check_line(rt, text, prices.ways() == ways);
    prices
}

// That in each row the prices of a colour exclude the diagram from the position in the row's plies, or do not.
fn check_prices(rt: &impl Abort, table: &str) {
    for line in table.lines() {
        let row = row_of(rt, line);
        let (by, rest) = row.asked.split_once(' ').expect(rt, line);
        let (plies, prices) = rest.split_once(" | ").expect(rt, line);
        let plies = plies.parse::<u8>().expect(rt, line);
        let found = is_cut(rt, &row, plies, color(rt, by), &prices_of(rt, prices));
        check_line(rt, line, found == is_yes(rt, row.wanted));
    }
}

fn is_cut(rt: &impl Abort, row: &Row<'_>, plies: u8, by: Color, prices: &Prices) -> bool {
    let wanted = diagram(rt, row.diagram);
    let start = position(rt, row.position);
    let found = prices_exclude(&wanted, &start, plies, by, prices);
    let rows = Rows::new(&wanted);
    let by_rows = prices_exclude_by(&rows, &wanted, &start, plies, by, prices);
    assert!(rt; by_rows == found);
    found
}

// A rook of a1 or h1 on a2, the other on a3: three plies together, where each target alone is near.
const TWO_ROOKS: &str =
    "4k3/8/8/8/8/R7/R7/4K3 | 4k3/8/8/8/8/8/8/R3K2R w - - 0 1 | White 4 | 1 0 0 : 0 2 2 => yes
4k3/8/8/8/8/R7/R7/4K3 | 4k3/8/8/8/8/8/8/R3K2R w - - 0 1 | White 0 | 1 0 0 : 0 2 2 => yes
4k3/8/8/8/8/R7/R7/4K3 | 4k3/8/8/8/8/8/8/R3K2R w - - 0 1 | White 5 | 1 0 0 : 0 2 2 => no
4k3/8/8/8/8/R7/R7/4K3 | 4k3/8/8/8/8/8/8/R3K2R w - - 0 1 | White 255 | 1 0 0 : 0 2 2 => no
4k3/8/8/8/8/R7/R7/4K3 | 4k3/8/8/8/8/8/8/R3K2R w - - 0 1 | Black 4 | 1 0 0 : 0 2 2 => no";

#[test]
fn prices_of_two_rooks(rt: HostRuntime) {
    check_prices(&rt, TWO_ROOKS);
}

// A price too high, and pairs violated that no best assignment uses: from a1 to a2 and to a3.
const NO_FIT: &str =
    "4k3/8/8/8/8/R7/R7/4K3 | 4k3/8/8/8/8/8/8/R3K2R w - - 0 1 | White 4 | 1 0 0 : 0 3 2 => no
4k3/8/8/8/8/R7/R7/4K3 | 4k3/8/8/8/8/8/8/R3K2R w - - 0 1 | White 4 | 1 0 0 : 0 2 3 => no
4k3/8/8/8/8/R7/R7/4K3 | 4k3/8/8/8/8/8/8/R3K2R w - - 0 1 | White 4 | 1 0 0 : 1 2 2 => no
4k3/8/8/8/8/R7/R7/4K3 | 4k3/8/8/8/8/8/8/R3K2R w - - 0 1 | White 4 | 0 0 0 : 0 1 2 => no
4k3/8/8/8/8/R7/R7/4K3 | 4k3/8/8/8/8/8/8/R3K2R w - - 0 1 | White 4 | 0 0 0 : 0 2 1 => no
4k3/8/8/8/8/R7/R7/4K3 | 4k3/8/8/8/8/8/8/R3K2R w - - 0 1 | White 4 | 0 0 1 : 0 2 2 => no
4k3/8/8/8/8/R7/R7/4K3 | 4k3/8/8/8/8/8/8/R3K2R w - - 0 1 | White 4 | 0 0 0 : 0 0 0 => no
4k3/8/8/8/8/R7/R7/4K3 | 4k3/8/8/8/8/8/8/R3K2R w - - 0 1 | White 4 | 255 255 255 : 255 255 255 => no
4k3/8/8/8/8/R7/R7/4K3 | 4k3/8/8/8/8/8/8/R3K2R w - - 0 1 | White 4 | 0 0 0 : 255 255 255 => no";

#[test]
fn prices_that_do_not_fit(rt: HostRuntime) {
    check_prices(&rt, NO_FIT);
}

// Another number of entries than of men, or of lists than of ways.
const OTHER_MEN: &str =
    "4k3/8/8/8/8/R7/R7/4K3 | 4k3/8/8/8/8/8/8/R3K2R w - - 0 1 | White 0 | 0*0 : 0 2 2 => no
4k3/8/8/8/8/R7/R7/4K3 | 4k3/8/8/8/8/8/8/R3K2R w - - 0 1 | White 0 | 1 0 0 : 2*0 => no
4k3/8/8/8/8/R7/R7/4K3 | 4k3/8/8/8/8/8/8/R3K2R w - - 0 1 | White 0 | 0*0 : 255*0 => no
4k3/8/8/8/8/R7/R7/4K3 | 4k3/8/8/8/8/8/8/R3K2R w - - 0 1 | White 0 | 0*2 : 0 2 2 => no
4k3/8/8/8/8/R7/R7/4K3 | 4k3/8/8/8/8/8/8/R3K2R w - - 0 1 | White 0 | 1 0 0 : 2*2 => no
4k3/8/8/8/8/R7/R7/4K3 | 4k3/8/8/8/8/8/8/R3K2R w - - 0 1 | White 0 | 0*2 : 255*2 => no
4k3/8/8/8/8/R7/R7/4K3 | 4k3/8/8/8/8/8/8/R3K2R w - - 0 1 | White 0 | 0*4 : 0 2 2 => no
4k3/8/8/8/8/R7/R7/4K3 | 4k3/8/8/8/8/8/8/R3K2R w - - 0 1 | White 0 | 1 0 0 : 2*4 => no
4k3/8/8/8/8/R7/R7/4K3 | 4k3/8/8/8/8/8/8/R3K2R w - - 0 1 | White 0 | 0*4 : 255*4 => no
4k3/8/8/8/8/R7/R7/4K3 | 4k3/8/8/8/8/8/8/R3K2R w - - 0 1 | White 0 | 0*63 : 0 2 2 => no
4k3/8/8/8/8/R7/R7/4K3 | 4k3/8/8/8/8/8/8/R3K2R w - - 0 1 | White 0 | 1 0 0 : 2*63 => no
4k3/8/8/8/8/R7/R7/4K3 | 4k3/8/8/8/8/8/8/R3K2R w - - 0 1 | White 0 | 0*63 : 255*63 => no
4k3/8/8/8/8/R7/R7/4K3 | 4k3/8/8/8/8/8/8/R3K2R w - - 0 1 | White 0 | 0*64 : 0 2 2 => no
4k3/8/8/8/8/R7/R7/4K3 | 4k3/8/8/8/8/8/8/R3K2R w - - 0 1 | White 0 | 1 0 0 : 2*64 => no
4k3/8/8/8/8/R7/R7/4K3 | 4k3/8/8/8/8/8/8/R3K2R w - - 0 1 | White 0 | 0*64 : 255*64 => no
4k3/8/8/8/8/R7/R7/4K3 | 4k3/8/8/8/8/8/8/R3K2R w - - 0 1 | White 0 | 1 0 0 : 0 2 2, 1 0 0 : 0 2 2 => no
4k3/8/8/8/8/R7/R7/4K3 | 4k3/8/8/8/8/8/8/R3K2R w - - 0 1 | White 0 | 1 0 0 : 0 2 2, 1 0 0 : 0 2 2, 1 0 0 : 0 2 2 => no";

#[test]
fn prices_for_other_men(rt: HostRuntime) {
    check_prices(&rt, OTHER_MEN);
}

// 63 white men, and no queen becomes the knight of b8.
const FULL_BOARD: &str =
    "kNQQQQQQ/QQQQQQQQ/QQQQQQQQ/QQQQQQQQ/QQQQQQQQ/QQQQQQQQ/QQQQQQQQ/QQQQQQQK | \
    kQQQQQQQ/QQQQQQQQ/QQQQQQQQ/QQQQQQQQ/QQQQQQQQ/QQQQQQQQ/QQQQQQQQ/QQQQQQQK b - - 0 1 | \
    White 255 | 0*63 : 0*56 255 0*6 => yes
kNQQQQQQ/QQQQQQQQ/QQQQQQQQ/QQQQQQQQ/QQQQQQQQ/QQQQQQQQ/QQQQQQQQ/QQQQQQQK | \
    kQQQQQQQ/QQQQQQQQ/QQQQQQQQ/QQQQQQQQ/QQQQQQQQ/QQQQQQQQ/QQQQQQQQ/QQQQQQQK b - - 0 1 | \
    White 0 | 255*63 : 255*63 => no
kNQQQQQQ/QQQQQQQQ/QQQQQQQQ/QQQQQQQQ/QQQQQQQQ/QQQQQQQQ/QQQQQQQQ/QQQQQQQK | \
    kQQQQQQQ/QQQQQQQQ/QQQQQQQQ/QQQQQQQQ/QQQQQQQQ/QQQQQQQQ/QQQQQQQQ/QQQQQQQK b - - 0 1 | \
    White 255 | 0*63 : 255*63 => no";

#[test]
fn prices_of_a_full_board(rt: HostRuntime) {
    check_prices(&rt, FULL_BOARD);
}

// With the right to castle there are two ways, and the castling way costs one ply alone.
const CASTLING_WAY: &str =
    "4k3/8/8/8/8/8/8/R4RK1 | 4k3/8/8/8/8/8/8/R3K2R w K - 0 1 | White 0 | 0 0 0 : 0 1 2 => no
4k3/8/8/8/8/8/8/R4RK1 | 4k3/8/8/8/8/8/8/R3K2R w K - 0 1 | White 4 | 0 0 0 : 0 1 2, 0 0 0 : 0 0 0 => no
4k3/8/8/8/8/8/8/R4RK1 | 4k3/8/8/8/8/8/8/R3K2R w K - 0 1 | White 1 | 0 0 0 : 0 1 2, 0 0 0 : 0 0 0 => no
4k3/8/8/8/8/8/8/R4RK1 | 4k3/8/8/8/8/8/8/R3K2R w K - 0 1 | White 0 | 0 0 0 : 0 1 2, 0 0 0 : 0 0 0 => yes
4k3/8/8/8/8/8/8/R4RK1 | 4k3/8/8/8/8/8/8/R3K2R w K - 0 1 | White 0 | 0 0 0 : 0 1 2, 0 0 0 : 0 1 0 => no
4k3/8/8/8/8/8/8/R4RK1 | 4k3/8/8/8/8/8/8/R3K2R w K - 0 1 | White 0 | 0 0 0 : 0 0 0, 0 0 0 : 0 1 2 => no
4k3/8/8/8/8/8/8/R4RK1 | 4k3/8/8/8/8/8/8/R3K2R w - - 0 1 | White 4 | 0 0 0 : 0 1 2 => yes
4k3/8/8/8/8/8/8/R4RK1 | 4k3/8/8/8/8/8/8/R3K2R w - - 0 1 | White 5 | 0 0 0 : 0 1 2 => no";

#[test]
fn prices_of_a_castling_way(rt: HostRuntime) {
    check_prices(&rt, CASTLING_WAY);
}

// The ways in their order: none, king side, queen side.
const THREE_WAYS: &str =
    "4k3/8/8/8/8/8/8/R4RK1 | 4k3/8/8/8/8/8/8/R3K2R w KQ - 0 1 | White 0 | 0 0 0 : 0 1 2, 0 0 0 : 0 0 0 => no
4k3/8/8/8/8/8/8/R4RK1 | 4k3/8/8/8/8/8/8/R3K2R w KQ - 0 1 | White 0 | 0 0 0 : 0 1 2, 0 0 0 : 0 0 0, 0 0 0 : 1 1 4 => yes
4k3/8/8/8/8/8/8/R4RK1 | 4k3/8/8/8/8/8/8/R3K2R w KQ - 0 1 | White 1 | 0 0 0 : 0 1 2, 0 0 0 : 0 0 0, 0 0 0 : 1 1 4 => no
4k3/8/8/8/8/8/8/R4RK1 | 4k3/8/8/8/8/8/8/R3K2R w KQ - 0 1 | White 0 | 0 0 0 : 0 1 2, 0 0 0 : 0 0 0, 0 0 0 : 1 1 5 => no
4k3/8/8/8/8/8/8/R4RK1 | 4k3/8/8/8/8/8/8/R3K2R w K - 0 1 | White 0 | 0 0 0 : 0 1 2, 0 0 0 : 0 0 0, 0 0 0 : 1 1 4 => no";

#[test]
fn prices_of_three_ways(rt: HostRuntime) {
    check_prices(&rt, THREE_WAYS);
}

// Queen side, and the other colour.
const OTHER_CASTLINGS: &str =
    "4k3/8/8/8/8/8/8/2KR3R | 4k3/8/8/8/8/8/8/R3K2R w Q - 0 1 | White 0 | 0 0 0 : 2 1 0, 0 0 0 : 0 0 0 => yes
4k3/8/8/8/8/8/8/2KR3R | 4k3/8/8/8/8/8/8/R3K2R w Q - 0 1 | White 1 | 0 0 0 : 2 1 0, 0 0 0 : 0 0 0 => no
r4rk1/8/8/8/8/8/8/4K3 | r3k2r/8/8/8/8/8/8/4K3 b k - 0 1 | Black 0 | 0 0 0 : 0 1 2, 0 0 0 : 0 0 0 => yes
r4rk1/8/8/8/8/8/8/4K3 | r3k2r/8/8/8/8/8/8/4K3 b k - 0 1 | Black 1 | 0 0 0 : 0 1 2, 0 0 0 : 0 0 0 => no";

#[test]
fn prices_of_other_castlings(rt: HostRuntime) {
    check_prices(&rt, OTHER_CASTLINGS);
}

// That the list of a way is this one.
fn check_list(rt: &impl Abort, prices: &Prices, way: usize, text: &str) {
    let (u, v) = list_of(rt, text);
    let is_so = prices.u(way) == u.as_slice();
    check_line(rt, text, is_so && prices.v(way) == v.as_slice());
}

fn check_sizes(rt: &impl Abort, text: &str, sources: usize, targets: usize) {
    let prices = prices_of(rt, text);
    check_all(
        rt,
        &[
            prices.ways() == 1,
            prices.sources() == sources,
            prices.targets() == targets,
        ],
    );
    check_list(rt, &prices, 0, text);
}

#[test]
fn lists_of_prices(rt: HostRuntime) {
    assert!(rt; one_list(&rt, "0*65 : 0*0").is_none() && one_list(&rt, "0*0 : 0*65").is_none());
    check_sizes(&rt, "255*0 : 255*0", 0, 0);
    check_sizes(&rt, "255*63 : 255*63", 63, 63);
    check_sizes(&rt, "255*64 : 255*64", 64, 64);
    check_sizes(&rt, "1 2 : 3", 2, 1);
}

#[test]
fn three_lists_of_prices(rt: HostRuntime) {
    let mut prices = prices_of(&rt, "1 2 : 3");
    let copied = prices;
    check_all(
        &rt,
        &[
            !adds(&rt, &mut prices, "1 : 3"),
            !adds(&rt, &mut prices, "1 2 : 0*0"),
            !adds(&rt, &mut prices, "1 2 3 : 3"),
            prices.ways() == 1,
            adds(&rt, &mut prices, "4 5 : 6"),
            adds(&rt, &mut prices, "7 8 : 9"),
            !adds(&rt, &mut prices, "10 11 : 12"),
            prices.ways() == 3,
            copied.ways() == 1,
        ],
    );
    check_list(&rt, &prices, 0, "1 2 : 3");
    check_list(&rt, &prices, 1, "4 5 : 6");
    check_list(&rt, &prices, 2, "7 8 : 9");
    check_list(&rt, &prices, 3, "0*0 : 0*0");
    assert!(rt; prices.u(usize::MAX).is_empty());
}
