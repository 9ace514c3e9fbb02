//! Certificates of version 2: prices, and positions of the same future.

use super::references::check_marked;
use super::*;
use pg_trial::Endless;
use std::io::Read;

// Four cuts by prices of White's pawns, one for each length below 2.0, from the array to the diagram with the
// pawn on d3: the sources a2 to h2, of which d2 pays one, and the targets a2, b2, c2, d2, f2, g2, h2 and d3, of
// which d2 and d3 get one. Then the first of them with another last price; of Black's; of another bound; of one
// without prices, in both versions.
const PAWN_FILES: &str = "pawn-on-d3 | 2.0 |  | 4 | 0 | 2 pawn-on-d3 2.0 | \
    060300010808 00*3 01 00*7 01 00*3 01 060300010808 00*3 01 00*7 01 00*3 01 060300010808 00*3 01 00*7 01 00*3 01 \
    060300010808 00*3 01 00*7 01 00*3 01 | 125 => 4 0
pawn-on-d3 | 2.0 |  | 3 | 0 | 2 pawn-on-d3 2.0 | \
    060300010808 00*3 01 00*7 01 00*3 01 060300010808 00*3 01 00*7 01 00*3 01 060300010808 00*3 01 00*7 01 00*3 01 \
    060300010808 00*3 01 00*7 01 00*3 01 => Budget
pawn-on-d3 | 2.0 |  |  | 0 | 2 pawn-on-d3 2.0 | \
    060300010808 00*3 01 00*7 01 00*3 02 060300010808 00*3 01 00*7 01 00*3 01 060300010808 00*3 01 00*7 01 00*3 01 \
    060300010808 00*3 01 00*7 01 00*3 01 => CutFails(3)
pawn-on-d3 | 2.0 |  |  | 0 | 2 pawn-on-d3 2.0 | \
    060301010808 00*3 01 00*7 01 00*3 01 060300010808 00*3 01 00*7 01 00*3 01 060300010808 00*3 01 00*7 01 00*3 01 \
    060300010808 00*3 01 00*7 01 00*3 01 => CutFails(3)
pawn-on-d3 | 2.0 |  |  | 0 | 2 pawn-on-d3 2.0 | \
    060400010808 00*3 01 00*7 01 00*3 01 060300010808 00*3 01 00*7 01 00*3 01 060300010808 00*3 01 00*7 01 00*3 01 \
    060300010808 00*3 01 00*7 01 00*3 01 => CutFails(4)
pawn-on-d3 | 2.0 |  |  | 0 | 2 pawn-on-d3 2.0 | \
    060100010808 00*3 01 00*7 01 00*3 01 060300010808 00*3 01 00*7 01 00*3 01 060300010808 00*3 01 00*7 01 00*3 01 \
    060300010808 00*3 01 00*7 01 00*3 01 => UnknownBound(1)
pawn-on-d3 | 2.0 |  |  | 0 | 1 pawn-on-d3 2.0 | \
    060100010808 00*3 01 00*7 01 00*3 01 060300010808 00*3 01 00*7 01 00*3 01 060300010808 00*3 01 00*7 01 00*3 01 \
    060300010808 00*3 01 00*7 01 00*3 01 => UnknownRecord(6)";

#[test]
fn prices_of_pawn_files(rt: HostRuntime) {
    check_table(&rt, PAWN_FILES);
    let row = PAWN_FILES.lines().next().expect(&rt, "four cuts");
    let (asked, wanted) = halves(&rt, row, " => ");
    let none: Vec<Box<dyn Bound>> = Vec::new(rt.alloc());
    check_judged(&rt, asked, &none, wanted);
}

// The open game, where the first cut is by three price lists, by one and by two: Black owes the move of a pawn
// to e5, and has no ply.
const TRAVEL: &str = "after-e4-e5 | 1.0 | 1. e4 e5 | 22 | 0 | 2 after-e4-e5 1.0 | \
    060401031010 00*16 01 00*31 01 00*31 01 00*15 01 0204*13 01 0204*6 | 179 => 22 0
after-e4-e5 | 1.0 | 1. e4 e5 | 21 | 0 | 2 after-e4-e5 1.0 | \
    060401031010 00*16 01 00*31 01 00*31 01 00*15 01 0204*13 01 0204*6 => Budget
after-e4-e5 | 1.0 | 1. e4 e5 |  | 0 | 2 after-e4-e5 1.0 | 060401011010 00*16 01 00*15 01 0204*13 01 0204*6 | 115 => \
    CutFails(4)
after-e4-e5 | 1.0 | 1. e4 e5 |  | 0 | 2 after-e4-e5 1.0 | \
    060401021010 00*16 01 00*31 01 00*15 01 0204*13 01 0204*6 => CutFails(4)";

#[test]
fn prices_of_travel(rt: HostRuntime) {
    check_table(&rt, TRAVEL);
}

// A number that is out of range is unknown, also where the bytes end behind it: the colour, the ways, the
// sources and the targets. A bound without prices is known after those, and before the lists.
const OUT_OF_RANGE: &str = "after-e4-e5 | 1.0 | 1. e4 e5 |  | 0 | 2 after-e4-e5 1.0 | \
    060402031010 00*16 01 00*31 01 00*31 01 00*15 01 0204*13 01 0204*6 => UnknownRecord(2)
after-e4-e5 | 1.0 | 1. e4 e5 |  | 0 | 2 after-e4-e5 1.0 | 060402 => UnknownRecord(2)
after-e4-e5 | 1.0 | 1. e4 e5 |  | 0 | 2 after-e4-e5 1.0 | \
    060401001010 00*16 01 00*31 01 00*31 01 00*15 01 0204*13 01 0204*6 => UnknownRecord(0)
after-e4-e5 | 1.0 | 1. e4 e5 |  | 0 | 2 after-e4-e5 1.0 | 06040100 => UnknownRecord(0)
after-e4-e5 | 1.0 | 1. e4 e5 |  | 0 | 2 after-e4-e5 1.0 | \
    060401041010 00*16 01 00*31 01 00*31 01 00*15 01 0204*13 01 0204*6 => UnknownRecord(4)
after-e4-e5 | 1.0 | 1. e4 e5 |  | 0 | 2 after-e4-e5 1.0 | 06040104 => UnknownRecord(4)
after-e4-e5 | 1.0 | 1. e4 e5 |  | 0 | 2 after-e4-e5 1.0 | \
    060401034110 00*16 01 00*31 01 00*31 01 00*15 01 0204*13 01 0204*6 => UnknownRecord(65)
after-e4-e5 | 1.0 | 1. e4 e5 |  | 0 | 2 after-e4-e5 1.0 | 0604010341 => UnknownRecord(65)
after-e4-e5 | 1.0 | 1. e4 e5 |  | 0 | 2 after-e4-e5 1.0 | \
    060401031041 00*16 01 00*31 01 00*31 01 00*15 01 0204*13 01 0204*6 => UnknownRecord(65)
after-e4-e5 | 1.0 | 1. e4 e5 |  | 0 | 2 after-e4-e5 1.0 | 060401031041 => UnknownRecord(65)
after-e4-e5 | 1.0 | 1. e4 e5 |  | 0 | 2 after-e4-e5 1.0 | \
    060101031010 00*16 01 00*31 01 00*31 01 00*15 01 0204*13 01 0204*6 => UnknownBound(1)
after-e4-e5 | 1.0 | 1. e4 e5 |  | 0 | 2 after-e4-e5 1.0 | \
    060101031041 00*16 01 00*31 01 00*31 01 00*15 01 0204*13 01 0204*6 => UnknownRecord(65)
after-e4-e5 | 1.0 | 1. e4 e5 |  | 0 | 2 after-e4-e5 1.0 | 060101031010 00*16 01 00*27 | 87 => Truncated";

#[test]
fn numbers_of_prices_out_of_range(rt: HostRuntime) {
    check_table(&rt, OUT_OF_RANGE);
}

const PRICED: &str = "after-e4-e5 | 1.0 | 1. e4 e5 |  | 9 | 2 after-e4-e5 1.0 | \
    060401031010 00*16 01 00*31 01 00*31 01 00*15 01 0204*13 01 0204*6 | 179";

const PLAIN: &str =
    "after-e4-e5 | 1.0 | 1. e4 e5 |  | 9 | 2 after-e4-e5 1.0 | 0204 01 0204*13 01 0204*6 | 79";

#[test]
fn each_proper_prefix_with_prices(rt: HostRuntime) {
    each_prefix_is_truncated(&rt, PRICED);
    each_prefix_is_truncated(&rt, PLAIN);
}

#[test]
fn each_read_of_prices_failing_in_turn(rt: HostRuntime) {
    each_read_fails(&rt, PRICED, 180);
}

// Cuts by prices of the pawn files, `times` times.
fn many_cuts<R: Abort + AllocGlobal>(rt: &R, times: usize) -> Vec<u8> {
    let cuts = "060300010808 00*3 01 00*7 01 00*3 01 ".repeat(rt.alloc(), times);
    certificate(rt, "2 pawn-on-d3 64.0", cuts.expect(rt, "memory").as_str())
}

// A cut by prices for each length from 0.5 to 63.5, and what comes then.
#[test]
fn endless_prices(rt: HostRuntime) {
    let bytes = many_cuts(&rt, 127);
    let endless = bytes.as_slice().chain(Endless::new(6));
    let said = checked(
        &rt,
        "pawn-on-d3 | 64.0 |  |  | 0",
        &mut FromRead::new(endless),
    );
    assert_eq!(rt; said.as_str(), "UnknownRecord(6)");
    let bytes = many_cuts(&rt, 128);
    check_bytes(
        &rt,
        "pawn-on-d3 | 64.0 |  | 127 | 0",
        bytes.as_slice(),
        "Budget",
    );
    check_bytes(
        &rt,
        "pawn-on-d3 | 64.0 |  | 128 | 0",
        bytes.as_slice(),
        "128 0",
    );
}

// The same knight shuffle, in version 2.
const SHUFFLED: &str = "pawn-on-d3 | 2.5 |  |  | 1 | 2 pawn-on-d3 2.5 | \
    05 0203*3 01 0203*2 01 0203*18 01 0203*17 01 0203*4 0300000000 0203*39 => 89 1
pawn-on-d3 | 2.5 |  |  | 0 | 2 pawn-on-d3 2.5 | \
    05 0203*3 01 0203*2 01 0203*18 01 0203*17 01 0203*4 0300000000 0203*39 => TooManyNamed
pawn-on-d3 | 2.5 |  |  | 9 | 2 pawn-on-d3 2.5 | \
    01 0203*3 01 0203*2 01 0203*18 01 0203*17 01 0203*4 0300000000 0203*39 => RefUnknown
pawn-on-d3 | 2.5 |  |  | 9 | 2 pawn-on-d3 2.5 | \
    05 0203*3 01 0203*2 01 0203*18 01 0203*17 01 0203*3 0300000000 0203*39 => RefDiffers";

#[test]
fn the_knight_shuffle_again(rt: HostRuntime) {
    check_table(&rt, SHUFFLED);
}

// All pawns of White have gone two squares: travel cuts at once what no game is led along. No pawn attacks the
// square that was passed.
const FAR: &str = "far | 2.0 |  | 1 | 1. d4 e6 2. e3 | 1. e3 e6 2. d4 => RefDiffers
far | 2.0 |  | 2 | 1. d4 e6 2. e3 | 1. e3 e6 2. d4 => 1
far | 2.0 |  | 1 | 1. d3 e6 2. e4 | 1. e4 e6 2. d3 => RefDiffers
far | 2.0 |  | 2 | 1. d3 e6 2. e4 | 1. e4 e6 2. d3 => 1";

#[test]
fn passed_squares_that_no_pawn_attacks(rt: HostRuntime) {
    for row in FAR.lines() {
        check_marked(&rt, row);
    }
}

// The pawn on d4 attacks the square that was passed, and that on d5 does not. In the last row it may not
// capture, since the rook on h4 would then attack the king on a4; it attacks e3 nevertheless.
const ATTACKED: &str =
    "far | 3.0 |  | 2 | 1. a3 d5 2. a4 d4 3. e4 | 1. a4 d5 2. e3 d4 3. e4 => RefDiffers
far | 3.0 |  | 2 | 1. a3 d6 2. a4 d5 3. e4 | 1. a4 d6 2. e3 d5 3. e4 => 1
far | 7.0 |  | 2 | 1. h4 d5 2. h5 d4 3. Rh3 Kd7 4. Rh4 Kc6 5. f3 Kb5 6. Nh3 Ka4 7. e4 | \
    1. h4 d5 2. h5 d4 3. Rh4 Kd7 4. f3 Kc6 5. Nh3 Kb5 6. e3 Ka4 7. e4 => RefDiffers";

#[test]
fn passed_squares_that_a_pawn_attacks(rt: HostRuntime) {
    for row in ATTACKED.lines() {
        check_marked(&rt, row);
    }
}
