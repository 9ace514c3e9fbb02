//! What is said of a cut, by distances to a diagram and without them, is what an earlier form said, which is gone: over
//! games of drawn moves, each position asked about diagrams of other such games. The rows were made by that form at
//! commit 3b37d7f5.

mod journeys;
mod longest;
mod tolls;

use crate::shared::{Said, diagram_of, field, halves, named, words};
use pg_board::Color;
use pg_certificate::{Bare, Record};
use pg_fen::{Diagram, read_position};
use pg_moves::LegalMoves;
use pg_pawns::PawnFiles;
use pg_position::Position;
use pg_price_lists::Prices;
use pg_prices::{Rows, pawn_lists, prices_of, travel_lists};
use pg_sentences::{
    Distances, Grounds, GrowingDistances, Node, Sentence, put_reason_of_bounds, put_reason_of_cut,
    reason_of_bounds, reason_of_cut,
};
use pg_travel::Travel;
use pg_trial::Digest;
use std::process::Abort;

// A number below a bound, drawn by a fixed rule from the last one.
fn drawn(state: &mut u64, bound: u64) -> u64 {
    *state = state
        .wrapping_mul(6_364_136_223_846_793_005)
        .wrapping_add(1_442_695_040_888_963_407);
    if bound == 0 {
        0
    } else {
        (*state >> 33) % bound
    }
}

// How many moves are legal.
fn count_of(position: &Position) -> u64 {
    let mut moves = LegalMoves::new(position);
    for count in 0..512u64 {
        if moves.next().is_none() {
            return count;
        }
    }
    512
}

// The position after a move that is drawn; the same where none is legal.
fn moved(state: &mut u64, position: &Position) -> Position {
    let chosen = drawn(state, count_of(position));
    let mut moves = LegalMoves::new(position);
    for _ in 0..chosen {
        let _ = moves.next();
    }
    let Some(m) = moves.next() else {
        return *position;
    };
    match position.play(m) {
        Ok(next) => next,
        Err(_) => *position,
    }
}

// What is said by distances is what is said without them.
fn check_same(rt: &impl Abort, code: Option<u8>, words: &Sentence, wanted: &Option<Grounds>) {
    let same = match wanted {
        Some(grounds) => code == Some(grounds.code) && words.as_str() == grounds.text.as_str(),
        None => code.is_none() && words.as_str().is_empty(),
    };
    assert!(rt; same, "{words}");
}

// The distances to a diagram in both forms, all of them and those that are asked for; and what was said of the nodes of
// a game: how often, and the digest of it.
#[derive(Drop)]
struct Told {
    all: Distances,
    growing: GrowingDistances,
    count: u32,
    digest: Digest,
}

impl Told {
    fn new(of: &Diagram) -> Told {
        Told {
            all: Distances::new(of),
            growing: GrowingDistances::new(of),
            count: 0,
            digest: Digest::new(),
        }
    }

    fn tell(&mut self, found: &Option<Grounds>) {
        if let Some(grounds) = found {
            let is_said = !grounds.text.as_str().is_empty();
            self.count = self.count.saturating_add(u32::from(is_said));
            self.digest.add(u64::from(grounds.code));
            self.digest.add_bytes(grounds.text.as_str().as_bytes());
        }
        self.digest.add(u64::MAX);
    }

    fn row(&self) -> Said {
        words(&format_args!("{} {:016x}", self.count, self.digest.value()))
    }
}

// Tells what is said of a record at a node, whose price lists stand by themselves too.
fn check_record(
    rt: &impl Abort,
    told: &mut Told,
    node: &Node,
    said: &Bare,
    prices: &Prices,
    record: &Record,
) {
    let found = reason_of_cut(node.diagram, node.position, node.left, record);
    told.tell(&found);
    let mut words = Sentence::new();
    let code = put_reason_of_cut(&told.all, node, said, prices, &mut words);
    check_same(rt, code, &words, &found);
    let mut words = Sentence::new();
    let code = told
        .growing
        .put_reason_of_cut(node, said, prices, &mut words);
    check_same(rt, code, &words, &found);
}

// So it is for a record of price lists.
fn check_priced(
    rt: &impl Abort,
    told: &mut Told,
    node: &Node,
    code: u8,
    color: Color,
    prices: Prices,
) {
    let said = Bare::Priced { code, color };
    let record = Record::Priced {
        code,
        color,
        prices,
    };
    check_record(rt, told, node, &said, &prices, &record);
}

// So it is for the price lists that a search gives for a colour.
fn check_lists(rt: &impl Abort, told: &mut Told, node: &Node, rows: &Rows) {
    let color = rows.color();
    let lists = pawn_lists(rows, node.position).1;
    let prices = prices_of(lists.as_slice()).expect(rt, "prices of pawns");
    check_priced(rt, told, node, PawnFiles::CODE, color, prices);
    let lists = travel_lists(rows, node.position).1;
    let prices = prices_of(lists.as_slice()).expect(rt, "prices of travel");
    check_priced(rt, told, node, Travel::CODE, color, prices);
}

// So it is for each of the other records, one of them with a code that no bound has, and for what excludes first. The
// earlier form knew no journeys.
fn check_node(rt: &impl Abort, told: &mut Told, node: &Node) {
    let prices = Prices::new(&[], &[]).expect(rt, "no prices");
    for code in [1u8, 2, 3, 4, 6] {
        let (said, record) = (Bare::Cut(code), Record::Cut(code));
        check_record(rt, told, node, &said, &prices, &record);
        check_priced(rt, told, node, code, Color::Black, prices);
    }
    let named = true;
    let (said, record) = (Bare::Expand { named }, Record::Expand { named });
    check_record(rt, told, node, &said, &prices, &record);
    let (said, record) = (Bare::Ref(7), Record::Ref(7));
    check_record(rt, told, node, &said, &prices, &record);
    let found = reason_of_bounds(node.diagram, node.position, node.left);
    told.tell(&found);
    let mut words = Sentence::new();
    let code = put_reason_of_bounds(&told.all, node, &mut words);
    check_same(rt, code, &words, &found);
    let mut words = Sentence::new();
    let code = told.growing.put_reason_of_bounds(node, &mut words);
    check_same(rt, code, &words, &found);
}

// What a search reckons a colour's prices by.
fn rows_of<R: Abort + AllocGlobal>(rt: &R, color: Color, diagram: &Diagram) -> Rows {
    Rows::new(rt.alloc(), color, diagram).expect(rt, "memory")
}

// What is said along a game from a start, for one diagram, by distances to this one or to another.
fn said_along<R: Abort + AllocGlobal>(
    rt: &R,
    state: &mut u64,
    start: &Position,
    diagram: &Diagram,
    of: &Diagram,
) -> Said {
    let mut told = Told::new(of);
    let white = rows_of(rt, Color::White, diagram);
    let black = rows_of(rt, Color::Black, diagram);
    let mut position = *start;
    for _ in 0..24 {
        let left = drawn(state, 14).min(100) as u8;
        let node = Node {
            diagram,
            position: &position,
            left,
        };
        check_node(rt, &mut told, &node);
        check_lists(rt, &mut told, &node, &white);
        check_lists(rt, &mut told, &node, &black);
        let next = moved(state, &position);
        position = next;
    }
    told.row()
}

// The position at the end of a game of drawn moves.
fn end_of(state: &mut u64, start: &Position, plies: u64) -> Position {
    let mut position = *start;
    for _ in 0..plies {
        let next = moved(state, &position);
        position = next;
    }
    position
}

// Where a game begins.
fn start_of(rt: &impl Abort, text: &str) -> Position {
    read_position(named(text)).expect(rt, text).position
}

// Where games begin: with all rights to castle, with men that can castle at once, and with pawns near their last ranks;
// how many plies the game has that ends on the diagram; how often something is said along another game, and the digest
// of it.
const GAMES: &str = "start | 4 => 161 8bc9822ed1101ac5
start | 6 => 133 873e5ec40f825854
start | 8 => 173 d823c21ca0fc3b24
start | 10 => 128 49aeb726580dca38
start | 12 => 169 727f02852b756660
start | 14 => 141 428f29c0f5696dbe
start | 16 => 131 14a0201b19cbe1e7
start | 18 => 151 b0c0c3c0d9f2a517
start | 20 => 138 512c6ca2495ab47c
start | 22 => 152 2728cab833396d13
middle-game | 4 => 160 354b407320430d1d
middle-game | 6 => 191 9384ba64e799dd34
middle-game | 8 => 158 e68014fa002433cb
middle-game | 10 => 184 4d8bf5928f00e400
middle-game | 12 => 130 36cb3d6952f107a2
middle-game | 14 => 192 9d84731ba0364fdd
middle-game | 16 => 188 2d391637c528d2ef
middle-game | 18 => 166 0021109d7d88433f
middle-game | 20 => 175 0bf14571242a303d
middle-game | 22 => 187 d9a3b80fcfc89d85
castlers | 4 => 125 014d662a86c37353
castlers | 6 => 105 742adec8d63c74d5
castlers | 8 => 212 01a7f3916446914b
castlers | 10 => 147 3b1de67260fcc227
castlers | 12 => 55 013398330f5d523e
castlers | 14 => 64 723f94059be8915c
castlers | 16 => 184 23067e4371b866a2
castlers | 18 => 70 03ab4dfa6ff0bee8
castlers | 20 => 166 90272dad56d002ca
castlers | 22 => 175 b2394de2131f8b0a
far-pawns | 4 => 203 483cf86aebc139c2
far-pawns | 6 => 207 8f2cb96a36c46332
far-pawns | 8 => 175 6df78fcf54cf14af
far-pawns | 10 => 193 aa702bfd732d5e40
far-pawns | 12 => 200 8659bbc22caa2ba9
far-pawns | 14 => 200 52f89e56445954fe
far-pawns | 16 => 192 2259027474d7ed78
far-pawns | 18 => 125 244471ba743ae922
far-pawns | 20 => 179 970c7df8c0c90920
far-pawns | 22 => 178 1c5a837bfc16e659";

#[test]
fn by_distances_as_without(rt: HostRuntime) {
    let mut state = 1u64;
    for row in GAMES.lines() {
        let (asked, wanted) = halves(&rt, row, " => ");
        let start = start_of(&rt, field(asked, 0));
        let plies = field(asked, 1).parse().expect(&rt, row);
        let diagram = Diagram::of(&end_of(&mut state, &start, plies));
        let said = said_along(&rt, &mut state, &start, &diagram, &diagram);
        assert_eq!(rt; said.as_str(), wanted, "{asked}");
    }
}

// A row of a start, a diagram, and one to which the distances are, where it is another; and what is said along a game.
fn check_along<R: Abort + AllocGlobal>(rt: &R, row: &str, state: &mut u64) {
    let (asked, wanted) = halves(rt, row, " => ");
    let start = start_of(rt, field(asked, 0));
    let diagram = diagram_of(rt, field(asked, 1));
    let of = match field(asked, 2) {
        "" => diagram,
        text => diagram_of(rt, text),
    };
    let said = said_along(rt, state, &start, &diagram, &of);
    assert_eq!(rt; said.as_str(), wanted, "{asked}");
}

fn check_table<R: Abort + AllocGlobal>(rt: &R, table: &str, seed: u64) {
    let mut state = seed;
    for row in table.lines() {
        check_along(rt, row, &mut state);
    }
}

// Diagrams of castled kings, on either wing.
const CASTLED: &str = "start | r4rk1/8/8/8/8/8/8/2KR3R => 62 62b226a5c6f803d9
middle-game | r4rk1/8/8/8/8/8/8/2KR3R => 70 fa3cb2ac1b2ceffa
castlers | r4rk1/8/8/8/8/8/8/2KR3R => 76 c5ca36948a5041b4
far-pawns | r4rk1/8/8/8/8/8/8/2KR3R => 111 367dc30b863b2a4d
start | castled-apart => 65 f8e8faaca1474616
middle-game | castled-apart => 70 f66221b95a64fc2f
castlers | castled-apart => 52 de49d8c63bf58039
far-pawns | castled-apart => 110 65dbc5fd47e2178c
start | rnbq1rk1/pppp1ppp/5n2/2b1p3/2B1P3/5N2/PPPP1PPP/RNBQ1RK1 => 153 ed0f0c985e265386
middle-game | rnbq1rk1/pppp1ppp/5n2/2b1p3/2B1P3/5N2/PPPP1PPP/RNBQ1RK1 => 189 44ca3057b0a7966e
castlers | rnbq1rk1/pppp1ppp/5n2/2b1p3/2B1P3/5N2/PPPP1PPP/RNBQ1RK1 => 216 0b1831d3410f5d05
far-pawns | rnbq1rk1/pppp1ppp/5n2/2b1p3/2B1P3/5N2/PPPP1PPP/RNBQ1RK1 => 216 7a44285194237a9d
start | 2kr1bnr/pppqpppp/2n1b3/3p4/3P4/2N1B3/PPPQPPPP/2KR1BNR => 142 6c6ca859c545d29d
middle-game | 2kr1bnr/pppqpppp/2n1b3/3p4/3P4/2N1B3/PPPQPPPP/2KR1BNR => 192 ae7b846f4c7926da
castlers | 2kr1bnr/pppqpppp/2n1b3/3p4/3P4/2N1B3/PPPQPPPP/2KR1BNR => 216 879420dc997e9e37
far-pawns | 2kr1bnr/pppqpppp/2n1b3/3p4/3P4/2N1B3/PPPQPPPP/2KR1BNR => 216 5a494e9dd6c64b9f";

#[test]
fn castling_by_distances_as_without(rt: HostRuntime) {
    check_table(&rt, CASTLED, 3);
}

// The words for a cut by travel of a position with no ply left.
fn words_of(diagram: &Diagram, position: &Position) -> Sentence {
    let distances = Distances::new(diagram);
    let node = Node {
        diagram,
        position,
        left: 0,
    };
    let mut words = Sentence::new();
    let _ = put_reason_of_bounds(&distances, &node, &mut words);
    words
}

// King and rook come to their squares by one move, where without castling they need three.
#[test]
fn castling_is_named(rt: HostRuntime) {
    let start = start_of(&rt, "castlers");
    let words = words_of(&diagram_of(&rt, "r3k2r/8/8/8/8/8/8/2KR3R"), &start);
    let wanted = "white needs 1 move and has 0 (travel, castling queen side)";
    assert!(rt; words.as_str() == wanted, "{words}");
    let words = words_of(&diagram_of(&rt, "r4rk1/8/8/8/8/8/8/R3K2R"), &start);
    let wanted = "black needs 1 move and has 0 (travel, castling king side)";
    assert!(rt; words.as_str() == wanted, "{words}");
}

// More than sixteen men of a colour, of whom the distances keep no rows.
const CROWDS: &str = "start | sixteen-queens => 166 28377d5bb32ec489
start | fools-mate | sixteen-queens => 169 520c9bcced30fac7";

#[test]
fn where_distances_do_not_serve(rt: HostRuntime) {
    check_table(&rt, CROWDS, 2);
}

// Diagrams with sixteen men of each colour at most, of which each is asked about by distances to the next.
const OTHERS: &str = "start | knight-gone | fools-mate => 163 f46fc545d35080f8
middle-game | knight-gone | fools-mate => 178 61d678e443b78b78
castlers | knight-gone | fools-mate => 216 781a0ad70d8c791f
far-pawns | knight-gone | fools-mate => 216 eb68a10e31b2067c
start | rook-for-pawns | knight-gone => 168 22232a56ed777b41
middle-game | rook-for-pawns | knight-gone => 159 5cff5d2fda4440a6
castlers | rook-for-pawns | knight-gone => 216 0e460adcd982eee7
far-pawns | rook-for-pawns | knight-gone => 216 d3f207297fdbf88a
start | two-bishops-out | rook-for-pawns => 148 517a36fa4cca55a0
middle-game | two-bishops-out | rook-for-pawns => 183 8eb29afe84322435
castlers | two-bishops-out | rook-for-pawns => 216 5ee21741d53a7445
far-pawns | two-bishops-out | rook-for-pawns => 216 972259c3919aaf50
start | castled-apart | two-bishops-out => 54 06be546854b06723
middle-game | castled-apart | two-bishops-out => 61 92259d24ed799007
castlers | castled-apart | two-bishops-out => 59 529729016ae1c197
far-pawns | castled-apart | two-bishops-out => 98 e275a8edac16d1dc
start | array | castled-apart => 136 8e0e773798866d2d
middle-game | array | castled-apart => 189 0cecb2b2d33820bc
castlers | array | castled-apart => 216 3aeff13da5cd92bb
far-pawns | array | castled-apart => 216 a92bfae6f308aa6d
start | fools-mate | array => 168 457d2c0de252eb03
middle-game | fools-mate | array => 213 27f35cd6bd9f3d9a
castlers | fools-mate | array => 216 087646da0ca813f2
far-pawns | fools-mate | array => 216 07b57dcdb9b4c616";

// Distances to another diagram tell nothing, though they have all of its men.
#[test]
fn distances_to_another_diagram(rt: HostRuntime) {
    check_table(&rt, OTHERS, 4);
}
