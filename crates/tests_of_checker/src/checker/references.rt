//! Named nodes and references to them.

use super::*;
use pg_moves::legal_moves;
use pg_position::Position;
use pg_san::GamesFault;
use pg_trial::named_expansions;

// The pawn on d3 in five plies: a named node in the tree of length 1, three cuts, and the knight shuffle down
// to a position with a reference to number 0 behind four cuts. Then with no name allowed; without a name; to
// number 1; behind three cuts; to a node of other plies; and below the node itself, which is open and has no
// number.
const SHUFFLED: &str = "pawn-on-d3 | 2.5 |  |  | 1 | 1 pawn-on-d3 2.5 | \
    05 0203*3 01 0203*2 01 0203*18 01 0203*17 01 0203*4 0300000000 0203*39 | 213 => 89 1
pawn-on-d3 | 2.5 |  |  | 0 | 1 pawn-on-d3 2.5 | \
    05 0203*3 01 0203*2 01 0203*18 01 0203*17 01 0203*4 0300000000 0203*39 => TooManyNamed
pawn-on-d3 | 2.5 |  |  | 9 | 1 pawn-on-d3 2.5 | \
    01 0203*3 01 0203*2 01 0203*18 01 0203*17 01 0203*4 0300000000 0203*39 => RefUnknown
pawn-on-d3 | 2.5 |  |  | 9 | 1 pawn-on-d3 2.5 | \
    05 0203*3 01 0203*2 01 0203*18 01 0203*17 01 0203*4 0300000001 0203*39 => RefUnknown
pawn-on-d3 | 2.5 |  |  | 9 | 1 pawn-on-d3 2.5 | \
    05 0203*3 01 0203*2 01 0203*18 01 0203*17 01 0203*3 0300000000 0203*39 => RefDiffers
pawn-on-d3 | 1.0 |  |  | 9 | 1 pawn-on-d3 1.0 | 05 0300000000 => RefDiffers
pawn-on-d3 | 1.0 |  |  | 9 | 1 pawn-on-d3 1.0 | 0203 05 0300000000 => RefUnknown";

#[test]
fn the_knight_shuffle(rt: HostRuntime) {
    check_table(&rt, SHUFFLED);
}

// Appends the nodes along a game, cut beside it, up to the game's end; how many cuts follow.
fn along<R: Abort + AllocGlobal>(rt: &R, bytes: &mut Vec<u8>, game: &[Move]) -> usize {
    let mut position = Position::array();
    let mut behind = 0usize;
    for m in game {
        append(rt, bytes, "01");
        let moves = legal_moves(rt.alloc(), &position).expect(rt, "memory");
        for other in &moves {
            if *other < *m {
                append(rt, bytes, "0203");
            } else {
                behind = behind.saturating_add(1);
            }
        }
        behind = behind.saturating_sub(1);
        position = position.play(*m).expect(rt, "a legal move");
    }
    behind
}

// A certificate for the pawn on d3: these records, and then a tree that leads along a game, cut beside it, to a node
// with records of its own.
fn led<R: Abort + AllocGlobal>(rt: &R, row: &str) -> Vec<u8> {
    let length = field(row, 0);
    let first = field(row, 1);
    let game = field(row, 2);
    let last = field(row, 3);
    let header = words(&format_args!("1 pawn-on-d3 {length}"));
    let mut bytes = certificate(rt, header.as_str(), first);
    let behind = along_text(rt, &mut bytes, game);
    append(rt, &mut bytes, last);
    let cuts = words(&format_args!("0203*{behind}"));
    append(rt, &mut bytes, cuts.as_str());
    bytes
}

// The same along the game of a text.
fn along_text<R: Abort + AllocGlobal>(rt: &R, bytes: &mut Vec<u8>, text: &str) -> usize {
    let games = games_of(rt, text);
    along(rt, bytes, games.game(0).expect(rt, text))
}

// How many named nodes there are where the answer is yes, or the fault.
fn names(said: &Said) -> &str {
    match said.as_str().split_once(' ') {
        Some((_, named)) => named,
        None => said.as_str(),
    }
}

// The certificate has `wanted` named nodes, or is refused so.
fn check_named<R: Abort + AllocGlobal>(rt: &R, asked: &str, bytes: &[u8], wanted: &str) {
    let said = said_to(rt, asked, &four_bounds(rt), bytes);
    assert_eq!(rt; names(&said), wanted, "{asked}");
}

// So has the certificate of a row.
fn check_led<R: Abort + AllocGlobal>(rt: &R, row: &str) {
    let (row, wanted) = halves(rt, row, " => ");
    let length = field(row, 0);
    let asked = words(&format_args!("pawn-on-d3 | {length} |  |  | 9"));
    check_named(rt, asked.as_str(), led(rt, row).as_slice(), wanted);
}

// A length, the records before the game, the game, and those behind it. The rooks that went out and back have
// lost a right each, so the array does not come back.
const RIGHTS: &str =
    "4.5 | 05 0203*7 | 1. Nf3 Nf6 2. Ng1 Ng8 3. Nf3 Nf6 4. Ng1 Ng8 | 0300000000 => 1
4.5 | 05 0203*7 | 1. Nf3 Nf6 2. Rg1 Rg8 3. Rh1 Rh8 4. Ng1 Ng8 | 0203 => 1
4.5 | 05 0203*7 | 1. Nf3 Nf6 2. Rg1 Rg8 3. Rh1 Rh8 4. Ng1 Ng8 | 0300000000 => RefDiffers";

#[test]
fn rights_tell_positions_apart(rt: HostRuntime) {
    for row in RIGHTS.lines() {
        check_led(&rt, row);
    }
}

// The array is named in the trees of lengths 1 and 2, and comes back with two plies left.
const NUMBERS: &str = "3.0 | 05*2 0203*23 | 1. Nf3 Nf6 2. Ng1 Ng8 | 0300000001 => 2
3.0 | 05*2 0203*23 | 1. Nf3 Nf6 2. Ng1 Ng8 | 0300000000 => RefDiffers
3.0 | 05*2 0203*23 | 1. Nf3 Nf6 2. Ng1 Ng8 | 0300000002 => RefUnknown";

#[test]
fn numbers_go_on_from_tree_to_tree(rt: HostRuntime) {
    for row in NUMBERS.lines() {
        check_led(&rt, row);
    }
}

// All nodes are expanded but for 122 cuts in the tree of length 3, which bring the reference after 1. c3 a5 2.
// Na3, to the node after 1. Na3 a5 2. c3, to the last two bytes of the buffer, of 4,096.
const ACROSS: &str = "recaptured | 2.0 | 1. e4 d5 2. exd5 Qxd5 |  | 1 | 1 recaptured 2.0 | \
    01*23 01 0201*20 01 0201*20 01 0201*20 01 0201*20 01 0201*20 01 0201*20 01 0201*2 01*299 05 01*3483 0300000000 \
    01*5830 | 9929 => 9766 1
recaptured | 2.0 | 1. e4 d5 2. exd5 Qxd5 |  | 1 | 1 recaptured 2.0 | \
    01*23 01 0201*20 01 0201*20 01 0201*20 01 0201*20 01 0201*20 01 0201*20 01 0201*2 01*299 05 01*3483 0300000001 \
    01*5830 => RefUnknown";

#[test]
fn a_reference_across_the_end_of_the_buffer(rt: HostRuntime) {
    check_table(&rt, ACROSS);
}

// The two games at which `mark` writes another record.
#[derive(Clone, Copy)]
struct Marks<'a> {
    named: &'a [Move],
    refers: &'a [Move],
}

// Writes the tree below a position that a game leads to: named at one game, a reference to number 0
// at another, else cut by travel where it excludes beside the two, else expanded.
fn mark<R: Abort + AllocGlobal>(
    rt: &R,
    bytes: &mut Vec<u8>,
    diagram: &Diagram,
    marks: &Marks<'_>,
    game: &mut Vec<Move>,
    position: &Position,
    left: u8,
) {
    if left == 0 {
        return;
    }
    let at = game.as_slice();
    if at == marks.refers {
        return append(rt, bytes, "0300000000");
    }
    let leads = marks.named.starts_with(at) || marks.refers.starts_with(at);
    if !leads && Travel.excludes(diagram, position, left) {
        return append(rt, bytes, "0204");
    }
    append(rt, bytes, if at == marks.named { "05" } else { "01" });
    let moves = legal_moves(rt.alloc(), position).expect(rt, "memory");
    for m in moves.as_slice() {
        if let Ok(next) = position.play(*m) {
            game.push(*m).expect(rt, "memory");
            mark(rt, bytes, diagram, marks, game, &next, left - 1);
            game.pop();
        }
    }
}

// The certificate of trees of all lengths up to the stated one, where in the last the node after one game is named
// and that after another refers to it.
fn marked<R: Abort + AllocGlobal>(rt: &R, header: &str, named: &str, refers: &str) -> Vec<u8> {
    let named = games_of(rt, named);
    let refers = games_of(rt, refers);
    let marks = Marks {
        named: named.game(0).expect(rt, header),
        refers: refers.game(0).expect(rt, header),
    };
    let mut bytes = headed(rt, header);
    let (_, problem) = halves(rt, header, " ");
    let (diagram, length) = halves(rt, problem, " ");
    grow_marked(
        rt,
        &mut bytes,
        &diagram_of(rt, diagram),
        length_of(rt, length).plies(),
        &marks,
    );
    bytes
}

// Writes those trees.
fn grow_marked<R: Abort + AllocGlobal>(
    rt: &R,
    bytes: &mut Vec<u8>,
    diagram: &Diagram,
    plies: u8,
    marks: &Marks<'_>,
) {
    for left in 1..plies {
        write_tree(rt, bytes, diagram, left);
    }
    let mut game = Vec::new(rt.alloc());
    mark(
        rt,
        bytes,
        diagram,
        marks,
        &mut game,
        &Position::array(),
        plies,
    );
}

// Writes the tree of `left` plies where no node is named, and none refers to another.
pub(super) fn write_tree<R: Abort + AllocGlobal>(
    rt: &R,
    bytes: &mut Vec<u8>,
    diagram: &Diagram,
    left: u8,
) {
    let nowhere = [Move::default()];
    let marks = Marks {
        named: &nowhere,
        refers: &nowhere,
    };
    let mut game = Vec::new(rt.alloc());
    mark(
        rt,
        bytes,
        diagram,
        &marks,
        &mut game,
        &Position::array(),
        left,
    );
}

// A row of a diagram, a length, games, a version, the game whose node is named, and the game whose node refers to it:
// how many named nodes there are, or how it is refused.
pub(super) fn check_marked<R: Abort + AllocGlobal>(rt: &R, row: &str) {
    let (row, wanted) = halves(rt, row, " => ");
    let diagram = field(row, 0);
    let length = field(row, 1);
    let games = field(row, 2);
    let version = field(row, 3);
    let named = field(row, 4);
    let refers = field(row, 5);
    let header = words(&format_args!("{version} {diagram} {length}"));
    let bytes = marked(rt, header.as_str(), named, refers);
    let asked = words(&format_args!("{diagram} | {length} | {games} |  | 9"));
    check_named(rt, asked.as_str(), bytes.as_slice(), wanted);
}

// A node with a game below is fertile. Passed squares tell positions apart.
const MARKED: &str =
    "four-pawns | 2.0 | 1. d3 d6 2. e3 e6/1. d3 e6 2. e3 d6/1. e3 d6 2. d3 e6/1. e3 e6 2. d3 d6 | 1 | \
    1. d3 d6 2. e3 | 1. e3 d6 2. d3 => RefFertile
pawn-on-d4 | 1.5 | 1. d4 e6 2. e3/1. e3 e6 2. d4 | 1 | 1. d4 e6 | 1. e3 e6 => RefDiffers
pawn-on-d3 | 2.0 |  | 1 | 1. d4 e6 2. e3 | 1. e3 e6 2. d4 => RefDiffers
pawn-on-d3 | 2.0 |  | 1 | 1. d3 e6 2. e3 | 1. e3 e6 2. d3 => 1";

#[test]
fn nodes_with_a_game_and_passed_squares(rt: HostRuntime) {
    for row in MARKED.lines() {
        check_marked(&rt, row);
    }
}

// How many of three checks of a certificate that names each of its 22 nodes are refused memory.
fn refusals<R: Abort + AllocGlobal>(rt: &R, diagram: &Diagram, games: &Games, bytes: &[u8]) -> u8 {
    let none: Vec<Box<dyn Bound>> = Vec::new(rt.alloc());
    let length = length_of(rt, "1.0");
    let mut refused = 0u8;
    for _ in 0..3u8 {
        let mut source = FromRead::new(bytes);
        let alloc = rt.alloc();
        let said = told(&check(alloc, diagram, length, games, &none, &mut source, 22, 22));
        let is_refused = said.as_str() == "Memory";
        assert!(rt; is_refused || said.as_str() == "22 22", "{said}");
        refused = refused.saturating_add(u8::from(is_refused));
    }
    refused
}

// The same where the list may be refused memory too.
fn refusals_of_list<R: Abort + AllocGlobal>(rt: &R, diagram: &Diagram, bytes: &[u8]) -> u8 {
    match read_games(rt.alloc(), "1. e4 e5") {
        Ok(games) => refusals(rt, diagram, &games, bytes),
        Err(fault) => {
            assert_eq!(rt; fault, GamesFault::Memory);
            1
        }
    }
}

// Passes too where `rt try --test --fail-alloc N` refuses the N-th growth: then one check of all
// answers that memory was refused, and the next ones say yes.
#[test]
fn refused_growths(rt: HostRuntime) {
    let diagram = diagram_of(&rt, "after-e4-e5");
    let bytes = named_expansions(&diagram);
    let mut refused = 0u8;
    for _ in 0..3u8 {
        refused = refused.saturating_add(refusals_of_list(&rt, &diagram, &bytes));
    }
    assert!(rt; refused <= 1);
}
