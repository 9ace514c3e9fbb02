//! What is said on a terminal behind a refusal.

use crate::shared::{byte, number, size, word};
use pg_fen::{Diagram, read_position};
use pg_hints::{is_fen_in_words, on_diagram, on_known, on_length, on_limit, on_move, packing_of};
use std::process::Abort;

// A text that is no diagram, and what is wrong with it.
const DIAGRAMS: &str =
    "rnbqkbnr/pppppppp/9/8/8/8/PPPPPPPP/RNBQKBNR => rank 6 is 1 square wide, not 8
rnbqkbnr/pppppppp/8/8/7/8/PPPPPPPP/RNBQKBNR => rank 4 is 7 squares wide, not 8
rnbqkbnr/pppppppp/8/8/8/8/PPPPPPPPP/RNBQKBNR => rank 2 is 9 squares wide, not 8
8/8 => 2 ranks; a board has 8
k7 => 1 rank; a board has 8
8 => the diagram stands before the length
rnbqkbnr/pppppppp/8/8/8/8/PPPPPPPP/RNBQKBNX => 'X' in rank 1; men are KQRBNP and kqrbnp
rnbqkbnr/pppppppp/8/3é4/8/8/PPPPPPPP/RNBQKBNR => 'é' (U+00E9) in rank 5; men are KQRBNP and kqrbnp
rnbqkbnr/pppppppp/8/8/8/8/PPPPPPPP/RNBQKBN\u{10ffff} => '\\u{10ffff}' (U+10FFFF) in rank 1; men are KQRBNP and kqrbnp
rnbqqbnr/pppppppp/8/8/8/8/PPPPPPPP/RNBQKBKR => white has 2, black 0
8/8/8/8/8/8/8/8 w - - => fields: 4; a diagram has 1, a FEN 6: add 0 1
4k3/8/8/8/8/8/8/4K3 x - - 0 1 => 
 => fields: 0; a diagram has 1, a FEN 6
8/8/8/8/8/8/8/8 w => fields: 2; a diagram has 1, a FEN 6
 8/8/8/8/8/8/8/8  w\t-\r-  0 => fields: 5; a diagram has 1, a FEN 6
8/8/8/8/8/8/8/8 w - - 0 1 2 => fields: 7; a diagram has 1, a FEN 6
8/8/8/8/8/8/8/8\u{c}w - => fields: 2; a diagram has 1, a FEN 6
8/8/8/8/8/8/8 => 7 ranks; a board has 8
 8/8/8/8/8/8/8/8/8 => 9 ranks; a board has 8
8/8/8 w - - 0 1/1/1/1/1/1 => 3 ranks; a board has 8
8/8/8/8/8/8/8/8 => white has 0, black 0
k6k/8/8/8/8/8/8/7K => white has 1, black 2
8/8/8/8/8/8/8/k7 w KQkq - 0 1 => white has 0, black 1
k6P/8/8/8/8/8/8/7K => white pawn on h8
k7/8/8/8/8/8/8/p1p4K => black pawn on a1
rnbqkbnr/pppppppp/8/8/8/8/PPPPPPPP/RNBQKBNR, => ',' in rank 1 is no man and no number
rnbqkbnr/pppp\u{41a}pppp/8/8/8/8/PPPPPPPP/RNBQKBNR => '\u{41a}' in rank 7 is no man and no number
rnbq\u{41a}bnr/pppppppp/8/8/8/8/PPPPPPPP/RNBQKBNR => '\u{41a}' (U+041A) in rank 8; men are KQRBNP and kqrbnp
2.0 => the diagram stands before the length
rnbqkbnr/pppppppp//8/8/8/PPPPPPPP/RNBQKBNR => rank 6 is 0 squares wide, not 8; an empty rank is 8
tsldklst/bbbbbbbb/8/8/8/8/BBBBBBBB/TSLDKLST => in English letters it is rnbqkbnr/pppppppp/8/8/8/8/PPPPPPPP/RNBQKBNR
tcfdrfct/pppppppp/8/8/8/8/PPPPPPPP/TCFDRFCT => in English letters it is rnbqkbnr/pppppppp/8/8/8/8/PPPPPPPP/RNBQKBNR
tsldklst/bbbbbbbb/8/8/8/8/BBBBBBBB/TSLDDLST => 't' in rank 8; men are KQRBNP and kqrbnp
tsldklst/bbbbbbbb/8/8/8/8/BBBBBBBB/TSLDKLSX => 't' in rank 8; men are KQRBNP and kqrbnp";

// What is said of a text that is refused as a diagram.
fn check_diagram(rt: &impl Abort, row: &str) {
    let (text, wanted) = row.split_once(" => ").expect(rt, row);
    let Err(fault) = Diagram::read(text) else {
        panic!(rt; "{row}");
    };
    assert_eq!(rt; on_diagram(text, fault).as_str(), wanted, "{row}");
}

#[test]
fn hints_on_diagrams(rt: HostRuntime) {
    for row in DIAGRAMS.lines() {
        check_diagram(&rt, row);
    }
}

// A text that is no position, and what is wrong with it: nothing where its fault says all.
const POSITIONS: &str = "4k3/8/8/8/8/8/8/4K3 => fields: 1; a diagram has 1, a FEN 6
8/8 w - - 0 1 => 2 ranks; a board has 8
4k3/8/8/9/8/8/8/4K3 w - - 0 1 => rank 5 is 1 square wide, not 8
4k3/8/8/8/8/8/8/4KX2 w - - 0 1 => 'X' in rank 1; men are KQRBNP and kqrbnp
4k3/8/8/8/8/8/8/8 w - - 0 1 => white has 0, black 1
4k2p/8/8/8/8/8/8/4K3 w - - 0 1 => black pawn on h8
4k3/8/8/8/8/8/8/4K3 x - - 0 1 => 
4k3/8/8/8/8/8/8/4K3 w KK - 0 1 => 
4k3/8/8/8/8/8/8/4K3 w - e4 0 1 => 
4k3/8/8/8/8/8/8/4K3 w - - x 1 => 
4k3/8/8/8/8/8/8/4K3 w K - 0 1 => 
4k3/8/8/8/8/8/8/4R1K1 w - - 0 1 => ";

// What is said of a text that is refused as a position.
fn check_position(rt: &impl Abort, row: &str) {
    let (text, wanted) = row.split_once(" => ").expect(rt, row);
    let Err(fault) = read_position(text) else {
        panic!(rt; "{row}");
    };
    assert_eq!(rt; on_diagram(text, fault).as_str(), wanted, "{row}");
}

#[test]
fn hints_on_positions(rt: HostRuntime) {
    for row in POSITIONS.lines() {
        check_position(&rt, row);
    }
}

// A list, of which a slash before `1.` parts the lines, the line and the ply of a word, and what is said of it:
// castling, promotion and a capture in passing too, for either side.
const MOVES: &str = "1. e4 e5 2. Nf9 | 1 | 3 => the word is \"Nf9\"; legal there: Nf3, Nc3, Qf3
e4 d5/1.e4 d5 2.ed5 Dxd5 | 2 | 4 => the word is \"Dxd5\"; write Qxd5
e4 d5/1.e4 d5 2.ed5 qxd5 | 2 | 4 => the word is \"qxd5\"; legal there: Qxd5, b5, c5
e4 e5 Лf3 | 1 | 3 => the word is \"Лf3\"; men are K, Q, R, B and N, as in English
e4 Pe5 | 1 | 2 => the word is \"Pe5\"; write e5
e4 e5 Pf3 | 1 | 3 => the word is \"Pf3\"; a pawn has no letter, a knight is N
e4 e5 Ph6 | 1 | 3 => the word is \"Ph6\"; a pawn has no letter, a knight is N
e4 e5 Nf3 a6 Pxe5 | 1 | 5 => the word is \"Pxe5\"; write Nxe5
e4 e5 Dh5 | 1 | 3 => the word is \"Dh5\"; write Qh5
e4 e5 Lc4 | 1 | 3 => the word is \"Lc4\"; write Bc4
e4 e5 Fc4 | 1 | 3 => the word is \"Fc4\"; write Bc4
e4 e5 Ac4 | 1 | 3 => the word is \"Ac4\"; write Bc4
e4 e5 Cf3 | 1 | 3 => the word is \"Cf3\"; write Nf3
a4 e5 Ta3 | 1 | 3 => the word is \"Ta3\"; write Ra3
e4 e5 Ta3 | 1 | 3 => the word is \"Ta3\"; men are K, Q, R, B and N, as in English
e4 d5 e:d5 | 1 | 3 => the word is \"e:d5\"; write exd5
e4 d5 ed5 Q×d5 | 1 | 4 => the word is \"Q×d5\"; write Qxd5
e2–e4 | 1 | 1 => the word is \"e2–e4\"; write e4
e4, e5 | 1 | 1 => the word is \"e4,\"; write e4
e4\u{a0}e5 | 1 | 1 => the word is \"e4\\u{a0}e5\"; a no-break space stands in it: write a plain one
o-o | 1 | 1 => the word is \"o-o\"; castling is not legal there
e4 e5 0-0-0 | 1 | 3 => the word is \"0-0-0\"; castling is not legal there
e4 e5 Nf3 a6 Be2 b6 o-o | 1 | 7 => the word is \"o-o\"; write O-O
e4/1. d4/1. x | 3 | 1 => the word is \"x\"; legal there: a3, a4, b3
e4 e5 1-0 | 1 | 3 => the word is \"1-0\"; results are not read; leave it out
e4 e5 1/2-1/2 | 1 | 3 => the word is \"1/2-1/2\"; results are not read; leave it out
e4 e5 * | 1 | 3 => the word is \"*\"; results are not read; leave it out
1 e4 e5 | 1 | 1 => the word is \"1\"; a move number has a dot behind it
1. e4 {best by test} e5 | 1 | 2 => the word is \"{best\"; comments are not read; leave it out
1. e4 e5 ; good | 1 | 3 => the word is \";\"; comments are not read; leave it out
1. e4 (1. d4) e5 | 1 | 2 => the word is \"(1.\"; variations are not read; leave it out
1. e4 $1 e5 | 1 | 2 => the word is \"$1\"; glyphs are not read; leave it out
[Event \"?\"] | 1 | 1 => the word is \"[Event\"; tag pairs are not read; leave it out
♘f3 | 1 | 1 => the word is \"♘f3\"; write Nf3
♞f6 | 1 | 1 => the word is \"♞f6\"; men are K, Q, R, B and N, not figurines
♙e4 | 1 | 1 => the word is \"♙e4\"; write e4
\u{feff}e4 | 1 | 1 => the word is \"\\u{feff}e4\"; a byte order mark stands before it
1. e3 e6 2. Nf3 Nf6 3. Be2 Be7 4. OO | 1 | 7 => the word is \"OO\"; legal there: O-O, a3, a4
1. e4 a6 2. e5 d5 3. exd6ep.. | 1 | 5 => the word is \"exd6ep..\"; legal there: exd6, Bxa6, e6
h4 g5 hxg5 a6 g6 b6 gxh7 c6 hxg8=K | 1 | 9 => the word is \"hxg8=K\"; legal there: hxg8=N, hxg8=B, hxg8=R
a3 h5 b3 h4 c3 h3 d3 hxg2 e3 gxh1 | 1 | 10 => the word is \"gxh1\"; legal there: gxh1=N, gxh1=B, gxh1=R
f3 e5 g4 Qh4# a3 | 1 | 5 => the word is \"a3\"; no move is legal there
abcdefghijklmnopqrstuvwx | 1 | 1 => the word is \"abcdefghijklmnopqrstuvwx\"; legal there: Nc3, Nf3, Nh3
abcdefghijklmnopqrstuvwxy | 1 | 1 => the word is \"abcdefghijklmnopqrstuvwx\"..; legal there: Nc3, Nf3, Nh3
\u{1}\u{1}\u{1}\u{1}\u{1}\u{1}\u{1}\u{1}\u{1}\u{1} | 1 | 1 => \
the word is \"\\u{1}\\u{1}\\u{1}\\u{1}\\u{1}\\u{1}\\u{1}\\u{1}\\u{1}\\u{1}\"; legal there: Na3, Nc3, Nf3
\u{1}\u{1}\u{1}\u{1}\u{1}\u{1}\u{1}\u{1}\u{1}\u{1}\u{1} | 1 | 1 => \
the word is \"\\u{1}\\u{1}\\u{1}\\u{1}\\u{1}\\u{1}\\u{1}\\u{1}\\u{1}\\u{1}\"..; legal there: Na3, Nc3, Nf3
h4 g5 hxg5 a6 g6 b6 gxh7 c6 \u{e000}\u{e000}\u{e000}\u{e000}\u{e000}\u{e000}\u{e000}\u{e000} | 1 | 9 => \
the word is \"\\u{e000}\\u{e000}\\u{e000}\\u{e000}\\u{e000}\\u{e000}\"..; legal there: Na3, Nc3, Nf3
1. e4/1. x e5/1. d4 | 2 | 1 => the word is \"x\"; legal there: a3, a4, b3
x/1. e4/1. d4 | 1 | 1 => the word is \"x\"; legal there: a3, a4, b3
e4 | 2 | 1 => 
e4 | 0 | 1 => 
 | 1 | 1 => 
e4 | 1 | 0 => 
e4 | 1 | 2 => 
x e4 | 1 | 2 => ";

// What is said of a word of a list.
fn check_move<R: Abort + AllocGlobal>(rt: &R, row: &str) {
    let (asked, wanted) = row.split_once(" => ").expect(rt, row);
    let mut fields = asked.split(" | ");
    let list = fields
        .next()
        .unwrap_or("")
        .replace(rt.alloc(), "/1.", "\n1.");
    let list = list.expect(rt, row);
    let line = fields.next().unwrap_or("").parse().expect(rt, row);
    let ply = fields.next().unwrap_or("").parse().expect(rt, row);
    let said = on_move(rt.alloc(), list.as_str(), line, ply);
    assert_eq!(rt; said.as_str(), wanted, "{row}");
}

#[test]
fn hints_on_moves(rt: HostRuntime) {
    for row in MOVES.lines() {
        check_move(&rt, row);
    }
}

// What is said of the word of the last line with this ply.
fn check_last<R: Abort + AllocGlobal>(rt: &R, list: &str, ply: usize, wanted: &str) {
    let said = on_move(rt.alloc(), list, list.lines().count(), ply);
    assert_eq!(rt; said.as_str(), wanted, "{list}");
}

#[test]
fn games_over_two_lines(rt: HostRuntime) {
    let on = "it goes on with the game of line 1; a game is one line";
    check_last(&rt, "1. e4 d5\n2. exd5 Qxd5", 1, on);
    check_last(&rt, "1. e4 d5\r\n2. exd5 Qxd5\r", 1, on);
    check_last(&rt, "1. e4 d5\n2. d4 dxe4", 2, on);
    check_last(&rt, "1. e4\nd5 2. exd5", 1, on);
    check_last(&rt, "1. e4 d5\n2. d4 e5 dxe4", 3, on);
    let first = "the word is \"exd5\"; legal there: d3, d4, e3";
    check_last(&rt, "1. e4 x\n2. exd5 Qxd5", 1, first);
    check_last(&rt, "2. exd5 Qxd5", 1, first);
    check_last(&rt, "1. e4 d5\n1. exd5 Qxd5 Nf9", 3, "");
    let there = "the word is \"dxe4\"; legal there: d5, d6, e5";
    check_last(&rt, "1. e4 d5\n1. d4 dxe4", 2, there);
}

#[test]
fn hints_on_searches(rt: HostRuntime) {
    assert_eq!(rt; on_limit(1, 0, 1).as_str(), "1 node, tree 0.0 of 0.5");
    assert_eq!(rt;
        on_limit(1000, 14, 17).as_str(),
        "1000 nodes, tree 7.0 of 8.5"
    );
    assert_eq!(rt;
        on_limit(u64::MAX, 128, 128).as_str(),
        "18446744073709551615 nodes, tree 64.0 of 64.0"
    );
    assert_eq!(rt; on_known(0).as_str(), "no game known");
    assert_eq!(rt; on_known(1).as_str(), "1 game known");
    assert_eq!(rt; on_known(4096).as_str(), "4096 games known: not sound");
    assert_eq!(rt; on_length(5).as_str(), "try the length 2.5");
}

// Numbers with a word for what they are of, and what is said of such a search: `limit` has nodes, the tree at work and
// the plies, of which more than 128 are no length.
const SEARCHES: &str = "limit 0 4 5 => 0 nodes, tree 2.0 of 2.5
limit 2 5 4 => 2 nodes, tree 2.5 of 2.0
limit 7 0 0 => 7 nodes, tree 0.0 of 0.0
limit 3 128 129 => 3 nodes, tree 64.0 of 
limit 3 129 128 => 3 nodes, tree  of 64.0
limit 1 255 255 => 1 node, tree  of 
known 2 0 0 => 2 games known: not sound
known 18446744073709551615 0 0 => 18446744073709551615 games known: not sound
length 0 0 0 => try the length 0.0
length 1 0 0 => try the length 0.5
length 8 0 0 => try the length 4.0
length 128 0 0 => try the length 64.0
length 129 0 0 => try the length ";

// What is said of a search.
fn check_search(rt: &impl Abort, row: &str) {
    let (asked, wanted) = row.split_once(" => ").expect(rt, row);
    let first = word(asked, 1);
    let said = match word(asked, 0) {
        "limit" => {
            let (tree, plies) = (word(asked, 2), word(asked, 3));
            on_limit(number(rt, first), byte(rt, tree), byte(rt, plies))
        }
        "known" => on_known(size(rt, first)),
        _ => on_length(byte(rt, first)),
    };
    assert_eq!(rt; said.as_str(), wanted, "{row}");
}

#[test]
fn hints_on_searches_of_all_kinds(rt: HostRuntime) {
    for row in SEARCHES.lines() {
        check_search(&rt, row);
    }
}

// A file that begins so is packed by this program, or by none.
fn check_packing(rt: &impl Abort, bytes: &[u8; 6], wanted: &str) {
    assert_eq!(rt; packing_of(bytes).unwrap_or("none"), wanted);
}

#[test]
fn packed_files(rt: HostRuntime) {
    check_packing(&rt, b"\xfd7zXZ\0", "xz");
    check_packing(&rt, b"\x1f\x8b\x08\0\0\0", "gzip");
    check_packing(&rt, b"\x28\xb5\x2f\xfd\0\0", "zstd");
    check_packing(&rt, b"BZh91A", "bzip2");
    check_packing(&rt, b"PK\x03\x04\0\0", "zip");
    check_packing(&rt, b"PGC2\x08$", "none");
    check_packing(&rt, b"\xfd7zXZ\x01", "none");
    check_packing(&rt, b"\x1f\x8c\x08\0\0\0", "none");
    check_packing(&rt, b"\x28\xb5\x2f\xfc\0\0", "none");
    check_packing(&rt, b"BZg91A", "none");
    check_packing(&rt, b"PK\x05\x06\0\0", "none");
    check_packing(&rt, b"\0\x1f\x8b\x08\0\0", "none");
}

// Whether words that spaces part have a FEN in pieces.
fn is_in_words<R: Abort + AllocGlobal>(rt: &R, text: &str) -> bool {
    let mut words = Vec::new(rt.alloc());
    for word in text.split(' ') {
        let word = String::from_str(rt.alloc(), word).expect(rt, text);
        assert!(rt; words.push(word).is_ok());
    }
    is_fen_in_words(words.as_slice())
}

#[test]
fn fens_that_are_not_quoted(rt: HostRuntime) {
    assert!(rt; is_in_words(&rt, "pg moves 8/8/8/8/8/8/8/8 w - - 0 1"));
    assert!(rt; is_in_words(&rt, "pg count 8/8/8/8/8/8/8/8 b - - 0 1 4"));
    assert!(rt; !is_in_words(&rt, "pg check 8/8/8/8/8/8/8/8 4.0 w"));
    assert!(rt; !is_in_words(&rt, "pg check w 8/8/8/8/8/8/8/8"));
}

// Words of a command line, and whether a FEN stands in several of them.
const WORDS: &str = "8/8/8/8/8/8/8/8 w => yes
8/8/8/8/8/8/8/8 b => yes
///////  w => no
/////// w => yes
pg moves 8/8 8/8/8/8/8/8/8/8 w => yes
w 8/8/8/8/8/8/8/8 b => yes
8/8/8/8/8/8/8/8 => no
w => no
 => no
8/8/8/8/8/8/8 w => no
8/8/8/8/8/8/8/8/8 w => no
8/8/8/8/8/8/8/8 x => no
8/8/8/8/8/8/8/8 W => no
8/8/8/8/8/8/8/8 wb => no
b 8/8/8/8/8/8/8/8 => no
8/8/8/8/8/8/8/8 - w => no";

fn check_words<R: Abort + AllocGlobal>(rt: &R, row: &str) {
    let (words, wanted) = row.split_once(" => ").expect(rt, row);
    assert_eq!(rt; is_in_words(rt, words), wanted == "yes", "{row}");
}

#[test]
fn fens_among_words(rt: HostRuntime) {
    for row in WORDS.lines() {
        check_words(&rt, row);
    }
    assert!(rt; !is_fen_in_words(&[]));
}
