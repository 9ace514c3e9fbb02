//! Lengths and diagrams as text.

mod callers;
mod positions;

use crate::texts::{check_all, check_case, check_shown, check_text, halves};
use pg_fen::text::digits;
use pg_fen::*;
use pg_position::BadPosition;
use std::process::Abort;

const ARRAY: &str = "rnbqkbnr/pppppppp/8/8/8/8/PPPPPPPP/RNBQKBNR";

const KINGS: &str = "4k3/8/8/8/8/8/8/4K3";

// That a text is read as a length of the plies that are wanted, which is written as wanted, or refused by a fault that
// is shown as wanted.
fn check_length(rt: &impl Abort, text: &str, wanted: &str) {
    match Length::read(text) {
        Ok(length) => check_plies(rt, text, length, wanted),
        Err(fault) => check_case(rt, text, &fault, wanted),
    }
}

// That a length has the plies that are wanted, and is written as wanted.
fn check_plies(rt: &impl Abort, text: &str, length: Length, wanted: &str) {
    let (plies, written) = wanted.split_once(' ').expect(rt, text);
    check_text(rt, text, digits(length.plies() as usize).as_str(), plies);
    check_text(rt, text, length.write().as_str(), written);
    assert!(rt; Length::from_plies(length.plies()) == Some(length));
}

// The same of each row of a table.
fn check_lengths(rt: &impl Abort, table: &str) {
    for row in table.lines() {
        let (text, wanted) = halves(rt, row);
        check_length(rt, text, wanted);
    }
}

const LENGTHS: &str = "18.5 => 37 18.5
18 => 36 18.0
18.0 => 36 18.0
04 => 8 4.0
64.0 => 128 64.0
0 => 0 0.0
0000000000000000000000000000009.5 => 19 9.5";

#[test]
fn lengths(rt: HostRuntime) {
    check_lengths(&rt, LENGTHS);
    assert!(rt; Length::from_plies(129).is_none());
}

const NO_LENGTHS: &str = "64.5 => length above 64.0
65 => length above 64.0
18446744073709551616.5 => length above 64.0
99999999999999999999999999999999999999 => length above 64.0
 => bad length
.5 => bad length
1. => bad length
4.25 => bad length
4.1 => bad length
4.50 => bad length
4.5  => bad length
 4 => bad length
+4 => bad length
-1 => bad length
4,5 => bad length
٤ => bad length";

#[test]
fn length_refusals(rt: HostRuntime) {
    check_lengths(&rt, NO_LENGTHS);
}

fn diagram(rt: &impl Abort, text: &str) -> Diagram {
    Diagram::read(text).expect(rt, text)
}

// That a text is read as a diagram that is written so, or refused by a fault that is shown so.
fn check_diagram(rt: &impl Abort, text: &str, wanted: &str) {
    match Diagram::read(text) {
        Ok(read) => {
            check_text(rt, text, read.write().as_str(), wanted);
            let again = diagram(rt, wanted);
            check_all(rt, &[again == read, again.packed() == read.packed()]);
        }
        Err(fault) => check_case(rt, text, &fault, wanted),
    }
}

// The same of each row of a table.
fn check_diagrams(rt: &impl Abort, table: &str) {
    for row in table.lines() {
        let (text, wanted) = halves(rt, row);
        check_diagram(rt, text, wanted);
    }
}

// In the last diagram one king stands in check, as no position may.
const DIAGRAMS: &str =
    "rnbqkbnr/pppppppp/8/8/8/8/PPPPPPPP/RNBQKBNR => rnbqkbnr/pppppppp/8/8/8/8/PPPPPPPP/RNBQKBNR
rnbqkbnr/pppp1ppp/4p3/8/8/3PP3/PPP2PPP/RNBQKBNR => rnbqkbnr/pppp1ppp/4p3/8/8/3PP3/PPP2PPP/RNBQKBNR
4k3/8/8/8/8/8/8/4K3 => 4k3/8/8/8/8/8/8/4K3
4k3/8/8/44/1111p3/8/8/4K3 => 4k3/8/8/8/4p3/8/8/4K3
4k3/8/8/8/8/8/8/4K3 w K - 0 1 => 4k3/8/8/8/8/8/8/4K3
4k3/8/8/8/8/8/8/4K3 w - e6 0 1 => 4k3/8/8/8/8/8/8/4K3
4k3/8/8/8/8/8/8/4K3 b qkQK a3 65535 00000 => 4k3/8/8/8/8/8/8/4K3
4k3/8/8/8/8/8/8/4R1K1 => 4k3/8/8/8/8/8/8/4R1K1";

#[test]
fn diagrams(rt: HostRuntime) {
    check_diagrams(&rt, DIAGRAMS);
}

#[test]
fn ends_of_lines(rt: HostRuntime) {
    check_diagram(&rt, " \n", "wrong number of fields");
    for text in [
        "4k3/8/8/8/8/8/8/4K3\n",
        "\r\n\n \t4k3/8/8/8/8/8/8/4K3 \n\n\n",
        " 4k3/8/8/8/8/8/8/4K3\tw\r\n- \n-  0\n\n1\n\n",
    ] {
        check_diagram(&rt, text, KINGS);
    }
}

const NO_DIAGRAMS: &str = " => wrong number of fields
8/8/8/8/8/8/8 => bad rank
rnbqkbnr/pppppppp/9/8/8/8/PPPPPPPP/RNBQKBNR => bad rank
rnbqkbnr/pppppppp/7x/8/8/8/PPPPPPPP/RNBQKBNR => bad letter in the placement
8/8/8/8/8/8/8/8 => each side must have one king
P3k3/8/8/8/8/8/8/4K3 => a pawn stands on rank 1 or 8
4k3/8/8/8/8/8/8/4K3 x - - 0 1 => bad side to move
4k3/8/8/8/8/8/8/4K3 w KK - 0 1 => bad castling rights
4k3/8/8/8/8/8/8/4K3 w - e4 0 1 => bad en passant square
4k3/8/8/8/8/8/8/4K3 w - - 0 x => bad move number
4k3/8/8/8/8/8/8/4K3 w => wrong number of fields
4k3/8/8/8/8/8/8/4K3 w - - 0 => wrong number of fields
4k3/8/8/8/8/8/8/4K3 w - - 0 1 x => wrong number of fields
4k3/8/8/8/8/8/8/4K3/ => bad rank
4k3/8/8/8/08/8/8/4K3 => bad rank
4k3/8/8/8/07/8/8/4K3 => bad letter in the placement
4k3/8/8/8/8/8/8/4K2k => each side must have one king
4k3/8/8/8/8/8/8/8 => each side must have one king
4k3/8/8/8/8/8/8/4K2p => a pawn stands on rank 1 or 8
4k3/8/8/8/8/8/8/4K2p x KK e4 x x => a pawn stands on rank 1 or 8
4k3/8/8/8/8/8/8/4K3 W - - 0 1 => bad side to move
4k3/8/8/8/8/8/8/4K3 w K- - 0 1 => bad castling rights
4k3/8/8/8/8/8/8/4K3 w - i3 0 1 => bad en passant square
4k3/8/8/8/8/8/8/4K3 w - - +0 1 => bad move number
4k3/8/8/8/8/8/8/4K3 w - - 0 65536 => bad move number";

#[test]
fn refusals(rt: HostRuntime) {
    check_diagrams(&rt, NO_DIAGRAMS);
}

// Every character of a rank counts one, however many bytes it has; only spaces, tabs and ends of
// lines separate fields.
const ODD: &str = "4k3/8/8/8/7é/8/8/4K3 => bad letter in the placement
4k3/8/8/8/6é/8/8/4K3 => bad rank
4k3/8/8/8/7♔/8/8/4K3 => bad letter in the placement
4k3/8/8/8/7😀/8/8/4K3 => bad letter in the placement
4k3/8/8/8/8é/8/8/4K3 => bad rank
4k3/8/8/8/7\0/8/8/4K3 => bad letter in the placement
4k3/8/8/8/8/8/8/4K3\0 => bad rank
\0 => bad rank
4k3/8/8/8/8/8/8/4K3\u{c} => bad rank
4k3/8/8/8/8/8/8/4K3\u{a0}w - - 0 1 => wrong number of fields";

#[test]
fn odd_characters(rt: HostRuntime) {
    check_diagrams(&rt, ODD);
}

#[test]
fn packed_bytes(rt: HostRuntime) {
    let wanted = [
        0x24, 0x53, 0x36, 0x42, 0x11, 0x11, 0x11, 0x11, 0, 0, 0, 0, 0, 0, 0, 0, 0, 0, 0, 0, 0, 0,
        0, 0, 0x99, 0x99, 0x99, 0x99, 0xac, 0xdb, 0xbe, 0xca,
    ];
    assert!(rt; diagram(&rt, ARRAY).packed() == wanted);
}

#[test]
fn fault_texts(rt: HostRuntime) {
    let texts = [
        (FenFault::Fields, "wrong number of fields"),
        (FenFault::Rank, "bad rank"),
        (FenFault::Letter, "bad letter in the placement"),
        (FenFault::Kings, "each side must have one king"),
        (FenFault::PawnRank, "a pawn stands on rank 1 or 8"),
        (FenFault::Side, "bad side to move"),
        (FenFault::Rights, "bad castling rights"),
        (FenFault::EnPassant, "bad en passant square"),
        (FenFault::Number, "bad move number"),
        (
            FenFault::Invalid(BadPosition::Kings),
            "impossible position: each side must have one king",
        ),
        (
            FenFault::Invalid(BadPosition::PawnRank),
            "impossible position: a pawn stands on rank 1 or 8",
        ),
        (
            FenFault::Invalid(BadPosition::Rights),
            "impossible position: a castling right without its king and rook at home",
        ),
        (
            FenFault::Invalid(BadPosition::EnPassant),
            "impossible position: an en passant square that fits no two-square advance",
        ),
        (
            FenFault::Invalid(BadPosition::Check),
            "impossible position: the side that is not to move is in check",
        ),
    ];
    for (fault, text) in texts {
        check_shown(&rt, &fault, text);
    }
    check_shown(&rt, &LengthFault::Shape, "bad length");
    check_shown(&rt, &LengthFault::TooLong, "length above 64.0");
}

#[test]
fn laws_are_called(_rt: HostRuntime) {
    laws::length_grammar("18.5");
    laws::diagram_grammar(ARRAY);
    laws::field_grammars(b"8", b"w", b"-", b"-", b"0", b"1");
    laws::widths_by_characters("7é");
    laws::packed_apart();
    laws::one_king_counted();
}
