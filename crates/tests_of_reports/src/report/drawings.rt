//! Boards for the eye.

use super::*;

// How many writes a board takes: for each rank its digit, eight squares and the end of the line; and
// the letters of the files.
const WRITES: u64 = 8 * 10 + 1;

const MATE_DRAWN: &str = "8 r n b . k b n r
7 p p p p . p p p
6 . . . . . . . .
5 . . . . p . . .
4 . . . . . . P q
3 . . . . . P . .
2 P P P P P . . P
1 R N B Q K B N R
  a b c d e f g h
";

const KINGS_DRAWN: &str = "8 . . . . k . . .
7 . . . . . . . .
6 . . . . . . . .
5 . . . . . . . .
4 . . . . . . . .
3 . . . . . . . .
2 . . . . . . . .
1 K . . . . . . .
  a b c d e f g h
";

// The board of Schweig's game.
fn schweig_drawn(rt: &impl Abort) -> &'static str {
    SCHWEIG_SHOWN.get(..BOARD).expect(rt, "a board")
}

// The board of a diagram.
fn check_board<R: Abort + AllocGlobal>(rt: &R, asked: &str, drawn: &str) {
    check_both(rt, asked, b"", "()", drawn.as_bytes());
}

#[test]
fn drawn_boards(rt: HostRuntime) {
    check_board(&rt, "board | schweig", schweig_drawn(&rt));
    check_board(&rt, "board | fools-mate", MATE_DRAWN);
    check_board(&rt, "board | 4k3/8/8/8/8/8/8/K7", KINGS_DRAWN);
}

// Each write fails in turn, and is not tried again.
#[test]
fn writes_of_a_board_that_fail(rt: HostRuntime) {
    check_writes(
        &rt,
        "board | schweig",
        b"",
        WRITES,
        "()",
        schweig_drawn(&rt),
    );
}
