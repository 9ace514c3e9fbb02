//! Runs of a check that end without a report.

use super::*;

// The list lacks a game.
const LACKING: &str = "check | two-orders | 1.5 | 1. d3 e6 2. e3 |  | 1 two-orders 1.5 | \
    0204*2 01 0204*10 01 0204*9 01 0204*11 01 0204*9 01 0204*17 => lacks 1. e3 e6 2. d3
check | two-orders | 1.5 | 1. e3 e6 2. d3 |  | 1 two-orders 1.5 | \
    0204*2 01 0204*10 01 0204*9 01 0204*11 01 0204*9 01 0204*17 => lacks 1. d3 e6 2. e3
check | two-orders | 1.5 |  |  | 1 two-orders 1.5 | 0204*2 01 0204*10 01 0204*9 01 0204*11 01 0204*9 01 0204*17 => \
    lacks 1. d3 e6 2. e3";

#[test]
fn games_left_out(rt: HostRuntime) {
    check_table(&rt, LACKING);
}

// The passed square lapses after a ply, a result is no move, and a game stands once.
const NO_LISTS: &str = "check | en-passant | 2.5 | 1. e4 d5 2. e5 a6 3. exd6 => \
    Games(At { line: 1, ply: 5, cause: NoSuchMove }): line 1, ply 5: no such legal move
check | en-passant | 2.5 | 1. e4 a6 2. e5 d5 3. exd6 * => \
    Games(At { line: 1, ply: 6, cause: Shape }): line 1, ply 6: not a move
check | en-passant | 2.5 | 1. e4 a6 2. e5 d5 3. exd6$$1.e4 a6 2.e5 d5 3.exd6ep => \
    Games(Repeated { line: 3 }): line 3: repeated game";

#[test]
fn lists_that_are_refused(rt: HostRuntime) {
    check_table(&rt, NO_LISTS);
}

const NO_SOLUTIONS: &str = "check | after-e4-e5 | 1.0 | 1. e4 e5 2. d4$1. e4 e5 => \
    Check(Listed(WrongLength(1))): game 2 does not have the stated length
check | after-e4-e5 | 1.0 | 1. e4 e5$1. d4 d5 => Check(Listed(NotReaching(0))): game 1 does not end on the diagram
check | after-e4-e5 | 1.0 | 1. e4 e5$1. e4 e6 => Check(Listed(NotReaching(1))): game 2 does not end on the diagram";

#[test]
fn games_that_are_no_solutions(rt: HostRuntime) {
    check_table(&rt, NO_SOLUTIONS);
}

// A shorter game reaches the diagram: in no ply, whether or not longer games are listed; in one ply.
pub(super) const SHORTER: &str =
    "check | array | 2.0 |  |  | 1 array 2.0 |  => Check(Shorter(0)): a game of 0 plies reaches the diagram
check | array | 2.0 | 1. Nf3 Nf6 2. Ng1 Ng8 |  | 1 array 2.0 |  => \
    Check(Shorter(0)): a game of 0 plies reaches the diagram
check | after-e4 | 2.0 |  |  | 1 after-e4 2.0 | 01 => Check(Shorter(1)): a game of 1 plies reaches the diagram";

#[test]
fn shorter_games(rt: HostRuntime) {
    check_table(&rt, SHORTER);
}

// The last byte is missing; so is that of a header. A byte too many; a record too many; another first byte. A cut
// that does not hold; a bound and a record that are unknown; a reference without its number.
pub(super) const WRONG: &str =
    "check | after-e4-e5 | 1.0 | 1. e4 e5 | 22 | 1 after-e4-e5 1.0 | 0204 01 0204*13 01 0204*5 02 => \
    Check(Truncated): truncated certificate
check | after-e4-e5 | 1.0 | 1. e4 e5 | 22 |  | 50474331 02 24533642 11111011 00*6 01 00*3 09 00*5 9999 9099 acdbbe => \
    Check(Truncated): truncated certificate
check | after-e4-e5 | 1.0 | 1. e4 e5 | 22 | 1 after-e4-e5 1.0 | 0204 01 0204*13 01 0204*6 00 => \
    Check(Trailing): bytes after the certificate
check | after-e4-e5 | 1.0 | 1. e4 e5 | 21 | 1 after-e4-e5 1.0 | 0204 01 0204*13 01 0204*6 00 => \
    Check(Budget): record limit reached
check | after-e4-e5 | 1.0 | 1. e4 e5 | 22 |  | \
    58474331 02 24533642 11111011 00*6 01 00*3 09 00*5 9999 9099 acdbbeca 0204 01 0204*13 01 0204*6 00 => \
    Check(Magic): not a certificate
check | after-e4-e5 | 1.0 | 1. e4 e5 | 22 | 1 after-e4-e5 1.0 | 0201 => Check(CutFails(1)): cut 1 does not exclude
check | after-e4-e5 | 1.0 | 1. e4 e5 | 22 | 1 after-e4-e5 1.0 | 0209 => Check(UnknownBound(9)): unknown bound 9
check | after-e4-e5 | 1.0 | 1. e4 e5 | 22 | 1 after-e4-e5 1.0 | 0707 => Check(UnknownRecord(7)): unknown record byte 7
check | after-e4-e5 | 1.0 | 1. e4 e5 | 22 | 1 after-e4-e5 1.0 | 0503 => Check(Truncated): truncated certificate";

#[test]
fn certificates_that_are_refused(rt: HostRuntime) {
    check_table(&rt, WRONG);
}

// The header is that of another problem.
const OTHER: &str = "check | after-e4-e5 | 1.0 | 1. e4 e5 | 22 | 1 after-e4-e5 1.5 | 0204 => \
    Check(OtherLength): certificate for another length
check | after-e4-e5 | 1.0 | 1. e4 e5 | 22 | 1 fools-mate 1.0 | 0204 => \
    Check(OtherDiagram): certificate for another diagram
check | after-e4-e5 | 1.0 | 1. e4 e5 | 22 | 1 recaptured 2 | 0204 => \
    Check(OtherLength): certificate for another length";

#[test]
fn certificates_of_other_problems(rt: HostRuntime) {
    check_table(&rt, OTHER);
}

const OPEN_GAME: &str =
    "check | after-e4-e5 | 1.0 | 1. e4 e5 |  | 1 after-e4-e5 1.0 | 0204 01 0204*13 01 0204*6";

// Each read of one byte fails in turn: it is not tried again, and nothing is written.
#[test]
fn reads_that_fail(rt: HostRuntime) {
    let bytes = bytes_of(&rt, OPEN_GAME);
    for at in 0..80u64 {
        let answer = "Check(Read): read fault";
        assert_eq!(rt;
            read_until(&rt, OPEN_GAME, bytes.as_slice(), at, answer),
            0,
            "{at}"
        );
    }
}

// How many writes the report on e4 e5 takes: nine for what was asked, five for the game, one for the
// end of its line, two for the verdict.
const WRITES: u64 = 17;

const OPEN_REPORT: &str = "diagram rnbqkbnr/pppp1ppp/8/4p3/4P3/8/PPPP1PPP/RNBQKBNR
length 1.0
games 1
1. e4 e5
sound
";

// Each write fails in turn: what was written before it stands, and no write follows.
#[test]
fn writes_of_a_run_that_fail(rt: HostRuntime) {
    let bytes = bytes_of(&rt, OPEN_GAME);
    check_writes(
        &rt,
        OPEN_GAME,
        bytes.as_slice(),
        WRITES,
        "Sound",
        OPEN_REPORT,
    );
}
