//! Numbers of games, written or refused.

use super::*;

const COUNTS: &str = "count | start | 0 => () => 1$
count | start | 1 => () => 20$
count | start | 2 => () => 400$
count | start | 3 => () => 8902$
count | start | 4 => () => 197281$
count | middle-game | 2 => () => 2039$
count | endgame | 3 => () => 2812$
count | mated | 0 => () => 1$
count | mated | 3 => () => 0$";

#[test]
fn counts(rt: HostRuntime) {
    check_table(&rt, COUNTS);
}

// Where several things are wrong, the text comes first.
const REFUSED: &str = "count | start | 9 => Count(TooDeep): more than 8 plies
count | mated | 255 => Count(TooDeep): more than 8 plies
count |  | 9 => Position(Fields): wrong number of fields
count | 4k3/8/8/8/8/8/8/4K3 w KK - 0 1 | 1 => Position(Rights): bad castling rights
count | 4k3/8/8/8/8/8/8/4K3 w K - 0 1 | 0 => \
    Position(Invalid(Rights)): impossible position: a castling right without its king and rook at home";

#[test]
fn counts_that_are_refused(rt: HostRuntime) {
    check_table(&rt, REFUSED);
}

// The write with this number fails, after `length` bytes.
fn check_length<R: Abort + AllocGlobal>(rt: &R, at: u64, length: usize) {
    let writer = written(rt, "count | endgame | 3", b"", at, "Write: write fault");
    assert_eq!(rt; writer.into_inner().len(), length);
}

// The number fails to be written, and then the line feed.
#[test]
fn writes_of_a_count_that_fail(rt: HostRuntime) {
    check_row_writes(&rt, "count | endgame | 3 => () => 2812$", 2);
    check_length(&rt, 0, 0);
    check_length(&rt, 1, 4);
}

// Adds up what it is told.
#[derive(Drop)]
struct Told {
    games: u64,
}

impl CountProgress for Told {
    fn counted(&mut self, games: u64) {
        self.games = self.games.saturating_add(games);
    }
}

// The watch is told of all the games.
#[test]
fn a_count_is_watched(rt: HostRuntime) {
    let mut told = Told { games: 0 };
    let mut out = ToWrite::new(Vec::new(rt.alloc()));
    let answer = run_count_watched(rt.alloc(), ENDGAME, 4, &mut out, &mut told);
    answer.expect(&rt, ENDGAME);
    assert_eq!(rt; out.into_inner().as_slice(), b"43238\n".as_slice());
    assert_eq!(rt; told.games, 43_238);
}
