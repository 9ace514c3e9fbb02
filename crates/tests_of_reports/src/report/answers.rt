//! Reports of the games that certificates prove, of the problems that their headers name.

use super::*;

// The row of a check as one that gives no list, and takes the problem from the header.
fn without_list<R: Abort + AllocGlobal>(rt: &R, row: &str) -> String {
    let (_, rest) = halves(rt, row, " | ");
    format!(in rt.alloc(); "answer | {rest}").expect(rt, "memory")
}

// A certificate has the report that a check of a list has.
#[test]
fn reports_without_a_list(rt: HostRuntime) {
    for row in runs::RUNS.lines() {
        check_row(&rt, without_list(&rt, row).as_str());
    }
}

#[test]
fn four_games_of_a_certificate(rt: HostRuntime) {
    let asked = "answer |  |  |  |  | 1 en-passant 2.5";
    let bytes = runs::searched(&rt, "en-passant", "2.5", 4);
    let text = runs::EN_PASSANT_REPORT.as_bytes();
    check_both(&rt, asked, bytes.as_slice(), "Cooked", text);
}

// The row of a check that is refused, in the same way.
fn refused_without_list<R: Abort + AllocGlobal>(rt: &R, row: &str) -> String {
    let row = without_list(rt, row);
    let (asked, said) = halves(rt, row.as_str(), " => ");
    let (fault, text) = halves(rt, said, ": ");
    format!(in rt.alloc(); "{asked} => Answer({fault}): {text}").expect(rt, "memory")
}

// And the refusals of a check, which nothing is written of.
#[test]
fn refusals_without_a_list(rt: HostRuntime) {
    for table in [refusals::SHORTER, refusals::WRONG] {
        for row in table.lines() {
            check_row(&rt, refused_without_list(&rt, row).as_str());
        }
    }
}

// A header of the array in 64.0, and in half a move more; with a number that is no man's; with another king, and
// without one; with a pawn on the first rank. Then certificates for another length and another diagram than are asked.
const HEADERS: &str =
    "answer |  |  |  |  |  | 50474331 80 24533642 11111111 00*16 99999999 acdbbeca => \
    Answer(Check(Shorter(0))): a game of 0 plies reaches the diagram
answer |  |  |  |  |  | 50474331 81 24533642 11111111 00*16 99999999 acdbbeca => NoProblem: certificate for no problem
answer |  |  |  |  |  | 50474331 00 24533642 11111111 00*15 07 99999999 acdbbeca => \
    NoProblem: certificate for no problem
answer |  |  |  |  |  | 50474331 00 24533642 11111111 00*15 80 99999999 acdbbeca => \
    NoProblem: certificate for no problem
answer |  |  |  |  |  | 50474331 00 24533642 11111111 00*15 f0 99999999 acdbbeca => \
    NoProblem: certificate for no problem
answer |  |  |  |  |  | 50474331 00 24533642 11111111 00*15 06 99999999 acdbbeca => \
    NoProblem: certificate for no problem
answer |  |  |  |  |  | 50474331 00 24533642 11111111 00*16 99999999 acdbb0ca => NoProblem: certificate for no problem
answer |  |  |  |  |  | 50474331 00 24533611 11111111 00*16 99999999 acdbbeca => NoProblem: certificate for no problem
answer-to | after-e4 | 1.0 |  |  | 1 after-e4 0.5 | 01 => Check(OtherLength): certificate for another length
answer-to | after-e4-e5 | 0.5 |  |  | 1 after-e4 0.5 | 01 => \
    Check(OtherDiagram): certificate for another diagram";

#[test]
fn headers(rt: HostRuntime) {
    check_table(&rt, HEADERS);
}

const OPEN_GAME: &str =
    "answer |  |  |  |  | 1 after-e4-e5 1.0 | 0204 01 0204*13 01 0204*6 => Sound => \
    diagram rnbqkbnr/pppp1ppp/8/4p3/4P3/8/PPPP1PPP/RNBQKBNR$length 1.0$games 1$1. e4 e5$sound$";

// Each read of one byte fails in turn: it is not tried again, and nothing is written.
#[test]
fn reads_that_fail(rt: HostRuntime) {
    let (asked, _) = halves(&rt, OPEN_GAME, " => ");
    let bytes = bytes_of(&rt, asked);
    for at in 0..80u64 {
        let answer = "Answer(Check(Read)): read fault";
        assert_eq!(rt;
            read_until(&rt, asked, bytes.as_slice(), at, answer),
            0,
            "{at}"
        );
    }
}

// Each write fails in turn: what was written before it stands, and no write follows.
#[test]
fn writes_that_fail(rt: HostRuntime) {
    check_row_writes(&rt, OPEN_GAME, 17);
}
