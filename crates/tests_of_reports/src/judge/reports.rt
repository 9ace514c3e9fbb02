//! Reports of problems that are judged, and the games that are enough.
ghost use Rattle.pg_judge.specs.Ruling.{IsFindingOf};

use super::*;
use crate::shared::halves;
use pg_moves::Unwatched;

// The report of what is found of a problem, as a text in which bars stand for the ends of lines.
fn report_of<R: Abort + AllocGlobal>(rt: &R, entry: &Entry<'_>, finding: &Finding) -> String
    requires { IsFindingOf entry.now finding.now }
{
    let mut out = ToWrite::new(Vec::new(rt.alloc()));
    assert!(rt; write_finding(entry, finding, &mut out).is_ok());
    let bytes = out.into_inner();
    text_of(rt, bytes.as_slice())
        .replace(rt.alloc(), '\n', "|")
        .expect(rt, "memory")
}

// The games that a word calls enough.
fn enough_of(rt: &impl Abort, word: &str) -> Enough {
    match word {
        "second" => Enough::SecondGame,
        "search" => Enough::OneSearch,
        "all" => Enough::AllGames,
        _ => panic!(rt; "{word}"),
    }
}

// That a row's problem, judged within its limits, has its report.
fn check_report<R: Abort + AllocGlobal>(rt: &R, row: &str) {
    let (asked, wanted) = halves(rt, row, " => ");
    let (word, rest) = halves(rt, asked, " ");
    let (most, line) = halves(rt, rest, " ");
    let limits = Limits {
        max_nodes: most.parse::<u64>().expect(rt, row),
        enough: enough_of(rt, word),
    };
    let entry = entry_of(rt, line);
    let mut scratch = Cursor::new(Vec::new(rt.alloc()));
    let ruling = ruling_of(rt, &entry, limits, &mut scratch, &mut Unwatched);
    let report = report_of(rt, &entry, &ruling.finding);
    assert_eq!(rt; report.as_str(), wanted, "{row}");
}

// Each kind of finding, and which games are enough: with 220 nodes the first search of the problem with four games gives
// up with all of them, and one that follows it shows that there are no others.
const REPORTS: &str = "search 100000 array rnbqkbnr/pppppppp/8/8/8/8/PPPPPPPP/RNBQKBNR 0 => \
diagram rnbqkbnr/pppppppp/8/8/8/8/PPPPPPPP/RNBQKBNR|length 0.0|games 1|-|sound|
search 1000 none rnbqkbnr/pppp1ppp/8/4p3/4P3/8/PPPP1PPP/RNBQKBNR 0.5 => \
diagram rnbqkbnr/pppp1ppp/8/4p3/4P3/8/PPPP1PPP/RNBQKBNR|length 0.5|games 0|no game|
search 1000 orders rnbqkbnr/pppp1ppp/4p3/8/8/3PP3/PPP2PPP/RNBQKBNR 1.5 => \
diagram rnbqkbnr/pppp1ppp/4p3/8/8/3PP3/PPP2PPP/RNBQKBNR|length 1.5|games 2|1. d3 e6 2. e3|1. e3 e6 2. d3|\
the first two part at move 1 of White, with the same moves in another order|cooked|
second 1000 orders rnbqkbnr/pppp1ppp/4p3/8/8/3PP3/PPP2PPP/RNBQKBNR 1.5 => \
diagram rnbqkbnr/pppp1ppp/4p3/8/8/3PP3/PPP2PPP/RNBQKBNR|length 1.5|games 2|1. d3 e6 2. e3|1. e3 e6 2. d3|\
the first two part at move 1 of White, with the same moves in another order|not sound|
all 1000 orders rnbqkbnr/pppp1ppp/4p3/8/8/3PP3/PPP2PPP/RNBQKBNR 1.5 => \
diagram rnbqkbnr/pppp1ppp/4p3/8/8/3PP3/PPP2PPP/RNBQKBNR|length 1.5|games 2|1. d3 e6 2. e3|1. e3 e6 2. d3|\
the first two part at move 1 of White, with the same moves in another order|cooked|
search 220 four rnbqkbnr/1pp1pppp/p2P4/8/8/8/PPPP1PPP/RNBQKBNR 2.5 => \
diagram rnbqkbnr/1pp1pppp/p2P4/8/8/8/PPPP1PPP/RNBQKBNR|length 2.5|games 4|1. e4 a6 2. e5 d5 3. exd6|1. e4 a6 2. e5 \
d6 3. exd6|1. e4 d5 2. exd5 a6 3. d6|1. e4 d6 2. e5 a6 3. exd6|\
the first two part at move 2 of Black|not sound|
all 220 four rnbqkbnr/1pp1pppp/p2P4/8/8/8/PPPP1PPP/RNBQKBNR 2.5 => \
diagram rnbqkbnr/1pp1pppp/p2P4/8/8/8/PPPP1PPP/RNBQKBNR|length 2.5|games 4|1. e4 a6 2. e5 d5 3. exd6|1. e4 a6 2. e5 \
d6 3. exd6|1. e4 d5 2. exd5 a6 3. d6|1. e4 d6 2. e5 a6 3. exd6|\
the first two part at move 2 of Black|cooked|
second 1000 cook rnbqkbnr/pppp1ppp/4p3/8/8/3PP3/PPP2PPP/RNBQKBNR 1.5 1. e3 e6 2. d3 => \
diagram rnbqkbnr/pppp1ppp/4p3/8/8/3PP3/PPP2PPP/RNBQKBNR|length 1.5|games 1|1. e3 e6 2. d3|another game|1. d3 e6 2. \
e3|\
it parts from the first at move 1 of White, with the same moves in another order|not sound|
second 1000 shorter rnbqkbnr/pppp1ppp/8/4p3/4P3/8/PPPP1PPP/RNBQKBNR 2.0 1. e3 e6 2. e4 e5 => \
diagram rnbqkbnr/pppp1ppp/8/4p3/4P3/8/PPPP1PPP/RNBQKBNR|length 2.0|games 1|1. e3 e6 2. e4 e5|a game of 3 plies|1. \
e3 e5 2. e4|not sound|
second 1000 short rnbqkbnr/pppp1ppp/8/4p3/4P3/8/PPPP1PPP/RNBQKBNR 2.0 => \
diagram rnbqkbnr/pppp1ppp/8/4p3/4P3/8/PPPP1PPP/RNBQKBNR|length 2.0|games 0|a game of 2 plies|1. e4 e5|not sound|
second 20 schweig r1bqkbnr/ppp2ppp/3p4/8/8/8/PPPPPPPP/R1BQKBNR 4.0 => \
diagram r1bqkbnr/ppp2ppp/3p4/8/8/8/PPPPPPPP/R1BQKBNR|length 4.0|games 0|not settled: 0 games met; none below 3.5; \
limit reached|
second 20001 drawn r2qkb1r/1pP1ppp1/7p/p5nn/P7/7b/3PPPPP/RNBQKB1R 12.0 => \
diagram r2qkb1r/1pP1ppp1/7p/p5nn/P7/7b/3PPPPP/RNBQKB1R|length 12.0|games 0|a game of 19 plies|1. Nf3 a5 2. a4 h6 3. \
c4 Nf6 4. Ne5 Nh5 5. Nxd7 Nxd7 6. c5 Nxc5 7. b4 Ne4 8. b5 Ng5 9. b6 Bh3 10. bxc7|not sound|";

#[test]
fn reports_of_findings(rt: HostRuntime) {
    for row in REPORTS.lines() {
        check_report(&rt, row);
    }
}
