//! The games that certificates give.

use super::references::write_tree;
use super::*;

// Games by the indexes of the squares, in the order of their list.
fn found(games: &Games) -> Said {
    let mut said = Said::new();
    for i in 0..games.len() {
        let game = games.game(i).unwrap_or(&[]);
        let _ = write!(said, ";{}", squares_of(game));
    }
    said
}

// How many records and named nodes a certificate has, with its games, or the fault.
fn told_games(answer: &Result<Answer, AnswerFault>) -> Said {
    match answer {
        Ok(answer) => {
            let games = found(&answer.games);
            let proved = answer.proved;
            words(&format_args!("{} {}{games}", proved.records, proved.named))
        }
        Err(AnswerFault::Check(fault)) => words(&format_args!("{fault:?}")),
        Err(fault) => words(&format_args!("answer {fault:?}")),
    }
}

// What is answered with the four bounds to what a row asks, whose games are not read.
fn answered<R: Abort + AllocGlobal>(rt: &R, asked: &str, bytes: &[u8]) -> Said {
    let diagram = diagram_of(rt, field(asked, 0));
    let length = length_of(rt, field(asked, 1));
    let records = field(asked, 3).parse().unwrap_or(MANY);
    let named = field(asked, 4).parse().expect(rt, asked);
    let mut source = FromRead::new(bytes);
    told_games(&pg_checker::answer(
        rt.alloc(),
        &diagram,
        length,
        &four_bounds(rt),
        &mut source,
        records,
        named,
    ))
}

fn check_answers<R: Abort + AllocGlobal>(rt: &R, table: &str) {
    for row in table.lines() {
        let (asked, wanted) = halves(rt, row, " => ");
        let bytes = bytes_of(rt, asked);
        let said = answered(rt, asked, bytes.as_slice());
        assert_eq!(rt; said.as_str(), wanted, "{asked}");
    }
}

// The game of no move; a game; two in the order of their list; and none.
const GAMES: &str = "array | 0 |  |  | 0 | 1 array 0 |  => 0 0;
after-e4 | 0.5 |  |  | 0 | 1 after-e4 0.5 | 01 => 1 0; 12-28
after-e4-e5 | 1.0 |  |  | 22 | 1 after-e4-e5 1.0 | 05*22 => 22 22; 12-28 52-36
two-pawns | 1.5 |  |  | 0 | 1 two-pawns 1.5 | 0204*2 01 0204*10 01 0204*9 01 0204*11 01 0204*9 01 0204*17 => \
    63 0; 11-19 52-44 12-20; 12-20 52-44 11-19
after-e4-e5 | 0.5 |  |  | 0 | 1 after-e4-e5 0.5 | 01 => 1 0";

#[test]
fn games_are_found(rt: HostRuntime) {
    check_answers(&rt, GAMES);
}

// A list that stands in the row is not asked; a certificate for another length or another diagram; a shorter game;
// the limits; and a certificate that is not whole.
const REFUSALS: &str = "after-e4 | 0.5 | d4 |  | 0 | 1 after-e4 0.5 | 01 => 1 0; 12-28
after-e4 | 1.0 |  |  | 0 | 1 after-e4 0.5 | 01 => OtherLength
after-e4-e5 | 0.5 |  |  | 0 | 1 after-e4 0.5 | 01 => OtherDiagram
after-e4 | 2.0 |  |  | 0 | 1 after-e4 2.0 | 01 => Shorter(1)
after-e4-e5 | 1.0 |  | 21 | 0 | 1 after-e4-e5 1.0 | 01*22 => Budget
after-e4-e5 | 1.0 |  |  | 21 | 1 after-e4-e5 1.0 | 05*22 => TooManyNamed
after-e4-e5 | 1.0 |  |  | 0 | 1 after-e4-e5 1.0 | 01*21 => Truncated
after-e4 | 0.5 |  |  | 0 | 1 after-e4 0.5 | 0101 => Trailing";

#[test]
fn refusals(rt: HostRuntime) {
    check_answers(&rt, REFUSALS);
}

// Black's pawns on a7 and d7 have moved, and White's pawn stands on d6.
#[test]
fn four_games_are_found(rt: HostRuntime) {
    let asked = "pawn-on-d6 | 2.5 |  |  | 0";
    let all =
        "1. e4 a6 2. e5 d5 3. exd6/1. e4 a6 2. e5 d6 3. exd6/1. e4 d5 2. exd5 a6 3. d6/1. e4 d6 2. e5 a6 3. exd6/";
    let mut bytes = certificate(&rt, "1 pawn-on-d6 2.5", "0204*4");
    write_tree(&rt, &mut bytes, &diagram_of(&rt, "pawn-on-d6"), 5);
    let said = answered(&rt, asked, bytes.as_slice());
    let games = found(&games_of(&rt, all));
    assert!(rt;
        is_yes(&said) && said.as_str().ends_with(games.as_str()),
        "{said}"
    );
}
