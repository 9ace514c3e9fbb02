//! Reports, counts, moves and shown diagrams: what the tests share.

mod answers;
mod cooks_found;
mod drawings;
mod faults;
mod game_counts;
mod growths;
mod known_games;
mod least_lengths;
mod long_lists;
mod move_lists;
mod refusals;
mod reports;
mod runs;
mod shown_diagrams;
mod upgrades;

use crate::shared::{
    MANY, Said, certificate, diagram_of, field, five_bounds, four_bounds, halves, length_of,
    lines_of, named, problem_of, text_of, told, unopened, words,
};
use pg_certificate::format::MOST_NAMED;
use pg_checker::answer as answer_for;
use pg_cooks::{
    CookAnswer, CooksFault, CooksRunFault, LedLimits, ListingFault, Standing,
    run_cooks as find_cooks, run_games as test_games,
};
use pg_position::Move;
use pg_report::*;
use pg_san::read_games;
use pg_trial::{FailsAt, OneByte};
use std::alloc::Global;
use std::io::ErrorKind;
use std::process::Abort;

const AFTER_E4_E5: &str = "rnbqkbnr/pppp1ppp/8/4p3/4P3/8/PPPP1PPP/RNBQKBNR";

const ENDGAME: &str = "8/2p5/3p4/KP5r/1R3p1k/8/4P1P1/8 w - - 0 1";

// What is shown of Schweig's game.
const SCHWEIG_SHOWN: &str = "8 r . b q k b n r
7 p p p . . p p p
6 . . . p . . . .
5 . . . . . . . .
4 . . . . . . . .
3 . . . . . . . .
2 P P P P P P P P
1 R . B Q K B N R
  a b c d e f g h
white 15 men, captured 2, needs 2 plies (captures)
black 14 men, captured 1, needs 1 ply (captures)
no game is shorter than 3.5
";

// How many bytes of that the board has.
const BOARD: usize = 9 * 18;

// The bytes, one a call, where the read with this number fails.
fn failing_source(bytes: &[u8], at: u64) -> FromRead<FailsAt<OneByte<&[u8]>>> {
    FromRead::new(FailsAt::new(OneByte::new(bytes), at, ErrorKind::Interrupted))
}

// A sink where the write with this number fails.
fn failing_sink(alloc: Global, at: u64) -> ToWrite<FailsAt<Vec<u8>>> {
    ToWrite::new(FailsAt::new(Vec::new(alloc), at, ErrorKind::Interrupted))
}

// What is answered to the report on a list of games.
fn report<R: Abort + AllocGlobal, W: Sink>(rt: &R, texts: [&str; 3], out: &mut W) -> Said {
    let [diagram, length, games] = texts;
    let diagram = diagram_of(rt, diagram);
    let length = length_of(rt, length);
    let games = read_games(rt.alloc(), games).expect(rt, games);
    told(&write_report(&diagram, length, &games, out))
}

// The game that a list lacks.
fn lacking<R: Abort + AllocGlobal>(rt: &R, game: &[Move]) -> Said {
    let mut out = ToWrite::new(Vec::new(rt.alloc()));
    write_movetext(game, &mut out).expect(rt, "written");
    let text = out.into_inner();
    words(&format_args!("lacks {}", text_of(rt, text.as_slice())))
}

// What is answered with the four bounds.
fn check<R: Abort + AllocGlobal, S: Source, W: Sink>(
    rt: &R,
    texts: [&str; 3],
    limit: u64,
    source: &mut S,
    out: &mut W,
) -> Said {
    let bounds = four_bounds(rt);
    let [diagram, length, games] = texts;
    let answer = run_check(
        rt.alloc(),
        diagram,
        length,
        games,
        &bounds,
        source,
        out,
        limit,
        MOST_NAMED,
    );
    if let Err(RunFault::Check(Fault::Unlisted(game))) = &answer {
        return lacking(rt, game);
    }
    told(&answer)
}

// What is answered to a certificate without a list, for the problem of its header.
fn answer<R: Abort + AllocGlobal, S: Source, W: Sink>(
    rt: &R,
    limit: u64,
    source: &mut S,
    out: &mut W,
) -> Said {
    let mut opened = match open(source) {
        Ok(opened) => opened,
        Err(fault) => return unopened(fault),
    };
    let bounds = four_bounds(rt);
    told(&run_answer(
        rt.alloc(),
        &mut opened,
        &bounds,
        source,
        out,
        limit,
        MOST_NAMED,
    ))
}

// How many games a certificate answers to the problem of a row, or why it answers none.
fn answer_to<R: Abort + AllocGlobal, S: Source>(
    rt: &R,
    asked: &str,
    limit: u64,
    source: &mut S,
) -> Said {
    let problem = problem_of(rt, field(asked, 1), field(asked, 2));
    let bounds = four_bounds(rt);
    match answer_for(
        rt.alloc(),
        &problem.diagram,
        problem.length,
        &bounds,
        source,
        limit,
        MOST_NAMED,
    ) {
        Ok(answer) => words(&answer.games.len()),
        Err(fault) => words(&format_args!("{fault:?}: {fault}")),
    }
}

// A problem, and a list of games for it.
#[derive(Drop)]
struct Listed {
    problem: Problem,
    games: Games,
}

// What the texts of a diagram, a length and a list spell; or which of them is refused, and why.
fn listed_by(alloc: Global, texts: [&str; 3]) -> Result<Listed, RunFault> {
    let [diagram, length, games] = texts;
    let problem = match Problem::read(diagram, length) {
        Ok(problem) => problem,
        Err(fault) => return Err(RunFault::of_problem(fault)),
    };
    match read_games(alloc, games) {
        Ok(games) => Ok(Listed { problem, games }),
        Err(fault) => Err(RunFault::Games(fault)),
    }
}

// What is answered to a list of games by itself.
fn games<R: Abort + AllocGlobal, W: Sink>(rt: &R, texts: [&str; 3], out: &mut W) -> Said {
    match listed_by(rt.alloc(), texts) {
        Ok(listed) => told(&test_games(&listed.problem, &listed.games, out)),
        Err(fault) => words(&format_args!("{fault:?}: {fault}")),
    }
}

// What is found beside a list of games, in one word.
fn cooks<R: Abort + AllocGlobal, W: Sink>(
    rt: &R,
    texts: [&str; 3],
    limits: LedLimits,
    out: &mut W,
) -> Said {
    let Listed { problem, games } = match listed_by(rt.alloc(), texts) {
        Ok(listed) => listed,
        Err(fault) => return words(&format_args!("{fault:?}: {fault}")),
    };
    match find_cooks(rt.alloc(), &problem, &games, limits, &mut Unwatched, out) {
        Ok(CookAnswer::Cook(_)) => words(&"Cook"),
        Ok(CookAnswer::Shorter(_)) => words(&"Shorter"),
        Ok(CookAnswer::NotFound { .. }) => words(&"NotFound"),
        Err(CooksRunFault::Cooks(fault)) => words(&format_args!("{fault:?}: {fault}")),
        Err(fault) => words(&format_args!("{fault:?}: {fault}")),
    }
}

// What is shown of a diagram, and of a length where one is asked.
fn show<R: Abort + AllocGlobal, W: Sink>(
    rt: &R,
    diagram: &str,
    length: Option<&str>,
    out: &mut W,
) -> Said {
    let problem = match Problem::read(diagram, length.unwrap_or("0.0")) {
        Ok(problem) => problem,
        Err(fault) => return words(&format_args!("{fault:?}: {fault}")),
    };
    let asked = match length {
        Some(_) => Some(problem.length),
        None => None,
    };
    let bounds = five_bounds(rt);
    told(&run_show(rt.alloc(), &problem.diagram, asked, &bounds, out))
}

// Limits of nodes and of foreign moves: three of these where it is not told.
fn led_limits(nodes: u64, foreign: &str) -> LedLimits {
    LedLimits {
        max_nodes: nodes,
        foreign: Some(foreign.parse().unwrap_or(3)),
    }
}

// What a command answers: its word stands before its texts and the limit of records, or of nodes, which foreign moves
// follow.
fn obey<R: Abort + AllocGlobal, S: Source, W: Sink>(
    rt: &R,
    asked: &str,
    source: &mut S,
    out: &mut W,
) -> Said {
    let command = field(asked, 0);
    let text = field(asked, 1);
    let number = field(asked, 2);
    let list = field(asked, 3);
    let limit = field(asked, 4);
    let text = named(text);
    let plies = number.parse().unwrap_or(0);
    let limit = limit.parse().unwrap_or(MANY);
    match command {
        "answer" => answer(rt, limit, source, out),
        "answer-to" => answer_to(rt, asked, limit, source),
        "board" => told(&write_board(&diagram_of(rt, text), out)),
        "count" => told(&run_count(rt.alloc(), text, plies, out)),
        "games" => games(rt, [text, number, list], out),
        "moves" => told(&run_moves(rt.alloc(), text, out)),
        "show" => show(rt, text, None, out),
        "cooks" => cooks(
            rt,
            [text, number, list],
            led_limits(limit, field(asked, 5)),
            out,
        ),
        "report" => report(rt, [text, number, list], out),
        "within" => show(rt, text, Some(number), out),
        "upgrade" => told(&upgrade(source, out, limit)),
        _ => check(rt, [text, number, list], limit, source, out),
    }
}

// The command answers so, where the write with this number fails; what was written, and by how many writes.
fn written<R: Abort + AllocGlobal>(
    rt: &R,
    asked: &str,
    bytes: &[u8],
    at: u64,
    answer: &str,
) -> FailsAt<Vec<u8>> {
    let mut out = failing_sink(rt.alloc(), at);
    let said = obey(rt, asked, &mut FromRead::new(bytes), &mut out);
    assert_eq!(rt; said.as_str(), answer, "{asked}");
    out.into_inner()
}

// The command answers and writes so. Where nothing is written there is no write.
fn check_quickly<R: Abort + AllocGlobal>(
    rt: &R,
    asked: &str,
    bytes: &[u8],
    answer: &str,
    text: &[u8],
) {
    let writer = written(rt, asked, bytes, MANY, answer);
    assert!(rt; !text.is_empty() || writer.calls() == 0, "{asked}");
    assert!(rt; writer.into_inner().as_slice() == text, "{asked}");
}

// The same, through a reader and a writer of one byte a call.
fn check_slowly<R: Abort + AllocGlobal>(
    rt: &R,
    asked: &str,
    bytes: &[u8],
    answer: &str,
    text: &[u8],
) {
    let mut source = FromRead::new(OneByte::new(bytes));
    let mut out = ToWrite::new(OneByte::new(Vec::new(rt.alloc())));
    let said = obey(rt, asked, &mut source, &mut out);
    assert_eq!(rt; said.as_str(), answer, "{asked}");
    assert!(rt; out.into_inner().into_inner().as_slice() == text, "{asked}");
}

// The same, both ways.
fn check_both<R: Abort + AllocGlobal>(
    rt: &R,
    asked: &str,
    bytes: &[u8],
    answer: &str,
    text: &[u8],
) {
    check_quickly(rt, asked, bytes, answer, text);
    check_slowly(rt, asked, bytes, answer, text);
}

// The certificate of a command: what its header has, its records, and how many bytes it has, if that is told.
fn bytes_of<R: Abort + AllocGlobal>(rt: &R, asked: &str) -> Vec<u8> {
    let header = field(asked, 5);
    let records = field(asked, 6);
    let length = field(asked, 7);
    let bytes = certificate(rt, header, records);
    if !length.is_empty() {
        assert_eq!(rt; words(&bytes.len()).as_str(), length, "{asked}");
    }
    bytes
}

// What is asked, what is answered, and what is written: an arrow stands before each answer, and one before
// a text.
fn parts<'a>(rt: &impl Abort, row: &'a str) -> [&'a str; 3] {
    let (asked, rest) = halves(rt, row, " => ");
    let (answer, text) = rest.split_once(" => ").unwrap_or((rest, ""));
    [asked, answer, text]
}

// The command of a row answers and writes what stands there.
fn check_row<R: Abort + AllocGlobal>(rt: &R, row: &str) {
    let row = lines_of(rt, row);
    let [asked, answer, text] = parts(rt, row.as_str());
    let bytes = bytes_of(rt, asked);
    check_both(rt, asked, bytes.as_slice(), answer, text.as_bytes());
}

// So does each command of a table.
fn check_table<R: Abort + AllocGlobal>(rt: &R, table: &str) {
    for row in table.lines() {
        check_row(rt, row);
    }
}

// The write with this number fails: it is the last one, and what was written before it stands.
fn check_write<R: Abort + AllocGlobal>(rt: &R, asked: &str, bytes: &[u8], at: u64, text: &str) {
    let writer = written(rt, asked, bytes, at, "Write: write fault");
    assert_eq!(rt; writer.calls(), at.saturating_add(1), "{asked}");
    let before = writer.into_inner();
    assert!(rt;
        text.as_bytes().starts_with(before.as_slice()),
        "{asked}: {at}"
    );
}

// Each of the writes fails in turn, and the next one, which is not made.
fn check_writes<R: Abort + AllocGlobal>(
    rt: &R,
    asked: &str,
    bytes: &[u8],
    writes: u64,
    answer: &str,
    text: &str,
) {
    for at in 0..writes {
        check_write(rt, asked, bytes, at, text);
    }
    let writer = written(rt, asked, bytes, writes, answer);
    assert_eq!(rt; writer.calls(), writes, "{asked}");
    assert!(rt;
        writer.into_inner().as_slice() == text.as_bytes(),
        "{asked}"
    );
}

// The same of the command of a row.
fn check_row_writes<R: Abort + AllocGlobal>(rt: &R, row: &str, writes: u64) {
    let row = lines_of(rt, row);
    let [asked, answer, text] = parts(rt, row.as_str());
    let bytes = bytes_of(rt, asked);
    check_writes(rt, asked, bytes.as_slice(), writes, answer, text);
}

// The read of one byte with this number fails, which is answered so. It is the last one. How many bytes are
// written then.
fn read_until<R: Abort + AllocGlobal>(
    rt: &R,
    asked: &str,
    bytes: &[u8],
    at: u64,
    answer: &str,
) -> usize {
    let mut source = failing_source(bytes, at);
    let mut out = ToWrite::new(Vec::new(rt.alloc()));
    let said = obey(rt, asked, &mut source, &mut out);
    assert_eq!(rt; said.as_str(), answer, "{asked}: {at}");
    assert_eq!(rt;
        source.into_inner().calls(),
        at.saturating_add(1),
        "{asked}"
    );
    out.into_inner().len()
}
