//! The text and the status of each fault.

use super::*;
use crate::shared::words;
use arrayvec::ArrayVec;
use pg_checker::ListFault;
use pg_position::BadPosition;
use pg_san::SanFault;
use std::fmt::Display;

// Why a text is no diagram or no position.
static FEN_FAULTS: [FenFault; 14] = [
    FenFault::Fields,
    FenFault::Rank,
    FenFault::Letter,
    FenFault::Kings,
    FenFault::PawnRank,
    FenFault::Side,
    FenFault::Rights,
    FenFault::EnPassant,
    FenFault::Number,
    FenFault::Invalid(BadPosition::Kings),
    FenFault::Invalid(BadPosition::PawnRank),
    FenFault::Invalid(BadPosition::Rights),
    FenFault::Invalid(BadPosition::EnPassant),
    FenFault::Invalid(BadPosition::Check),
];

// Why a run ends without its report, apart from those.
const RUN_FAULTS: [RunFault; 27] = [
    RunFault::Length(LengthFault::Shape),
    RunFault::Length(LengthFault::TooLong),
    RunFault::Games(GamesFault::At {
        line: 1,
        ply: 5,
        cause: SanFault::NoSuchMove,
    }),
    RunFault::Games(GamesFault::At {
        line: 12,
        ply: 1,
        cause: SanFault::Shape,
    }),
    RunFault::Games(GamesFault::At {
        line: 2,
        ply: 128,
        cause: SanFault::Ambiguous,
    }),
    RunFault::Games(GamesFault::TooMany { line: 4097 }),
    RunFault::Games(GamesFault::Repeated { line: 3 }),
    RunFault::Games(GamesFault::Memory),
    RunFault::Check(Fault::Magic),
    RunFault::Check(Fault::OtherLength),
    RunFault::Check(Fault::OtherDiagram),
    RunFault::Check(Fault::Budget),
    RunFault::Check(Fault::Truncated),
    RunFault::Check(Fault::Read),
    RunFault::Check(Fault::UnknownRecord(255)),
    RunFault::Check(Fault::UnknownBound(9)),
    RunFault::Check(Fault::CutFails(3)),
    RunFault::Check(Fault::RefUnknown),
    RunFault::Check(Fault::RefDiffers),
    RunFault::Check(Fault::RefFertile),
    RunFault::Check(Fault::TooManyNamed),
    RunFault::Check(Fault::Memory),
    RunFault::Check(Fault::Shorter(0)),
    RunFault::Check(Fault::Trailing),
    RunFault::Check(Fault::Listed(ListFault::WrongLength(0))),
    RunFault::Check(Fault::Listed(ListFault::NotReaching(4095))),
    RunFault::Write,
];

// The status and the text of each, in turn.
const RUN_TEXTS: &str = "2 bad length
2 length above 64.0
2 line 1, ply 5: no such legal move
2 line 12, ply 1: not a move
2 line 2, ply 128: ambiguous move
2 line 4097: more than 4096 games
2 line 3: repeated game
3 out of memory
1 not a certificate
1 certificate for another length
1 certificate for another diagram
1 record limit reached
1 truncated certificate
4 read fault
1 unknown record byte 255
1 unknown bound 9
1 cut 3 does not exclude
1 reference to no closed node
1 reference to another position
1 reference to a node with a game
1 too many named nodes
3 out of memory
1 a game of 0 plies reaches the diagram
1 bytes after the certificate
1 game 1 does not have the stated length
1 game 4096 does not end on the diagram
4 write fault";

// Why a certificate has no report of its games.
const ANSWER_FAULTS: [AnswerRunFault; 7] = [
    AnswerRunFault::NoProblem,
    AnswerRunFault::Answer(AnswerFault::Check(Fault::Magic)),
    AnswerRunFault::Answer(AnswerFault::Check(Fault::Read)),
    AnswerRunFault::Answer(AnswerFault::Check(Fault::Memory)),
    AnswerRunFault::Answer(AnswerFault::TooManyGames),
    AnswerRunFault::Answer(AnswerFault::Memory),
    AnswerRunFault::Write,
];

const ANSWER_TEXTS: &str = "1 certificate for no problem
1 not a certificate
4 read fault
3 out of memory
1 more than 4096 games
3 out of memory
4 write fault";

// Why games are not counted.
static COUNT_FAULTS: [CountRunFault; 4] = [
    CountRunFault::Count(CountFault::TooDeep),
    CountRunFault::Count(CountFault::Overflow),
    CountRunFault::Count(CountFault::Memory),
    CountRunFault::Write,
];

const COUNT_TEXTS: &str = "2 more than 8 plies
2 count too large
3 out of memory
4 write fault";

// Why a search ends without its certificate.
static SEARCH_FAULTS: [SearchFault; 5] = [
    SearchFault::Budget,
    SearchFault::Shorter(3),
    SearchFault::TooManyGames,
    SearchFault::Write,
    SearchFault::Memory,
];

const SEARCH_TEXTS: &str = "1 node limit reached
1 a game of 3 plies reaches the diagram
1 more than 4096 games
4 write fault
3 out of memory";

// Why a certificate is not upgraded.
static UPGRADE_FAULTS: [UpgradeFault; 6] = [
    UpgradeFault::Truncated,
    UpgradeFault::NotVersion1,
    UpgradeFault::UnknownRecord(255),
    UpgradeFault::Read,
    UpgradeFault::Budget,
    UpgradeFault::Write,
];

const UPGRADE_TEXTS: &str = "1 truncated certificate
1 not a certificate of version 1
1 unknown record byte 255
4 read fault
1 record limit reached
4 write fault";

// The status and the text of a fault make this line.
fn check_told<E: Display>(rt: &impl Abort, status: u8, fault: &E, line: &str) {
    let said = words(&format_args!("{status} {fault}"));
    assert_eq!(rt; said.as_str(), line);
}

// The commands tell of a text that is no diagram or no position alike, by the text that `pg_fen` gives.
fn check_cause(rt: &impl Abort, cause: FenFault) {
    let wanted = words(&format_args!("2 {cause}"));
    let line = wanted.as_str();
    let (run, moves) = (RunFault::Diagram(cause), MovesFault::Position(cause));
    let count = CountRunFault::Position(cause);
    check_told(rt, status(&run), &run, line);
    check_told(rt, moves_status(&moves), &moves, line);
    check_told(rt, count_status(&count), &count, line);
}

#[test]
fn faults_of_diagrams_and_positions(rt: HostRuntime) {
    for cause in &FEN_FAULTS {
        check_cause(&rt, *cause);
    }
}

// The games are numbered from 1.
#[test]
fn faults_of_runs(rt: HostRuntime) {
    let mut lines = RUN_TEXTS.lines();
    for fault in &RUN_FAULTS {
        check_told(&rt, status(fault), fault, lines.next().unwrap_or(""));
    }
    assert!(rt; lines.next().is_none());
}

// Of a game that is not listed the text ends before its movetext, which `write_movetext` gives.
#[test]
fn faults_of_unlisted_games(rt: HostRuntime) {
    let fault = RunFault::Check(Fault::Unlisted(ArrayVec::new()));
    check_told(&rt, status(&fault), &fault, "1 unlisted game: ");
}

#[test]
fn faults_of_counts(rt: HostRuntime) {
    let mut lines = COUNT_TEXTS.lines();
    for fault in &COUNT_FAULTS {
        check_told(&rt, count_status(fault), fault, lines.next().unwrap_or(""));
    }
    assert!(rt; lines.next().is_none());
}

#[test]
fn faults_of_answers(rt: HostRuntime) {
    let mut lines = ANSWER_TEXTS.lines();
    for fault in &ANSWER_FAULTS {
        check_told(&rt, answer_status(fault), fault, lines.next().unwrap_or(""));
    }
    assert!(rt; lines.next().is_none());
}

#[test]
fn faults_of_searches(rt: HostRuntime) {
    let mut lines = SEARCH_TEXTS.lines();
    for fault in &SEARCH_FAULTS {
        check_told(&rt, search_status(fault), fault, lines.next().unwrap_or(""));
    }
    assert!(rt; lines.next().is_none());
}

#[test]
fn faults_of_upgrades(rt: HostRuntime) {
    let mut lines = UPGRADE_TEXTS.lines();
    for fault in &UPGRADE_FAULTS {
        check_told(
            &rt,
            upgrade_status(fault),
            fault,
            lines.next().unwrap_or(""),
        );
    }
    assert!(rt; lines.next().is_none());
}

#[test]
fn faults_of_moves_and_of_what_is_shown(rt: HostRuntime) {
    let (write, memory) = (MovesFault::Write, MovesFault::Memory);
    check_told(&rt, moves_status(&write), &write, "4 write fault");
    check_told(&rt, moves_status(&memory), &memory, "3 out of memory");
    let (write, memory) = (ShowFault::Write, ShowFault::Memory);
    check_told(&rt, show_status(&write), &write, "4 write fault");
    check_told(&rt, show_status(&memory), &memory, "3 out of memory");
}

#[test]
fn statuses_of_verdicts(rt: HostRuntime) {
    assert_eq!(rt; verdict_status(Verdict::Sound), 0);
    assert_eq!(rt; verdict_status(Verdict::Cooked), 1);
    assert_eq!(rt; verdict_status(Verdict::NoGame), 1);
}
