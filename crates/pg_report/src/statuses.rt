//! The status with which the program ends. That of a fault is never 0.
ghost use Rattle.std.specs.Prelude.{◌≡◌, ◌<◌};
ghost use Rattle.pg_report.specs.Statuses.{verdict_status, games_status, check_status, status_of, search_status_of};
ghost use Rattle.pg_report.specs.Statuses.{answer_status_of, moves_status_of, count_status_of, show_status_of};
ghost use Rattle.pg_report.specs.Statuses.{upgrade_status_of};

use crate::fault::{AnswerRunFault, RunFault, ShowFault};
use pg_checker::{AnswerFault, Fault};
use pg_moves::CountFault;
use pg_san::GamesFault;
use pg_searcher::SearchFault;
use pg_texts::{CountRunFault, MovesFault, UpgradeFault, Verdict};

/// The status after a report: 0 where it says `sound`, 1 where it says `cooked` or `no game`.
pub fn verdict_status(verdict: Verdict) -> u8
    ensures { result ≡ verdict_status verdict }
{
    match verdict {
        Verdict::Sound => 0,
        Verdict::Cooked | Verdict::NoGame => 1,
    }
}

// The status of a refused list of games.
fn games_status(fault: &GamesFault) -> u8
    ensures value { result ≡ games_status fault.now }
    ensures fails { 0 < result }
{
    match fault {
        GamesFault::Memory => 3,
        _ => 2,
    }
}

// The status of a check that does not say yes.
fn check_status(fault: &Fault) -> u8
    ensures value { result ≡ check_status fault.now }
    ensures fails { 0 < result }
{
    match fault {
        Fault::Memory => 3,
        Fault::Read => 4,
        _ => 1,
    }
}

/// The status after a check without a report: 2 for a bad diagram, length or list of games, 1 where
/// the check does not say yes, 4 for a write fault; but 3 for want of memory and 4 for a read fault,
/// wherever it stands.
pub fn status(fault: &RunFault) -> u8
    ensures value { result ≡ status_of fault.now }
    ensures fails { 0 < result }
{
    match fault {
        RunFault::Diagram(_) | RunFault::Length(_) => 2,
        RunFault::Games(cause) => games_status(cause),
        RunFault::Check(cause) => check_status(cause),
        RunFault::Write => 4,
    }
}

/// The status after a certificate without a report of its games: 1 where its header names no problem, where it is
/// refused, or where it has more than 4,096 games, 3 for want of memory, 4 for a read or a write fault.
pub fn answer_status(fault: &AnswerRunFault) -> u8
    ensures value { result ≡ answer_status_of fault.now }
    ensures fails { 0 < result }
{
    match fault {
        AnswerRunFault::Answer(AnswerFault::Check(cause)) => check_status(cause),
        AnswerRunFault::NoProblem | AnswerRunFault::Answer(AnswerFault::TooManyGames) => 1,
        AnswerRunFault::Answer(AnswerFault::Memory) => 3,
        AnswerRunFault::Write => 4,
    }
}

/// The status after a search without its certificate: 1 where the limit of nodes was reached, or a
/// shorter game or too many games were found, 3 for want of memory, 4 for a write fault.
pub fn search_status(fault: &SearchFault) -> u8
    ensures value { result ≡ search_status_of fault.now }
    ensures fails { 0 < result }
{
    match fault {
        SearchFault::Budget | SearchFault::Shorter(_) | SearchFault::TooManyGames => 1,
        SearchFault::Write => 4,
        SearchFault::Memory => 3,
    }
}

/// The status where no moves are written: 2 for a bad position, 3 for want of memory, 4 for a write
/// fault.
pub fn moves_status(fault: &MovesFault) -> u8
    ensures value { result ≡ moves_status_of fault.now }
    ensures fails { 0 < result }
{
    match fault {
        MovesFault::Position(_) => 2,
        MovesFault::Memory => 3,
        MovesFault::Write => 4,
    }
}

/// The status where no number is written: 2 for a bad position and for a count too large, 3 for want
/// of memory, 4 for a write fault.
pub fn count_status(fault: &CountRunFault) -> u8
    ensures value { result ≡ count_status_of fault.now }
    ensures fails { 0 < result }
{
    match fault {
        CountRunFault::Position(_) => 2,
        CountRunFault::Count(CountFault::Memory) => 3,
        CountRunFault::Count(CountFault::TooDeep | CountFault::Overflow) => 2,
        CountRunFault::Write => 4,
    }
}

/// The status where a diagram is not shown: 3 for want of memory, 4 for a write fault.
pub fn show_status(fault: &ShowFault) -> u8
    ensures value { result ≡ show_status_of fault.now }
    ensures fails { 0 < result }
{
    match fault {
        ShowFault::Memory => 3,
        ShowFault::Write => 4,
    }
}

/// The status where a certificate is not copied as one of version 2: 1 where it is refused, 4 for a
/// read or a write fault.
pub fn upgrade_status(fault: &UpgradeFault) -> u8
    ensures value { result ≡ upgrade_status_of fault.now }
    ensures fails { 0 < result }
{
    match fault {
        UpgradeFault::Truncated
        | UpgradeFault::NotVersion1
        | UpgradeFault::UnknownRecord(_)
        | UpgradeFault::Budget => 1,
        UpgradeFault::Read | UpgradeFault::Write => 4,
    }
}
