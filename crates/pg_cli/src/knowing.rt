//! `pg games` and `pg cooks`: what a list of games shows by itself, and what is found beside it.
ghost use Rattle.std.specs.Prelude.{◌≡◌, ℕ, Bool, List, Ok, codes, IfOk, IfErr, OnOk};
ghost use Rattle.clap.specs.Words.{found_of, rows_of};
ghost use Rattle.pg_certificate.specs.Pushing.{AddsSome};
ghost use Rattle.pg_cooks.specs.Standing.{IsGamesReport};
ghost use Rattle.pg_cooks.specs.Unsound.{IsUnsound};
ghost use Rattle.pg_pgn.specs.Writing.{IsPgnText};
ghost use Rattle.pg_san.specs.Listing.{IsListing};
ghost use Rattle.pg_streams.specs.Buffer.{sink_of};
ghost use Rattle.pg_cli.specs.Answers.{OfGiven};
ghost use Rattle.pg_cli.specs.Knowing.{IsFollowedWith, IsTestedWith, answer_status, standing_status};
ghost use Rattle.pg_cli.specs.Runs.{HasCooksReport, IsCooksRefusal, IsGamesRefusal, IsOfList, IsUnlisted, cooks_refusal};
ghost use Rattle.pg_cli.specs.Words.{Says, says_of_problem};
ghost use Rattle.pg_cli.specs.declared.commands.ProblemCommand.TheVariants.{Games as TheGames, Cooks as TheCooks};

use crate::checking::finished;
use crate::limits::{Reach, reach_of};
use crate::refusals::{Named, Refusal};
use crate::screen::Screen;
use crate::sending::send;
use crate::spelling::say_pgn;
use clap::ArgMatches;
use pg_cooks::{
    CookAnswer, CooksFault, CooksRunFault, LedLimits, LedProgress, Standing, run_cooks, run_games,
};
use pg_files::{INPUT, is_input, list};
use pg_report::{Fault, Games, Problem, ProblemFault, RunFault, Sink, ToWrite};
use pg_san::read_games;
use pg_streams::{Cleared, Deadline, Gathered, LedLine, Terminal, Timed};
use std::alloc::Global;
use std::rt::Runtime;
use std::{io, str};

// The most nodes of a search, where the words do not say it.
const NODES: u64 = 10_000_000;

// The status after a list was tested: 1 where it shows that the problem is not sound.
fn standing_status(standing: Standing) -> u8
    ensures { result ≡ standing_status standing }
{
    match standing {
        Standing::NotSound => 1,
        Standing::AtLeastOne | Standing::NoneGiven => 0,
    }
}

// The status after a search beside a list: 1 where a game was found, else that of the list.
fn answer_status(answer: &CookAnswer) -> u8
    ensures { result ≡ answer_status answer.now }
{
    match answer {
        CookAnswer::Cook(_) | CookAnswer::Shorter(_) => 1,
        CookAnswer::NotFound {
            foreign: _,
            nodes: _,
            end: _,
            standing,
        } => standing_status(*standing),
    }
}

// A problem, and a list of games for it.
#[derive(Drop)]
pub(crate) struct Listed {
    pub(crate) problem: Problem,
    pub(crate) games: Games,
}

// A problem, and the list that these bytes spell.
//
// # Errors
// In this order: `NotUtf8` where the bytes are no text; why there is no problem; `Check` with `Games` where the text is
// refused.
fn listed_in(
    alloc: Global,
    problem: Result<Problem, ProblemFault>,
    list: &[u8],
) -> Result<Listed, Refusal>
    ensures problem { IfOk result (λ l. problem ≡ Ok l.problem) }
    ensures games { IfOk result (λ l. IsListing list.now l.games) }
    ensures err { IfErr result (IsOfList problem list.now) }
{
    let text = match str::from_utf8(list) {
        Ok(text) => text,
        Err(_) => return Err(Refusal::NotUtf8),
    };
    let problem = match problem {
        Ok(problem) => problem,
        Err(fault) => return Err(Refusal::of_problem(fault)),
    };
    match read_games(alloc, text) {
        Ok(games) => Ok(Listed { problem, games }),
        Err(fault) => Err(Refusal::Check(RunFault::Games(fault))),
    }
}

// A problem, and the list of the file of this name, or of standard input where the name is `-`.
//
// # Errors
// Those of `list`, and those of `listed_in`.
fn listed_from<R: Runtime + AllocGlobal>(
    rt: &R,
    name: &str,
    problem: Result<Problem, ProblemFault>,
) -> Result<Listed, Refusal>
    ensures problem { IfOk result (λ l. problem ≡ Ok l.problem) }
    ensures games { IfOk result (λ l. (text : List ℕ) × IsListing text l.games) }
    ensures err { IfErr result (IsUnlisted problem) }
{
    match list(rt, name) {
        Ok(games) => listed_in(rt.alloc(), problem, games.as_slice()),
        Err(fault) => Err(Refusal::of_file(fault, Named::Games)),
    }
}

// The same with the list that the words name; standard input where they name none. Where somebody is to type it, it is
// told before why there is no problem.
#[inline(never)]
pub(crate) fn read_listed<R: Runtime + AllocGlobal>(
    rt: &R,
    words: &ArgMatches<'_>,
    problem: Result<Problem, ProblemFault>,
    screen: Screen,
) -> Result<Listed, Refusal>
    ensures problem { IfOk result (λ l. problem ≡ Ok l.problem) }
    ensures games { IfOk result (λ l. (text : List ℕ) × IsListing text l.games) }
    ensures err { IfErr result (IsUnlisted problem) }
{
    let name = words.get_str("GAMES").unwrap_or(INPUT);
    if !screen.input || !is_input(name) {
        return listed_from(rt, name, problem);
    }
    match problem {
        Ok(problem) => {
            let _ = eprintln!(rt;
                "pg: type the games, one a line; end with Ctrl-D on a line of its own"
            );
            listed_from(rt, name, Ok(problem))
        }
        Err(fault) => Err(Refusal::of_problem(fault)),
    }
}

// Tests a list of games, and writes what it shows by itself. They are solutions, and the status is that of what they
// show; the report is handed on then.
//
// # Errors
// `Check` with the fault of the run.
pub(crate) fn games_from<W: Sink>(
    problem: &Problem,
    games: &Games,
    out: &mut Gathered<W>,
) -> Result<u8, Refusal>
    ensures status { IfOk result (λ status. IsTestedWith problem.now.diagram problem.now.length games.now status) }
    ensures report { OnOk result (AddsSome (IsGamesReport problem.now.diagram problem.now.length games.now)
        (⟦<Gathered<W> as Sink>⟧.held out.old) (W.held (sink_of out.new))) }
    ensures err { IfErr result (λ refusal. IsGamesRefusal problem.now.diagram problem.now.length games.now
        (⟦<Gathered<W> as Sink>⟧.has_failed out.new) refusal) }
{
    match run_games(problem, games, out) {
        Ok(standing) => finished(standing_status(standing), out),
        Err(fault) => Err(Refusal::of_listing(fault)),
    }
}

// The same with the games as PGN in place of what they show.
fn games_as_pgn<W: Sink>(
    problem: &Problem,
    games: &Games,
    out: &mut Gathered<W>,
) -> Result<u8, Refusal>
    ensures status { IfOk result (λ status. IsTestedWith problem.now.diagram problem.now.length games.now status) }
    ensures text { OnOk result (AddsSome (IsPgnText games.now)
        (⟦<Gathered<W> as Sink>⟧.held out.old) (W.held (sink_of out.new))) }
    ensures err { IfErr result (λ refusal. (failed : Bool)
        × IsGamesRefusal problem.now.diagram problem.now.length games.now failed refusal) }
{
    let mut unread = ToWrite::new(io::sink());
    match run_games(problem, games, &mut unread) {
        Ok(standing) => send(games, standing_status(standing), out),
        Err(fault) => Err(Refusal::of_listing(fault)),
    }
}

// Tests a list of games, and writes it as PGN where the words say so, else what it shows by itself.
fn games_told<W: Sink>(
    words: &ArgMatches<'_>,
    listed: &Listed,
    out: &mut Gathered<W>,
) -> Result<u8, Refusal>
    ensures status { IfOk result (λ status. IsTestedWith listed.now.problem.diagram listed.now.problem.length
        listed.now.games status) }
    ensures pgn { Says (codes "pgn") (rows_of (found_of words.now)) → OnOk result (AddsSome (IsPgnText listed.now.games)
        (⟦<Gathered<W> as Sink>⟧.held out.old) (W.held (sink_of out.new))) }
    ensures report { ¬ Says (codes "pgn") (rows_of (found_of words.now)) → OnOk result (AddsSome
        (IsGamesReport listed.now.problem.diagram listed.now.problem.length listed.now.games)
        (⟦<Gathered<W> as Sink>⟧.held out.old) (W.held (sink_of out.new))) }
    ensures err { IfErr result (λ refusal. (failed : Bool)
        × IsGamesRefusal listed.now.problem.diagram listed.now.problem.length listed.now.games failed refusal) }
{
    if say_pgn(words) {
        return games_as_pgn(&listed.problem, &listed.games, out);
    }
    games_from(&listed.problem, &listed.games, out)
}

// Why nothing is found beside a list, as a refusal.
fn refusal_of(fault: CooksRunFault) -> Refusal
    ensures { result ≡ cooks_refusal fault }
{
    match fault {
        CooksRunFault::Cooks(CooksFault::NoGame) => Refusal::NoGame,
        CooksRunFault::Cooks(CooksFault::Memory) => Refusal::Memory,
        CooksRunFault::Cooks(CooksFault::Listed(fault)) => {
            Refusal::Check(RunFault::Check(Fault::Listed(fault)))
        }
        CooksRunFault::Write => Refusal::Check(RunFault::Write),
    }
}

// Looks for a game beside those of a list, and writes what is found. They are solutions, and the status is that of what
// is found: 1 only where no list of one game is the exact answer. The report is handed on then.
//
// # Errors
// `NoGame` where the list is empty, `Memory`, else `Check` with the fault of the run.
pub(crate) fn cooks_from<P: LedProgress, W: Sink>(
    alloc: Global,
    problem: &Problem,
    games: &Games,
    limits: LedLimits,
    watch: &mut P,
    out: &mut Gathered<W>,
) -> Result<u8, Refusal>
    ensures headline { IfOk result (λ status. status ≡ 1 → IsUnsound problem.now.diagram problem.now.length) }
    ensures status { IfOk result (λ status. IsFollowedWith problem.now.diagram problem.now.length games.now status) }
    ensures report { IfOk result (λ status. AddsSome
        (HasCooksReport status problem.now.diagram problem.now.length games.now)
        (⟦<Gathered<W> as Sink>⟧.held out.old) (W.held (sink_of out.new))) }
    ensures err { IfErr result (λ refusal. IsCooksRefusal problem.now.diagram problem.now.length games.now
        (⟦<Gathered<W> as Sink>⟧.has_failed out.new) refusal) }
{
    match run_cooks(alloc, problem, games, limits, watch, out) {
        Ok(answer) => finished(answer_status(&answer), out),
        Err(fault) => Err(refusal_of(fault)),
    }
}

// `pg games`: what the list shows stands on standard output. The list is that of the file GAMES or of standard input,
// of which no contract can say what it gives.
#[inline(never)]
pub(crate) fn games<R: Runtime + AllocGlobal>(
    rt: &R,
    words: &ArgMatches<'_>,
    problem: Result<Problem, ProblemFault>,
    screen: Screen,
) -> Result<u8, Refusal>
    ensures { IfOk result (λ status. OfGiven problem (λ d n. says_of_problem TheGames d n status)) }
{
    let listed = read_listed(rt, words, problem, screen)?;
    let mut out = Gathered::new(ToWrite::new(io::writer(rt)));
    games_told(words, &listed, &mut out)
}

// Looks for a game beside those of a list, as `cooks_from` does, within the time that there is, and shows how far it is.
#[inline(never)]
fn cooks_within<R: Runtime + AllocGlobal, W: Sink>(
    rt: &R,
    listed: &Listed,
    limits: LedLimits,
    reach: Reach,
    terminal: &Terminal,
    out: &mut Gathered<W>,
) -> Result<u8, Refusal>
    ensures headline { IfOk result (λ status. status ≡ 1
        → IsUnsound listed.now.problem.diagram listed.now.problem.length) }
    ensures status { IfOk result (λ status. IsFollowedWith listed.now.problem.diagram listed.now.problem.length
        listed.now.games status) }
{
    let allowed = reach.allowed();
    let line = LedLine::new(rt, terminal, listed.problem.length.plies(), allowed);
    let mut timed = Timed::new(line, Deadline::new(rt, reach.milliseconds));
    let answer = cooks_from(
        rt.alloc(),
        &listed.problem,
        &listed.games,
        limits,
        &mut timed,
        out,
    );
    timed.line.end();
    answer
}

// `pg cooks`: what is found beside the list stands on standard output. The list is that of the file GAMES, of which no
// contract can say what it gives.
#[inline(never)]
pub(crate) fn cooks<R: Runtime + AllocGlobal>(
    rt: &R,
    words: &ArgMatches<'_>,
    problem: Result<Problem, ProblemFault>,
    screen: Screen,
) -> Result<u8, Refusal>
    ensures { IfOk result (λ status. OfGiven problem (λ d n. says_of_problem TheCooks d n status)) }
{
    let listed = read_listed(rt, words, problem, screen)?;
    let reach = reach_of(words, NODES);
    let limits = LedLimits {
        max_nodes: reach.nodes,
        foreign: words
            .get_one::<u64>("foreign")
            .and_then(|d| u8::try_from(d).ok()),
    };
    let terminal = Terminal::new(screen.lines);
    let mut out = Gathered::new(Cleared::new(ToWrite::new(io::writer(rt)), rt, &terminal));
    cooks_within(rt, &listed, limits, reach, &terminal, &mut out)
}
