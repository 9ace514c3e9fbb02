//! The reports of games that are known, and of what is found beside them.
ghost use Rattle.std.specs.Prelude.{◌≡◌, ◌≢◌, ℕ, List, true, false, IfOk, IfErr, OnOk};
ghost use Rattle.std.specs.Io.KnownBytes.{Appends};
ghost use Rattle.pg_texts.specs.Report.{AreGameLines};
ghost use Rattle.pg_checker.specs.Answer.{AreSolutions};
ghost use Rattle.pg_checker.specs.Listed.{IsListFault};
ghost use Rattle.pg_cooks.specs.Known.{IsListingFault};
ghost use Rattle.pg_cooks.specs.Standing.{IsStanding, IsGamesReport};
ghost use Rattle.pg_cooks.specs.Cooks.{IsCookAnswer, IsCooksReport, IsCooksRunFault, IsRefuted};

use crate::fault::{CooksRunFault, ListingFault};
use crate::finding::{CookAnswer, cooks};
use crate::standing::{Standing, standing_of};
use crate::writing::{write_cooks, write_standing};
use pg_certificate::Sink;
use pg_checker::{ListFault, Problem, check_listed};
use pg_fen::{Diagram, Length};
use pg_san::Games;
use pg_searcher::{LedLimits, LedProgress};
use pg_texts::write_games;
use std::alloc::Global;

/// Tests that each game of a list has the length of a problem and ends on its diagram, and writes what they say by
/// themselves. The lines, each ended by a line feed: `diagram ` and the placement; `length ` and the length; `games `
/// and their number; the movetext of each game, in canonical order; then `not sound` where there are two games or more,
/// `at least one game` where there is one, `no game given` where there is none. Nothing is claimed of other games: but
/// with `not sound` no single game is the answer (`not_sound_is_true`). Takes no memory, and writes nothing before the
/// games were tested.
///
/// # Errors
/// In this order: `Listed` where a listed game is no solution, with the first of them and why, and then the sink is as
/// it was; `Write` where the sink has failed.
pub fn run_games<W: Sink>(
    problem: &Problem,
    games: &Games,
    out: &mut W,
) -> Result<Standing, ListingFault>
    ensures ok { IfOk result (λ s. AreSolutions problem.now.diagram problem.now.length games.now
        × IsStanding games.now s
        × ((text : List ℕ) × IsGamesReport problem.now.diagram problem.now.length games.now text
        × Appends (W.held out.old) (W.held out.new) text)) }
    ensures runs { OnOk result ((W.has_failed out.old ≡ false) × (W.has_failed out.new ≡ false)) }
    ensures err { IfErr result (λ e. IsListingFault problem.now.diagram problem.now.length games.now
        (W.has_failed out.new) e) }
    ensures unwritten { IfErr result (λ e. e ≢ ListingFault.Write → out.new ≡ out.old) }
{
    match check_listed(&problem.diagram, problem.length, games) {
        Ok(()) => {}
        Err(fault) => return Err(ListingFault::Listed(fault)),
    }
    match write_standing(&problem.diagram, problem.length, games, out) {
        Ok(standing) => Ok(standing),
        Err(_) => Err(ListingFault::Write),
    }
}

/// Tests that each game of a list has the length and ends on the diagram; what they say by themselves. Takes no
/// memory.
///
/// # Errors
/// The first game that is no solution, as `check_listed` tells it.
pub fn standing_on(diagram: &Diagram, length: Length, games: &Games) -> Result<Standing, ListFault>
    ensures ok { IfOk result (λ s. AreSolutions diagram.now length games.now × IsStanding games.now s) }
    ensures err { IfErr result (λ e. IsListFault diagram.now length games.now e) }
{
    match check_listed(diagram, length, games) {
        Ok(()) => Ok(standing_of(games)),
        Err(fault) => Err(fault),
    }
}

/// Writes a list of games as `read_games` reads it, after `standing_on` has tested it: the movetext of each game, in
/// canonical order, each ended by a line feed. Takes no memory, and writes nothing before the games were tested.
///
/// # Errors
/// In this order: `Listed` where a game is no solution, and then the sink is as it was; `Write` where the sink has
/// failed.
pub fn write_solutions<W: Sink>(
    diagram: &Diagram,
    length: Length,
    games: &Games,
    out: &mut W,
) -> Result<Standing, ListingFault>
    ensures ok { IfOk result (λ s. AreSolutions diagram.now length games.now × IsStanding games.now s
        × ((text : List ℕ) × AreGameLines games.now text × Appends (W.held out.old) (W.held out.new) text)) }
    ensures err { IfErr result (λ e. IsListingFault diagram.now length games.now (W.has_failed out.new) e) }
    ensures unwritten { IfErr result (λ e. e ≢ ListingFault.Write → out.new ≡ out.old) }
{
    let standing = match standing_on(diagram, length, games) {
        Ok(standing) => standing,
        Err(fault) => return Err(ListingFault::Listed(fault)),
    };
    match write_games(games, out) {
        Ok(()) => Ok(standing),
        Err(_) => Err(ListingFault::Write),
    }
}

/// Looks for a game beside the solutions of a problem that a list has, as `cooks` does, and writes what is known then.
/// The lines, each ended by a line feed: `diagram ` and the placement; `length ` and the length; `games ` and their
/// number; the movetext of each game, in canonical order; then `another game`, or `a game of `, its number of plies and
/// ` plies`, with the movetext of that game below, below another game where it parts from the first, as `write_cook`
/// tells it, and then `not sound`. Where none is found: `none: the search went
/// through all games`; or `none with at most `, a number and ` foreign move` or ` foreign moves`, or `none found` where
/// not even the games without foreign moves were gone through, and then `: no more were allowed` or `: node limit
/// reached`; and below it `not sound` where two games or more are listed. The game that is written is tested, whatever
/// the search did; of how far the search went nothing is proved. What the search and the test grow by is taken from
/// `alloc`; `watch` is told how far the search is; nothing is written before it has ended.
///
/// # Errors
/// `Cooks` where `cooks` has no answer, with its fault, and then the sink is as it was; `Write` where the sink has
/// failed.
pub fn run_cooks<P: LedProgress, W: Sink>(
    alloc: Global,
    problem: &Problem,
    games: &Games,
    limits: LedLimits,
    watch: &mut P,
    out: &mut W,
) -> Result<CookAnswer, CooksRunFault>
    ensures ok { IfOk result (λ a. AreSolutions problem.now.diagram problem.now.length games.now
        × IsCookAnswer problem.now.diagram problem.now.length games.now a
        × IsRefuted problem.now.diagram problem.now.length a
        × ((text : List ℕ) × IsCooksReport problem.now.diagram problem.now.length games.now a text
        × Appends (W.held out.old) (W.held out.new) text)) }
    ensures runs { OnOk result ((W.has_failed out.old ≡ false) × (W.has_failed out.new ≡ false)) }
    ensures err { IfErr result (λ e. IsCooksRunFault problem.now.diagram problem.now.length games.now
        (W.has_failed out.new) e) }
    ensures unwritten { IfErr result (λ e. e ≢ CooksRunFault.Write → out.new ≡ out.old) }
{
    let (diagram, length) = (&problem.diagram, problem.length);
    let answer = match cooks(alloc, diagram, length, games, limits, watch) {
        Ok(answer) => answer,
        Err(fault) => return Err(CooksRunFault::Cooks(fault)),
    };
    match write_cooks(diagram, length, games, &answer, out) {
        Ok(()) => Ok(answer),
        Err(_) => Err(CooksRunFault::Write),
    }
}
