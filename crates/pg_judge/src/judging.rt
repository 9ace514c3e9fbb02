//! A problem is judged.
ghost use Rattle.std.specs.Prelude.{◌≤◌, IsTrue, IfOk, length};
ghost use Rattle.pg_checker.specs.Answer.{AreSolutions};
ghost use Rattle.pg_judge.specs.Ruling.{IsFindingOf};

use crate::drawing::draw;
use crate::entry::Entry;
use crate::given::{Given, given_to};
use crate::leading::lead;
use crate::limits::Limits;
use crate::progress::{Effort, JudgeProgress};
use crate::ruling::{Evidence, Finding, Known, Means, Reason, Ruling};
use crate::scratch::Scratch;
use crate::searching::{Attempt, Question, Stop, attempt_once, stopped};
use pg_captures::Bound;
use pg_checker::Problem;
use pg_cooks::{Standing, standing_on};
use pg_san::Games;
use std::alloc::Global;

// The author's games, where they solve the problem; those for which there is no room are left out.
fn author_of(alloc: Global, entry: &Entry<'_>, given: Given) -> Games {
    let mut games = Games::new(alloc);
    if given != Given::Solves {
        return games;
    }
    for i in 0..entry.games.len() {
        if let Some(game) = entry.games.game(i) {
            let _ = games.add(game);
        }
    }
    games
}

// A search of all games, and where that gives up one that cuts by journeys too.
fn search_twice<S: Scratch, P: JudgeProgress>(
    alloc: Global,
    question: &Question<'_>,
    limits: Limits,
    scratch: &mut S,
    games: &mut Games,
    watch: &mut P,
) -> Result<Ruling, Stop>
    ensures { IfOk result (λ r. IsFindingOf question.now.entry.now r.finding) }
{
    let bounds = question.bounds;
    let first = Attempt::alone(Effort::Search, limits.first(), limits, bounds);
    match attempt_once(alloc, question, &first, scratch, games, watch) {
        Ok(ruling) => return Ok(ruling),
        Err(stop) => {
            if !may_go_on(&stop, limits, games, watch) {
                return Err(stop);
            }
        }
    }
    let second = Attempt::alone(Effort::Journeys, limits.by_journeys(), limits, bounds);
    attempt_once(alloc, question, &second, scratch, games, watch)
}

// Whether another search may follow one that gave up.
fn may_go_on<P: JudgeProgress>(stop: &Stop, limits: Limits, games: &Games, watch: &mut P) -> bool {
    stop.known.reason == Reason::Nodes && limits.search_again(games.len()) && watch.goes_on()
}

// Whether the games are two solutions or more.
fn are_a_cook(problem: &Problem, games: &Games) -> bool
    ensures { IsTrue result → AreSolutions problem.now.diagram problem.now.length games.now × 2 ≤ length games.now }
{
    match standing_on(&problem.diagram, problem.length, games) {
        Ok(Standing::NotSound) => true,
        _ => false,
    }
}

// What is found where no search settled a problem: that it is not sound, where two games are known.
fn found_at_last(entry: &Entry<'_>, games: Games, known: Known) -> Finding
    ensures { IsFindingOf entry.now result }
{
    if are_a_cook(&entry.problem, &games) {
        Finding::NotSound(Evidence::Several(games))
    } else {
        Finding::NotSettled(known)
    }
}

/// What is known of a problem that its searches have not settled so far.
#[derive(Drop)]
pub struct Pending {
    /// The author's games, where they solve the problem, and those that were met.
    pub games: Games,
    // How far the last search came.
    pub(crate) stop: Stop,
    // How far a search for cooks came.
    pub(crate) foreign: Option<u8>,
}

impl Pending {
    /// What is known before any search: games, which are tested where they count, and with how many foreign moves at
    /// most a search for cooks went through all games, if it came so far.
    pub fn new(games: Games, foreign: Option<u8>) -> Pending {
        let means = Means::Search(Effort::Search, 0);
        let stop = stopped(Reason::Nodes, &games, means, 0);
        Pending {
            games,
            stop,
            foreign,
        }
    }

    /// Whether searches with more nodes may follow: not where `limits` allow none, the last search ended for another
    /// reason than nodes, enough games are known, or `watch` does not go on.
    pub fn goes_on<P: JudgeProgress>(&self, limits: Limits, watch: &mut P) -> bool {
        limits.go_on() && may_go_on(&self.stop, limits, &self.games, watch)
    }

    /// What is found where no search follows: that the problem is not sound, where two games are known; they are
    /// tested. Else it is not settled, which claims nothing.
    pub fn ruling(self, entry: &Entry<'_>) -> Ruling
        ensures { IsFindingOf entry.now result.finding }
    {
        let Pending {
            games,
            stop,
            foreign,
        } = self;
        let Stop { known, means } = stop;
        let known = Known {
            games: games.len(),
            below: known.below,
            foreign,
            reason: known.reason,
        };
        Ruling {
            finding: found_at_last(entry, games, known),
            means,
        }
    }
}

/// Judges a problem by its first searches. Where the author's game solves it, one that is led by it comes first and
/// looks for another game or a shorter one. A search of all games follows, each of these over at most a million nodes;
/// where it gives up, one that cuts by journeys too, by the first of these bounds of code 5, over at most 20,000; and
/// where no game solves the problem that the author gave, one that draws its order of moves, for two games or a shorter
/// one. None visits more nodes than `limits` say, and none follows where enough games are known by these, or where
/// `watch` does not go on.
///
/// What a search of all games has written to `scratch` is checked by these bounds, with the games that it found. With
/// `Settled` those games are all that solve the problem, and no game of fewer plies ends on its diagram; what was
/// checked stands in `scratch` then. With `NotSound` no list of one game is the answer: a shorter game was found, or
/// one that is none of the author's, and tested; or two games at least are known and tested. No search is trusted for
/// anything. What the searches grow by is taken from `alloc`; `watch` is told how far they are.
///
/// # Errors
/// What is known where nothing of this is found, by which `prepare_tolls` goes on. Want of memory and a scratch that
/// refuses are among its reasons.
pub fn judge<S: Scratch, P: JudgeProgress>(
    alloc: Global,
    entry: &Entry<'_>,
    bounds: &[Box<dyn Bound>],
    limits: Limits,
    scratch: &mut S,
    watch: &mut P,
) -> Result<Ruling, Pending>
    ensures headline { IfOk result (λ r. IsFindingOf entry.now r.finding) }
{
    let given = given_to(entry);
    let mut games = author_of(alloc, entry, given);
    let foreign = match lead(alloc, entry, given, limits.first(), watch) {
        Ok(ruling) => return Ok(ruling),
        Err(foreign) => foreign,
    };
    let question = Question { entry, bounds };
    let stop = match search_twice(alloc, &question, limits, scratch, &mut games, watch) {
        Ok(ruling) => return Ok(ruling),
        Err(stop) => stop,
    };
    let pending = Pending {
        games,
        stop,
        foreign,
    };
    if given == Given::Solves {
        return Err(pending);
    }
    draw(alloc, &question, limits, pending, watch)
}
