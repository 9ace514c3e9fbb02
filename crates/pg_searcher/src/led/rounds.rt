//! The rounds of a led search.

use crate::budget::Budget;
use crate::judge::{Asked, Judge};
use crate::led::answer::{Game, Led, LedEnd, LedFault, LedLimits, LedProgress};
use crate::led::barren::Barren;
use crate::led::familiar::Familiar;
use crate::led::machine::{Frames, Halt, LedMachine, LedQuestion, Sieve};
use crate::led::walk::tree;
use pg_captures::Bound;
use pg_fen::{Diagram, Length};
use pg_journeys::JourneysByMemory;
use pg_san::Games;
use std::alloc::{AllocError, Global};

// The games with at most `foreign` foreign moves: those of the stated length, then those of fewer plies.
fn round<P: LedProgress>(
    question: &LedQuestion,
    frames: &mut Frames,
    machine: &mut LedMachine,
    length: Length,
    foreign: u8,
    watch: &mut P,
) -> Result<(), Halt> {
    let most = length.plies();
    for fewer in 0..=most {
        tree(question, frames, machine, most - fewer, foreign, watch)?;
    }
    Ok(())
}

// What the rounds came to: the greatest number of foreign moves whose round was gone through whole, and why no
// round came after it, or the next one halted.
#[derive(Clone, Copy)]
struct Ran {
    foreign: Option<u8>,
    end: Result<LedEnd, Halt>,
}

// The rounds with no foreign move, with one, and so on, up to the first in which none was refused.
fn rounds<P: LedProgress>(
    question: &LedQuestion,
    frames: &mut Frames,
    machine: &mut LedMachine,
    length: Length,
    most: u8,
    watch: &mut P,
) -> Ran {
    let mut ran = Ran {
        foreign: None,
        end: Ok(LedEnd::Foreign),
    };
    for foreign in 0..=most {
        machine.refused = false;
        match round(question, frames, machine, length, foreign, watch) {
            Ok(()) => ran.foreign = Some(foreign),
            Err(halt) => {
                ran.end = Err(halt);
                return ran;
            }
        }
        if !machine.refused {
            ran.end = Ok(LedEnd::All);
            return ran;
        }
    }
    ran
}

// A machine that may visit `nodes` nodes.
fn machine_of(alloc: Global, diagram: &Diagram, nodes: u64) -> Result<LedMachine, AllocError> {
    let sieve = Sieve {
        judge: Judge::new(alloc, diagram)?,
        barren: Barren::new(alloc),
        budget: Budget { nodes },
    };
    Ok(LedMachine {
        sieve,
        refused: false,
        game: Game::new(),
    })
}

// How far a led search goes: to games of a length at most, within limits.
#[derive(Clone, Copy)]
struct Reach {
    length: Length,
    limits: LedLimits,
}

// The bound by journeys to a diagram.
fn journeys_to(alloc: Global, diagram: &Diagram) -> Result<Box<JourneysByMemory>, AllocError> {
    let journeys = JourneysByMemory::new(alloc, diagram)?;
    match Box::new(alloc, journeys) {
        Ok(journeys) => Ok(journeys),
        Err(_) => Err(AllocError),
    }
}

/// Looks for a game to the diagram beside those of a list: one of the stated length that is not in the list, or
/// one of fewer plies. The games of the list lead: a move is familiar where a man of that kind and colour
/// goes from that square to that square, and becomes the same, in one of them; else it is foreign. Games
/// without foreign moves are looked for first, then those with one at most, and so on; in each round those of
/// the stated length come first, then those of a ply less, down to none. At a node the first listed game's
/// move at that ply comes first, then the other familiar moves, then the foreign ones. The last two plies of
/// a game may be any moves. The rounds end with the first in which no foreign move was refused that is not
/// known to lead nowhere: it met all games (`LedEnd::All`). Before it they end with the round of as many foreign
/// moves as `limits` allow, or with the nodes.
///
/// A node is a position that is visited with at least one ply left. It is cut where the bounds or the prices
/// of `search` exclude it, and where a node of the same future and as many plies left was barren with as many
/// foreign moves; nodes that were barren are kept by key of 64 bits in a table of at most 64 MB. Where nothing
/// else cuts a node with at least two plies left, it is cut where `pg_journeys::Journeys` excludes. What the
/// search grows by is taken from `alloc`. `watch` is told how far it is.
///
/// The answer is trusted for nothing: a game that is found is to be tested, and that each game with few
/// foreign moves was met is promised by tests alone.
///
/// # Errors
/// `Memory` where memory is refused.
pub fn search_led<P: LedProgress>(
    alloc: Global,
    diagram: &Diagram,
    length: Length,
    games: &Games,
    limits: LedLimits,
    watch: &mut P,
) -> Result<Led, LedFault> {
    let journeys: Box<dyn Bound> = match journeys_to(alloc, diagram) {
        Ok(journeys) => journeys,
        Err(_) => return Err(LedFault::Memory),
    };
    let reach = Reach { length, limits };
    let asked = Asked::of(diagram, &journeys);
    led(alloc, diagram, games, &reach, Some(asked), watch)
}

/// As `search_led`, the same but for the cut by journeys, which it does not make: it visits more nodes, and each
/// takes less time. So it can be held against a search that knows nothing of journeys.
///
/// # Errors
/// As for `search_led`.
pub fn search_led_without_journeys<P: LedProgress>(
    alloc: Global,
    diagram: &Diagram,
    length: Length,
    games: &Games,
    limits: LedLimits,
    watch: &mut P,
) -> Result<Led, LedFault> {
    let reach = Reach { length, limits };
    led(alloc, diagram, games, &reach, None, watch)
}

// What a led search comes to, which cuts by journeys too where they are asked.
fn led<P: LedProgress>(
    alloc: Global,
    diagram: &Diagram,
    games: &Games,
    reach: &Reach,
    journeys: Option<Asked<'_>>,
    watch: &mut P,
) -> Result<Led, LedFault> {
    let length = reach.length;
    let limits = reach.limits;
    let Ok(familiar) = Familiar::of(alloc, games) else {
        return Err(LedFault::Memory);
    };
    let Ok(mut machine) = machine_of(alloc, diagram, limits.max_nodes) else {
        return Err(LedFault::Memory);
    };
    let question = LedQuestion {
        diagram,
        games,
        familiar: &familiar,
        journeys,
    };
    let most = limits.foreign.unwrap_or(length.plies());
    let mut frames = Frames::new();
    let ran = rounds(&question, &mut frames, &mut machine, length, most, watch);
    let LedMachine { sieve, game, .. } = machine;
    let foreign = ran.foreign;
    let nodes = limits.max_nodes.saturating_sub(sieve.budget.nodes);
    let end = match ran.end {
        Ok(end) => end,
        Err(Halt::Budget) => LedEnd::Nodes,
        Err(Halt::Found) => return Ok(Led::Found(game)),
        Err(Halt::Memory) => return Err(LedFault::Memory),
    };
    Ok(Led::NotFound {
        foreign,
        nodes,
        end,
    })
}
