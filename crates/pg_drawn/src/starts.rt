//! The starts of a drawn search.

use crate::answer::{Drawn, DrawnEnd, DrawnFault, DrawnLimits};
use crate::machine::{Findings, Halt, Machine, Question};
use crate::walk::start;
use pg_captures::Bound;
use pg_fen::{Diagram, Length};
use pg_searcher::SearchProgress;
use std::alloc::Global;

// What the starts came to: how many nodes were visited in all, and why no more were.
#[derive(Clone, Copy)]
struct Ran {
    nodes: u64,
    end: Result<DrawnEnd, DrawnFault>,
}

// Why no start comes after one that ended so; none where another one does.
fn end_of(answer: Result<(), Halt>) -> Option<Result<DrawnEnd, DrawnFault>> {
    match answer {
        Ok(()) => Some(Ok(DrawnEnd::All)),
        Err(Halt::Met) => Some(Ok(DrawnEnd::Met)),
        Err(Halt::Stopped) => Some(Ok(DrawnEnd::Stopped)),
        Err(Halt::Memory) => Some(Err(DrawnFault::Memory)),
        Err(Halt::Nodes) => None,
    }
}

// The starts one after the other, up to the first that does not come to its end of nodes.
fn starts<P: SearchProgress>(
    question: &Question,
    machine: &mut Machine,
    limits: &DrawnLimits,
    watch: &mut P,
) -> Ran {
    let most = limits.max_nodes;
    let mut ran = Ran {
        nodes: 0,
        end: Ok(DrawnEnd::Nodes),
    };
    for number in 1..=limits.starts {
        let further = limits.starts.saturating_sub(number);
        let later = most.saturating_mul(u64::from(further));
        let answer = start(question, machine, most, later, watch);
        let visited = most.saturating_sub(machine.nodes_left);
        ran.nodes = ran.nodes.saturating_add(visited);
        if let Some(end) = end_of(answer) {
            ran.end = end;
            return ran;
        }
    }
    ran
}

/// Looks for two games of a length to a diagram of which no game is known: with two the problem is not sound. A shorter
/// game is handed out too, where one is met on the way, and ends the search as well.
///
/// The tree of the stated length alone is gone into, depth first. A node is a position that is visited with at least
/// two plies left, and that captures, promotions, pawn files and travel, the last two by least assignments too, do not
/// exclude: these are asked before. With three or more it closes at once where a node of the same future has closed, or
/// where the first bound of code 5 among `bounds` excludes, if there is one. Of the positions after the moves of a node
/// that opens those come first for which the least assignments of both colours leave the least travel, and of such as
/// leave as much one that is drawn. So a start soon comes close to the diagram, and one that went wrong at its
/// beginning is of no use for long: therefore there are many, each with its end of nodes. Closed nodes stay known from
/// one start to the next, by key of 64 bits, in a table of 16 MB. Once a game was met, each other way to a node of it
/// makes another one.
///
/// With one seed all runs are the same, to the node. Of fewer than two plies no diagram has two games, and none is
/// looked for. What the search takes, some 30 MB at most, is taken from `alloc`. `watch` is told how far it is, with
/// the nodes that are left in all starts, and each game of the stated length that is met, once. The answer is trusted
/// for nothing: a game is to be tested.
///
/// # Errors
/// `Memory` where memory is refused.
pub fn search_drawn<P: SearchProgress>(
    alloc: Global,
    diagram: &Diagram,
    length: Length,
    limits: DrawnLimits,
    bounds: &[Box<dyn Bound>],
    watch: &mut P,
) -> Result<Drawn, DrawnFault> {
    let Ok(mut machine) = Machine::new(alloc, diagram, &limits) else {
        return Err(DrawnFault::Memory);
    };
    let question = Question {
        diagram,
        bounds,
        plies: length.plies(),
    };
    let ran = starts(&question, &mut machine, &limits, watch);
    let end = ran.end?;
    let Machine { findings, .. } = machine;
    let Findings { games, shorter, .. } = findings;
    Ok(Drawn {
        games,
        shorter,
        nodes: ran.nodes,
        end,
    })
}
