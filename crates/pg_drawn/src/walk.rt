//! One start: the walk through the games of the stated length, with a stack of open nodes.

use crate::child::take_first;
use crate::machine::{Halt, Machine, Question};
use crate::opening::enter;
use pg_position::Position;
use pg_searcher::SearchProgress;

// The topmost open node closes, all of whose children have, with `left` plies left.
fn close(machine: &mut Machine, left: u8) {
    if let Some(top) = machine.open.pop() {
        machine.closed.put(top.key, left);
    }
}

// One turn: the walk goes into the child of the topmost open node that comes first, or closes that node.
fn turn<P: SearchProgress>(
    question: &Question,
    machine: &mut Machine,
    first: usize,
    watch: &mut P,
) -> Result<(), Halt> {
    let open = u8::try_from(machine.open.len()).unwrap_or(u8::MAX);
    let left = question.plies.saturating_sub(open);
    match take_first(&mut machine.children, first) {
        Some(child) => enter(question, machine, &child, left, watch),
        None => {
            close(machine, left.saturating_add(1));
            Ok(())
        }
    }
}

// A start, from the initial array, over `nodes` nodes at most. The number told to `watch` is that of the nodes that may
// still be visited, in this start and the later ones: these have `later`.
pub(crate) fn start<P: SearchProgress>(
    question: &Question,
    machine: &mut Machine,
    nodes: u64,
    later: u64,
    watch: &mut P,
) -> Result<(), Halt> {
    machine.restart(nodes);
    if question.plies < 2 {
        return Ok(());
    }
    let plies = question.plies;
    let Some(root) = machine.node(question, None, &Position::array(), plies)? else {
        return Ok(());
    };
    enter(question, machine, &root, plies, watch)?;
    for _ in 0..u64::MAX {
        let Some(top) = machine.open.last() else {
            return Ok(());
        };
        let first = top.first;
        turn(question, machine, first, watch)?;
        watch.reached(plies, machine.nodes_left.saturating_add(later));
        if !watch.goes_on() {
            return Err(Halt::Stopped);
        }
    }
    Err(Halt::Nodes)
}
