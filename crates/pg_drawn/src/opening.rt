//! A node is gone into: it closes at once, or it opens and its children are judged.

use crate::child::Child;
use crate::last::{endings, last_move};
use crate::machine::{Halt, Machine, Open, Question, push};
use crate::meeting::{meet_ending, meet_first};
use pg_captures::first_excludes;
use pg_journeys::Journeys;
use pg_moves::LegalMoves;
use pg_position::{Move, Position};
use pg_searcher::SearchProgress;
use rand_core::Rng;

// The node after a move of the topmost open one, with `left` plies left, is judged, and kept where no cheap bound
// excludes it.
fn put_child<P: SearchProgress>(
    question: &Question,
    machine: &mut Machine,
    position: &Position,
    m: &Move,
    left: u8,
    watch: &mut P,
) -> Result<(), Halt> {
    let Ok(next) = position.play(*m) else {
        return Ok(());
    };
    let Some(mut child) = machine.node(question, Some(*m), &next, left)? else {
        return Ok(());
    };
    child.drawn = machine.chance.next_u64();
    meet_first(
        &mut machine.findings,
        machine.open.as_slice(),
        &child,
        watch,
    )?;
    push(&mut machine.children, child)
}

// A node opens, with `left` plies left after a move of it: its children are judged.
fn open<P: SearchProgress>(
    question: &Question,
    machine: &mut Machine,
    node: &Child,
    left: u8,
    watch: &mut P,
) -> Result<(), Halt> {
    let opened = Open {
        m: node.m,
        key: node.key,
        first: machine.children.len(),
    };
    push(&mut machine.open, opened)?;
    let mut moves = LegalMoves::new(&node.position);
    for _ in 0..u16::MAX {
        let Some(m) = moves.next() else {
            return Ok(());
        };
        put_child(question, machine, &node.position, &m, left, watch)?;
    }
    Ok(())
}

// Two plies before the end: the games that end after both are met. The open nodes are those that lead to the node.
fn end<P: SearchProgress>(
    question: &Question,
    machine: &mut Machine,
    node: &Child,
    watch: &mut P,
) -> Result<(), Halt> {
    if let Some(m) = last_move(question.diagram, &node.position) {
        return machine.meet_shorter(node, Some(m));
    }
    for ending in endings(question.diagram, &node.position).as_slice() {
        let open = machine.open.as_slice();
        meet_ending(&mut machine.findings, open, node, ending, watch)?;
    }
    Ok(())
}

// Goes into a node with `left` plies left, at least two. It is on the diagram, or one ply before it, so that a game is
// shorter than stated; or it has closed; or journeys exclude it; or it opens. With two plies left it is looked at once,
// and closed.
pub(crate) fn enter<P: SearchProgress>(
    question: &Question,
    machine: &mut Machine,
    node: &Child,
    left: u8,
    watch: &mut P,
) -> Result<(), Halt> {
    if !machine.visit() {
        return Err(Halt::Nodes);
    }
    if question.diagram.matches(&node.position) {
        return machine.meet_shorter(node, None);
    }
    if left <= 2 {
        return end(question, machine, node, watch);
    }
    if machine.closed.has(node.key) {
        return Ok(());
    }
    let (bounds, diagram) = (question.bounds, question.diagram);
    if first_excludes(bounds, Journeys::CODE, diagram, &node.position, left) == Some(true) {
        machine.closed.put(node.key, left);
        return Ok(());
    }
    open(question, machine, node, left - 1, watch)
}
