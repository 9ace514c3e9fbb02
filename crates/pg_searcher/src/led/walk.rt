//! The walk through the games of one length, with a stack of open nodes.
ghost use Rattle.std.specs.Prelude.{◌≡◌, ◌+◌, ◌<◌, ◌≤◌, length, OnOk, IfOk, IfSome};
ghost use Rattle.pg_position.specs.Step.{IsLegal};

use crate::ends::leaf;
use crate::led::answer::{Game, LedProgress};
use crate::led::barren::ANY;
use crate::led::last::{LastTwo, end};
use crate::led::machine::{Frames, Halt, LedMachine, LedQuestion, Open, Sieve};
use crate::led::node::{Allowance, Entry, LedUncut, child, enter};
use crate::led::order::next_due;
use crate::led::plain::{LedMover, LedPlain, Scene};
use pg_moves::count_legal;
use pg_position::Position;

// Each loop has a bound, and halts as at the end of the budget where it comes to it. None does: no position has
// 65,535 moves, and no run takes 2^64 - 1 turns.

// A node with `left` plies left closes. One below which no listed game lies is entered among the barren ones.
fn close(top: &Open, frames: &mut Frames, machine: &mut LedMachine, left: u8) -> Result<(), Halt>
    ensures { length frames.new.items ≡ length frames.old.items }
{
    if let Some(parent) = frames.last_mut() {
        parent.fertile = parent.fertile || top.fertile;
        parent.refused = parent.refused || top.refused;
    }
    machine.refused = machine.refused || top.refused;
    if top.fertile {
        return Ok(());
    }
    let foreign = if top.refused { top.foreign } else { ANY };
    match machine.sieve.barren.put(top.key, left, foreign) {
        Ok(()) => Ok(()),
        Err(_) => Err(Halt::Memory),
    }
}

// The moves of a node with two plies left are played one by one, up to the end of the budget.
fn play_each(
    node: &LastTwo,
    top: &mut Open,
    sieve: &mut Sieve,
    found: &mut Game,
) -> Result<(), Halt> {
    let squares = node.position.board().differing(&node.diagram.board());
    for _ in 0..u16::MAX {
        let Some(m) = top.moves.next() else {
            return Ok(());
        };
        if !sieve.budget.visit() {
            return Err(Halt::Budget);
        }
        if squares.contains(m.from) && node.end_after(found, &m)? {
            top.fertile = true;
        }
    }
    Err(Halt::Budget)
}

// The moves of a node with two plies left are played, familiar or not. Where all of them may be visited they are
// counted, and those few are played after which a further one may lead to the diagram.
fn play_last_two(
    question: &LedQuestion,
    top: &mut Open,
    frames: &[Open],
    sieve: &mut Sieve,
    found: &mut Game,
) -> Result<(), Halt> {
    let node = LastTwo {
        diagram: question.diagram,
        games: question.games,
        frames,
        position: top.moves.position(),
    };
    if !sieve.budget.visit_all(count_legal(&node.position)) {
        return play_each(&node, top, sieve, found);
    }
    if node.end_near(found)? {
        top.fertile = true;
    }
    Ok(())
}

// The moves of a node are played up to the first that no cut is known to exclude by what is known of the node, which
// is the answer; none where there is no such move. The node after it is visited.
fn next_uncut(
    question: &LedQuestion,
    scene: &Scene,
    mover: &mut LedMover,
    top: &mut Open,
    sieve: &mut Sieve,
) -> Result<Option<LedUncut>, Halt>
    requires { top.old.moves.position ≡ scene.now.position }
    ensures legal { IfOk result (λ uncut. IfSome uncut (λ u. IsLegal scene.now.position u.due.m)) }
    ensures same { top.new.moves.position ≡ scene.now.position }
{
    for _ in 0..u16::MAX {
        let Some(due) = next_due(question, scene, mover, top) else {
            return Ok(None);
        };
        if !sieve.budget.visit() {
            return Err(Halt::Budget);
        }
        match scene.plain(&sieve.judge, mover, &due.m) {
            LedPlain::Cut => {}
            LedPlain::Stays(own) => {
                return Ok(Some(LedUncut {
                    due,
                    own: Some(own),
                }));
            }
            LedPlain::No => return Ok(Some(LedUncut { due, own: None })),
        }
    }
    Err(Halt::Budget)
}

// The moves of a node at a ply are played up to the first that leads to a node that opens, with `left` plies left,
// which is the answer; none where there is no such move.
fn next_opened(
    question: &LedQuestion,
    top: &mut Open,
    sieve: &mut Sieve,
    ply: usize,
    left: u8,
) -> Result<Option<Open>, Halt> {
    let scene = Scene::new(&sieve.judge, &top.moves.position(), &top.sides, ply, left);
    let mut mover = LedMover::none();
    for _ in 0..u16::MAX {
        match next_uncut(question, &scene, &mut mover, top, sieve) {
            Ok(Some(uncut)) => match child(question, sieve, top, &scene, &uncut) {
                Ok(None) => {}
                Ok(Some(opened)) => return Ok(Some(opened)),
                Err(halt) => return Err(halt),
            },
            Ok(None) => return Ok(None),
            Err(halt) => return Err(halt),
        }
    }
    Err(Halt::Budget)
}

// The moves of a node are played until a node opens, with `left` plies left; where none does the node closes.
fn play_until_opened(
    question: &LedQuestion,
    frames: &mut Frames,
    machine: &mut LedMachine,
    top: Open,
    left: u8,
) -> Result<(), Halt>
    requires { length frames.old.items + 2 ≤ 128 }
    ensures { OnOk result (length frames.new.items ≤ length frames.old.items + 2) }
{
    let mut top = top;
    let ply = frames.len();
    match next_opened(question, &mut top, &mut machine.sieve, ply, left) {
        Ok(Some(opened)) => {
            frames.push(top);
            frames.push(opened);
            Ok(())
        }
        Ok(None) => close(&top, frames, machine, left.saturating_add(1)),
        Err(halt) => Err(halt),
    }
}

// One turn: moves of the topmost node are played.
fn turn(
    question: &LedQuestion,
    frames: &mut Frames,
    machine: &mut LedMachine,
    top: Open,
    plies: u8,
) -> Result<(), Halt>
    requires limit { plies ≤ 128 }
    requires depth { length frames.old.items < plies }
    ensures { OnOk result (length frames.new.items ≤ plies) }
{
    let left = plies - frames.len() as u8 - 1;
    if left >= 2 {
        return play_until_opened(question, frames, machine, top, left);
    }
    let mut top = top;
    match play_last_two(
        question,
        &mut top,
        frames.as_slice(),
        &mut machine.sieve,
        &mut machine.game,
    ) {
        Ok(()) => close(&top, frames, machine, 2),
        Err(halt) => Err(halt),
    }
}

// The initial array is entered, for games of `plies` plies, at least two: the first open node, if it opens.
fn enter_root(
    question: &LedQuestion,
    sieve: &mut Sieve,
    plies: u8,
    foreign: u8,
) -> Result<Option<Open>, Halt> {
    if !sieve.budget.visit() {
        return Err(Halt::Budget);
    }
    let allowance = Allowance {
        left: plies,
        foreign,
    };
    match enter(question, sieve, &Position::array(), None, allowance) {
        Ok(Entry::Opens(opened)) => Ok(Some(opened)),
        Ok(_) => Ok(None),
        Err(_) => Err(Halt::Memory),
    }
}

// The games of no ply, or of one.
fn short_tree(question: &LedQuestion, found: &mut Game, plies: u8) -> Result<(), Halt> {
    let array = Position::array();
    if plies > 0 {
        return match leaf(question.diagram, &array) {
            Some(m) => end(question.games, &[], found, &None, &Some(m)),
            None => Ok(()),
        };
    }
    if question.diagram.matches(&array) {
        end(question.games, &[], found, &None, &None)
    } else {
        Ok(())
    }
}

// All games of `plies` plies with at most `foreign` foreign moves.
pub(crate) fn tree<P: LedProgress>(
    question: &LedQuestion,
    frames: &mut Frames,
    machine: &mut LedMachine,
    plies: u8,
    foreign: u8,
    watch: &mut P,
) -> Result<(), Halt>
    requires { plies ≤ 128 }
{
    frames.clear();
    if plies < 2 {
        return short_tree(question, &mut machine.game, plies);
    }
    if let Some(opened) = enter_root(question, &mut machine.sieve, plies, foreign)? {
        frames.push(opened);
    }
    for _ in 0..u64::MAX {
        let Some(top) = frames.pop() else {
            return Ok(());
        };
        turn(question, frames, machine, top, plies)?;
        watch.reached(foreign, plies, machine.sieve.budget.nodes);
        if !watch.goes_on() {
            return Err(Halt::Budget);
        }
    }
    Err(Halt::Budget)
}
