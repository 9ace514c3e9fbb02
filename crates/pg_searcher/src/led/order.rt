//! The order in which the moves of a node come: the one that leads, those that are familiar, the others.
ghost use Rattle.std.specs.Prelude.{◌≡◌, IfSome};
ghost use Rattle.pg_position.specs.Step.{IsLegal};

use crate::led::familiar::Familiar;
use crate::led::machine::{LedQuestion, Open, Phase};
use crate::led::plain::{LedMover, Scene};
use crate::led::trials::Trials;
use pg_moves::LegalMoves;
use pg_position::{Move, Position};

// A legal move that comes next, and whether it is foreign.
#[derive(Clone, Copy)]
pub(crate) struct Due {
    pub(crate) m: Move,
    pub(crate) is_foreign: bool,
}

// The move that leads at a ply, where it is legal and familiar.
fn lead_of(question: &LedQuestion, position: &Position, ply: usize) -> Option<Move>
    ensures { IfSome result (λ m. IsLegal position.now m) }
{
    let Some(m) = question.lead(ply) else {
        return None;
    };
    let Some(man) = position.board().get(m.from) else {
        return None;
    };
    if !question.familiar.has(man, &m) {
        return None;
    }
    match position.play(m) {
        Ok(_) => Some(m),
        Err(_) => None,
    }
}

// The next move that is familiar, or that is not, and is not this one. Its man is judged from then on.
#[inline(always)]
fn next_of(
    familiar: &Familiar,
    moves: &mut LegalMoves,
    scene: &Scene,
    mover: &mut LedMover,
    is_familiar: bool,
    but: &Option<Move>,
) -> Option<Move>
    requires { moves.old.position ≡ scene.now.position }
    ensures legal { IfSome result (λ m. IsLegal scene.now.position m) }
    ensures same { moves.new.position ≡ scene.now.position }
{
    for _ in 0..u16::MAX {
        let Some(m) = moves.next() else {
            return None;
        };
        mover.turn(familiar, &scene.position, m.from);
        if mover.is_familiar(familiar, &m) == is_familiar && *but != Some(m) {
            return Some(m);
        }
    }
    None
}

// The next familiar move of an open node that is not the one that leads. Where few men leave their squares in games
// these few are tried, else all moves are gone through.
fn next_familiar(
    question: &LedQuestion,
    scene: &Scene,
    mover: &mut LedMover,
    top: &mut Open,
) -> Option<Move>
    requires { top.old.moves.position ≡ scene.now.position }
    ensures legal { IfSome result (λ m. IsLegal scene.now.position m) }
    ensures same { top.new.moves.position ≡ scene.now.position }
{
    let familiar = question.familiar;
    let lead = top.lead;
    if top.phase == Phase::Familiar {
        return next_of(familiar, &mut top.moves, scene, mover, true, &lead);
    }
    match top.trials.next_legal(familiar, &scene.position, &lead) {
        Some(m) => {
            mover.turn(familiar, &scene.position, m.from);
            Some(m)
        }
        None => None,
    }
}

// The node opens for its familiar moves. The one that leads comes first, where it is legal and familiar.
fn begin(
    question: &LedQuestion,
    scene: &Scene,
    mover: &mut LedMover,
    top: &mut Open,
) -> Option<Move>
    ensures legal { IfSome result (λ m. IsLegal scene.now.position m) }
    ensures same { top.new.moves ≡ top.old.moves }
{
    let position = &scene.position;
    top.trials = Trials::of(question.familiar, position);
    top.phase = if top.trials.are_few() {
        Phase::Few
    } else {
        Phase::Familiar
    };
    top.lead = lead_of(question, position, scene.ply);
    match &top.lead {
        Some(m) => {
            mover.turn(question.familiar, position, m.from);
            Some(*m)
        }
        None => None,
    }
}

// The next move of an open node.
pub(crate) fn next_due(
    question: &LedQuestion,
    scene: &Scene,
    mover: &mut LedMover,
    top: &mut Open,
) -> Option<Due>
    requires { top.old.moves.position ≡ scene.now.position }
    ensures legal { IfSome result (λ due. IsLegal scene.now.position due.m) }
    ensures same { top.new.moves.position ≡ scene.now.position }
{
    if top.phase == Phase::Lead {
        if let Some(m) = begin(question, scene, mover, top) {
            return Some(Due {
                m,
                is_foreign: false,
            });
        }
    }
    if top.phase != Phase::Foreign {
        if let Some(m) = next_familiar(question, scene, mover, top) {
            return Some(Due {
                m,
                is_foreign: false,
            });
        }
        if top.phase == Phase::Familiar {
            top.moves = LegalMoves::new(&scene.position);
        }
        top.phase = Phase::Foreign;
    }
    if top.refused && top.foreign == 0 {
        return None;
    }
    match next_of(
        question.familiar,
        &mut top.moves,
        scene,
        mover,
        false,
        &None,
    ) {
        Some(m) => Some(Due {
            m,
            is_foreign: true,
        }),
        None => None,
    }
}
