//! The trees of games to a diagram, as far as bounds leave them open.
use crate::problems::Problem;
use pg_captures::{Bound, Captures, Promotions};
use pg_fen::Diagram;
use pg_moves::legal_moves;
use pg_pawns::PawnFiles;
use pg_position::Position;
use pg_tolls::Tolls;
use pg_travel::{Rows, TravelByRows};
use std::alloc::{AllocError, Global};

// How many nodes were visited, of how many of them the tariff was asked, how many of these it excluded, and how many
// games to the diagram were met.
#[derive(Clone, Copy, Default)]
pub(crate) struct Tree {
    pub(crate) nodes: u64,
    pub(crate) asked: u64,
    pub(crate) excluded: u64,
    pub(crate) games: u64,
}

impl Tree {
    // The numbers of both together.
    pub(crate) fn plus(self, other: Tree) -> Tree {
        Tree {
            nodes: self.nodes.saturating_add(other.nodes),
            asked: self.asked.saturating_add(other.asked),
            excluded: self.excluded.saturating_add(other.excluded),
            games: self.games.saturating_add(other.games),
        }
    }
}

// Whether a bound that costs little excludes.
fn is_cut(travel: &TravelByRows, goal: &Diagram, position: &Position, left: u8) -> bool {
    Captures.excludes(goal, position, left)
        || Promotions.excludes(goal, position, left)
        || PawnFiles.excludes(goal, position, left)
        || travel.excludes(goal, position, left)
}

// Adds the positions after the legal moves, with the plies left there, so that the first move's is the last one.
fn add_children(
    open: &mut Vec<(Position, u8)>,
    position: &Position,
    left: u8,
) -> Result<(), AllocError> {
    let moves = legal_moves(*open.allocator(), position)?;
    for m in moves.as_slice().iter().rev() {
        if let Ok(next) = position.play(*m) {
            open.push((next, left))?;
        }
    }
    Ok(())
}

// Walks the tree of a problem's length, depth first from the initial array and in the order of the legal moves, up to
// `nodes` nodes. Bounds are asked where a ply is left.
pub(crate) fn walk(alloc: Global, problem: &Problem, nodes: u64) -> Result<Tree, AllocError> {
    let goal = &problem.diagram;
    let rows = Rows::new(goal);
    let travel = TravelByRows { rows };
    let tolls = Tolls::new(alloc, goal, &problem.tariff, Tolls::FIRST_CODE)?;
    let mut tree = Tree::default();
    let mut open = vec![in alloc; (Position::array(), problem.plies)]?;
    for _ in 0..nodes {
        let Some((position, left)) = open.pop() else {
            break;
        };
        tree.nodes = tree.nodes.saturating_add(1);
        if left == 0 {
            tree.games = tree
                .games
                .saturating_add(u64::from(goal.matches(&position)));
        } else if !is_cut(&travel, goal, &position, left) {
            tree.asked = tree.asked.saturating_add(1);
            if tolls.excludes(goal, &position, left) {
                tree.excluded = tree.excluded.saturating_add(1);
            } else {
                add_children(&mut open, &position, left.saturating_sub(1))?;
            }
        }
    }
    Ok(tree)
}
