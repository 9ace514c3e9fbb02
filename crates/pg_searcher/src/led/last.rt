//! The last two plies of the games of a led search.

use crate::ends::{leaf, put_move};
use crate::led::answer::Game;
use crate::led::familiar::PROMOTED;
use crate::led::machine::{Halt, Open};
use crate::nearing::{MOST_CHANGED, goes, may_be_near};
use arrayvec::ArrayVec;
use pg_board::{Kind, Man, Square};
use pg_fen::Diagram;
use pg_position::{Move, Position, last_rank};
use pg_san::Games;

// The game that leads along the open nodes and then by these moves.
fn game_along(frames: &[Open], before: &Option<Move>, last: &Option<Move>) -> Game {
    let mut game = ArrayVec::new();
    for frame in frames {
        put_move(&mut game, &frame.played);
    }
    put_move(&mut game, before);
    put_move(&mut game, last);
    game
}

// A game along the open nodes and by these moves ends on the diagram. One that is not listed is found.
pub(crate) fn end(
    games: &Games,
    frames: &[Open],
    found: &mut Game,
    before: &Option<Move>,
    last: &Option<Move>,
) -> Result<(), Halt> {
    let game = game_along(frames, before, last);
    if games.contains(game.as_slice()) {
        return Ok(());
    }
    *found = game;
    Err(Halt::Found)
}

// A node with two plies left, the diagram and the listed games, and the open nodes, of which it is the last.
#[derive(Drop)]
pub(crate) struct LastTwo<'a> {
    pub(crate) diagram: &'a Diagram,
    pub(crate) games: &'a Games,
    pub(crate) frames: &'a [Open],
    pub(crate) position: Position,
}

impl LastTwo<'_> {
    // The games are ended that go along the open nodes and by this move, if it is legal; whether there is one.
    pub(crate) fn end_after(&self, found: &mut Game, m: &Move) -> Result<bool, Halt> {
        if !may_be_near(self.diagram, &self.position, m) {
            return Ok(false);
        }
        let next = match self.position.play(*m) {
            Ok(next) => next,
            Err(_) => return Ok(false),
        };
        let last = leaf(self.diagram, &next);
        if last.is_none() {
            return Ok(false);
        }
        end(self.games, self.frames, found, &Some(*m), &last)?;
        Ok(true)
    }

    // So too for each move to a square, of a pawn the promotions.
    fn end_to(&self, found: &mut Game, m: &Move, man: Man) -> Result<bool, Halt> {
        if man.kind != Kind::Pawn || m.to.rank() != last_rank(man.color) {
            return self.end_after(found, m);
        }
        let mut is_met = false;
        for kind in PROMOTED {
            let m = Move {
                from: m.from,
                to: m.to,
                promotion: Some(kind),
            };
            is_met = self.end_after(found, &m)? || is_met;
        }
        Ok(is_met)
    }

    // So too for each move of the man on a square.
    fn end_of_man(&self, found: &mut Game, from: Square) -> Result<bool, Halt> {
        let Some(man) = self.position.board().get(from) else {
            return Ok(false);
        };
        let mut targets = goes(&self.diagram.board(), &self.position, man, from);
        let mut is_met = false;
        for _ in 0..64u8 {
            let Some(to) = targets.pop_first() else {
                return Ok(is_met);
            };
            let m = Move {
                from,
                to,
                promotion: None,
            };
            is_met = self.end_to(found, &m, man)? || is_met;
        }
        Ok(is_met)
    }

    // So too for each move of the node. The man that moves first leaves a square on which the placements differ
    // (`may_lead`).
    pub(crate) fn end_near(&self, found: &mut Game) -> Result<bool, Halt> {
        let board = self.position.board();
        let squares = board.differing(&self.diagram.board());
        if squares.len() > MOST_CHANGED {
            return Ok(false);
        }
        let mut sources = squares & board.squares_of_color(self.position.side());
        let mut is_met = false;
        for _ in 0..64u8 {
            let Some(from) = sources.pop_first() else {
                return Ok(is_met);
            };
            is_met = self.end_of_man(found, from)? || is_met;
        }
        Ok(is_met)
    }
}
