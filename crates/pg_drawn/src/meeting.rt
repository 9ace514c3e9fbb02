//! The games that are met.

use crate::child::Child;
use crate::last::Ending;
use crate::machine::{Findings, Halt, Machine, Open, push};
use pg_position::Move;
use pg_san::AddFault;
use pg_searcher::{Game, SearchProgress};

// Adds a move to a game, where there is one. A game has room for the 128 plies that it may have.
fn put_move(game: &mut Game, m: &Option<Move>) {
    if let Some(m) = m {
        let _ = game.try_push(*m);
    }
}

// The game along the open nodes, to one after the topmost, and by a further move, if there is one.
fn game_along(open: &[Open], child: &Child, further: &Option<Move>) -> Game {
    let mut game = Game::new();
    for node in open {
        put_move(&mut game, &node.m);
    }
    put_move(&mut game, &child.m);
    put_move(&mut game, further);
    game
}

impl Machine {
    // The game along the open nodes, to one after the topmost, and by a further move, if there is one, is shorter than
    // stated. With it the search ends.
    pub(crate) fn meet_shorter(
        &mut self,
        child: &Child,
        further: Option<Move>,
    ) -> Result<(), Halt> {
        let game = game_along(self.open.as_slice(), child, &further);
        self.findings.shorter = Some(game);
        Err(Halt::Met)
    }
}

// Keeps the keys of the nodes along a game, which are those of the open nodes and of one after the topmost.
fn keep_keys(keys: &mut Vec<u64>, open: &[Open], child: &Child) -> Result<(), Halt> {
    keys.clear();
    for node in open {
        push(keys, node.key)?;
    }
    push(keys, child.key)
}

// A game is met: it is kept and told, if it was not met before. With two of them the search ends.
fn meet<P: SearchProgress>(
    findings: &mut Findings,
    game: &[Move],
    watch: &mut P,
) -> Result<(), Halt> {
    match findings.games.add(game) {
        Ok(()) => watch.met(game),
        Err(AddFault::Memory) => return Err(Halt::Memory),
        Err(_) => return Ok(()),
    }
    if findings.games.len() > 1 {
        Err(Halt::Met)
    } else {
        Ok(())
    }
}

// A game along the open nodes, to one after the topmost with two plies left, and by these moves is met.
pub(crate) fn meet_ending<P: SearchProgress>(
    findings: &mut Findings,
    open: &[Open],
    child: &Child,
    ending: &Ending,
    watch: &mut P,
) -> Result<(), Halt> {
    if findings.games.len() == 0 {
        keep_keys(&mut findings.keys, open, child)?;
    }
    let mut game = game_along(open, child, &Some(ending.before));
    put_move(&mut game, &Some(ending.last));
    meet(findings, game.as_slice(), watch)
}

// The rest of the first game, from a ply on counted from 0.
fn put_rest(findings: &Findings, from: usize, game: &mut Game) {
    let Some(first) = findings.games.game(0) else {
        return;
    };
    let Some(rest) = first.get(from..) else {
        return;
    };
    for m in rest {
        put_move(game, &Some(*m));
    }
}

// Where a node after the topmost open one is one of those along the first game, at the same ply, that game's rest goes
// on from it: by another way to it that is another game.
pub(crate) fn meet_first<P: SearchProgress>(
    findings: &mut Findings,
    open: &[Open],
    child: &Child,
    watch: &mut P,
) -> Result<(), Halt> {
    let ply = open.len();
    match findings.keys.get(ply) {
        Some(key) if *key == child.key => {}
        _ => return Ok(()),
    }
    let mut game = game_along(open, child, &None);
    put_rest(findings, ply, &mut game);
    meet(findings, game.as_slice(), watch)
}
