//! What a search tells: the games that it met, and how far it came.

use pg_moves::Unwatched;
use pg_san::{Games, read_games};
use pg_searcher::{Met, SearchProgress};

#[test]
fn games_that_are_kept(rt: HostRuntime) {
    let text = "f3 e5 g4 Qh4#\ng4 e5 f3 Qh4#";
    let told = read_games(rt.alloc(), text).expect(&rt, text);
    let mut games = Games::new(rt.alloc());
    let mut watch = Unwatched;
    let mut met = Met::new(&mut watch, &mut games, 100);
    assert!(rt; met.tree == 0 && met.left == 100);
    for at in 0..told.len() {
        let game = told.game(at).unwrap_or(&[]);
        met.met(game);
        met.met(game);
    }
    met.reached(4, 7);
    assert!(rt; met.tree == 4 && met.left == 7 && !met.is_short);
    assert!(rt; games.len() == 2);
}
