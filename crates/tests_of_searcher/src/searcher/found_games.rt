//! The games that searches find, each with its certificate checked.

use super::*;

// A diagram, a length, and all games, of which a slash parts the lines.
const CASES: &str = "array | 0 | -
after-e4 | 0.5 | 1. e4
after-e4-e5 | 1.0 | 1. e4 e5
rnbqkbnr/pppp1ppp/4p3/8/8/3PP3/PPP2PPP/RNBQKBNR | 1.5 | 1. d3 e6 2. e3/1. e3 e6 2. d3
after-e4-e5 | 0.5
rnbqkbnr/1pp1pppp/p2P4/8/8/8/PPPP1PPP/RNBQKBNR | 2.5 | \
    1. e4 a6 2. e5 d5 3. exd6/1. e4 a6 2. e5 d6 3. exd6/1. e4 d5 2. exd5 a6 3. d6/1. e4 d6 2. e5 a6 3. exd6
rnb1kbnr/ppp1pppp/8/3q4/8/8/PPPP1PPP/RNBQKBNR | 2.0 | 1. e4 d5 2. exd5 Qxd5
rnb1kbnr/pppp1ppp/8/4p3/6Pq/5P2/PPPPP2P/RNBQKBNR | 2.0 | 1. f3 e5 2. g4 Qh4#/1. g4 e5 2. f3 Qh4#";

pub(super) fn are_same(a: &Games, b: &Games) -> bool {
    for i in 0..b.len() {
        if a.game(i) != b.game(i) {
            return false;
        }
    }
    a.len() == b.len()
}

// The games that a search finds; its certificate has been checked.
fn found<R: Abort + AllocGlobal>(rt: &R, goal: &Goal) -> Games {
    let mut sink = ToWrite::new(Vec::new(rt.alloc()));
    let games = searched(rt.alloc(), goal, NODES, &mut sink).expect(rt, "found");
    let bytes = sink.into_inner();
    records_of(rt, rt.alloc(), goal, &games, bytes.as_slice());
    games
}

// The games of a row are found.
fn check_games<R: Abort + AllocGlobal>(rt: &R, row: &str) {
    let diagram = field(row, 0);
    let length = field(row, 1);
    let text = field(row, 2);
    let games = found(rt, &goal_of(rt, diagram, length));
    assert!(rt; are_same(&games, &games_of(rt, text)), "{row}");
}

#[test]
fn all_games_are_found(rt: HostRuntime) {
    for row in CASES.lines() {
        check_games(&rt, row);
    }
}

// A diagram, and a length of `plies` plies.
fn goal_at(rt: &impl Abort, diagram: &Diagram, plies: u8) -> Goal {
    Goal {
        diagram: *diagram,
        length: Length::from_plies(plies).expect(rt, "a length"),
    }
}

// The legal moves' positions of one ply more.
fn after<R: Abort + AllocGlobal>(rt: &R, position: &Position) -> Vec<Position> {
    let mut all = Vec::new(rt.alloc());
    for m in &legal_moves(rt.alloc(), position).expect(rt, "memory") {
        let next = position.play(*m).expect(rt, "legal");
        all.push(next).expect(rt, "memory");
    }
    all
}

// Searches the placement after each second ply, which one game reaches; how many there are.
fn one_game_after<R: Abort + AllocGlobal>(rt: &R, first: &Position) -> usize {
    let seconds = after(rt, first);
    for second in &seconds {
        let goal = goal_at(rt, &Diagram::of(second), 2);
        assert!(rt; matches!(settled(rt, &goal, NODES), Ok(Found { games: 1, .. })));
    }
    seconds.len()
}

#[test]
fn one_game_leads_to_each_placement_after_two_plies(rt: HostRuntime) {
    let mut count = 0usize;
    for first in &after(&rt, &Position::array()) {
        count = count.saturating_add(one_game_after(&rt, first));
    }
    assert_eq!(rt; count, 400);
}

// The next number by chance.
fn next_random(last: u64) -> u64 {
    let mut state = last;
    state ^= state << 13;
    state ^= state >> 7;
    state ^= state << 17;
    state
}

// The position after the legal move that a number picks; the same where none is legal.
fn step<R: Abort + AllocGlobal>(rt: &R, position: &Position, number: u64) -> Position {
    let all = after(rt, position);
    let pick = (number >> 20) % (all.len() as u64).max(1);
    *all.get(pick as usize).unwrap_or(position)
}

// The position after `plies` moves by chance.
fn wander<R: Abort + AllocGlobal>(rt: &R, plies: u8, seed: u64) -> Position {
    let mut position = Position::array();
    let mut state = seed;
    for _ in 0..plies {
        state = next_random(state);
        position = step(rt, &position, state);
    }
    position
}

// Searches a diagram at a length of `plies` plies, and at that of a shorter game where there is one. Each certificate
// has been checked. The answer is how many games there are at the length where the search ended, and whether that is
// the first one.
fn count_games<R: Abort + AllocGlobal>(rt: &R, diagram: &Diagram, plies: u8) -> (usize, bool) {
    match settled(rt, &goal_at(rt, diagram, plies), NODES) {
        Ok(found) => (found.games, true),
        Err(SearchFault::Shorter(fewer)) => {
            assert!(rt; fewer < plies);
            match settled(rt, &goal_at(rt, diagram, fewer), NODES) {
                Ok(found) => (found.games, false),
                Err(fault) => panic!(rt; "{fault}"),
            }
        }
        Err(_) => (0, false),
    }
}

// Random games of six plies: at six plies or fewer their diagrams have a game, and at five plies the
// certificate says whether they do.
#[test]
fn random_games_are_settled(rt: HostRuntime) {
    let mut several = 0u32;
    let mut none = 0u32;
    for seed in 1..13u64 {
        let diagram = Diagram::of(&wander(&rt, 6, seed * 0x9e37_79b9));
        let (games, _) = count_games(&rt, &diagram, 6);
        assert!(rt; games > 0, "{seed}");
        let (fewer, is_stated) = count_games(&rt, &diagram, 5);
        several = several.saturating_add(u32::from(games > 1));
        none = none.saturating_add(u32::from(fewer == 0 && is_stated));
    }
    assert!(rt; several > 0 && none > 0);
}

// Five pawn moves of each side in any order: 120 * 120 games.
#[test]
fn too_many_games(rt: HostRuntime) {
    check_row(
        &rt,
        "rnbqkbnr/5ppp/ppppp3/8/8/PPPPP3/5PPP/RNBQKBNR | 5.0 => TooManyGames",
    );
}
