//! The job `lists`: lists of 1,000 to 4,000 games to one diagram, alike in all but the order of their moves, read,
//! tested and written. Five pawns of each colour advance in any order, and then come six plies that all games have.
//! In every other list a game and the next one begin alike, as in a list that a search wrote; in the others they do
//! not.
use crate::dice::Dice;
use crate::digest::Digest;
use crate::fault::Fault;
use crate::games::any_move;
use crate::texts::put_line;
use pg_board::Square;
use pg_cooks::run_games;
use pg_position::{Move, Position};
use pg_report::{Diagram, Length, Problem, ToWrite};
use pg_san::read_games;
use std::alloc::Global;

// How many pawns of each colour advance, and in how many orders.
const PAWNS: usize = 5;

const ORDERS: usize = 120;

// The advances of five pawns that stand on this rank, each a step or two in this direction.
fn advances(alloc: Global, dice: &mut Dice, home: u8, far: [u8; 2]) -> anyhow::Result<Vec<Move>> {
    let mut files = Vec::new(alloc);
    for file in 1..9u8 {
        files.push(file)?;
    }
    let mut moves = Vec::new(alloc);
    for _ in 0..PAWNS {
        if files.is_empty() {
            break;
        }
        let at = dice.below(files.len()).min(files.len() - 1);
        let file = files.remove(at);
        let rank = far[dice.below(2).min(1)];
        if let (Some(from), Some(to)) = (Square::new(file, home), Square::new(file, rank)) {
            moves.push(Move {
                from,
                to,
                promotion: None,
            })?;
        }
    }
    Ok(moves)
}

// The moves in the order of this number, of as many orders as there are: the next number changes the last moves
// first.
fn ordered(alloc: Global, moves: &[Move], number: usize) -> anyhow::Result<Vec<Move>> {
    let mut rest = Vec::new(alloc);
    let mut places = Vec::new(alloc);
    let mut number = number;
    for m in moves {
        rest.push(*m)?;
        let count = rest.len();
        if count > 0 {
            places.push(number % count)?;
            number /= count;
        }
    }
    let mut found = Vec::new(alloc);
    for place in places.as_slice().iter().rev() {
        if *place < rest.len() {
            found.push(rest.remove(*place))?;
        }
    }
    Ok(found)
}

// The moves of both colours by turns, those of White in the order of one number and those of Black in that of
// another.
fn both(alloc: Global, white: &[Move], black: &[Move], number: usize) -> anyhow::Result<Vec<Move>> {
    let mut game = Vec::new(alloc);
    let whites = ordered(alloc, white, number / ORDERS)?;
    let blacks = ordered(alloc, black, number % ORDERS)?;
    for (w, b) in whites.as_slice().iter().zip(blacks.as_slice()) {
        game.push(*w)?;
        game.push(*b)?;
    }
    Ok(game)
}

// The position at the end of a game; none where a move is not legal.
fn end_of(game: &[Move]) -> Option<Position> {
    let mut position = Position::array();
    for m in game {
        match position.play(*m) {
            Ok(next) => position = next,
            Err(_) => return None,
        }
    }
    Some(position)
}

// Six plies from the end of a game.
fn tail(alloc: Global, dice: &mut Dice, game: &[Move]) -> anyhow::Result<Vec<Move>> {
    let mut moves = Vec::new(alloc);
    let Some(mut position) = end_of(game) else {
        return Err(Fault::NoAnswer("play"))?;
    };
    for _ in 0..6u8 {
        if let Some((m, next)) = any_move(alloc, dice, &position)? {
            moves.push(m)?;
            position = next;
        }
    }
    Ok(moves)
}

// A list: its text, and where its games end.
#[derive(Drop)]
struct List {
    text: String,
    games: u64,
    end: Position,
    plies: u8,
}

// A list of `count` games at most, each `stride` orders after the one before.
fn list_of(alloc: Global, dice: &mut Dice, count: usize, stride: usize) -> anyhow::Result<List> {
    let white = advances(alloc, dice, 2, [3, 4])?;
    let black = advances(alloc, dice, 7, [6, 5])?;
    let mut number = dice.below(ORDERS * ORDERS);
    let first = both(alloc, white.as_slice(), black.as_slice(), number)?;
    let last = tail(alloc, dice, first.as_slice())?;
    let mut list = List {
        text: String::new(alloc),
        games: 0,
        end: Position::array(),
        plies: 0,
    };
    for _ in 0..count {
        let mut game = both(alloc, white.as_slice(), black.as_slice(), number)?;
        game.extend_from_slice(last.as_slice())?;
        if let Some(end) = end_of(game.as_slice()) {
            put_line(alloc, game.as_slice(), &mut list.text)?;
            list.games = list.games.saturating_add(1);
            list.end = end;
            list.plies = game.len().min(128) as u8;
        }
        number = number.saturating_add(stride) % (ORDERS * ORDERS);
    }
    Ok(list)
}

// Lists until `size` games were read.
pub(crate) fn run(
    alloc: Global,
    dice: &mut Dice,
    size: u64,
    digest: &mut Digest,
) -> anyhow::Result<()> {
    let mut games = 0u64;
    for number in 0..u64::MAX {
        if games >= size {
            break;
        }
        let count = 1_000 + dice.below(3_001).min(3_000);
        let stride = if number % 2 == 0 { 1 } else { 4_657 };
        let list = list_of(alloc, dice, count, stride)?;
        games = games.saturating_add(list.games).saturating_add(1);
        let Some(length) = Length::from_plies(list.plies) else {
            return Err(Fault::NoAnswer("length"))?;
        };
        let diagram = Diagram::of(&list.end);
        let Ok(games) = read_games(alloc, list.text.as_str()) else {
            return Err(Fault::NoAnswer("list"))?;
        };
        let mut out = ToWrite::new(Vec::new(alloc));
        if run_games(&Problem { diagram, length }, &games, &mut out).is_err() {
            return Err(Fault::NoAnswer("games"))?;
        }
        digest.text(out.into_inner().as_slice());
    }
    Ok(())
}
