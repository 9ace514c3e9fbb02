//! How many games of a number of plies go on from a position.
ghost use Rattle.std.specs.Prelude.{◌≡◌, ◌<◌, ◌≤◌, ◌↔◌, IfOk, IfErr, IsErrOf, MatchResult};
ghost use Rattle.pg_moves.specs.Moves.{IsMoveList};
ghost use Rattle.pg_moves.specs.Counts.{IsGameCount, IsCountFault};

use crate::cursor::LegalMoves;
use crate::fault::CountFault;
use crate::generate::legal_moves;
use crate::leaves::count_moves;
use crate::progress::{CountProgress, Unwatched};
use pg_position::{Move, Position};
use std::alloc::{AllocError, Global};

fn listed(alloc: Global, position: &Position) -> Result<Vec<Move>, CountFault>
    ensures ok { IfOk result (λ v. IsMoveList position.now v.items) }
    ensures err { IfErr result (λ e. e ≡ CountFault.Memory) }
{
    match legal_moves(alloc, position) {
        Ok(moves) => Ok(moves),
        Err(AllocError) => Err(CountFault::Memory),
    }
}

// Tells of the games below a move, where they take a while to count.
fn tell<P: CountProgress>(plies: u8, games: u64, watch: &mut P) {
    if plies > 3 {
        watch.counted(games);
    }
}

// The games of two plies. Most positions of a count are counted so: their moves are kept in no list.
#[inline(always)]
fn count_two(position: &Position) -> u64
    ensures { IsGameCount position.now 2 result }
{
    // A fact for the proof: what is handed in is a position.
    position.side();
    let mut total = 0;
    let mut left = LegalMoves::new(position);
    while let Some(m) = left.next() {
        total += count_moves(&position.after(&m));
    }
    total
}

// The games of `plies` plies, 8 at most.
#[cycle(count)]
#[inline(always)]
fn count_from<P: CountProgress>(
    alloc: Global,
    position: &Position,
    plies: u8,
    watch: &mut P,
) -> Result<u64, CountFault>
    requires { plies ≤ 8 }
    ensures { MatchResult result
        (λ n. IsGameCount position.now plies n)
        (λ e. IsCountFault position.now plies e) }
{
    match plies {
        0 => Ok(1),
        1 => Ok(count_moves(position)),
        2 => Ok(count_two(position)),
        _ => count_listed(alloc, position, plies, watch),
    }
}

// The games of `plies` plies, 2 to 8, summed over a list of the moves.
#[cycle(count)]
fn count_listed<P: CountProgress>(
    alloc: Global,
    position: &Position,
    plies: u8,
    watch: &mut P,
) -> Result<u64, CountFault>
    requires some { 2 ≤ plies }
    requires few { plies ≤ 8 }
    ensures { MatchResult result
        (λ n. IsGameCount position.now plies n)
        (λ e. IsCountFault position.now plies e) }
{
    // A fact for the proof: what is handed in is a position.
    position.side();
    let moves = listed(alloc, position)?;
    let mut total = 0u64;
    for m in &moves {
        let next = position.after(m);
        match count_from(alloc, &next, plies - 1, watch) {
            Ok(games) => match total.checked_add(games) {
                Some(sum) => {
                    tell(plies, games, watch);
                    total = sum;
                }
                None => return Err(CountFault::Overflow),
            },
            Err(fault) => return Err(fault),
        }
    }
    Ok(total)
}

/// How many legal moves the position has. Takes no memory.
pub fn count_legal(position: &Position) -> u64
    ensures { IsGameCount position.now 1 result }
{
    count_moves(position)
}

/// How many games of `plies` plies go on from the position: 1 for none, and else, over its legal
/// moves, the sum of the games of one ply less after each.
///
/// # Errors
/// `TooDeep` where `plies` is above 8, and only there; `Overflow` where the number does not fit a
/// `u64`; `Memory` where memory is refused.
pub fn count(alloc: Global, position: &Position, plies: u8) -> Result<u64, CountFault>
    ensures ok { IfOk result (λ n. IsGameCount position.now plies n) }
    ensures err { IfErr result (λ e. IsCountFault position.now plies e) }
    ensures deep { IsErrOf result CountFault.TooDeep ↔ (8 < plies) }
{
    count_watched(alloc, position, plies, &mut Unwatched)
}

/// As `count`, and tells `watch` of the games below each node with three plies left or more, as they
/// are counted.
///
/// # Errors
/// As for `count`.
pub fn count_watched<P: CountProgress>(
    alloc: Global,
    position: &Position,
    plies: u8,
    watch: &mut P,
) -> Result<u64, CountFault>
    ensures ok { IfOk result (λ n. IsGameCount position.now plies n) }
    ensures err { IfErr result (λ e. IsCountFault position.now plies e) }
    ensures deep { IsErrOf result CountFault.TooDeep ↔ (8 < plies) }
{
    if plies > 8 {
        return Err(CountFault::TooDeep);
    }
    count_from(alloc, position, plies, watch)
}
