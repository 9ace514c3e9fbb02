//! Lists of different games in canonical order.
ghost use Rattle.std.specs.Prelude.{◌≡◌, ◌<◌, ◌≤◌, ◌↔◌, IsTrue, [], length, take, MatchOption, IfErr, OnOk, OnErr};
ghost use Rattle.std.specs.Prelude.{Some, slice_get, map};
ghost use Rattle.std.specs.List.{Contains};
ghost use Rattle.std.specs.List.Sorted.{IsStrictlySortedBy};
ghost use Rattle.pg_san.specs.Games.{game_cmp, IsFromArray, IsGames, IsPlace};
ghost use Rattle.pg_san.specs.Adding.{IsIllegalAt, IsAdded, IsAddFault, IsNew, IsAdmitFault};

use crate::adding::AddFault;
use pg_position::{Move, Position, move_order};
use std::alloc::{AllocError, Global};
use std::cmp::Ordering;
use std::marker::Model;

// The most games that a list holds.
pub(crate) const MOST_GAMES: usize = 4096;

/// Different games from the initial array, in canonical order: the first moves that differ decide,
/// and a game comes before each that goes on from it. At most 4,096 games. Contracts see the list of
/// the games, each a list of moves.
#[derive(Drop)]
pub struct Games {
    games: Vec<Vec<Move>>,
}

impl Model for Games {
    ghost use Rattle.std.specs.Prelude.{List, map};
    ghost use Rattle.pg_position.specs.declared.moves.Move.{Move};
    ghost use Rattle.pg_san.specs.Games.{IsGames};

    ghost Value = { List (List Move) };

    ghost view = { λ g. map (λ v. v.items) g.games.items };

    ghost invariant = { λ g. IsGames (map (λ v. v.items) g.games.items) };
}

// How two games stand in the canonical order: as the first moves do that differ, in a plain loop, since a
// list that grows asks for it often.
fn compare(a: &[Move], b: &[Move]) -> Ordering
    ensures { result ≡ game_cmp a.now b.now }
{
    for i in 0..a.len() {
        if i >= b.len() {
            return Ordering::Greater;
        }
        match move_order(&a[i], &b[i]) {
            Ordering::Equal => {}
            Ordering::Less => return Ordering::Less,
            Ordering::Greater => return Ordering::Greater,
        }
    }
    if a.len() < b.len() {
        Ordering::Less
    } else {
        Ordering::Equal
    }
}

// How many moves two games have alike before the first that differs.
fn shared(game: &[Move], known: &[Move]) -> usize
    ensures same { take result game.now ≡ take result known.now }
    ensures within { result ≤ length known.now }
{
    for i in 0..game.len() {
        if i >= known.len() || game[i] != known[i] {
            return i;
        }
    }
    game.len()
}

// The first ply, counted from 1, whose move is not legal. The moves at its beginning that it shares with a game from
// the initial array are legal, so they are made and not tried: a list is mostly added to in canonical order, where
// neighbours begin alike.
fn first_illegal(game: &[Move], known: &[Move]) -> Option<usize>
    requires { IsFromArray known.now }
    ensures { MatchOption result (IsFromArray game.now) (λ ply. IsIllegalAt game.now ply) }
{
    let shared = shared(game, known);
    let mut position = Position::array();
    for (i, m) in game.iter().enumerate() {
        if i < shared {
            position = position.after(m);
            continue;
        }
        match position.play(*m) {
            Ok(next) => position = next,
            Err(_) => return Some(i + 1),
        }
    }
    None
}

// Whether the game comes behind all games in canonical order.
fn is_behind(games: &[Vec<Move>], game: &[Move]) -> bool
    requires { IsStrictlySortedBy game_cmp (map (λ v. v.items) games.now) }
    ensures { IsTrue result → IsPlace (map (λ v. v.items) games.now) game.now (length games.now) }
{
    match games.last() {
        Some(last) => match compare(last.as_slice(), game) {
            Ordering::Less => true,
            Ordering::Equal | Ordering::Greater => false,
        },
        None => false,
    }
}

// The place that the game would take among games in canonical order; none where it is among them. A search finds its
// games in that order, and most lists are read in it, so the last game is asked first.
fn place(games: &[Vec<Move>], game: &[Move]) -> Option<usize>
    requires { IsStrictlySortedBy game_cmp (map (λ v. v.items) games.now) }
    ensures { MatchOption result
        (Contains (map (λ v. v.items) games.now) game.now)
        (λ i. IsPlace (map (λ v. v.items) games.now) game.now i) }
{
    if is_behind(games, game) {
        return Some(games.len());
    }
    games
        .binary_search_by(|held| compare(held.as_slice(), game))
        .err()
}

impl Games {
    /// The list of no game. What the list grows by is taken from `alloc`.
    pub fn new(alloc: Global) -> Games
        ensures { result ≡ [] }
    {
        Games {
            games: Vec::new(alloc),
        }
    }

    /// How many games it holds.
    pub fn len(&self) -> usize
        ensures value { result ≡ length self.now }
        ensures games { IsGames self.now }
    {
        self.games.len()
    }

    /// The game with this index, counted from 0 in canonical order; none from `len` on.
    pub fn game(&self, i: usize) -> Option<&[Move]>
        ensures { MatchOption result (length self.now ≤ i) (λ g. slice_get self.now i ≡ Some g.now) }
    {
        match self.games.get(i) {
            Some(game) => Some(game.as_slice()),
            None => None,
        }
    }

    /// Whether it holds the game.
    pub fn contains(&self, game: &[Move]) -> bool
        ensures { IsTrue result ↔ Contains self.now game.now }
    {
        place(&self.games, game).is_none()
    }

    // The last game; that of no move where it holds none.
    fn last(&self) -> &[Move]
        ensures { IsFromArray result.now }
    {
        match self.games.as_slice().last() {
            Some(game) => game.as_slice(),
            None => &[],
        }
    }

    // Puts a game of its own at its place.
    fn put(&mut self, i: usize, game: Vec<Move>) -> Result<(), AllocError>
        requires fresh { IsNew self.old game.items }
        requires at { IsPlace self.old game.items i }
        ensures ok { OnOk result (IsAdded self.old game.items self.new) }
        ensures err { OnErr result (self.new ≡ self.old) }
    {
        self.games.insert(i, game)?;
        Ok(())
    }

    /// Adds a game: then it holds this one more, at its place in canonical order, and nothing else
    /// changes. A refusal leaves the list as it was.
    ///
    /// # Errors
    /// The first of these that holds: `IllegalMove` with a ply, counted from 1, where the moves before
    /// it are a game from the initial array and its own move is not legal after them; `TooMany` where
    /// the list holds 4,096 games; `Repeated` where it holds this game; `Memory` where memory is
    /// refused.
    pub fn add(&mut self, game: &[Move]) -> Result<(), AddFault>
        ensures ok { OnOk result (IsAdded self.old game.now self.new) }
        ensures err { IfErr result (λ e. IsAddFault self.old game.now e) }
        ensures unchanged { OnErr result (self.new ≡ self.old) }
    {
        if let Some(ply) = first_illegal(game, self.last()) {
            return Err(AddFault::IllegalMove(ply));
        }
        if self.len() >= MOST_GAMES {
            return Err(AddFault::TooMany);
        }
        let Some(i) = place(&self.games, game) else {
            return Err(AddFault::Repeated);
        };
        let copy = match Vec::from_slice(*self.games.allocator(), game) {
            Ok(copy) => copy,
            Err(_) => return Err(AddFault::Memory),
        };
        match self.put(i, copy) {
            Ok(()) => Ok(()),
            Err(_) => Err(AddFault::Memory),
        }
    }

    // Adds a game that is known to be one, where there is room.
    pub(crate) fn admit(&mut self, game: Vec<Move>) -> Result<(), AddFault>
        requires legal { IsFromArray game.items }
        requires room { length self.old < 4096 }
        ensures ok { OnOk result (IsAdded self.old game.items self.new) }
        ensures err { IfErr result (λ e. IsAdmitFault self.old game.items e) }
    {
        let Some(i) = place(&self.games, game.as_slice()) else {
            return Err(AddFault::Repeated);
        };
        match self.put(i, game) {
            Ok(()) => Ok(()),
            Err(_) => Err(AddFault::Memory),
        }
    }
}
