//! The placement of men as text.
ghost use Rattle.std.specs.Prelude.{◌≡◌, ◌↔◌, ◌+◌, ◌++◌, ◌<◌, ◌≤◌, ◌==◌, IsTrue, length};
ghost use Rattle.std.specs.List.{slice_split, list_all, count_by};
ghost use Rattle.pg_board.specs.Men.{king_of};
ghost use Rattle.pg_board.specs.Tally.{count_of, tally};
ghost use Rattle.pg_fen.specs.PlacementText.{is_run, width_of, is_eight_wide, ranks_fit, is_slash, is_letter};
ghost use Rattle.pg_fen.specs.PlacementText.{letters_fit, seen_at};
ghost use Rattle.pg_fen.specs.PlacementText.{placed, has_kings, is_edge, is_edge_pawn, has_no_edge_pawn};
ghost use Rattle.pg_fen.specs.PlacementText.{read_placement};
ghost use Rattle.pg_fen.specs.DiagramText.{IsDiagram};

use crate::fault::FenFault;
use crate::letters::man_of;
use pg_board::{Board, Color, Kind, Man, Square};

fn is_run(byte: u8) -> bool
    ensures { result ≡ is_run byte }
{
    matches!(byte, b'1'..=b'8')
}

fn width_of(byte: u8) -> usize
    ensures { result ≡ width_of byte }
{
    match byte {
        b'1'..=b'8' => usize::from(byte - b'0'),
        128..=191 => 0,
        _ => 1,
    }
}

fn is_eight_wide(rank: &[u8]) -> bool
    ensures { result ≡ is_eight_wide rank.now }
{
    let mut left = 8;
    for byte in rank {
        let width = width_of(*byte);
        if width > left {
            return false;
        }
        left -= width;
    }
    left == 0
}

fn slash_count(text: &[u8]) -> usize
    ensures { result ≡ count_by is_slash text.now }
{
    text.iter().filter(|b| **b == b'/').count()
}

fn has_eight_ranks(text: &[u8]) -> bool
    ensures { result ≡ (length (slice_split is_slash text.now) == 8) }
{
    slash_count(text) == 7
}

fn ranks_are_wide(text: &[u8]) -> bool
    ensures { result ≡ list_all is_eight_wide (slice_split is_slash text.now) }
{
    text.split(|b| *b == b'/').all(|rank| is_eight_wide(rank))
}

fn ranks_fit(text: &[u8]) -> bool
    ensures { result ≡ ranks_fit text.now }
{
    has_eight_ranks(text) && ranks_are_wide(text)
}

fn is_letter(byte: u8) -> bool
    ensures { result ≡ is_letter byte }
{
    is_run(byte) || byte == b'/' || man_of(byte).is_some()
}

fn letters_fit(text: &[u8]) -> bool
    ensures { result ≡ letters_fit text.now }
{
    text.iter().all(|b| is_letter(*b))
}

// The square at a place of the order in which squares are read.
fn square_seen_at(place: u8) -> Square
    requires { place < 64 }
    ensures { result ≡ seen_at place }
{
    Square::at(56 - 8 * (place / 8) + place % 8)
}

// The board of a text whose ranks and letters fit.
fn place(text: &[u8]) -> Board
    requires ranks { IsTrue (ranks_fit text.now) }
    requires letters { IsTrue (letters_fit text.now) }
    ensures { result ≡ placed text.now }
{
    let mut board = Board::empty();
    let mut at = 0;
    for byte in text {
        if is_run(*byte) {
            at += *byte - b'0';
        } else if let Some(man) = man_of(*byte) {
            board.put(square_seen_at(at), man);
            at += 1;
        }
    }
    board
}

fn has_one_king(board: &Board, color: Color) -> bool
    ensures { result ≡ (count_of board.now (king_of color) == 1) }
{
    board.count(Man::new(color, Kind::King)) == 1
}

fn has_kings(board: &Board) -> bool
    ensures { result ≡ has_kings board.now }
{
    has_one_king(board, Color::White) && has_one_king(board, Color::Black)
}

fn is_edge_pawn(square: Square, man: Man) -> bool
    ensures { result ≡ is_edge_pawn square man }
{
    let rank = square.rank();
    (rank == 1 || rank == 8) && man.kind == Kind::Pawn
}

// How many pawns stand on ranks 1 and 8.
#[tactic(auto, using(pg_board::specs::lemmas::Tallies::tallies))]
fn edge_pawns(board: &Board) -> u8
    ensures { result ≡ tally is_edge_pawn board.now }
{
    let mut n = 0;
    for i in 0..64 {
        let square = Square::at(i);
        if let Some(man) = board.get(square) {
            if is_edge_pawn(square, man) {
                n += 1;
            }
        }
    }
    n
}

/// Whether a board has one king of each colour and no pawn on rank 1 or 8.
pub fn is_diagram(board: &Board) -> bool
    ensures { IsTrue result ↔ IsDiagram board.now }
{
    has_kings(board) && edge_pawns(board) == 0
}

/// The board that a placement spells, or the first fault that it has.
#[tactic(auto, unfolding(crate::specs::PlacementText::read_placement))]
pub fn read_placement(text: &[u8]) -> Result<Board, FenFault>
    ensures { result ≡ read_placement text.now }
{
    if !ranks_fit(text) {
        return Err(FenFault::Rank);
    }
    if !letters_fit(text) {
        return Err(FenFault::Letter);
    }
    let board = place(text);
    if !has_kings(&board) {
        return Err(FenFault::Kings);
    }
    if edge_pawns(&board) != 0 {
        return Err(FenFault::PawnRank);
    }
    Ok(board)
}
