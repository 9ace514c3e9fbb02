//! What a caller of the board proves with no answer of its own.
ghost use Rattle.std.specs.Prelude.{◌≡◌, ℕ, ◌≢◌, IsSome, Some, None};
ghost use Rattle.pg_board.specs.Men.{color_eq};
ghost use Rattle.pg_board.specs.Placement.{get};
ghost use Rattle.pg_board.specs.Tally.{tally};

use pg_board::{Board, Color, Man, Square};

// The board after the man on `from` goes to `to`.
#[tactic(auto, using(pg_board::specs::lemmas::Placements::gets))]
fn shift(board: &Board, from: Square, to: Square) -> Board
    requires moved { IsSome (get board.now from) }
    requires apart { from ≢ to }
    ensures arrived { get result to ≡ get board.now from }
    ensures left { get result from ≡ None }
    ensures others { (q : ℕ) → q ≢ from → q ≢ to → get result q ≡ get board.now q }
{
    to.index();
    let mut next = *board;
    if let Some(man) = next.take(from) {
        next.put(to, man);
    }
    next
}

// How many men of a colour stand on the board.
#[tactic(auto, using(pg_board::specs::lemmas::Tallies::tallies))]
fn men_of(board: &Board, color: Color) -> u8
    ensures { result ≡ tally (λ _ m. color_eq m.color color) board.now }
{
    let mut n = 0;
    for i in 0..64 {
        if let Some(man) = board.get(Square::at(i)) {
            if man.color == color {
                n += 1;
            }
        }
    }
    n
}

#[test]
#[tactic(auto, using(pg_board::specs::lemmas::Placements::gets))]
fn shifts_and_counts(rt: HostRuntime) {
    let e2 = Square::at(12);
    let e4 = Square::at(28);
    let pawn = Man::new(Color::White, pg_board::Kind::Pawn);
    let mut board = Board::empty();
    board.put(e2, pawn);
    let moved = shift(&board, e2, e4);
    assert!(rt; moved.get(e4) == Some(pawn) && moved.get(e2).is_none());
    assert!(rt; men_of(&moved, Color::White) == 1 && men_of(&moved, Color::Black) == 0);
}
