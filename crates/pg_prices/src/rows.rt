//! The distances of the men of a colour to the squares of a diagram, by kind and square, and the
//! matrices of costs of a board that are made of them.
ghost use Rattle.std.specs.Prelude.{◌≤◌};

use crate::assignment::{Costs, MOST_MEN};
use pg_board::{Board, Color, Kind, Man, Square, SquareSet};
use pg_fen::Diagram;
use pg_position::{Wing, king_crossed, king_home, king_target, last_rank, rook_home};
use pg_travel::distance;
use std::alloc::{AllocError, Global};

/// The cost where a man cannot get to a square.
pub const UNREACHABLE: u8 = 200;

// How many rows there are: one for each kind and square.
const ROWS: usize = 384;

pub(crate) const KINDS: [Kind; 6] = [
    Kind::Pawn,
    Kind::Knight,
    Kind::Bishop,
    Kind::Rook,
    Kind::Queen,
    Kind::King,
];

/// The men of one colour of a diagram, in the order of their squares, at most 16: the targets. For
/// each kind and square of a man of the colour there is a row of its distances to the targets, and for
/// each square of a pawn a row of how many files it has to change to each target that is a pawn. Whether
/// either castling may ever pay is known.
#[derive(Drop)]
pub struct Rows {
    color: Color,
    targets: usize,
    pawn_targets: usize,
    travel: Vec<[u8; MOST_MEN]>,
    pawns: Vec<[u8; MOST_MEN]>,
    short_may_pay: bool,
    long_may_pay: bool,
}

// The targets of a colour: how many, and their squares and kinds.
#[derive(Clone, Copy)]
struct Targets {
    count: usize,
    squares: [u8; MOST_MEN],
    kinds: [Kind; MOST_MEN],
}

// The men of a diagram that a test on kinds lets through, from the first square on.
fn targets_of(board: &Board, color: Color, only_pawns: bool) -> Targets {
    let mut targets = Targets {
        count: 0,
        squares: [0; MOST_MEN],
        kinds: [Kind::Pawn; MOST_MEN],
    };
    let mut count = 0usize;
    for q in 0..64u8 {
        if let Some(man) = board.get(Square::at(q)) {
            let is_meant = man.color == color && (man.kind == Kind::Pawn || !only_pawns);
            if is_meant && count < MOST_MEN {
                targets.squares[count] = q;
                targets.kinds[count] = man.kind;
                count += 1;
            }
        }
    }
    targets.count = count;
    targets
}

// Whether the square is on the last rank of either colour.
fn is_last_rank(square: Square) -> bool {
    let rank = square.rank();
    rank == last_rank(Color::White) || rank == last_rank(Color::Black)
}

// The distances of a man to the targets. No pawn stands on a last rank.
fn travel_row(man: Man, from: Square, targets: &Targets) -> [u8; MOST_MEN] {
    let mut row = [UNREACHABLE; MOST_MEN];
    let is_pawn = man.kind == Kind::Pawn;
    if is_pawn && is_last_rank(from) {
        return row;
    }
    for t in 0..MOST_MEN {
        if t < targets.count && (is_pawn || man.kind == targets.kinds[t]) {
            let to = Square::at(targets.squares[t] % 64);
            if let Some(steps) = distance(man, from, targets.kinds[t], to) {
                row[t] = steps;
            }
        }
    }
    row
}

// How many files a pawn has to change to a square that it can get to.
fn pawn_cost(color: Color, from: u8, to: u8) -> u8 {
    let (file, rank) = (from % 8, from / 8);
    let (new_file, new_rank) = (to % 8, to / 8);
    let files = file.abs_diff(new_file);
    let (behind, ahead) = match color {
        Color::White => (rank, new_rank),
        Color::Black => (new_rank, rank),
    };
    if ahead < behind || ahead - behind < files {
        UNREACHABLE
    } else {
        files
    }
}

// How many files a pawn has to change to the targets, which are pawns.
fn pawn_row(color: Color, from: u8, targets: &Targets) -> [u8; MOST_MEN] {
    let mut row = [UNREACHABLE; MOST_MEN];
    for t in 0..MOST_MEN {
        if t < targets.count {
            row[t] = pawn_cost(color, from, targets.squares[t]);
        }
    }
    row
}

// The place of the first row of a kind.
fn first(kind: Kind) -> usize
    ensures { result ≤ 320 }
{
    64 * usize::from(kind.number())
}

// The place of a row.
fn place(kind: Kind, square: u8) -> usize {
    first(kind) + usize::from(square)
}

// The row at a place, or one of squares that cannot be got to.
fn row_at(rows: &Vec<[u8; MOST_MEN]>, place: usize) -> [u8; MOST_MEN] {
    match rows.get(place) {
        Some(row) => *row,
        None => [UNREACHABLE; MOST_MEN],
    }
}

// The row of a square, behind the first of its kind.
fn row_of(rows: &Vec<[u8; MOST_MEN]>, first: usize, square: Square) -> [u8; MOST_MEN] {
    row_at(rows, first.saturating_add(usize::from(square.index())))
}

// Writes the costs of a source.
fn put_source(costs: &mut Costs, source: usize, row: &[u8; MOST_MEN]) {
    let source = source % MOST_MEN;
    for t in 0..MOST_MEN {
        costs[t][source] = row[t];
    }
}

// How many squares of a set are before this one.
fn number_of(set: SquareSet, square: u8) -> usize {
    let before = (1u64 << (square % 64)).wrapping_sub(1);
    usize::from((set & SquareSet::of_bits(before)).len())
}

// Writes the costs of these men of a board, each as the source with its number among all.
fn put_men(
    costs: &mut Costs,
    rows: &Vec<[u8; MOST_MEN]>,
    first: usize,
    men: SquareSet,
    all: SquareSet,
) {
    let mut men = men;
    for _ in 0..MOST_MEN {
        let Some(square) = men.pop_first() else {
            return;
        };
        if let Some(row) = rows.get(first.saturating_add(usize::from(square.index()))) {
            put_source(costs, number_of(all, square.index()), row);
        }
    }
}

// Lowers numbers to those of a row.
fn lower(least: &mut [u8; MOST_MEN], row: &[u8; MOST_MEN]) {
    for t in 0..MOST_MEN {
        least[t] = least[t].min(row[t]);
    }
}

// The king's home and where it castles to, and the rook's, by their indexes.
fn castled(color: Color, wing: Wing) -> ((u8, u8), (u8, u8)) {
    let king = (king_home(color).index(), king_target(color, wing).index());
    let rook = (
        rook_home(color, wing).index(),
        king_crossed(color, wing).index(),
    );
    (king, rook)
}

// Whether king or rook, when they have castled, is nearer to a target than both are at home. Else no need of travel is
// less with the castling than without.
fn may_pay(rows: &Vec<[u8; MOST_MEN]>, color: Color, wing: Wing) -> bool {
    let ((king, king_to), (rook, rook_to)) = castled(color, wing);
    let mut home = row_at(rows, place(Kind::King, king));
    lower(&mut home, &row_at(rows, place(Kind::Rook, rook)));
    let mut castled = row_at(rows, place(Kind::King, king_to));
    lower(&mut castled, &row_at(rows, place(Kind::Rook, rook_to)));
    for t in 0..MOST_MEN {
        if castled[t] < home[t] {
            return true;
        }
    }
    false
}

impl Rows {
    /// The rows of a colour for a diagram.
    ///
    /// # Errors
    /// Where memory is refused.
    pub fn new(alloc: Global, color: Color, diagram: &Diagram) -> Result<Rows, AllocError> {
        let board = diagram.board();
        let targets = targets_of(&board, color, false);
        let pawn_targets = targets_of(&board, color, true);
        let mut travel = Vec::with_capacity(alloc, ROWS)?;
        for kind in KINDS {
            for q in 0..64u8 {
                travel.push(travel_row(Man::new(color, kind), Square::at(q), &targets))?;
            }
        }
        let mut pawns = Vec::with_capacity(alloc, 64)?;
        for q in 0..64u8 {
            pawns.push(pawn_row(color, q, &pawn_targets))?;
        }
        let short_may_pay = may_pay(&travel, color, Wing::KingSide);
        let long_may_pay = may_pay(&travel, color, Wing::QueenSide);
        Ok(Rows {
            color,
            targets: targets.count,
            pawn_targets: pawn_targets.count,
            travel,
            pawns,
            short_may_pay,
            long_may_pay,
        })
    }

    /// The colour.
    pub fn color(&self) -> Color {
        self.color
    }

    /// How many targets there are.
    pub fn targets(&self) -> usize {
        self.targets
    }

    /// How many targets are pawns.
    pub fn pawn_targets(&self) -> usize {
        self.pawn_targets
    }

    /// The distances of a man of the colour on a square to the targets.
    pub fn distances(&self, kind: Kind, square: Square) -> [u8; MOST_MEN] {
        row_of(&self.travel, first(kind), square)
    }

    // The distances of a king and a rook where they castle to.
    pub(crate) fn castled_distances(&self, wing: Wing) -> ([u8; MOST_MEN], [u8; MOST_MEN]) {
        let ((_, king), (_, rook)) = castled(self.color, wing);
        (
            row_at(&self.travel, place(Kind::King, king)),
            row_at(&self.travel, place(Kind::Rook, rook)),
        )
    }

    // Whether a castling may make a need of travel less.
    pub(crate) fn may_pay(&self, wing: Wing) -> bool {
        match wing {
            Wing::KingSide => self.short_may_pay,
            Wing::QueenSide => self.long_may_pay,
        }
    }

    // The least distances where there is no man: no target is reached.
    pub(crate) fn without_men(&self) -> [u8; MOST_MEN] {
        let mut least = [0; MOST_MEN];
        for t in 0..MOST_MEN {
            if t < self.targets {
                least[t] = UNREACHABLE;
            }
        }
        least
    }

    /// The distances of the colour's men on a board, in the order of their squares, to the targets.
    pub fn travel(&self, board: &Board) -> Costs {
        let mut costs = [[UNREACHABLE; MOST_MEN]; MOST_MEN];
        let all = board.squares_of_color(self.color);
        for kind in KINDS {
            let men = board.squares_of(Man::new(self.color, kind));
            put_men(&mut costs, &self.travel, first(kind), men, all);
        }
        costs
    }

    /// Turns the distances of the colour's men on a board into those of the same men with the king and
    /// a rook, which stand at home, counted on the squares that they castle to.
    pub fn castle(&self, costs: &mut Costs, board: &Board, wing: Wing) {
        let all = board.squares_of_color(self.color);
        let ((king, king_to), (rook, rook_to)) = castled(self.color, wing);
        let row = row_at(&self.travel, place(Kind::King, king_to));
        put_source(costs, number_of(all, king), &row);
        let row = row_at(&self.travel, place(Kind::Rook, rook_to));
        put_source(costs, number_of(all, rook), &row);
    }

    /// How many files the colour's pawns on a board, in the order of their squares, have to change to
    /// the targets that are pawns.
    pub fn pawns(&self, board: &Board) -> Costs {
        let mut costs = [[UNREACHABLE; MOST_MEN]; MOST_MEN];
        let men = board.squares_of(Man::new(self.color, Kind::Pawn));
        put_men(&mut costs, &self.pawns, 0, men, men);
        costs
    }
}
