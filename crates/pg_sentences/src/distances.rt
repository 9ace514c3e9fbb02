//! What the men of a colour need by travel, of many positions and one diagram.

use pg_board::{Board, Color, Kind, Man, Square, SquareSet};
use pg_fen::Diagram;
use pg_position::{Position, Wing, king_crossed, king_home, king_target, rook_home};
use pg_travel::{Ways, distance};

// No man of a kind comes from a square.
const NONE: u8 = 255;

// The kinds by their numbers.
pub(crate) const KINDS: [Kind; 6] = [
    Kind::Pawn,
    Kind::Knight,
    Kind::Bishop,
    Kind::Rook,
    Kind::Queen,
    Kind::King,
];

// The distances to the colour's first sixteen men of a diagram, in the order of their squares: 255 for none, and 0
// where there are not so many men.
type Row = [u8; 16];

// A row for each kind and each square.
type Rows = [Row; 384];

/// The distances of each man on each square to the men of its colour in a diagram, for the words of many nodes: 768
/// rows of 16 bytes, made once.
#[derive(Drop)]
pub struct Distances {
    goal: Board,
    white: Rows,
    black: Rows,
    // By which price lists of travel are tested, where they were met.
    tested_by: Option<pg_travel::Rows>,
}

// For each kind the squares whose rows are written.
type Known = [SquareSet; 6];

/// Distances as [`Distances`] has them, of which the row of a man on a square is written when he is first asked for: a
/// page with few cuts asks for few of them.
#[derive(Drop)]
pub struct GrowingDistances {
    distances: Distances,
    white: Known,
    black: Known,
}

// What a colour needs, beside what it has: no more than that; more than any number, and the first man of the diagram
// that comes from nowhere; or more in each way.
#[derive(Clone, Copy)]
pub(crate) enum Need {
    Within,
    Nowhere(Option<(Man, Square)>),
    Beyond(Ways),
}

// The distance of a man as a row has it.
fn steps(man: Man, from: Square, goal: &Board, to: Square) -> u8 {
    let Some(target) = goal.get(to) else {
        return NONE;
    };
    // Only a pawn comes to be of another kind.
    if man.kind != Kind::Pawn && man.kind != target.kind {
        return NONE;
    }
    match distance(man, from, target.kind, to) {
        Some(steps) => steps,
        None => NONE,
    }
}

// The row of a man on a square.
fn row_of(man: Man, from: Square, goal: &Board) -> Row {
    let mut row = [0; 16];
    let mut left = goal.squares_of_color(man.color);
    for i in 0..16usize {
        let Some(to) = left.pop_first() else {
            return row;
        };
        row[i] = steps(man, from, goal, to);
    }
    row
}

// Where the row of a man of a kind on a square stands.
#[inline(always)]
fn place_of(kind: Kind, from: Square) -> usize {
    64 * usize::from(kind.number()) + usize::from(from.index())
}

// Writes the rows of a man on these squares. Seldom called: most rows that a cut wants are known.
#[inline(never)]
fn fill(man: Man, squares: SquareSet, goal: &Board, rows: &mut Rows) {
    let mut left = squares;
    for _ in 0..64u8 {
        let Some(from) = left.pop_first() else {
            return;
        };
        if let Some(row) = rows.get_mut(place_of(man.kind, from)) {
            *row = row_of(man, from, goal);
        }
    }
}

// Writes the rows of a colour.
fn fill_all(color: Color, goal: &Board, rows: &mut Rows) {
    for kind in KINDS {
        fill(Man::new(color, kind), SquareSet::full(), goal, rows);
    }
}

// The squares from which men like this one count in some way at a position: where they stand, and where castling brings
// kings and rooks.
fn wanted(position: &Position, man: Man) -> SquareSet {
    let here = position.board().squares_of(man);
    match man.kind {
        Kind::King => {
            here | SquareSet::single(king_target(man.color, Wing::KingSide))
                | SquareSet::single(king_target(man.color, Wing::QueenSide))
        }
        Kind::Rook => {
            here | SquareSet::single(king_crossed(man.color, Wing::KingSide))
                | SquareSet::single(king_crossed(man.color, Wing::QueenSide))
        }
        _ => here,
    }
}

// Writes the rows that a colour's men want at a position, but for those that are known.
fn reckon(color: Color, position: &Position, goal: &Board, rows: &mut Rows, known: &mut Known) {
    for kind in KINDS {
        let man = Man::new(color, kind);
        if let Some(known) = known.get_mut(usize::from(kind.number())) {
            let missing = wanted(position, man) - *known;
            if !missing.is_empty() {
                fill(man, missing, goal, rows);
                *known = *known | missing;
            }
        }
    }
}

// The lesser numbers of two rows.
#[inline(always)]
fn lesser(a: Row, b: &Row) -> Row {
    let mut least = [0; 16];
    for i in 0..16usize {
        least[i] = a[i].min(b[i]);
    }
    least
}

// A row with a man more, who comes from a square.
#[inline(always)]
fn with_man(rows: &Rows, kind: Kind, from: Square, row: Row) -> Row {
    match rows.get(place_of(kind, from)) {
        Some(other) => lesser(row, other),
        None => row,
    }
}

// A row with the men of a kind more. One way out of the loop alone, since with two the row is kept in memory.
#[inline(always)]
fn with_men(rows: &Rows, kind: Kind, men: SquareSet, row: Row) -> Row {
    let mut row = row;
    let mut left = men;
    for _ in 0..men.len() {
        if let Some(from) = left.pop_first() {
            let next = with_man(rows, kind, from, row);
            row = next;
        }
    }
    row
}

// A row with the colour's men of a kind more, of those that stand on these squares.
#[inline(always)]
fn with_kind(rows: &Rows, board: &Board, man: Man, squares: SquareSet, row: Row) -> Row {
    with_men(rows, man.kind, board.squares_of(man) & squares, row)
}

// A row with all of the colour's men on these squares more.
fn with_all(rows: &Rows, board: &Board, color: Color, squares: SquareSet, row: Row) -> Row {
    let row = with_kind(rows, board, Man::new(color, Kind::Pawn), squares, row);
    let row = with_kind(rows, board, Man::new(color, Kind::Knight), squares, row);
    let row = with_kind(rows, board, Man::new(color, Kind::Bishop), squares, row);
    let row = with_kind(rows, board, Man::new(color, Kind::Rook), squares, row);
    let row = with_kind(rows, board, Man::new(color, Kind::Queen), squares, row);
    with_kind(rows, board, Man::new(color, Kind::King), squares, row)
}

// The value of a way, of which these are the least distances, and that castles or does not; none where one is missing.
fn value(row: &Row, charge: u16) -> Option<u16> {
    let mut sum = charge;
    let mut most = 0u8;
    for i in 0..16usize {
        most = most.max(row[i]);
        sum = sum.saturating_add(u16::from(row[i]));
    }
    if most == NONE { None } else { Some(sum) }
}

// Whether a number that may be missing is less than another one, which is more than any where it is missing.
fn is_less(a: Option<u16>, b: Option<u16>) -> bool {
    match (a, b) {
        (Some(a), Some(b)) => a < b,
        (Some(_), None) => true,
        (None, _) => false,
    }
}

// Whether a need is no more than so many plies.
fn is_within(need: Option<u16>, plies: u8) -> bool {
    match need {
        Some(need) => need <= u16::from(plies),
        None => false,
    }
}

impl Distances {
    /// The distances to the men of a diagram.
    pub fn new(diagram: &Diagram) -> Distances {
        let goal = diagram.board();
        let mut distances = Distances::unfilled(goal);
        fill_all(Color::White, &goal, &mut distances.white);
        fill_all(Color::Black, &goal, &mut distances.black);
        distances.tested_by = Some(pg_travel::Rows::new(diagram));
        distances
    }

    // With rows that are not written yet. They are written where they lie: apart they would take as much of the stack
    // again.
    fn unfilled(goal: Board) -> Distances {
        Distances {
            goal,
            white: [[0; 16]; 384],
            black: [[0; 16]; 384],
            tested_by: None,
        }
    }

    // The rows by which price lists of travel are tested, if they were made.
    pub(crate) fn tested_by(&self) -> &Option<pg_travel::Rows> {
        &self.tested_by
    }

    // Whether they are of this diagram, and have all men of the colour.
    pub(crate) fn has_all_men_of(&self, diagram: &Diagram, color: Color) -> bool {
        self.goal == diagram.board() && self.goal.squares_of_color(color).len() <= 16
    }

    // The rows of a colour.
    fn rows(&self, color: Color) -> &Rows {
        match color {
            Color::White => &self.white,
            Color::Black => &self.black,
        }
    }

    // The value of a castling way, where its right is held and it may be less than that of a way without castling,
    // whose least distances are these: king and rook count where castling brings them, and the other men where they
    // stand. A right is held only with king and rook at home.
    fn castled(
        &self,
        position: &Position,
        color: Color,
        wing: Wing,
        all: Row,
        free: Option<u16>,
    ) -> Option<u16> {
        if !position.rights().holds(color, wing) {
            return None;
        }
        // With all men, also where they stand, no man is farther off than in the way itself.
        let row = self.with_castled(color, wing, all);
        if !is_less(value(&row, 1), free) {
            return None;
        }
        let moved = SquareSet::single(king_home(color)) | SquareSet::single(rook_home(color, wing));
        let others = SquareSet::full() - moved;
        let row = with_all(
            self.rows(color),
            &position.board(),
            color,
            others,
            [NONE; 16],
        );
        value(&self.with_castled(color, wing, row), 1)
    }

    // A row with king and rook more, where castling brings them.
    fn with_castled(&self, color: Color, wing: Wing, row: Row) -> Row {
        let rows = self.rows(color);
        let row = with_man(rows, Kind::King, king_target(color, wing), row);
        with_man(rows, Kind::Rook, king_crossed(color, wing), row)
    }

    // What a colour needs, where it is more than so many plies.
    pub(crate) fn need_beyond(&self, position: &Position, color: Color, plies: u8) -> Need {
        let rows = self.rows(color);
        let all = with_all(
            rows,
            &position.board(),
            color,
            SquareSet::full(),
            [NONE; 16],
        );
        let free = value(&all, 0);
        if is_within(free, plies) {
            return Need::Within;
        }
        // A king and a rook come to each square from any other. So where a man cannot come to be, castling, which moves
        // no other men, changes nothing.
        if free.is_none() {
            return Need::Nowhere(self.unreached(color, &all));
        }
        Need::Beyond(Ways {
            free,
            short: self.castled(position, color, Wing::KingSide, all, free),
            long: self.castled(position, color, Wing::QueenSide, all, free),
        })
    }

    // The first man of the colour in the diagram, of sixteen, that no man comes to be, of whom these are the least
    // distances.
    fn unreached(&self, color: Color, row: &Row) -> Option<(Man, Square)> {
        let mut left = self.goal.squares_of_color(color);
        for i in 0..16usize {
            let Some(square) = left.pop_first() else {
                return None;
            };
            if row[i] == NONE {
                return match self.goal.get(square) {
                    Some(man) => Some((man, square)),
                    None => None,
                };
            }
        }
        None
    }
}

impl GrowingDistances {
    /// The distances to the men of a diagram, none of them written yet.
    pub fn new(diagram: &Diagram) -> GrowingDistances {
        GrowingDistances {
            distances: Distances::unfilled(diagram.board()),
            white: [SquareSet::empty(); 6],
            black: [SquareSet::empty(); 6],
        }
    }

    // Those of the men of a position are written, where they are not yet.
    pub(crate) fn meet(&mut self, position: &Position) {
        let goal = self.distances.goal;
        reckon(
            Color::White,
            position,
            &goal,
            &mut self.distances.white,
            &mut self.white,
        );
        reckon(
            Color::Black,
            position,
            &goal,
            &mut self.distances.black,
            &mut self.black,
        );
    }

    // The rows by which price lists of travel are tested are made, where they are not yet.
    pub(crate) fn meet_prices(&mut self, diagram: &Diagram) {
        if self.distances.tested_by.is_none() {
            self.distances.tested_by = Some(pg_travel::Rows::new(diagram));
        }
    }

    // The distances, of which those of the men of a position that was met are written.
    pub(crate) fn known(&self) -> &Distances {
        &self.distances
    }
}
