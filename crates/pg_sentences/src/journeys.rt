//! What a cut by journeys says, in numbers.

use crate::distances::KINDS;
use crate::numbers::{Excess, Node, captures_of, own_plies};
use pg_board::{Board, Color, Kind, Man, Square, SquareSet};
use pg_captures::owed;
use pg_journeys::{DeadColor, Facts, LeastCounts, dead_color, least_counts, unreached};

// What the bound by journeys excludes a node by.
#[derive(Clone, Copy)]
pub(crate) enum Obstacle {
    // This pawn of the diagram, on its home rank, does not stand there any more.
    Wall(Square),
    // What excludes the colour by captures.
    Captures(Color, Excess),
    // The colour has no plan.
    Plans(Lack),
}

// What a colour without a plan lacks: the moves that it has, what it needs, and the captures that make it so much, if
// it would have a plan with its men captured where they stand.
#[derive(Clone, Copy)]
pub(crate) struct Lack {
    pub(crate) color: Color,
    pub(crate) own: u8,
    pub(crate) needed: Needed,
    pub(crate) captures: Option<Landing>,
}

// What a colour needs.
#[derive(Clone, Copy)]
pub(crate) enum Needed {
    // No number of moves is enough.
    Endless,
    // Nor for this man of the diagram alone.
    Nobody(Man, Square),
    // More moves than it has.
    Moves(u8),
    // More moves that are no captures than it has beside the captures that it owes.
    QuietMoves { quiet: u8, owed: u8 },
    // Each measure has a way that is enough, and none is enough by both.
    Way,
}

// Where the men of a colour may be captured, how many are to be, and which man or what kind of man that is, if the
// diagram tells it.
#[derive(Clone, Copy)]
pub(crate) struct Landing {
    pub(crate) squares: SquareSet,
    pub(crate) men: u8,
    pub(crate) captured: Captured,
}

// Who is to be captured.
#[derive(Clone, Copy)]
pub(crate) enum Captured {
    The(Kind, Square),
    Some(Kind),
    Anyone,
}

// The squares of a colour's home rank for pawns.
fn home_rank(color: Color) -> SquareSet {
    match color {
        Color::White => SquareSet::of_bits(0x0000_0000_0000_ff00),
        Color::Black => SquareSet::of_bits(0x00ff_0000_0000_0000),
    }
}

// The first pawn of the diagram on its home rank that does not stand there.
fn lost_wall(node: &Node, color: Color) -> Option<Square> {
    let goal = node.diagram.board();
    let pawns = goal.squares_of(Man::new(color, Kind::Pawn)) & home_rank(color);
    (pawns & node.position.board().differing(&goal)).first()
}

// The kind of the one man of a colour who is to be captured, where the diagram tells it: it has one piece of this kind
// less, and as many men of each other kind, so no pawn is captured or promotes.
fn kind_captured(here: &Board, goal: &Board, color: Color) -> Option<Kind> {
    let mut found = None;
    for kind in KINDS {
        let man = Man::new(color, kind);
        let surplus = here.count(man).abs_diff(goal.count(man));
        if surplus > 0 {
            if surplus > 1 || kind == Kind::Pawn || found.is_some() {
                return None;
            }
            found = Some(kind);
        }
    }
    found
}

// Who is to be captured on one of these squares, where the diagram tells it and none of that kind stands there.
fn who_is_captured(node: &Node, color: Color, squares: SquareSet) -> Captured {
    let here = node.position.board();
    let Some(kind) = kind_captured(&here, &node.diagram.board(), color) else {
        return Captured::Anyone;
    };
    let men = here.squares_of(Man::new(color, kind));
    if men.meets(squares) {
        return Captured::Anyone;
    }
    match men.first() {
        Some(square) if men.len() == 1 => Captured::The(kind, square),
        _ => Captured::Some(kind),
    }
}

// The captures that a colour owes; none where it has made too many.
fn owed_men(node: &Node, color: Color) -> u8 {
    let owed = owed(color, node.diagram, node.position);
    if owed > 0 {
        owed.unsigned_abs().min(64) as u8
    } else {
        0
    }
}

// What a colour needs beyond its own moves, of which so many are captures that it owes; none where each measure has
// enough.
fn needed_of(least: &LeastCounts, own: u8, owed: u8) -> Option<Needed> {
    let Some(moves) = least.moves else {
        return Some(Needed::Endless);
    };
    if moves > own {
        return Some(Needed::Moves(moves));
    }
    let Some(quiet) = least.quiet_moves else {
        return Some(Needed::Endless);
    };
    if quiet > own.saturating_sub(owed) {
        return Some(Needed::QuietMoves { quiet, owed });
    }
    None
}

// The facts with which the men of a colour may be captured wherever they may leave.
fn with_captures_anywhere(facts: &Facts, color: Color) -> Facts {
    let anywhere = SquareSet::full() - facts.still;
    match color {
        Color::White => Facts {
            still: facts.still,
            white: facts.white,
            black: anywhere,
        },
        Color::Black => Facts {
            still: facts.still,
            white: anywhere,
            black: facts.black,
        },
    }
}

// Whether a colour would have enough by each measure if its men were captured where they stand.
fn is_enough_without(node: &Node, dead: &DeadColor, own: u8, owed: u8) -> bool {
    let facts = with_captures_anywhere(&dead.facts, dead.color);
    match least_counts(node.diagram, node.position, &facts, dead.color) {
        Some(least) => needed_of(&least, own, owed).is_none(),
        None => false,
    }
}

// The man of the diagram that nobody comes to be, where no number of moves is enough; else what is needed.
fn with_nobody(node: &Node, dead: &DeadColor, needed: Needed) -> Needed {
    if !matches!(needed, Needed::Endless) {
        return needed;
    }
    let Some(square) = unreached(node.diagram, node.position, &dead.facts, dead.color) else {
        return needed;
    };
    match node.diagram.board().get(square) {
        Some(man) => Needed::Nobody(man, square),
        None => needed,
    }
}

// What a colour needs that has no way alive.
fn needed_by(node: &Node, dead: &DeadColor, own: u8, owed: u8) -> Needed {
    let Some(least) = least_counts(node.diagram, node.position, &dead.facts, dead.color) else {
        return Needed::Way;
    };
    match needed_of(&least, own, owed) {
        Some(needed) => with_nobody(node, dead, needed),
        None => Needed::Way,
    }
}

// Where the men of a colour may be captured that has no way alive, if that is what it lacks.
fn landing_of(
    node: &Node,
    dead: &DeadColor,
    needed: &Needed,
    own: u8,
    owed: u8,
) -> Option<Landing> {
    if matches!(needed, Needed::Nobody(_, _) | Needed::Way) {
        return None;
    }
    if !is_enough_without(node, dead, own, owed) {
        return None;
    }
    let squares = dead.facts.lands(dead.color.other());
    Some(Landing {
        squares,
        men: owed_men(node, dead.color.other()),
        captured: who_is_captured(node, dead.color, squares),
    })
}

// What a colour lacks that has no way alive.
fn lack_of(node: &Node, dead: &DeadColor) -> Lack {
    let own = own_plies(node, dead.color);
    let owed = owed_men(node, dead.color);
    let needed = needed_by(node, dead, own, owed);
    Lack {
        color: dead.color,
        own,
        needed,
        captures: landing_of(node, dead, &needed, own, owed),
    }
}

// What captures exclude a colour by that has captured too many men; none where neither has.
fn too_many(node: &Node) -> Option<Obstacle> {
    for color in [Color::White, Color::Black] {
        if let Some(Excess::TooMany(owed)) = captures_of(node, color) {
            return Some(Obstacle::Captures(color, Excess::TooMany(owed)));
        }
    }
    None
}

// The first pawn of the diagram on its home rank, White's first, that does not stand there.
pub(crate) fn lost_pawn(node: &Node) -> Option<Square> {
    match lost_wall(node, Color::White) {
        Some(square) => Some(square),
        None => lost_wall(node, Color::Black),
    }
}

// What the bound by journeys excludes a node by; none where it does not.
pub(crate) fn obstacle_of(node: &Node) -> Option<Obstacle> {
    if let Some(square) = lost_pawn(node) {
        return Some(Obstacle::Wall(square));
    }
    let Some(dead) = dead_color(node.diagram, node.position, node.left) else {
        return too_many(node);
    };
    match captures_of(node, dead.color) {
        Some(excess) => Some(Obstacle::Captures(dead.color, excess)),
        None => Some(Obstacle::Plans(lack_of(node, &dead))),
    }
}
