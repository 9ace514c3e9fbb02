//! Whether a diagram may be one move away.
ghost use Rattle.std.specs.Prelude.{◌≡◌, ◌↔◌, IsTrue, Some, true, false};
ghost use Rattle.pg_position.specs.declared.moves.Move.{Move};
ghost use Rattle.pg_position.specs.Position.{IsPosition};
ghost use Rattle.pg_position.specs.Step.{IsLegal};
ghost use Rattle.pg_moves.specs.Moves.{IsLast};
ghost use Rattle.pg_checker.specs.Differing.{Differ};
ghost use Rattle.pg_checker.specs.inner.Leading.{LeadsOn, HoldsSources, HoldsTargets, PassesMan};
ghost use Rattle.pg_checker.specs.inner.Squares.{HasTwoToFour};
ghost use Rattle.pg_checker.specs.Passing.{AllElsewhere, LeadsElsewhere, LeadsTo, NextLeads, PassesOver};

use pg_board::{Square, SquareSet};
use pg_fen::Diagram;
use pg_moves::LegalMoves;
use pg_position::{Move, Position};

// The squares on which the position is not as the diagram.
fn differing(diagram: &Diagram, position: &Position) -> SquareSet
    ensures differ { Differ position.now.board diagram.now result }
    ensures position { IsPosition position.now }
{
    position.board().differing(&diagram.board())
}

// Whether the set of the squares that differ has two at least and four at most. A legal move changes that
// many: the square which it leaves and that to which it goes, and with castling those of the rook too. So
// no legal move leads to the diagram where the answer is no.
fn may_reach(squares: SquareSet) -> bool
    ensures { IsTrue result ↔ HasTwoToFour squares }
{
    let count = squares.len();
    2 <= count && count <= 4
}

// Whether the move is the one that was handed out last.
fn is_last(last: &Option<Move>, m: &Move) -> bool
    ensures { IsTrue result ↔ (last.now ≡ Some m.now) }
{
    match last {
        Some(last) => *last == *m,
        None => false,
    }
}

// Whether the move is legal and leads to the diagram, and is not the one that was handed out last.
fn plays_to(diagram: &Diagram, position: &Position, last: &Option<Move>, m: &Move) -> bool
    ensures { IsTrue result ↔ LeadsOn diagram.now position.now last.now m.now }
{
    if is_last(last, m) {
        return false;
    }
    match position.play(*m) {
        Ok(next) => diagram.matches(&next),
        Err(_) => false,
    }
}

// Whether a move from one square to another leads to the diagram. Where it promotes, what it becomes
// stands there on the diagram.
fn leads_between(
    diagram: &Diagram,
    position: &Position,
    last: &Option<Move>,
    from: Square,
    to: Square,
) -> bool
    ensures { IsTrue result
        ↔ ((m : Move) × (m.from ≡ from) × (m.to ≡ to) × LeadsOn diagram.now position.now last.now m) }
{
    let plain = Move {
        from,
        to,
        promotion: None,
    };
    if plays_to(diagram, position, last, &plain) {
        return true;
    }
    match diagram.board().get(to) {
        Some(man) => plays_to(
            diagram,
            position,
            last,
            &Move {
                from,
                to,
                promotion: Some(man.kind),
            },
        ),
        None => false,
    }
}

// Whether a move from a square leads to the diagram, to one of these squares.
fn leads_from(
    diagram: &Diagram,
    targets: SquareSet,
    position: &Position,
    last: &Option<Move>,
    from: Square,
) -> bool
    requires targets { HoldsTargets diagram.now position.now targets }
    ensures { IsTrue result ↔ ((m : Move) × (m.from ≡ from) × LeadsOn diagram.now position.now last.now m) }
{
    let mut at = 0;
    while let Some(to) = targets.first_from(at) {
        if leads_between(diagram, position, last, from, to) {
            return true;
        }
        at = to.index() + 1;
    }
    false
}

// Squares that a move which leads to the diagram leaves: of those that differ, the ones with a man of the mover's
// where the diagram has none.
fn sources(diagram: &Diagram, squares: SquareSet, position: &Position) -> SquareSet
    requires squares { Differ position.now.board diagram.now squares }
    ensures { HoldsSources diagram.now position.now result }
{
    let own = squares & position.board().squares_of_color(position.side());
    own - diagram.board().occupied()
}

// Squares that such a move comes to: of those that differ, the ones where the diagram has a man of the mover's.
fn targets(diagram: &Diagram, squares: SquareSet, position: &Position) -> SquareSet
    requires squares { Differ position.now.board diagram.now squares }
    ensures { HoldsTargets diagram.now position.now result }
{
    squares & diagram.board().squares_of_color(position.side())
}

// Whether a legal move leads to the diagram, apart from the one that was handed out last: mostly one does, and once it
// is handed out no further one is to be looked for. A move is tried only from a square that such a move may leave to
// one that it may come to: a trial costs more than both sets.
fn has_leading(
    diagram: &Diagram,
    squares: SquareSet,
    position: &Position,
    last: &Option<Move>,
) -> bool
    requires squares { Differ position.now.board diagram.now squares }
    ensures { IsTrue result ↔ ((m : Move) × LeadsOn diagram.now position.now last.now m) }
{
    let sources = sources(diagram, squares, position);
    let targets = targets(diagram, squares, position);
    let mut at = 0;
    while let Some(from) = sources.first_from(at) {
        if leads_from(diagram, targets, position, last, from) {
            return true;
        }
        at = from.index() + 1;
    }
    false
}

// Whether a legal move leads to the diagram. It is played only where it leaves one of the squares
// that differ.
fn leads(diagram: &Diagram, squares: SquareSet, position: &Position, m: &Move) -> bool
    requires squares { Differ position.now.board diagram.now squares }
    requires legal { IsLegal position.now m.now }
    requires position { IsPosition position.now }
    ensures away { result ≡ false → LeadsElsewhere diagram.now position.now m.now }
    ensures there { result ≡ true → LeadsTo diagram.now position.now m.now }
{
    if !squares.contains(m.from) {
        return false;
    }
    diagram.matches(&position.after(m))
}

/// Whether a legal move leads to the diagram. The position behind it is made only where the squares that differ leave
/// that open.
pub fn leads_to(diagram: &Diagram, position: &Position, m: &Move) -> bool
    requires { IsLegal position.now m.now }
    ensures { IsTrue result ↔ LeadsTo diagram.now position.now m.now }
{
    let squares = differing(diagram, position);
    if may_reach(squares) {
        leads(diagram, squares, position, m)
    } else {
        false
    }
}

// Whether the move that was handed out last leads to the diagram.
fn has_led(diagram: &Diagram, position: &Position, last: &Option<Move>) -> bool
    ensures { IsTrue result ↔ ((m : Move) × (last.now ≡ Some m) × LeadsTo diagram.now position.now m) }
{
    match last {
        Some(m) => plays_to(diagram, position, &None, m),
        None => false,
    }
}

// Passes over the further moves of the man that moved last, as if each was handed out, where he needs no trial: a set
// has them.
#[inline(always)]
fn pass_man(moves: &mut LegalMoves)
    ensures { PassesMan moves.old moves.new }
{
    let Some(rest) = moves.rest_of_man() else {
        return;
    };
    if let Some(to) = rest.last() {
        // A fact for the proof: the square is on the board.
        to.index();
        moves.skip_rest(rest);
    }
}

// Passes over all moves that are left, man by man.
fn pass_all(moves: &mut LegalMoves)
    ensures position { moves.new.position ≡ moves.old.position }
    ensures end { IsLast moves.new.position moves.new.last }
{
    while let Some(_m) = moves.next() {
        pass_man(moves);
    }
}

/// Passes over legal moves that do not lead to the diagram, up to the first that does, and answers
/// whether there is one. It is then the next of the moves.
pub fn skip_to_solution(diagram: &Diagram, moves: &mut LegalMoves) -> bool
    ensures passed { PassesOver diagram.now moves.old moves.new }
    ensures none { result ≡ false → AllElsewhere diagram.now moves.new }
    ensures some { result ≡ true → NextLeads diagram.now moves.new }
    ensures position { IsPosition moves.old.position }
{
    let position = moves.position();
    let squares = differing(diagram, &position);
    if !may_reach(squares) {
        return false;
    }
    let last = moves.last();
    if !has_leading(diagram, squares, &position, &last) {
        // Past the move that leads there the search ends behind the last move, though no further one is tried.
        if has_led(diagram, &position, &last) {
            pass_all(moves);
        }
        return false;
    }
    while let Some(peeked) = moves.peek() {
        if leads(diagram, squares, &position, &peeked.m) {
            return true;
        }
        moves.advance(&peeked);
        if squares.contains(peeked.m.from) {
            continue;
        }
        // Nor do his further moves lead there, from a square that does not differ.
        pass_man(moves);
    }
    false
}
