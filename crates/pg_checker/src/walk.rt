//! The walk over the trees of a certificate, with a stack of open nodes.
ghost use Rattle.std.specs.Prelude.{List, Bool, ◌≡◌, ◌||◌, ◌+◌, ◌<◌, ◌≤◌, ◌++◌, suc, true, false, [], ◌∷◌, length, map};
ghost use Rattle.std.specs.Prelude.{reverse, IfErr, IfSome, MatchOption, OnOk};
ghost use Rattle.pg_checker.specs.Cuts.{rules_for};
ghost use Rattle.pg_position.specs.declared.moves.Move.{Move};
ghost use Rattle.pg_checker.specs.inner.Finds.{Finding, Serves, asked};
ghost use Rattle.pg_checker.specs.inner.Frames.{enter as enter_of, finish, turn_top, Stacked};
ghost use Rattle.pg_checker.specs.Whole.{run as run_of};
ghost use Rattle.pg_position.specs.Array.{array_state};
ghost use Rattle.pg_checker.specs.inner.Halting.{Because, cause_with, causes, full, stops};
ghost use Rattle.pg_checker.specs.inner.Judging.{LeafSays};
ghost use Rattle.pg_checker.specs.inner.Machine.{Closes, GoesOn, HasNone, IsReady, LeadTo, OnTop, Passed, Plays};
ghost use Rattle.pg_checker.specs.inner.Machine.{Visits, Walks, Works, entered, entry_of, fresh, game_at, named_at};
ghost use Rattle.pg_checker.specs.inner.Machine.{path, point_at, stack_at};
ghost use Rattle.pg_checker.specs.inner.Telling.{StopTells};
ghost use Rattle.pg_checker.specs.Spots.{IsReached, spot_of};
ghost use Rattle.pg_checker.specs.Tree.{one_if};
ghost use Rattle.pg_checker.specs.Walk.{leaf as leaf_of, visit};

use crate::finds::{Finds, counts};
use crate::halt::{Halt, Reason};
use crate::machine::{Frame, Machine, Opening, Question, Stack, game_along};
use crate::nearness::skip_to_solution;
use crate::node::judge_next;
use crate::spot::{Child, Spot};
use crate::table::{Entry, Table};
use crate::watch::CheckWatch;
use arrayvec::ArrayVec;
use pg_certificate::Source;
use pg_fen::Diagram;
use pg_moves::LegalMoves;
use pg_position::Position;

// A node with no ply left, in the tree of a length: whether its placement is the diagram. Where it
// is, the length must be the stated one and the game must be listed, or it is kept.
fn leaf(
    question: &Question,
    tree: u8,
    frames: &[Frame],
    position: &Position,
    finds: &mut Finds,
) -> Result<bool, Reason>
    requires few { length frames.now ≤ 128 }
    requires depth { length frames.now ≡ tree }
    requires within { tree ≤ question.now.plies }
    requires played { LeadTo (reverse frames.now) position.now }
    ensures says { (listed : List Move → Bool) → Serves (asked question.now.games) finds.new listed → LeafSays
        (causes (path (reverse frames.now)) result)
        (leaf_of (rules_for code_of excluded question.now listed) tree (path (reverse frames.now)) position.now) }
    ensures tells { IfErr result (λ r. StopTells question.now.diagram.now question.now.plies (asked question.now.games)
        (Because (cause_with (path (reverse frames.now)) r))) }
    ensures finds { Finding question.now.diagram.now question.now.plies finds.old finds.new }
{
    if !question.diagram.matches(position) {
        return Ok(false);
    }
    if tree != question.plies {
        return Err(Reason::Shorter(tree));
    }
    let game = game_along(frames);
    if counts(question.games, game.as_slice(), finds) {
        Ok(true)
    } else {
        Err(Reason::Unlisted)
    }
}

// The same of a node: a function of its own, so that a node which ends at once pays for no position.
#[inline(never)]
fn leaf_there(
    question: &Question,
    tree: u8,
    frames: &[Frame],
    spot: &Spot,
    finds: &mut Finds,
) -> Result<bool, Reason>
    requires reached { IsReached spot.now }
    requires few { length frames.now ≤ 128 }
    requires depth { length frames.now ≡ tree }
    requires within { tree ≤ question.now.plies }
    requires played { LeadTo (reverse frames.now) (spot_of spot.now) }
    ensures says { (listed : List Move → Bool) → Serves (asked question.now.games) finds.new listed → LeafSays
        (causes (path (reverse frames.now)) result)
        (leaf_of (rules_for code_of excluded question.now listed) tree (path (reverse frames.now)) (spot_of spot.now)) }
    ensures tells { IfErr result (λ r. StopTells question.now.diagram.now question.now.plies (asked question.now.games)
        (Because (cause_with (path (reverse frames.now)) r))) }
    ensures finds { Finding question.now.diagram.now question.now.plies finds.old finds.new }
{
    leaf(question, tree, frames, &spot.position(), finds)
}

// A node with `plies` plies left below it opens: all its moves are still to be played.
fn open_at(position: &Position, plies: u8, named: bool, frames: &mut ArrayVec<Frame, 128>)
    requires { length frames.old.items < 128 }
    ensures { frames.new.items ≡ frames.old.items ++ (fresh position.now plies named ∷ []) }
{
    frames.push(Frame {
        moves: LegalMoves::new(position),
        plies,
        named,
        fertile: false,
    });
}

// The same of a node.
#[inline(never)]
fn open_node(spot: &Spot, plies: u8, named: bool, frames: &mut ArrayVec<Frame, 128>)
    requires reached { IsReached spot.now }
    requires room { length frames.old.items < 128 }
    ensures { frames.new.items ≡ frames.old.items ++ (fresh (spot_of spot.now) plies named ∷ []) }
{
    open_at(&spot.position(), plies, named, frames);
}

// A leaf on the diagram is told of.
fn tell_leaf<W: CheckWatch>(fertile: bool, spot: &Spot, watch: &mut W)
    requires { IsReached spot.now }
{
    if fertile {
        watch.ended(spot);
    }
}

// A node is entered: it ends at once, or it is open from now on.
fn enter<S: Source, W: CheckWatch>(
    question: &Question,
    tree: u8,
    child: &Child,
    machine: &mut Machine,
    source: &mut S,
    watch: &mut W,
) -> Result<(), Halt>
    requires reached { IsReached child.now.spot }
    requires depth { child.now.plies + length machine.old.stack.frames.items ≡ tree }
    requires played { LeadTo (reverse machine.old.stack.frames.items) (spot_of child.now.spot) }
    requires limit { tree ≤ 128 }
    requires within { tree ≤ question.now.plies }
    requires ready { IsReady question.now.version machine.old }
    ensures says { (listed : List Move → Bool) → Serves (asked question.now.games) machine.new.finds listed
        → Works (rules_for code_of excluded question.now listed) machine.old machine.new
        (S.left source.old) (S.left source.new)
        (λ r. enter_of r tree child.now.plies (game_at machine.old.stack) (spot_of child.now.spot)
        (stack_at machine.old.stack)) result }
    ensures keeps { GoesOn question.now.version machine.old machine.new
        (S.left source.old) (S.left source.new) (S.has_failed source.new) result }
    ensures tells { IfErr result (λ h. StopTells question.now.diagram.now question.now.plies (asked question.now.games)
        (full (game_at machine.new.stack) h)) }
    ensures finds { Finding question.now.diagram.now question.now.plies machine.old.finds machine.new.finds }
{
    if child.plies == 0 {
        let frames = machine.stack.frames.as_slice();
        return match leaf_there(question, tree, frames, &child.spot, &mut machine.finds) {
            Ok(fertile) => {
                tell_leaf(fertile, &child.spot, watch);
                machine.stack.fertile = fertile;
                Ok(())
            }
            Err(reason) => Err(Halt::Because(reason)),
        };
    }
    match judge_next(
        question,
        &mut machine.input,
        &mut machine.names,
        source,
        child,
        watch,
    ) {
        Ok(Opening::Done) => {
            machine.stack.fertile = false;
            Ok(())
        }
        Ok(Opening::Opened(named)) => {
            machine.stack.fertile = false;
            open_node(
                &child.spot,
                child.plies - 1,
                named,
                &mut machine.stack.frames,
            );
            Ok(())
        }
        Err(halt) => Err(halt),
    }
}

// A node with `plies` plies left below it closes: a named one is entered in the table.
fn close(position: &Position, plies: u8, named: bool, fertile: bool, table: &mut Table)
    requires few { plies < 128 }
    requires kept { one_if named ≤ table.old.kept }
    ensures entries { map entry_of table.new.entries
        ≡ map entry_of table.old.entries ++ entered named
        (record { position = position.now; plies = suc plies; fertile = fertile }) }
    ensures kept { table.new.kept + one_if named ≡ table.old.kept }
{
    if named {
        table.close(Entry {
            position: position.packed(),
            plies: plies + 1,
            fertile,
        });
    }
}

// Whether either is true. A call, since `||` would part the proof of what follows into two ways.
fn either(a: bool, b: bool) -> bool
    ensures { result ≡ (a || b) }
{
    a || b
}

// The topmost node closes.
#[inline(never)]
fn close_top<W: CheckWatch>(tree: u8, stack: &mut Stack, table: &mut Table, watch: &mut W)
    requires open { 0 < length stack.old.frames.items }
    requires stacked { Stacked tree (stack_at stack.old) }
    requires limit { tree ≤ 128 }
    requires kept { table.old.kept ≡ named_at stack.old }
    ensures { Closes stack.old stack.new table.old table.new }
{
    if let Some(top) = stack.frames.pop() {
        let fertile = either(top.fertile, stack.fertile);
        let position = top.moves.position();
        watch.closed(&position, top.plies.saturating_add(1), top.named);
        close(&position, top.plies, top.named, fertile, table);
        stack.fertile = fertile;
    }
}

// The next move of an open node is played, and what its last child said is kept with it. None where
// no move is left: then nothing changes.
#[inline(always)]
fn play_on(top: &mut Frame, fertile: bool) -> Option<Child>
    ensures plays { MatchOption result
        (HasNone top.old top.new)
        (λ child. Plays fertile (spot_of child.spot) child.plies top.old top.new) }
    ensures reached { IfSome result (λ child. IsReached child.spot) }
{
    let m = top.moves.next()?;
    top.fertile = either(top.fertile, fertile);
    let from = top.moves.position();
    // A fact for the proof: it is a position.
    from.side();
    Some(Child {
        spot: Spot { from, m: Some(m) },
        plies: top.plies,
    })
}

// The next move of the topmost node is played.
#[inline(always)]
fn play_top(frames: &mut ArrayVec<Frame, 128>, fertile: bool) -> Option<Child>
    requires { 0 < length frames.old.items }
    ensures plays { MatchOption result
        (OnTop HasNone frames.old.items frames.new.items)
        (λ child. OnTop (Plays fertile (spot_of child.spot) child.plies) frames.old.items frames.new.items) }
    ensures reached { IfSome result (λ child. IsReached child.spot) }
{
    let last = frames.len() - 1;
    match frames.get_mut(last) {
        Some(top) => play_on(top, fertile),
        None => None,
    }
}

// One turn: the next move of the topmost node is played, or the node closes.
fn turn<S: Source, W: CheckWatch>(
    question: &Question,
    tree: u8,
    machine: &mut Machine,
    source: &mut S,
    watch: &mut W,
) -> Result<(), Halt>
    requires open { 0 < length machine.old.stack.frames.items }
    requires stacked { Stacked tree (stack_at machine.old.stack) }
    requires limit { tree ≤ 128 }
    requires within { tree ≤ question.now.plies }
    requires ready { IsReady question.now.version machine.old }
    ensures says { (listed : List Move → Bool) → Serves (asked question.now.games) machine.new.finds listed
        → Works (rules_for code_of excluded question.now listed) machine.old machine.new
        (S.left source.old) (S.left source.new)
        (λ r. turn_top r tree (stack_at machine.old.stack) machine.old.stack.fertile) result }
    ensures keeps { GoesOn question.now.version machine.old machine.new
        (S.left source.old) (S.left source.new) (S.has_failed source.new) result }
    ensures tells { IfErr result (λ h. StopTells question.now.diagram.now question.now.plies (asked question.now.games)
        (full (game_at machine.new.stack) h)) }
    ensures finds { Finding question.now.diagram.now question.now.plies machine.old.finds machine.new.finds }
{
    let fertile = machine.stack.fertile;
    match play_top(&mut machine.stack.frames, fertile) {
        Some(child) => enter(question, tree, &child, machine, source, watch),
        None => {
            close_top(tree, &mut machine.stack, &mut machine.names.table, watch);
            Ok(())
        }
    }
}

// Whether no move that is left at an open node leads on: its children are leaves, none of them on
// the diagram. Such moves are passed over.
fn is_over(diagram: &Diagram, top: &mut Frame) -> bool
    ensures { Passed diagram.now result top.old top.new }
{
    if top.plies > 0 {
        return false;
    }
    !skip_to_solution(diagram, &mut top.moves)
}

// Whether the topmost node is over in that sense.
#[inline(always)]
fn is_top_over(diagram: &Diagram, frames: &mut ArrayVec<Frame, 128>) -> bool
    requires { 0 < length frames.old.items }
    ensures { OnTop (Passed diagram.now result) frames.old.items frames.new.items }
{
    let last = frames.len() - 1;
    match frames.get_mut(last) {
        Some(top) => is_over(diagram, top),
        None => false,
    }
}

// Turns until no node is open. Leaves that are not on the diagram are passed over.
fn run<S: Source, W: CheckWatch>(
    question: &Question,
    tree: u8,
    machine: &mut Machine,
    source: &mut S,
    watch: &mut W,
) -> Result<(), Halt>
    requires stacked { Stacked tree (stack_at machine.old.stack) }
    requires limit { tree ≤ 128 }
    requires within { tree ≤ question.now.plies }
    requires ready { IsReady question.now.version machine.old }
    ensures says { (listed : List Move → Bool) → Serves (asked question.now.games) machine.new.finds listed
        → Visits machine.old machine.new (S.left source.old) (S.left source.new)
        (λ s. finish (rules_for code_of excluded question.now listed) tree
        (record { frames = stack_at machine.old.stack; found = machine.old.stack.fertile; state = s })) result }
    ensures closed { OnOk result (machine.new.stack.frames.items ≡ []) }
    ensures keeps { GoesOn question.now.version machine.old machine.new
        (S.left source.old) (S.left source.new) (S.has_failed source.new) result }
    ensures tells { IfErr result (λ h. StopTells question.now.diagram.now question.now.plies (asked question.now.games)
        (full (game_at machine.new.stack) h)) }
    ensures finds { Finding question.now.diagram.now question.now.plies machine.old.finds machine.new.finds }
{
    while !machine.stack.frames.is_empty() {
        if is_top_over(question.diagram, &mut machine.stack.frames) {
            close_top(tree, &mut machine.stack, &mut machine.names.table, watch);
            continue;
        }
        match turn(question, tree, machine, source, watch) {
            Ok(()) => {}
            Err(halt) => return Err(halt),
        }
    }
    Ok(())
}

// The tree of one length.
fn tree_of<S: Source, W: CheckWatch>(
    question: &Question,
    tree: u8,
    machine: &mut Machine,
    source: &mut S,
    watch: &mut W,
) -> Result<(), Halt>
    requires limit { tree ≤ 128 }
    requires within { tree ≤ question.now.plies }
    requires closed { machine.old.stack.frames.items ≡ [] }
    requires ready { IsReady question.now.version machine.old }
    ensures says { (listed : List Move → Bool) → Serves (asked question.now.games) machine.new.finds listed
        → Visits machine.old machine.new (S.left source.old) (S.left source.new)
        (visit (rules_for code_of excluded question.now listed) tree tree [] array_state) result }
    ensures closed { OnOk result (machine.new.stack.frames.items ≡ []) }
    ensures keeps { GoesOn question.now.version machine.old machine.new
        (S.left source.old) (S.left source.new) (S.has_failed source.new) result }
    ensures tells { IfErr result (λ h. StopTells question.now.diagram.now question.now.plies (asked question.now.games)
        (full (game_at machine.new.stack) h)) }
    ensures finds { Finding question.now.diagram.now question.now.plies machine.old.finds machine.new.finds }
{
    let root = Child {
        spot: Spot {
            from: Position::array(),
            m: None,
        },
        plies: tree,
    };
    watch.began(tree);
    match enter(question, tree, &root, machine, source, watch) {
        Ok(()) => run(question, tree, machine, source, watch),
        Err(halt) => Err(halt),
    }
}

// The trees of all lengths from 0 to the stated one.
pub(crate) fn all_trees<S: Source, W: CheckWatch>(
    question: &Question,
    machine: &mut Machine,
    source: &mut S,
    watch: &mut W,
) -> Result<(), Halt>
    requires limit { question.now.plies ≤ 128 }
    requires closed { machine.old.stack.frames.items ≡ [] }
    requires ready { IsReady question.now.version machine.old }
    ensures says { (listed : List Move → Bool) → Serves (asked question.now.games) machine.new.finds listed
        → Walks (point_at machine.old (S.left source.old)) (point_at machine.new (S.left source.new))
        (run_of (rules_for code_of excluded question.now listed) (suc question.now.plies) 0 array_state)
        (λ _ s. s) (stops (game_at machine.new.stack) result) }
    ensures keeps { GoesOn question.now.version machine.old machine.new
        (S.left source.old) (S.left source.new) (S.has_failed source.new) result }
    ensures tells { IfErr result (λ h. StopTells question.now.diagram.now question.now.plies (asked question.now.games)
        (full (game_at machine.new.stack) h)) }
    ensures finds { Finding question.now.diagram.now question.now.plies machine.old.finds machine.new.finds }
{
    let mut tree: u8 = 0;
    loop {
        match tree_of(question, tree, machine, source, watch) {
            Ok(()) => {}
            Err(halt) => return Err(halt),
        }
        if tree >= question.plies {
            return Ok(());
        }
        tree += 1;
    }
}
