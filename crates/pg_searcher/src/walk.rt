//! The search through the trees of all lengths, with a stack of open nodes.
ghost use Rattle.std.specs.Prelude.{◌≡◌, ◌+◌, ◌<◌, ◌≤◌, OnOk, IfOk, IfSome};
ghost use Rattle.pg_position.specs.Step.{IsLegal};

use crate::ends::{end, last_node, leaves};
use crate::fault::SearchFault;
use crate::judge::{CutBy, Judge};
use crate::machine::{
    Findings, Frame, Frames, Machine, Names, Opened, Output, Question, Recorder, open_frames,
    put_frame,
};
use crate::nearing::{may_be_near, may_lead};
use crate::node::{Uncut, child, enter};
use crate::outlook::{Mover, Outlook, Plain};
use crate::progress::SearchProgress;
use crate::tolled::keys_of;
use pg_board::SquareSet;
use pg_certificate::Sink;
use pg_fen::Diagram;
use pg_moves::{LegalMoves, count_legal};
use pg_position::{Move, Position};
use pg_san::Games;

// Each loop has a bound, and refuses the budget where it comes to it. None does: no position has 65,535 moves,
// and no run takes 2^64 - 1 turns.

// The frame of a node that opens with `left` plies left.
fn frame_of(judge: &Judge, opened: &Opened, left: u8) -> Frame {
    Frame {
        moves: LegalMoves::new(&opened.position),
        outlook: judge.outlook(&opened.position, &opened.sides, left),
        key: opened.key,
        named: opened.named,
        fertile: false,
    }
}

// A node closes. Whether a game below it ends on the diagram is told from now on.
fn close(top: &Frame, names: &mut Names, findings: &mut Findings) -> Result<(), SearchFault> {
    findings.fertile = findings.fertile || top.fertile;
    if !top.named {
        return Ok(());
    }
    match names.close(top.key, findings.fertile) {
        Ok(()) => Ok(()),
        Err(_) => Err(SearchFault::Memory),
    }
}

// The topmost node closes.
fn close_top(frames: &Frames, machine: &mut Machine) -> Result<(), SearchFault>
    ensures open { machine.new.open ≤ machine.old.open }
{
    machine.open = machine.open.saturating_sub(1);
    let names = &mut machine.recorder.output.names;
    match frames.get(usize::from(machine.open)) {
        Some(top) => close(top, names, &mut machine.findings),
        None => Ok(()),
    }
}

// The nodes after the further moves of the man that moved last, with one ply left, are visited all at once, where he
// stood off these squares and all of them may be visited; else they are played one by one.
fn expand_rest<W: Sink>(
    squares: SquareSet,
    moves: &mut LegalMoves,
    m: &Move,
    output: &mut Output,
    sink: &mut W,
) -> Result<(), SearchFault>
    ensures same { moves.new.position ≡ moves.old.position }
{
    if squares.contains(m.from) {
        return Ok(());
    }
    let Some(rest) = moves.rest_of_man() else {
        return Ok(());
    };
    let count = u64::from(rest.len());
    if !output.budget.visit_all(count) {
        return Ok(());
    }
    moves.skip_rest(rest);
    output.expansions(count, sink)
}

// The nodes after all moves of a node with two plies left are visited at once, where no game ends on the diagram below
// it and all of them may be visited; whether they were is the answer.
fn expand_all<W: Sink>(
    diagram: &Diagram,
    position: &Position,
    output: &mut Output,
    sink: &mut W,
) -> Result<bool, SearchFault> {
    if may_lead(diagram, position) {
        return Ok(false);
    }
    let count = count_legal(position);
    if !output.budget.visit_all(count) {
        return Ok(false);
    }
    output.expansions(count, sink)?;
    Ok(true)
}

// The leaf on the diagram below the node after a move of a man on one of these squares, with one ply left.
fn end_after(
    question: &Question,
    frames: &[Frame],
    findings: &mut Findings,
    position: &Position,
    squares: SquareSet,
    m: &Move,
) -> Result<(), SearchFault>
    requires legal { IsLegal position.now m.now }
{
    if squares.contains(m.from) && may_be_near(question.diagram, position, m) {
        leaves(question, frames, findings, &Some(*m), &position.after(m))
    } else {
        Ok(())
    }
}

// The moves of a node with two plies left are played one by one. After a move of a man on a square where the placements
// agree no further one leads to the diagram (`may_lead`).
fn play_each<W: Sink>(
    question: &Question,
    position: &Position,
    frames: &[Frame],
    findings: &mut Findings,
    output: &mut Output,
    sink: &mut W,
) -> Result<(), SearchFault> {
    let squares = position.board().differing(&question.diagram.board());
    let mut moves = LegalMoves::new(position);
    for _ in 0..u16::MAX {
        let Some(m) = moves.next() else {
            return Ok(());
        };
        last_node(output, sink)?;
        end_after(question, frames, findings, position, squares, &m)?;
        expand_rest(squares, &mut moves, &m, output, sink)?;
    }
    Err(SearchFault::Budget)
}

// The moves of the topmost of the open nodes, with two plies left, are played, and it is ready to close.
fn play_last_two<W: Sink>(
    question: &Question,
    frames: &[Frame],
    findings: &mut Findings,
    output: &mut Output,
    sink: &mut W,
) -> Result<(), SearchFault> {
    let Some((top, above)) = frames.split_last() else {
        return Ok(());
    };
    let position = top.moves.position();
    if expand_all(question.diagram, &position, output, sink)? {
        return Ok(());
    }
    play_each(question, &position, above, findings, output, sink)
}

// The move that was handed out last and all further moves of its man are cut at once, where a bound excludes after each
// of them; whether they were is the answer.
#[inline(always)]
fn cut_man<W: Sink>(
    moves: &mut LegalMoves,
    outlook: &Outlook,
    m: &Move,
    output: &mut Output,
    sink: &mut W,
) -> Result<bool, SearchFault>
    ensures same { moves.new.position ≡ moves.old.position }
{
    let Some(rest) = moves.rest_of_man() else {
        return Ok(false);
    };
    let targets = rest | SquareSet::single(m.to);
    if !outlook.cuts_all(m.from, targets) || !output.budget.visit_all(u64::from(targets.len())) {
        return Ok(false);
    }
    moves.skip_rest(rest);
    output.cuts(outlook.bound, targets.len(), sink)?;
    Ok(true)
}

// The moves of a node are played up to the first that no bound excludes by what is known of the node, which is the
// answer; none where there is no such move. The node after it is counted, and its record is still to be written.
fn next_uncut<W: Sink>(
    judge: &Judge,
    moves: &mut LegalMoves,
    outlook: &Outlook,
    mover: &mut Mover,
    output: &mut Output,
    sink: &mut W,
) -> Result<Option<Uncut>, SearchFault>
    ensures same { moves.new.position ≡ moves.old.position }
    ensures legal { IfOk result (λ uncut. IfSome uncut (λ u. IsLegal moves.old.position u.m)) }
{
    let position = moves.position();
    let rows = judge.rows(position.side());
    for _ in 0..u16::MAX {
        let Some(m) = moves.next() else {
            return Ok(None);
        };
        match cut_man(moves, outlook, &m, output, sink) {
            Ok(true) => continue,
            Ok(false) => {}
            Err(fault) => return Err(fault),
        }
        if !output.budget.visit() {
            return Err(SearchFault::Budget);
        }
        match outlook.plain(rows, &position, mover, &m) {
            Plain::Cut(bound) => match output.cut(bound, sink) {
                Ok(()) => {}
                Err(fault) => return Err(fault),
            },
            Plain::Stays(plain) => {
                return Ok(Some(Uncut {
                    m,
                    plain: Some(plain),
                }));
            }
            Plain::No => return Ok(Some(Uncut { m, plain: None })),
        }
    }
    Err(SearchFault::Budget)
}

// The moves of a node are played up to the first that leads to a node that opens. The answer is whether there is one.
fn next_opened<W: Sink>(
    question: &Question,
    top: &mut Frame,
    recorder: &mut Recorder,
    sink: &mut W,
) -> Result<bool, SearchFault> {
    let position = top.moves.position();
    let mut mover = Mover::none();
    for _ in 0..u16::MAX {
        match next_uncut(
            &recorder.judge,
            &mut top.moves,
            &top.outlook,
            &mut mover,
            &mut recorder.output,
            sink,
        ) {
            Ok(Some(uncut)) => {
                match child(question, recorder, sink, &position, &uncut, &top.outlook) {
                    Ok(false) => {}
                    Ok(true) => return Ok(true),
                    Err(fault) => return Err(fault),
                }
            }
            Ok(None) => return Ok(false),
            Err(fault) => return Err(fault),
        }
    }
    Err(SearchFault::Budget)
}

// The moves of the node at a place are played up to the first that leads to a node that opens. The answer is whether
// there is one. Whether a game below the child that closed last ends on the diagram is kept with it.
fn next_opened_at<W: Sink>(
    question: &Question,
    frames: &mut Frames,
    at: usize,
    fertile: bool,
    recorder: &mut Recorder,
    sink: &mut W,
) -> Result<bool, SearchFault> {
    match frames.get_mut(at) {
        Some(top) => {
            top.fertile = top.fertile || fertile;
            next_opened(question, top, recorder, sink)
        }
        None => Ok(false),
    }
}

// Whether an open node with `left` plies left, to which the walk comes back, is excluded by a tariff: it is asked of all
// that are kept, and a new one is looked for, where no game below it ends on the diagram so far, a move is left, and
// enough nodes were visited since it opened.
fn is_tolled(top: &Frame, left: u8, recorder: &mut Recorder) -> Result<bool, SearchFault> {
    let nodes = recorder.output.budget.nodes;
    let Some(tolls) = &mut recorder.tolls else {
        return Ok(false);
    };
    if top.fertile || !tolls.is_due(left, nodes) || top.moves.peek().is_none() {
        return Ok(false);
    }
    let position = top.moves.position();
    match tolls.look(&position, keys_of(&top.outlook.sides), left, nodes) {
        Ok(is_excluded) => Ok(is_excluded),
        Err(_) => Err(SearchFault::Memory),
    }
}

// As `is_tolled`, of the node at a place. It stands out of line: where no tariffs are asked nothing is to make room for
// what it needs.
#[inline(never)]
fn is_tolled_at(
    frames: &Frames,
    at: usize,
    left: u8,
    recorder: &mut Recorder,
) -> Result<bool, SearchFault> {
    match frames.get(at) {
        Some(top) => is_tolled(top, left, recorder),
        None => Ok(false),
    }
}

// The moves of the topmost node are played until a node opens, which is the topmost from now on; where none does, or a
// tariff excludes the node itself, it closes. After its moves `left` plies are left.
fn play_until_opened<W: Sink>(
    question: &Question,
    left: u8,
    frames: &mut Frames,
    machine: &mut Machine,
    sink: &mut W,
) -> Result<(), SearchFault>
    requires room { machine.old.open < 128 }
    ensures depth { OnOk result (machine.new.open ≤ machine.old.open + 1) }
{
    let at = usize::from(machine.open).saturating_sub(1);
    let fertile = machine.findings.fertile;
    let is_asked = machine.recorder.tolls.is_some() && !fertile;
    if is_asked && is_tolled_at(frames, at, left.saturating_add(1), &mut machine.recorder)? {
        return close_top(frames, machine);
    }
    machine.findings.fertile = false;
    match next_opened_at(question, frames, at, fertile, &mut machine.recorder, sink) {
        Ok(true) => {
            let recorder = &machine.recorder;
            let frame = frame_of(&recorder.judge, &recorder.opened, left);
            put_frame(frames, machine.open, frame)?;
            machine.open += 1;
            Ok(())
        }
        Ok(false) => close_top(frames, machine),
        Err(fault) => Err(fault),
    }
}

// The tree of no ply or of one.
fn short_tree<W: Sink>(
    question: &Question,
    findings: &mut Findings,
    output: &mut Output,
    sink: &mut W,
) -> Result<(), SearchFault> {
    let array = Position::array();
    if question.tree > 0 {
        last_node(output, sink)?;
        return leaves(question, &[], findings, &None, &array);
    }
    if question.diagram.matches(&array) {
        end(question, &[], findings, &None, &None)
    } else {
        Ok(())
    }
}

// The first node of a tree of at least two plies, where that opens.
fn enter_root<W: Sink>(
    question: &Question,
    recorder: &mut Recorder,
    sink: &mut W,
) -> Result<Option<Frame>, SearchFault> {
    if !recorder.output.budget.visit() {
        return Err(SearchFault::Budget);
    }
    let left = question.tree;
    if enter(question, recorder, sink, &Position::array(), None, left)? {
        Ok(Some(frame_of(&recorder.judge, &recorder.opened, left)))
    } else {
        Ok(None)
    }
}

// One turn: moves of the topmost node are played, until a node opens that is the topmost from now on, or it closes.
fn turn<W: Sink>(
    question: &Question,
    frames: &mut Frames,
    machine: &mut Machine,
    sink: &mut W,
) -> Result<(), SearchFault>
    requires limit { question.now.tree ≤ 128 }
    requires depth { machine.old.open ≤ question.now.tree }
    ensures depth { OnOk result (machine.new.open ≤ question.now.tree) }
{
    let left = question.tree - machine.open;
    if left >= 2 {
        return play_until_opened(question, left, frames, machine, sink);
    }
    match play_last_two(
        question,
        open_frames(frames, machine.open),
        &mut machine.findings,
        &mut machine.recorder.output,
        sink,
    ) {
        Ok(()) => close_top(frames, machine),
        Err(fault) => Err(fault),
    }
}

// Tells of the games beyond the first `known`, which were met since; how many there are now. They are met in
// canonical order.
fn tell<P: SearchProgress>(games: &Games, known: usize, watch: &mut P) -> usize {
    for i in known..games.len() {
        if let Some(game) = games.game(i) {
            watch.met(game);
        }
    }
    games.len()
}

// The tree of one length.
pub(crate) fn tree_of<W: Sink, P: SearchProgress>(
    question: &Question,
    frames: &mut Frames,
    machine: &mut Machine,
    sink: &mut W,
    watch: &mut P,
) -> Result<(), SearchFault>
    requires limit { question.now.tree ≤ 128 }
{
    machine.open = 0;
    machine.findings.fertile = false;
    let mut known = machine.findings.games.len();
    if question.tree < 2 {
        let output = &mut machine.recorder.output;
        let answer = short_tree(question, &mut machine.findings, output, sink);
        tell(&machine.findings.games, known, watch);
        return answer;
    }
    match enter_root(question, &mut machine.recorder, sink) {
        Ok(Some(root)) => {
            put_frame(frames, 0, root)?;
            machine.open = 1;
        }
        Ok(None) => return Ok(()),
        Err(fault) => return Err(fault),
    }
    for _ in 0..u64::MAX {
        let answer = turn(question, frames, machine, sink);
        known = tell(&machine.findings.games, known, watch);
        answer?;
        watch.reached(question.tree, machine.recorder.output.budget.nodes);
        if machine.open == 0 {
            return Ok(());
        }
        if !watch.goes_on() {
            return Err(SearchFault::Budget);
        }
    }
    Err(SearchFault::Budget)
}
