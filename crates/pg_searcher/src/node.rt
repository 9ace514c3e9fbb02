//! The record of a node: chosen, and written.
ghost use Rattle.pg_position.specs.Step.{IsLegal};

use crate::fault::SearchFault;
use crate::judge::{CutBy, Cutting, Judge, is_cut_by_journeys};
use crate::machine::{Opened, Output, Question, Recorder};
use crate::outlook::{Outlook, PlainMove};
use crate::sides::{Sides, changes_of, lifted};
use crate::tolled::{Tolled, keys_of};
use pg_board::{Color, Square};
use pg_certificate::{Record, Sink};
use pg_fen::Diagram;
use pg_pawns::PawnFiles;
use pg_position::{Move, Position};
use pg_prices::node_key;
use pg_travel::{Prices, Travel};
use std::alloc::AllocError;

// The key of a node.
fn key_of(sides: &Sides, side: Color, passed: Option<Square>, left: u8) -> u64 {
    node_key(sides.white.key, sides.black.key, side, passed, left)
}

// Whether a move may be a pawn's advance of two squares.
fn may_pass(m: &Move) -> bool {
    m.from.index().abs_diff(m.to.index()) == 16
}

// A cut by prices.
fn priced(code: u8, color: Color, prices: &Prices) -> Record {
    Record::Priced {
        code,
        color,
        prices: *prices,
    }
}

// Prices that exclude: those of a colour's pawns, or of its travel.
#[derive(Clone, Copy)]
enum PricesOf {
    Pawns(Color),
    Travel(Color),
}

// The cut by these prices of a node, where there are price lists.
fn priced_record(
    judge: &mut Judge,
    position: &Position,
    sides: &Sides,
    prices: PricesOf,
) -> Result<Option<Record>, AllocError> {
    match prices {
        PricesOf::Pawns(color) => match judge.pawn_prices(color, position)? {
            Some(lists) => Ok(Some(priced(PawnFiles::CODE, color, &lists))),
            None => Ok(None),
        },
        PricesOf::Travel(color) => match judge.travel_prices(color, position, sides.of(color))? {
            Some(lists) => Ok(Some(priced(Travel::CODE, color, &lists))),
            None => Ok(None),
        },
    }
}

// Writes a reference to the closed node with a key, and answers whether there is one.
fn refer<W: Sink>(output: &mut Output, sink: &mut W, key: u64) -> Result<bool, SearchFault> {
    let Some(number) = output.names.find(key) else {
        return Ok(false);
    };
    output.refer(number, sink)?;
    Ok(true)
}

// The key of a node, and how many plies are left there.
#[derive(Clone, Copy)]
struct Keyed {
    key: u64,
    left: u8,
}

// A node is open from now on, with a name where there are names: it is the one that opened last.
fn open<W: Sink>(
    recorder: &mut Recorder,
    sink: &mut W,
    position: &Position,
    sides: &Sides,
    key: u64,
) -> Result<bool, SearchFault> {
    let named = recorder.output.names.open();
    recorder.opened = Opened {
        position: *position,
        sides: *sides,
        key,
        named,
    };
    recorder.output.expand(named, sink)?;
    Ok(true)
}

// The code by which tariffs or journeys exclude a node, where tariffs are asked.
fn code_excluding(
    tolls: &mut Tolled,
    output: &Output,
    position: &Position,
    sides: &Sides,
    left: u8,
) -> Result<Option<u8>, SearchFault> {
    match tolls.code_excluding(output.journeys, position, keys_of(sides), left) {
        Ok(code) => Ok(code),
        Err(_) => Err(SearchFault::Memory),
    }
}

// As `open_or_cut` where tariffs are asked. It stands out of line, as what asks journeys does.
#[inline(never)]
fn open_or_tolled<W: Sink>(
    recorder: &mut Recorder,
    sink: &mut W,
    position: &Position,
    sides: &Sides,
    node: Keyed,
) -> Result<bool, SearchFault> {
    let Some(tolls) = &mut recorder.tolls else {
        return open(recorder, sink, position, sides, node.key);
    };
    match code_excluding(tolls, &recorder.output, position, sides, node.left)? {
        Some(code) => {
            recorder.output.cut_by_code(code, sink)?;
            Ok(false)
        }
        None => {
            tolls.opens(node.left, recorder.output.budget.nodes);
            open(recorder, sink, position, sides, node.key)
        }
    }
}

// A node to which nothing refers, and that no other cut excludes, is cut by tariffs or journeys where they are asked
// and exclude it; otherwise it is open from now on. They are asked of the position and not of the key, which has the
// passed square only where a capture there is legal.
fn open_or_cut<W: Sink>(
    recorder: &mut Recorder,
    sink: &mut W,
    position: &Position,
    sides: &Sides,
    node: Keyed,
) -> Result<bool, SearchFault> {
    if recorder.tolls.is_some() {
        return open_or_tolled(recorder, sink, position, sides, node);
    }
    if !is_cut_by_journeys(recorder.output.journeys, position, node.left) {
        return open(recorder, sink, position, sides, node.key);
    }
    recorder.output.cut(CutBy::Journeys, sink)?;
    Ok(false)
}

// A node that no cut by other bounds or by prices excludes, with `left` plies left, at least two: a reference where
// one of the same future has closed barren; otherwise it is open from now on, unless it is cut by tariffs or journeys.
// The answer is whether it is open, here and below.
fn stay<W: Sink>(
    recorder: &mut Recorder,
    sink: &mut W,
    position: &Position,
    sides: &Sides,
    left: u8,
) -> Result<bool, SearchFault> {
    let passed = position.effective_passed();
    let key = key_of(sides, position.side(), passed, left);
    if refer(&mut recorder.output, sink, key)? {
        return Ok(false);
    }
    open_or_cut(recorder, sink, position, sides, Keyed { key, left })
}

// The node after a legal move, as `stay`.
#[inline(never)]
fn stay_there<W: Sink>(
    recorder: &mut Recorder,
    sink: &mut W,
    position: &Position,
    m: &Move,
    sides: &Sides,
    left: u8,
) -> Result<bool, SearchFault>
    requires legal { IsLegal position.now m.now }
{
    stay(recorder, sink, &position.after(m), sides, left)
}

// The node after a legal move to which nothing refers, as `open_or_cut`.
#[inline(never)]
fn open_there<W: Sink>(
    recorder: &mut Recorder,
    sink: &mut W,
    position: &Position,
    m: &Move,
    sides: &Sides,
    node: Keyed,
) -> Result<bool, SearchFault>
    requires legal { IsLegal position.now m.now }
{
    open_or_cut(recorder, sink, &position.after(m), sides, node)
}

// The node after a legal move, as `stay`. Its position is not made where a reference is written.
fn stay_after<W: Sink>(
    recorder: &mut Recorder,
    sink: &mut W,
    position: &Position,
    m: &Move,
    sides: &Sides,
    left: u8,
) -> Result<bool, SearchFault>
    requires legal { IsLegal position.now m.now }
{
    if may_pass(m) {
        return stay_there(recorder, sink, position, m, sides, left);
    }
    let key = key_of(sides, position.side().other(), None, left);
    if refer(&mut recorder.output, sink, key)? {
        return Ok(false);
    }
    open_there(recorder, sink, position, m, sides, Keyed { key, left })
}

// Writes the record of a node that prices exclude, with `left` plies left, at least two. Where there are no price
// lists it is as one that no cut excludes.
#[inline(never)]
fn put_priced<W: Sink>(
    recorder: &mut Recorder,
    sink: &mut W,
    position: &Position,
    sides: &Sides,
    prices: PricesOf,
    left: u8,
) -> Result<bool, SearchFault> {
    match priced_record(&mut recorder.judge, position, sides, prices) {
        Ok(None) => stay(recorder, sink, position, sides, left),
        Ok(Some(record)) => {
            recorder.output.put(&record, sink)?;
            Ok(false)
        }
        Err(_) => Err(SearchFault::Memory),
    }
}

// Writes the record of a node that was judged, with `left` plies left, at least two.
fn put_verdict<W: Sink>(
    recorder: &mut Recorder,
    sink: &mut W,
    position: &Position,
    sides: &Sides,
    verdict: Cutting,
    left: u8,
) -> Result<bool, SearchFault> {
    match verdict {
        Cutting::Cut(bound) => {
            recorder.output.cut(bound, sink)?;
            Ok(false)
        }
        Cutting::Pawns(color) => {
            let prices = PricesOf::Pawns(color);
            put_priced(recorder, sink, position, sides, prices, left)
        }
        Cutting::Travel(color) => {
            let prices = PricesOf::Travel(color);
            put_priced(recorder, sink, position, sides, prices, left)
        }
        _ => stay(recorder, sink, position, sides, left),
    }
}

// Judges a node with `left` plies left, at least two, of which so much is known, and writes its record.
#[inline(never)]
pub(crate) fn enter<W: Sink>(
    question: &Question,
    recorder: &mut Recorder,
    sink: &mut W,
    position: &Position,
    known: Option<Sides>,
    left: u8,
) -> Result<bool, SearchFault> {
    match recorder
        .judge
        .enter(question.diagram, position, known, left)
    {
        Ok((verdict, sides)) => put_verdict(recorder, sink, position, &sides, verdict, left),
        Err(_) => Err(SearchFault::Memory),
    }
}

// Writes a cut by a colour's travel, where its price lists are kept, and answers whether they are.
#[inline(never)]
fn put_kept<W: Sink>(
    judge: &Judge,
    output: &mut Output,
    color: Color,
    sides: &Sides,
    sink: &mut W,
) -> Result<bool, SearchFault> {
    let Some(prices) = judge.kept_prices(color, sides.of(color).key) else {
        return Ok(false);
    };
    output.put(&priced(Travel::CODE, color, &prices), sink)?;
    Ok(true)
}

// Writes the record of a node where a bound excludes it, or prices do that are kept, and answers whether it
// did.
fn put_judged<W: Sink>(
    judge: &Judge,
    output: &mut Output,
    verdict: Cutting,
    sides: &Sides,
    sink: &mut W,
) -> Result<bool, SearchFault> {
    match verdict {
        Cutting::Cut(bound) => {
            output.cut(bound, sink)?;
            Ok(true)
        }
        Cutting::Travel(color) => put_kept(judge, output, color, sides, sink),
        _ => Ok(false),
    }
}

// A legal move of an open node that no bound excludes by what is known of the node, and its man and its colour's need
// of travel where it is plain.
#[derive(Clone, Copy)]
pub(crate) struct Uncut {
    pub(crate) m: Move,
    pub(crate) plain: Option<PlainMove>,
}

// What becomes of a node after a legal move, by what is known of both colours before the move is made; none where that
// tells nothing. What is known of both is that after the move from now on, where captures do not exclude.
fn judge_before(
    judge: &Judge,
    position: &Position,
    uncut: &Uncut,
    outlook: &Outlook,
    sides: &mut Sides,
) -> Option<Cutting> {
    let side = position.side();
    if let Some(plain) = &uncut.plain {
        let change = lifted(position.rights(), plain.man, uncut.m.from);
        let change = change.with_man(plain.man, uncut.m.to);
        return Some(judge.after_plain(side, sides, &change, plain.need, outlook.means));
    }
    match changes_of(position, &uncut.m) {
        Some(changes) => Some(judge.quick(side, sides, &changes, outlook.left)),
        None => None,
    }
}

// Writes the record of the node after a legal move, with at least two plies left.
#[inline(never)]
pub(crate) fn child<W: Sink>(
    question: &Question,
    recorder: &mut Recorder,
    sink: &mut W,
    position: &Position,
    uncut: &Uncut,
    outlook: &Outlook,
) -> Result<bool, SearchFault>
    requires legal { IsLegal position.now uncut.now.m }
{
    let mut sides = outlook.sides;
    let Some(verdict) = judge_before(&recorder.judge, position, uncut, outlook, &mut sides) else {
        let next = position.after(&uncut.m);
        return enter(question, recorder, sink, &next, None, outlook.left);
    };
    if verdict == Cutting::Stays {
        return stay_after(recorder, sink, position, &uncut.m, &sides, outlook.left);
    }
    if put_judged(&recorder.judge, &mut recorder.output, verdict, &sides, sink)? {
        return Ok(false);
    }
    let next = position.after(&uncut.m);
    enter(question, recorder, sink, &next, Some(sides), outlook.left)
}
