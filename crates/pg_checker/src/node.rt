//! The record of a node: read, and judged at the node's position.
ghost use Rattle.std.specs.Prelude.{◌≡◌, ◌+◌, ◌<◌, ◌⊎◌, Bool, List, [], false, slice_get, map, OnOk, IfOk, IfErr};
ghost use Rattle.pg_checker.specs.Chess.{any_game, stands_for};
ghost use Rattle.pg_certificate.specs.Spelling.{record_of};
ghost use Rattle.pg_checker.specs.Cuts.{rules_for, cuts_for, files_by, prices_by};
ghost use Rattle.pg_travel.specs.PricesDecided.{travel_prices_test};
ghost use Rattle.pg_position.specs.declared.moves.Move.{Move};
ghost use Rattle.pg_checker.specs.inner.Halting.{full, causes, stops};
ghost use Rattle.pg_checker.specs.inner.Judging.{EndsSo, Judges, SaysRecord, TakesOne, ended_of, refer_answer, stop_of};
ghost use Rattle.pg_checker.specs.inner.Machine.{IsReading, Walks, WalksOn, entry_of, opened, point_of, shape_of};
ghost use Rattle.pg_checker.specs.inner.Telling.{NamesNoGame};
ghost use Rattle.pg_checker.specs.Spots.{IsReached, spot_of};
ghost use Rattle.pg_checker.specs.inner.Steps.{FailsRead};
ghost use Rattle.pg_checker.specs.Walk.{judge as judge_of, head as head_of, cut_answer};

use crate::halt::{Halt, Reason};
use crate::machine::{Input, Names, Opening, Question};
use crate::spot::{Child, Spot};
use crate::table::Table;
use crate::watch::CheckWatch;
use pg_board::Color;
use pg_captures::{first_excludes, first_excludes_after};
use pg_certificate::{Bare, ReadFault, RecordReader, Source};
use pg_fen::Diagram;
use pg_pawns::PawnFiles;
use pg_position::Position;
use pg_travel::{Prices, Rows, Travel};

// A refusal to read a record, as a halt. No record is refused as Magic or Trailing.
pub(crate) fn halt_of(fault: ReadFault) -> Halt
    ensures says { (game : List Move) → full game result ≡ stop_of fault }
    ensures names { NamesNoGame result }
{
    match fault {
        ReadFault::UnknownRecord(byte) => Halt::Because(Reason::UnknownRecord(byte)),
        ReadFault::Read => Halt::Read,
        ReadFault::Failed => Halt::Read,
        ReadFault::Truncated => Halt::Because(Reason::Truncated),
        ReadFault::Magic => Halt::Because(Reason::Truncated),
        ReadFault::Trailing => Halt::Because(Reason::Truncated),
    }
}

// A named node takes its place in the table, where one more may come.
fn take_place(names: &mut Names, position: &Position) -> Result<(), Halt>
    ensures ok { OnOk result
        ((names.new.left + 1 ≡ names.old.left) × (names.new.table.kept ≡ names.old.table.kept + 1)) }
    ensures err { IfErr result (λ s. ((s ≡ Halt.Because Reason.TooManyNamed) × (names.old.left ≡ 0))
        ⊎ ((s ≡ Halt.Memory) × (0 < names.old.left))) }
    ensures entries { names.new.table.entries ≡ names.old.table.entries }
{
    if names.left == 0 {
        return Err(Halt::Because(Reason::TooManyNamed));
    }
    match names.table.keep(position) {
        Ok(()) => {
            names.left -= 1;
            Ok(())
        }
        Err(_) => Err(Halt::Memory),
    }
}

// What the first bound of a code says of a node: it is asked of the position before the move that leads
// there.
#[inline(always)]
fn first_says(question: &Question, spot: &Spot, left: u8, code: u8) -> Option<bool>
    requires { IsReached spot.now }
    ensures { result ≡ (cuts_for code_of excluded question.now).bounds code (spot_of spot.now) left }
{
    let bounds = question.bounds;
    let diagram = question.diagram;
    match &spot.m {
        Some(m) => first_excludes_after(bounds, code, diagram, &spot.from, m, left),
        None => first_excludes(bounds, code, diagram, &spot.from, left),
    }
}

// A cut, by the first bound of its code.
fn cut(question: &Question, spot: &Spot, left: u8, code: u8) -> Result<(), Reason>
    requires { IsReached spot.now }
    ensures { EndsSo result
        (cut_answer ((cuts_for code_of excluded question.now).bounds code (spot_of spot.now) left) code) }
{
    match first_says(question, spot, left, code) {
        None => Err(Reason::UnknownBound(code)),
        Some(false) => Err(Reason::CutFails(code)),
        Some(true) => Ok(()),
    }
}

// Whether the price list of pawn files excludes: there is one.
fn files_exclude(diagram: &Diagram, position: &Position, color: Color, prices: &Prices) -> bool
    ensures { result ≡ files_by diagram.now position.now color prices.now }
{
    if prices.ways() == 1 {
        pg_pawns::prices_exclude(diagram, position, color, prices.u(0), prices.v(0))
    } else {
        false
    }
}

// Whether price lists of travel exclude: there is one for each way. Rows are used where they are at hand.
fn travel_excludes(
    rows: Option<&Rows>,
    diagram: &Diagram,
    position: &Position,
    left: u8,
    color: Color,
    prices: &Prices,
) -> bool
    ensures { result ≡ travel_prices_test diagram.now position.now left color prices.now }
{
    match rows {
        None => pg_travel::prices_exclude(diagram, position, left, color, prices),
        Some(rows) => { pg_travel::prices_exclude_by(rows, diagram, position, left, color, prices) }
    }
}

// A cut by prices, under the code of the bound by pawn files or of that by travel.
fn priced(
    question: &Question,
    position: &Position,
    left: u8,
    code: u8,
    color: Color,
    prices: &Prices,
) -> Result<(), Reason>
    ensures { EndsSo result
        (cut_answer (prices_by question.now.diagram.now code color prices.now position.now left) code) }
{
    let diagram = question.diagram;
    let rows = question.rows.as_ref();
    let excluded = match code {
        PawnFiles::CODE => files_exclude(diagram, position, color, prices),
        Travel::CODE => travel_excludes(rows, diagram, position, left, color, prices),
        _ => return Err(Reason::UnknownBound(code)),
    };
    if excluded {
        Ok(())
    } else {
        Err(Reason::CutFails(code))
    }
}

// The same of a node: a function of its own, so that a cut by a bound pays for no position.
#[inline(never)]
fn priced_there(
    question: &Question,
    spot: &Spot,
    left: u8,
    code: u8,
    color: Color,
    prices: &Prices,
) -> Result<(), Reason>
    requires { IsReached spot.now }
    ensures { EndsSo result
        (cut_answer (prices_by question.now.diagram.now code color prices.now (spot_of spot.now) left) code) }
{
    priced(question, &spot.position(), left, code, color, prices)
}

// Whether an entry of one position may stand for another: in version 2 where they have the same
// future, else where they are equal.
fn stands_for(version: u8, entry: &Position, position: &Position) -> bool
    ensures { result ≡ stands_for version entry.now position.now }
{
    if version == 2 {
        entry.same_future(position)
    } else {
        *entry == *position
    }
}

// A reference to an entry of the table, in a certificate of a version.
fn refer(
    version: u8,
    table: &Table,
    position: &Position,
    left: u8,
    number: u32,
) -> Result<(), Reason>
    ensures { EndsSo result
        (refer_answer version (slice_get (map entry_of table.now.entries) number) left position.now) }
{
    let Some(entry) = table.get(number) else {
        return Err(Reason::RefUnknown);
    };
    let there = entry.position.position();
    if !stands_for(version, &there, position) || entry.plies != left {
        Err(Reason::RefDiffers)
    } else if entry.fertile {
        Err(Reason::RefFertile)
    } else {
        Ok(())
    }
}

// The same of a node.
#[inline(never)]
fn refer_there(version: u8, table: &Table, spot: &Spot, left: u8, number: u32) -> Result<(), Reason>
    requires { IsReached spot.now }
    ensures { EndsSo result
        (refer_answer version (slice_get (map entry_of table.now.entries) number) left (spot_of spot.now)) }
{
    refer(version, table, &spot.position(), left, number)
}

// What a node that ends at once, or a cause, says of the node.
fn ended(answer: Result<(), Reason>) -> Result<Opening, Halt>
    ensures says { (game : List Move) → stops game result ≡ ended_of (causes game answer) }
    ensures none { IfOk result (λ node. opened node ≡ 0) }
{
    match answer {
        Ok(()) => Ok(Opening::Done),
        Err(reason) => Err(Halt::Because(reason)),
    }
}

// A record with its price lists, judged at a node with `left` plies left: what stands below the node, or
// why the record is refused there.
#[inline(always)]
fn judge(
    question: &Question,
    names: &mut Names,
    spot: &Spot,
    left: u8,
    bare: Bare,
    prices: &Prices,
) -> Result<Opening, Halt>
    requires { IsReached spot.now }
    ensures says { (game : List Move) → Judges names.old names.new
        (judge_of (rules_for code_of excluded question.now any_game) left (spot_of spot.now)
        (record_of prices.now bare))
        (stops game result) }
    ensures kept { IfOk result (λ node. names.new.table.kept ≡ names.old.table.kept + opened node) }
    ensures fails { (failed : Bool) → FailsRead failed (stops [] result) }
{
    match bare {
        Bare::Expand { named: false } => Ok(Opening::Opened(false)),
        Bare::Expand { named: true } => match take_place(names, &spot.from) {
            Ok(()) => Ok(Opening::Opened(true)),
            Err(halt) => Err(halt),
        },
        Bare::Cut(code) => ended(cut(question, spot, left, code)),
        Bare::Ref(number) => {
            let answer = refer_there(question.version, &names.table, spot, left, number);
            ended(answer)
        }
        Bare::Priced { code, color } => {
            let answer = priced_there(question, spot, left, code, color, prices);
            ended(answer)
        }
    }
}

// The record at the front of the bytes to come, its price lists into `prices`.
#[inline(always)]
fn next<S: Source>(
    reader: &mut RecordReader,
    prices: &mut Prices,
    source: &mut S,
) -> Result<Bare, Halt>
    requires runs { reader.old.failed ≡ false }
    ensures says { SaysRecord reader.old reader.new (S.left source.old) (S.left source.new) prices.new result }
    ensures ready { OnOk result (IsReading reader.old.version reader.new) }
    ensures fails { FailsRead (S.has_failed source.new) (stops [] result) }
    ensures few { TakesOne reader.old reader.new (S.left source.old) (S.left source.new) result }
    ensures names { IfErr result (λ h. NamesNoGame h) }
{
    match reader.next_bare(prices, source) {
        Ok(bare) => Ok(bare),
        Err(fault) => Err(halt_of(fault)),
    }
}

// The record of a node, of which the watch is told.
#[inline(always)]
pub(crate) fn judge_next<S: Source, W: CheckWatch>(
    question: &Question,
    input: &mut Input,
    names: &mut Names,
    source: &mut S,
    child: &Child,
    watch: &mut W,
) -> Result<Opening, Halt>
    requires reached { IsReached child.now.spot }
    requires ready { IsReading question.now.version input.old.reader }
    ensures says { (game : List Move) → Walks
        (point_of input.old names.old (S.left source.old)) (point_of input.new names.new (S.left source.new))
        (head_of (rules_for code_of excluded question.now any_game) child.now.plies (spot_of child.now.spot))
        (λ node s. (shape_of node, s)) (stops game result) }
    ensures kept { IfOk result (λ node. names.new.table.kept ≡ names.old.table.kept + opened node) }
    ensures ready { OnOk result (IsReading question.now.version input.new.reader) }
    ensures fails { FailsRead (S.has_failed source.new) (stops [] result) }
    ensures few { WalksOn
        (point_of input.old names.old (S.left source.old)) (point_of input.new names.new (S.left source.new))
        (S.left source.new) (stops [] result) }
    ensures names { IfErr result (λ h. NamesNoGame h) }
{
    if input.records == 0 {
        return Err(Halt::Because(Reason::Budget));
    }
    input.records -= 1;
    match next(&mut input.reader, &mut input.prices, source) {
        Ok(bare) => {
            watch.met(&child.spot, child.plies, &bare, &input.prices);
            judge(
                question,
                names,
                &child.spot,
                child.plies,
                bare,
                &input.prices,
            )
        }
        Err(halt) => Err(halt),
    }
}
