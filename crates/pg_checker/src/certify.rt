//! The check of a certificate.
ghost use Rattle.std.specs.Prelude.{List, Bool, ◌≡◌, ◌+◌, ◌*◌, ◌≤◌, false, [], OnOk, IfOk, IfErr};
ghost use Rattle.std.specs.Io.KnownBytes.{IsAtEnd};
ghost use Rattle.pg_certificate.specs.Reader.{to_come};
ghost use Rattle.pg_certificate.specs.Spelling.{header_length, longest_record};
ghost use Rattle.pg_checker.specs.Answer.{IsExactAnswer};
ghost use Rattle.pg_checker.specs.Check.{Accepts, Refuses, Takes};
ghost use Rattle.pg_checker.specs.inner.Checking.{Answers, Headed, HeaderFails, HeaderTakes, WalkTakes, header_fault};
ghost use Rattle.pg_checker.specs.Cuts.{rules_by, rules_for};
ghost use Rattle.pg_position.specs.declared.moves.Move.{Move};
ghost use Rattle.pg_checker.specs.inner.Finds.{Finding, Serves, asked};
ghost use Rattle.pg_checker.specs.inner.Halting.{full, stops};
ghost use Rattle.pg_checker.specs.inner.Telling.{StopTells};
ghost use Rattle.pg_checker.specs.Telling.{Tells};
ghost use Rattle.pg_checker.specs.inner.Machine.{IsReading, IsReady, game_at};
ghost use Rattle.pg_checker.specs.inner.Steps.{FailsRead};
ghost use Rattle.pg_checker.specs.Terms.{terms};

use crate::fault::Fault;
use crate::halt::{Halt, Reason, fault_of};
use crate::listed::check_listed;
use crate::machine::{Machine, Question};
use crate::node::halt_of;
use crate::walk::all_trees;
use crate::watch::CheckWatch;
use pg_captures::Bound;
use pg_certificate::{ReadFault, RecordReader, Source};
use pg_fen::{Diagram, Length};
use pg_moves::Unwatched;
use pg_san::Games;
use pg_travel::Rows;
use std::alloc::Global;

/// What proved the answer: how many records the certificate has, and how many named nodes.
#[derive(Clone, Copy, Debug, PartialEq, Eq)]
pub struct Proved {
    pub records: u64,
    pub named: u32,
}

/// The games of a certificate, and what proved them.
#[derive(Drop)]
pub struct Answer {
    pub games: Games,
    pub proved: Proved,
}

// A refusal to read a header, as a fault.
pub(crate) fn header_fault(fault: ReadFault) -> Fault
    ensures { result ≡ header_fault fault }
{
    match fault {
        ReadFault::Magic => Fault::Magic,
        ReadFault::Read | ReadFault::Failed => Fault::Read,
        ReadFault::Truncated | ReadFault::Trailing | ReadFault::UnknownRecord(_) => {
            Fault::Truncated
        }
    }
}

// The header, which must be for the diagram and `plies` plies; its version.
pub(crate) fn read_header<S: Source>(
    diagram: &Diagram,
    plies: u8,
    reader: &mut RecordReader,
    source: &mut S,
) -> Result<u8, Fault>
    requires held { reader.old.held ≡ [] }
    requires runs { reader.old.failed ≡ false }
    ensures ok { IfOk result (λ version. Headed diagram.now plies
        (S.left source.old) (to_come reader.new (S.left source.new)) version) }
    ensures ready { IfOk result (λ version. IsReading version reader.new) }
    ensures err { IfErr result (λ e. HeaderFails diagram.now plies
        (S.left source.old) (S.has_failed source.new) e) }
    ensures pulls { HeaderTakes (S.left source.old) (to_come reader.new (S.left source.new))
        (S.left source.new) result }
{
    let header = match reader.header(source) {
        Ok(header) => header,
        Err(fault) => return Err(header_fault(fault)),
    };
    if header.plies != plies {
        Err(Fault::OtherLength)
    } else if header.diagram != diagram.packed() {
        Err(Fault::OtherDiagram)
    } else {
        Ok(header.version)
    }
}

// The rows of the diagram, where records of the version have price lists.
pub(crate) fn rows_for(version: u8, diagram: &Diagram) -> Option<Rows> {
    if version == 2 {
        Some(Rows::new(diagram))
    } else {
        None
    }
}

// The trees, and the end behind them.
pub(crate) fn walk<S: Source, W: CheckWatch>(
    question: &Question,
    machine: &mut Machine,
    source: &mut S,
    watch: &mut W,
) -> Result<Proved, Halt>
    requires limit { question.now.plies ≤ 128 }
    requires ready { IsReady question.now.version machine.old }
    requires entries { machine.old.names.table.entries ≡ [] }
    requires closed { machine.old.stack.frames.items ≡ [] }
    ensures says { (listed : List Move → Bool) → Serves (asked question.now.games) machine.new.finds listed → Answers
        (rules_for code_of excluded question.now listed) (to_come machine.old.input.reader (S.left source.old))
        machine.old.input.records machine.old.names.left (stops (game_at machine.new.stack) result) }
    ensures end { OnOk result (IsAtEnd (S.left source.new)) }
    ensures runs { OnOk result (S.has_failed source.new ≡ false) }
    ensures fails { FailsRead (S.has_failed source.new) (stops [] result) }
    ensures pulls { WalkTakes (longest_record * machine.old.input.records)
        (to_come machine.old.input.reader (S.left source.old)) (S.left source.new) (stops [] result) }
    ensures tells { IfErr result (λ h. StopTells question.now.diagram.now question.now.plies (asked question.now.games)
        (full (game_at machine.new.stack) h)) }
    ensures finds { Finding question.now.diagram.now question.now.plies machine.old.finds machine.new.finds }
{
    let records = machine.input.records;
    let names = machine.names.left;
    match all_trees(question, machine, source, watch) {
        Ok(()) => {}
        Err(halt) => return Err(halt),
    }
    match machine.input.reader.more(source) {
        Ok(true) => Err(Halt::Because(Reason::Trailing)),
        Ok(false) => Ok(Proved {
            records: records.saturating_sub(machine.input.records),
            named: names.saturating_sub(machine.names.left),
        }),
        Err(fault) => Err(halt_of(fault)),
    }
}

/// Checks a certificate. Whenever it answers yes to a diagram, a length of n plies and a list of
/// games, whatever bytes its source gave, the list holds every legal game of exactly n plies from
/// the initial array whose last placement is the diagram, each once and nothing else, and no legal
/// game of fewer plies ends on that diagram.
///
/// The certificate is of version 1 or 2. A cut is tested with the first bound in the list that has its
/// code. In version 2 a cut by prices of code 3 or 4 is tested by `pg_pawns::prices_exclude` or
/// `pg_travel::prices_exclude`, whatever the list holds. A named node takes its room
/// from `alloc` as its record is read; nothing else takes memory. At most
/// `37 + 390 * max_records + 4,096` bytes are taken from a source that has not failed. A refusal
/// changes no argument but the source.
///
/// `Unlisted` proves that its game is a solution which the list lacks, and `Shorter` that a game of the number of plies
/// that it holds, fewer than stated, ends on the diagram: of any source.
///
/// # Errors
/// In the order of testing: `Listed` where a listed game is no solution; at the header `Read` or
/// `Truncated`, then `Magic`, `OtherLength`, `OtherDiagram`; at each record `Budget` where
/// `max_records` were read, `Truncated` or `Read`, `UnknownRecord`, `UnknownBound`, `CutFails`,
/// `RefUnknown`, `RefDiffers`, `RefFertile`, `TooManyNamed` where `max_named` nodes are named,
/// `Memory` where a growth was refused; at a leaf on the diagram `Shorter` in a tree of fewer plies,
/// `Unlisted` where the list lacks the game; at the end `Read`, then `Trailing`.
pub fn check<R: Source>(
    alloc: Global,
    diagram: &Diagram,
    length: Length,
    games: &Games,
    bounds: &[Box<dyn Bound>],
    source: &mut R,
    max_records: u64,
    max_named: u32,
) -> Result<Proved, Fault>
    ensures headline { OnOk result (IsExactAnswer diagram.now length games.now) }
    ensures accepted { Accepts (terms (rules_by code_of excluded bounds.now) max_records max_named (R.left source.old))
        diagram.now length games.now result }
    ensures refused { Refuses (terms (rules_by code_of excluded bounds.now) max_records max_named (R.left source.old))
        diagram.now length games.now (R.has_failed source.new) result }
    ensures pulls { Takes (header_length + longest_record * max_records + 4096)
        (R.left source.old) (R.left source.new) result }
    ensures end { OnOk result (IsAtEnd (R.left source.new)) }
    ensures runs { OnOk result (R.has_failed source.new ≡ false) }
    ensures tells { Tells diagram.now length games.now result }
{
    check_watched(
        alloc,
        diagram,
        length,
        games,
        bounds,
        source,
        &mut Unwatched,
        max_records,
        max_named,
    )
}

/// As `check`, and tells `watch` of what it meets.
///
/// # Errors
/// As for `check`.
pub fn check_watched<R: Source, W: CheckWatch>(
    alloc: Global,
    diagram: &Diagram,
    length: Length,
    games: &Games,
    bounds: &[Box<dyn Bound>],
    source: &mut R,
    watch: &mut W,
    max_records: u64,
    max_named: u32,
) -> Result<Proved, Fault>
    ensures headline { OnOk result (IsExactAnswer diagram.now length games.now) }
    ensures accepted { Accepts (terms (rules_by code_of excluded bounds.now) max_records max_named (R.left source.old))
        diagram.now length games.now result }
    ensures refused { Refuses (terms (rules_by code_of excluded bounds.now) max_records max_named (R.left source.old))
        diagram.now length games.now (R.has_failed source.new) result }
    ensures pulls { Takes (header_length + longest_record * max_records + 4096)
        (R.left source.old) (R.left source.new) result }
    ensures end { OnOk result (IsAtEnd (R.left source.new)) }
    ensures runs { OnOk result (R.has_failed source.new ≡ false) }
    ensures tells { Tells diagram.now length games.now result }
{
    match check_listed(diagram, length, games) {
        Ok(()) => {}
        Err(fault) => return Err(Fault::Listed(fault)),
    }
    let plies = length.plies();
    let mut machine = Machine::new(alloc, max_records, max_named);
    let version = match read_header(diagram, plies, &mut machine.input.reader, source) {
        Ok(version) => version,
        Err(fault) => return Err(fault),
    };
    let question = Question {
        diagram,
        plies,
        version,
        games: Some(games),
        bounds,
        rows: rows_for(version, diagram),
    };
    match walk(&question, &mut machine, source, watch) {
        Ok(proved) => Ok(proved),
        Err(halt) => Err(fault_of(halt, machine.stack.frames.as_slice())),
    }
}
