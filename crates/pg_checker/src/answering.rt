//! The games that a certificate proves.
ghost use Rattle.std.specs.Prelude.{◌≡◌, ◌+◌, ◌*◌, ℕ, List, Option, false, None, IfOk, IfErr, OnOk};
ghost use Rattle.std.specs.Io.KnownBytes.{IsAtEnd};
ghost use Rattle.pg_certificate.specs.Reader.{to_come};
ghost use Rattle.pg_certificate.specs.Spelling.{header_length, longest_record};
ghost use Rattle.pg_san.specs.Games.{IsGames};
ghost use Rattle.pg_checker.specs.Answer.{IsExactAnswer};
ghost use Rattle.pg_checker.specs.Answering.{AnswerAccepts, AnswerRefuses, AnswerTakes, AnswerTells};
ghost use Rattle.pg_checker.specs.Cuts.{any_rules_by, rules_by};
ghost use Rattle.pg_checker.specs.Opening.{behind, bytes_of};
ghost use Rattle.pg_checker.specs.Terms.{terms};
ghost use Rattle.pg_checker.specs.inner.Checking.{Headed};
ghost use Rattle.pg_checker.specs.inner.Machine.{IsReading};
ghost use Rattle.pg_checker.specs.inner.Finds.{IsLossFault};

use crate::certify::{Answer, Proved, read_header, rows_for, walk};
use crate::fault::AnswerFault;
use crate::finds::{Finds, Loss};
use crate::halt::fault_of;
use crate::machine::{Machine, Question};
use crate::opening::Opened;
use crate::problem::Problem;
use crate::watch::CheckWatch;
use pg_captures::Bound;
use pg_certificate::{RecordReader, Source};
use pg_fen::{Diagram, Length};
use pg_moves::Unwatched;
use std::alloc::Global;
use std::mem;

// What was found, where each game was kept.
fn answered(finds: Finds, proved: Proved) -> Result<Answer, AnswerFault>
    ensures ok { IfOk result (λ a. (a ≡ record { games = finds.games; proved = proved }) × (finds.loss ≡ None)) }
    ensures err { IfErr result (λ e. IsLossFault finds.loss e) }
    ensures games { IsGames finds.games }
{
    // A fact for the proof: they are different games.
    finds.games.len();
    match finds.loss {
        Some(Loss::TooMany) => Err(AnswerFault::TooManyGames),
        Some(Loss::Memory) => Err(AnswerFault::Memory),
        None => Ok(Answer {
            games: finds.games,
            proved,
        }),
    }
}

/// The games that a certificate proves: whatever bytes its source gave, where it answers games these
/// are the legal games of exactly the stated length from the initial array whose last placement is the
/// diagram, each once and nothing else, in canonical order, and no legal game of fewer plies ends on
/// that diagram.
///
/// It walks as `check` does, without a list: where `check` asks whether the list has a game, it keeps
/// the game. At most `37 + 390 * max_records + 4,096` bytes are taken from a source that has not failed.
/// The list and the named nodes take their room from `alloc`. A refusal changes no argument but the
/// source.
///
/// # Errors
/// `Check` with the faults of `check`, in its order, but for `Listed` and `Unlisted`; then `TooManyGames`
/// where more than 4,096 games solve the problem, or `Memory` where a growth of the list was refused.
pub fn answer<'a, R: Source>(
    alloc: Global,
    diagram: &'a Diagram,
    length: Length,
    bounds: &'a [Box<dyn Bound>],
    source: &mut R,
    max_records: u64,
    max_named: u32,
) -> Result<Answer, AnswerFault>
    ensures headline { IfOk result (λ a. IsExactAnswer diagram.now length a.games) }
    ensures order { IfOk result (λ a. IsGames a.games) }
    ensures accepted { AnswerAccepts
        (terms (rules_by code_of excluded bounds.now) max_records max_named (R.left source.old))
        diagram.now length result }
    ensures refused { AnswerRefuses
        (terms (any_rules_by code_of excluded bounds.now) max_records max_named (R.left source.old))
        diagram.now length (R.has_failed source.new) result }
    ensures pulls { AnswerTakes (header_length + longest_record * max_records + 4096)
        (R.left source.old) (R.left source.new) result }
    ensures end { OnOk result (IsAtEnd (R.left source.new)) }
    ensures runs { OnOk result (R.has_failed source.new ≡ false) }
    ensures tells { AnswerTells diagram.now length result }
{
    answer_watched(
        alloc,
        diagram,
        length,
        bounds,
        source,
        &mut Unwatched,
        max_records,
        max_named,
    )
}

/// As `answer`, and tells `watch` of what it meets.
///
/// # Errors
/// As for `answer`.
pub fn answer_watched<'a, R: Source, W: CheckWatch>(
    alloc: Global,
    diagram: &'a Diagram,
    length: Length,
    bounds: &'a [Box<dyn Bound>],
    source: &mut R,
    watch: &mut W,
    max_records: u64,
    max_named: u32,
) -> Result<Answer, AnswerFault>
    ensures headline { IfOk result (λ a. IsExactAnswer diagram.now length a.games) }
    ensures order { IfOk result (λ a. IsGames a.games) }
    ensures accepted { AnswerAccepts
        (terms (rules_by code_of excluded bounds.now) max_records max_named (R.left source.old))
        diagram.now length result }
    ensures refused { AnswerRefuses
        (terms (any_rules_by code_of excluded bounds.now) max_records max_named (R.left source.old))
        diagram.now length (R.has_failed source.new) result }
    ensures pulls { AnswerTakes (header_length + longest_record * max_records + 4096)
        (R.left source.old) (R.left source.new) result }
    ensures end { OnOk result (IsAtEnd (R.left source.new)) }
    ensures runs { OnOk result (R.has_failed source.new ≡ false) }
    ensures tells { AnswerTells diagram.now length result }
{
    let mut reader = RecordReader::new();
    let version = match read_header(diagram, length.plies(), &mut reader, source) {
        Ok(version) => version,
        Err(fault) => return Err(AnswerFault::Check(fault)),
    };
    let problem = Problem {
        diagram: *diagram,
        length,
    };
    answer_headed(
        alloc,
        &problem,
        version,
        &mut reader,
        bounds,
        source,
        watch,
        max_records,
        max_named,
    )
}

/// As `answer_watched`, of a certificate that was opened, for the problem that its header names. `source` is the one
/// that it was opened from, as that call left it: the bytes of the certificate are `bytes_of` what was opened and what
/// is left there. What was read behind the header is taken from what was opened, and counts as read.
///
/// # Errors
/// As for `answer`, but for those at the header.
pub fn answer_opened<R: Source, W: CheckWatch>(
    alloc: Global,
    opened: &mut Opened,
    bounds: &[Box<dyn Bound>],
    source: &mut R,
    watch: &mut W,
    max_records: u64,
    max_named: u32,
) -> Result<Answer, AnswerFault>
    ensures headline { IfOk result (λ a. IsExactAnswer opened.old.diagram opened.old.plies a.games) }
    ensures order { IfOk result (λ a. IsGames a.games) }
    ensures accepted { AnswerAccepts
        (terms (rules_by code_of excluded bounds.now) max_records max_named (bytes_of opened.old (R.left source.old)))
        opened.old.diagram opened.old.plies result }
    ensures refused { AnswerRefuses
        (terms (any_rules_by code_of excluded bounds.now) max_records max_named
        (bytes_of opened.old (R.left source.old)))
        opened.old.diagram opened.old.plies (R.has_failed source.new) result }
    ensures pulls { AnswerTakes (longest_record * max_records + 4096)
        (behind opened.old (R.left source.old)) (R.left source.new) result }
    ensures end { OnOk result (IsAtEnd (R.left source.new)) }
    ensures runs { OnOk result (R.has_failed source.new ≡ false) }
    ensures problem { (opened.new.diagram ≡ opened.old.diagram) × (opened.new.plies ≡ opened.old.plies) }
    ensures tells { AnswerTells opened.old.diagram opened.old.plies result }
{
    // The reader that is left in its place has read nothing.
    let version = opened.version;
    opened.version = 1;
    answer_headed(
        alloc,
        &opened.problem,
        version,
        &mut opened.reader,
        bounds,
        source,
        watch,
        max_records,
        max_named,
    )
}

// What a certificate answers behind its header: so it is of whatever bytes that header began. In the place of the reader
// there is then one that has read nothing.
fn answer_headed<'a, R: Source, W: CheckWatch>(
    alloc: Global,
    problem: &'a Problem,
    version: u8,
    reader: &mut RecordReader,
    bounds: &'a [Box<dyn Bound>],
    source: &mut R,
    watch: &mut W,
    max_records: u64,
    max_named: u32,
) -> Result<Answer, AnswerFault>
    requires ready { IsReading version reader.old }
    ensures fresh { IsReading 1 reader.new }
    ensures headline { IfOk result (λ a. IsExactAnswer problem.now.diagram problem.now.length a.games) }
    ensures order { IfOk result (λ a. IsGames a.games) }
    ensures accepted { (known : Option (List ℕ))
        → Headed problem.now.diagram problem.now.length known (to_come reader.old (R.left source.old)) version
        → AnswerAccepts (terms (rules_by code_of excluded bounds.now) max_records max_named known)
        problem.now.diagram problem.now.length result }
    ensures refused { (known : Option (List ℕ))
        → Headed problem.now.diagram problem.now.length known (to_come reader.old (R.left source.old)) version
        → AnswerRefuses (terms (any_rules_by code_of excluded bounds.now) max_records max_named known)
        problem.now.diagram problem.now.length (R.has_failed source.new) result }
    ensures pulls { AnswerTakes (longest_record * max_records + 4096)
        (to_come reader.old (R.left source.old)) (R.left source.new) result }
    ensures end { OnOk result (IsAtEnd (R.left source.new)) }
    ensures runs { OnOk result (R.has_failed source.new ≡ false) }
    ensures tells { AnswerTells problem.now.diagram problem.now.length result }
{
    let question = Question {
        diagram: &problem.diagram,
        plies: problem.length.plies(),
        version,
        games: None,
        bounds,
        rows: rows_for(version, &problem.diagram),
    };
    let mut machine = Machine::new(alloc, max_records, max_named);
    mem::swap(&mut machine.input.reader, reader);
    match walk(&question, &mut machine, source, watch) {
        Ok(proved) => answered(machine.finds, proved),
        Err(halt) => Err(AnswerFault::Check(fault_of(halt, machine.stack.frames.as_slice()))),
    }
}
