//! A check, and its report.
ghost use Rattle.std.specs.Prelude.{◌≡◌, ◌≢◌, ℕ, List, true, false, IfOk, IfErr, OnOk, Ok};
ghost use Rattle.std.specs.Io.KnownBytes.{Appends, IsAtEnd};
ghost use Rattle.pg_board.specs.Placement.{Placement};
ghost use Rattle.pg_position.specs.declared.moves.Move.{Move};
ghost use Rattle.pg_checker.specs.Answer.{IsExactAnswer};
ghost use Rattle.pg_checker.specs.Check.{Accepts};
ghost use Rattle.pg_checker.specs.Cuts.{rules_by};
ghost use Rattle.pg_checker.specs.Terms.{terms};
ghost use Rattle.pg_checker.specs.declared.certify.Proved.{Proved};
ghost use Rattle.pg_texts.specs.Report.{IsVerdict, IsReport};
ghost use Rattle.pg_report.specs.Run.{AreSpelled, IsCheckFault, IsOfTexts, IsRunFault, failures};

use crate::fault::RunFault;
use pg_captures::Bound;
use pg_certificate::{Sink, Source};
use pg_checker::{Problem, check};
use pg_fen::{Diagram, Length};
use pg_san::{Games, read_games};
use pg_texts::{Verdict, write_report};
use std::alloc::Global;

/// Checks a certificate for a diagram, a length in plies and a list of games, as `check` does, and
/// writes the report. A verdict means that the list is the exact answer, and that the report was
/// written and nothing else; nothing is written before the check has said yes.
///
/// # Errors
/// `Check` where the check does not say yes, with its cause: the game of `Unlisted` is a solution that the list lacks,
/// and a game of the plies of `Shorter`, which are fewer, ends on the diagram, whatever the source is; `Write` where it
/// does and the sink has failed.
pub fn run_listed<R: Source, W: Sink>(
    alloc: Global,
    diagram: &Diagram,
    length: Length,
    games: &Games,
    bounds: &[Box<dyn Bound>],
    source: &mut R,
    out: &mut W,
    max_records: u64,
    max_named: u32,
) -> Result<Verdict, RunFault>
    ensures headline { OnOk result (IsExactAnswer diagram.now length games.now) }
    ensures verdict { IfOk result (λ v. IsVerdict games.now v) }
    ensures text { OnOk result ((text : List ℕ)
        × IsReport diagram.now length games.now text × Appends (W.held out.old) (W.held out.new) text) }
    ensures accepted { OnOk result ((proved : Proved)
        × Accepts (terms (rules_by code_of excluded bounds.now) max_records max_named (R.left source.old))
        diagram.now length games.now (Ok proved)) }
    ensures end { OnOk result (IsAtEnd (R.left source.new)) }
    ensures runs { OnOk result (R.has_failed source.new ≡ false) }
    ensures written { OnOk result (W.has_failed out.new ≡ false) }
    ensures err { IfErr result (IsCheckFault diagram.now length games.now
        (terms (rules_by code_of excluded bounds.now) max_records max_named (R.left source.old))
        (failures (R.has_failed source.new) (W.has_failed out.new))) }
    ensures unwritten { IfErr result (λ e. e ≢ RunFault.Write → out.new ≡ out.old) }
{
    match check(
        alloc,
        diagram,
        length,
        games,
        bounds,
        source,
        max_records,
        max_named,
    ) {
        Ok(_) => {}
        Err(fault) => return Err(RunFault::Check(fault)),
    }
    match write_report(diagram, length, games, out) {
        Ok(verdict) => Ok(verdict),
        Err(_) => Err(RunFault::Write),
    }
}

/// Reads a diagram (the placement field of FEN, or all six fields; the PGN standard, section 16.1), a
/// length in moves such as `18.5`, and a list of games, one a line; checks the certificate that the
/// source gives for them, as `check` does; and writes the report. A verdict means that the texts
/// spell a diagram, a length and a list, that the list is the exact answer to the other two, and that
/// what was written is the report of the three and nothing else. Nothing is written before the check
/// has said yes. The list and the named nodes of the certificate are taken from `alloc`.
///
/// # Errors
/// In this order: `Diagram`, `Length` and `Games` where that text is refused, with its refusal, before
/// the source is asked; `Check` where the check does not say yes, with its cause, as for `run_listed`; `Write` where it
/// does and the sink has failed.
pub fn run_check<R: Source, W: Sink>(
    alloc: Global,
    diagram: &str,
    length: &str,
    games: &str,
    bounds: &[Box<dyn Bound>],
    source: &mut R,
    out: &mut W,
    max_records: u64,
    max_named: u32,
) -> Result<Verdict, RunFault>
    ensures ok { IfOk result (λ v. (d : Placement) × (n : ℕ) × (list : List (List Move))
        × AreSpelled diagram.now length.now games.now d n list × IsExactAnswer d n list × IsVerdict list v
        × ((text : List ℕ) × IsReport d n list text × Appends (W.held out.old) (W.held out.new) text)
        × ((proved : Proved)
        × Accepts (terms (rules_by code_of excluded bounds.now) max_records max_named (R.left source.old))
        d n list (Ok proved))) }
    ensures end { OnOk result (IsAtEnd (R.left source.new)) }
    ensures runs { OnOk result (R.has_failed source.new ≡ false) }
    ensures written { OnOk result (W.has_failed out.new ≡ false) }
    ensures err { IfErr result (IsRunFault
        (record { diagram = diagram.now; length = length.now; games = games.now })
        (terms (rules_by code_of excluded bounds.now) max_records max_named (R.left source.old))
        (failures (R.has_failed source.new) (W.has_failed out.new))) }
    ensures unwritten { IfErr result (λ e. e ≢ RunFault.Write → out.new ≡ out.old) }
    ensures unread { IfErr result (λ e. IsOfTexts e → source.new ≡ source.old) }
{
    let problem = match Problem::read(diagram, length) {
        Ok(problem) => problem,
        Err(fault) => return Err(RunFault::of_problem(fault)),
    };
    let games = match read_games(alloc, games) {
        Ok(games) => games,
        Err(fault) => return Err(RunFault::Games(fault)),
    };
    match run_listed(
        alloc,
        &problem.diagram,
        problem.length,
        &games,
        bounds,
        source,
        out,
        max_records,
        max_named,
    ) {
        Ok(verdict) => Ok(verdict),
        Err(fault) => Err(fault),
    }
}
