//! A line of moves is explained by a certificate.
ghost use Rattle.std.specs.Prelude.{◌≡◌, ◌≢◌, ◌⊎◌, true, false, length, IfOk, IfErr, OnOk};
ghost use Rattle.pg_checker.specs.Answering.{HasAnswer, failures};
ghost use Rattle.pg_checker.specs.Cuts.{any_rules_by, rules_by};
ghost use Rattle.pg_checker.specs.Opening.{bytes_of};
ghost use Rattle.pg_checker.specs.Terms.{terms};
ghost use Rattle.pg_certificate.specs.Pushing.{Grows};
ghost use Rattle.pg_san.specs.Listing.{IsListing};
ghost use Rattle.pg_guide.specs.Why.{AddsRight, IsLineFault, IsOneLine, IsTellingFault, IsWhyFault};

use crate::along::{Along, cited};
use crate::fault::WhyFault;
use crate::found::Found;
use crate::writing::write_found;
use pg_captures::Bound;
use pg_certificate::{Record, Refused, Sink, Source};
use pg_checker::{Opened, answer_opened};
use pg_san::{Games, read_games};
use pg_sentences::Ending;
use pg_tolls::Tariff;
use std::alloc::Global;

// The game that a text is, as the one game of a list.
fn line_of(alloc: Global, text: &str) -> Result<Games, WhyFault>
    ensures listing { IfOk result (λ games. IsListing text.now games × (length games ≡ 1)) }
    ensures err { IfErr result (IsLineFault text.now) }
{
    match read_games(alloc, text) {
        Ok(games) => {
            if games.len() == 1 {
                Ok(games)
            } else {
                Err(WhyFault::Moves)
            }
        }
        Err(fault) => Err(WhyFault::Games(fault)),
    }
}

// Whether a record that ends the line cites a node.
fn ends_at_reference(along: &Along) -> bool {
    matches!(&along.ending, Some(Ending::Said(Record::Ref(_))))
}

// Writes what was met along the line, unless there was no room for the node that ends it.
fn tell<W: Sink>(along: &Along, out: &mut W) -> Result<(), WhyFault>
    ensures grows { OnOk result (Grows (W.held out.old) (W.held out.new)) }
    ensures runs { OnOk result (W.has_failed out.new ≡ W.has_failed out.old) }
    ensures err { IfErr result (IsTellingFault (W.has_failed out.new)) }
    ensures unwritten { IfErr result (λ e. e ≢ WhyFault.Write → out.new ≡ out.old) }
{
    let cited = cited(along);
    if cited.is_none() && ends_at_reference(along) {
        return Err(WhyFault::Memory);
    }
    let found = Found {
        diagram: along.line.diagram,
        plies: along.line.plies,
        line: along.line.moves,
        tallies: along.tallies.as_slice(),
        ending: &along.ending,
        cited,
        tariffs: along.tariffs,
        alloc: along.alloc,
    };
    match write_found(&found, out) {
        Ok(()) => Ok(()),
        Err(Refused) => Err(WhyFault::Write),
    }
}

// Writes what was met along the line, and that the certificate is right.
fn tell_right<W: Sink>(along: &Along, out: &mut W) -> Result<(), WhyFault>
    ensures told { OnOk result (AddsRight (W.held out.old) (W.held out.new)) }
    ensures unwritten { IfErr result (λ e. e ≢ WhyFault.Write → out.new ≡ out.old) }
    ensures runs { OnOk result (W.has_failed out.new ≡ false) }
    ensures err { IfErr result (IsTellingFault (W.has_failed out.new)) }
{
    match tell(along, out) {
        Ok(()) => {}
        Err(fault) => return Err(fault),
    }
    match out.push(b"the certificate is right\n") {
        Ok(()) => Ok(()),
        Err(Refused) => Err(WhyFault::Write),
    }
}

/// Explains what an opened certificate says along a line of moves, and writes that: a line for each ply to where the
/// line or the proof ends, and last `the certificate is right`. `moves` are those of one game from the initial array,
/// in any spelling that a list of games reads; `-` for none. `tariffs` are those of the bounds with the codes from
/// `Tolls::FIRST_CODE` on, in their order, for the words of their cuts. docs/FORMATS.md has the lines; no clause speaks
/// of what they say, but of the last. Ok means that some list of games is the exact answer to the problem of the
/// header, that the certificate proves it, and that the last line stands. Nothing is written before the check has said
/// yes, and with a refusal other than `Write` nothing at all.
///
/// The certificate is read once: `source` is the one that it was opened from, as that call left it. The games, the
/// named nodes, what is met along the line, and the tables of a tariff that cuts its end take their room from `alloc`;
/// nothing else takes memory.
///
/// # Errors
/// In this order: `Games` where the moves are refused as a list of games; `Moves` where they are not one game; `Answer`
/// where the certificate gives no answer, with its cause; and where it does, `Memory` where there was no room for the
/// node that ends the line, and `Write` where the sink has failed.
pub fn why<R: Source, W: Sink>(
    alloc: Global,
    opened: &mut Opened,
    moves: &str,
    tariffs: &[Tariff],
    bounds: &[Box<dyn Bound>],
    source: &mut R,
    out: &mut W,
    max_records: u64,
    max_named: u32,
) -> Result<(), WhyFault>
    ensures right { OnOk result (HasAnswer
        (terms (rules_by code_of excluded bounds.now) max_records max_named (bytes_of opened.old (R.left source.old)))
        opened.old.diagram opened.old.plies) }
    ensures line { OnOk result (IsOneLine moves.now) }
    ensures told { OnOk result (AddsRight (W.held out.old) (W.held out.new)) }
    ensures unwritten { IfErr result (λ e. e ≢ WhyFault.Write → out.new ≡ out.old) }
    ensures silent { (W.held out.new ≡ W.held out.old) ⊎ HasAnswer
        (terms (rules_by code_of excluded bounds.now) max_records max_named (bytes_of opened.old (R.left source.old)))
        opened.old.diagram opened.old.plies }
    ensures runs { OnOk result (W.has_failed out.new ≡ false) }
    ensures err { IfErr result (IsWhyFault moves.now
        (terms (rules_by code_of excluded bounds.now) max_records max_named (bytes_of opened.old (R.left source.old)))
        (terms (any_rules_by code_of excluded bounds.now) max_records max_named
        (bytes_of opened.old (R.left source.old)))
        opened.old.diagram opened.old.plies (failures (R.has_failed source.new) (W.has_failed out.new))) }
{
    let problem = opened.problem();
    let games = match line_of(alloc, moves) {
        Ok(games) => games,
        Err(fault) => return Err(fault),
    };
    let Some(line) = games.game(0) else {
        unreachable!()
    };
    let mut along = Along::new(alloc, &problem, line, tariffs);
    match answer_opened(
        alloc,
        opened,
        bounds,
        source,
        &mut along,
        max_records,
        max_named,
    ) {
        Ok(_) => match tell_right(&along, out) {
            Ok(()) => Ok(()),
            Err(fault) => Err(fault),
        },
        Err(fault) => Err(WhyFault::Answer(fault)),
    }
}
