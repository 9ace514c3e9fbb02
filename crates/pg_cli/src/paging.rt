//! `pg page`: a certificate is shown as a page.
ghost use Rattle.std.specs.Prelude.{◌≡◌, ◌⊎◌, codes, IfOk, IfErr, OnOk};
ghost use Rattle.pg_checker.specs.Cuts.{any_rules_by, rules_by};
ghost use Rattle.pg_checker.specs.Opening.{bytes_of};
ghost use Rattle.pg_checker.specs.Terms.{terms};
ghost use Rattle.clap.specs.Words.{found_of, rows_of};
ghost use Rattle.pg_page.specs.Page.{IsShown, failures};
ghost use Rattle.pg_streams.specs.Buffer.{sink_of};
ghost use Rattle.pg_cli.specs.Answers.{HasList};
ghost use Rattle.pg_cli.specs.Runs.{IsPageRefusal, page_refusal};
ghost use Rattle.pg_cli.specs.Words.{ByRecords, spelled};

use crate::checking::finished;
use crate::limits::amount;
use crate::refusals::{DONE, Refusal};
use crate::spelling::{records_of, text_of};
use clap::ArgMatches;
use pg_certificate::format::MOST_NAMED;
use pg_page::{Caption, PageFault, page as show};
use pg_report::{AnswerRunFault, Bound, Opened, RunFault, Sink, Source};
use pg_streams::Gathered;
use pg_tolls::Tariff;
use std::alloc::Global;

// The most expanded nodes that are told, where the words do not say it.
const NODES: u64 = 3_000;

// Why there is no page, as a refusal.
fn refusal_of(fault: PageFault) -> Refusal
    ensures { result ≡ page_refusal fault }
{
    match fault {
        PageFault::Answer(fault) => Refusal::Answer(AnswerRunFault::Answer(fault)),
        PageFault::Memory => Refusal::Memory,
        PageFault::Write => Refusal::Check(RunFault::Write),
    }
}

// Checks a certificate that was opened, behind these tariffs, and writes the page that shows it; nothing before the
// check has said yes. A status means that the games which the certificate proves are the exact answer to the problem of
// its header, and that the page is handed on, whose head is that of just these, with the title and the author of the
// words.
//
// # Errors
// `Answer` where the certificate does not give its games; `Memory`; and `Check` with `Write` where writing is refused.
#[inline(never)]
pub(crate) fn page_on<S: Source, W: Sink>(
    alloc: Global,
    words: &ArgMatches<'_>,
    opened: &mut Opened,
    tariffs: &[Tariff],
    bounds: &[Box<dyn Bound>],
    source: &mut S,
    out: &mut Gathered<W>,
) -> Result<u8, Refusal>
    ensures head { OnOk result (ByRecords (rows_of (found_of words.now)) (λ records. IsShown
        (terms (rules_by code_of excluded bounds.now) records MOST_NAMED (bytes_of opened.old (S.left source.old)))
        opened.old.diagram opened.old.plies
        (spelled (codes "title") (rows_of (found_of words.now))) (spelled (codes "author") (rows_of (found_of words.now)))
        (⟦<Gathered<W> as Sink>⟧.held out.old) (W.held (sink_of out.new)))) }
    ensures zero { IfOk result (λ status. status ≡ 0) }
    ensures silent { (⟦<Gathered<W> as Sink>⟧.held out.new ≡ ⟦<Gathered<W> as Sink>⟧.held out.old)
        ⊎ HasList opened.old.diagram opened.old.plies }
    ensures err { IfErr result (λ refusal. ByRecords (rows_of (found_of words.now)) (λ records. IsPageRefusal
        (terms (rules_by code_of excluded bounds.now) records MOST_NAMED (bytes_of opened.old (S.left source.old)))
        (terms (any_rules_by code_of excluded bounds.now) records MOST_NAMED (bytes_of opened.old (S.left source.old)))
        opened.old.diagram opened.old.plies
        (failures (S.has_failed source.new) (⟦<Gathered<W> as Sink>⟧.has_failed out.new)) refusal)) }
{
    let nodes = amount(words, "nodes", NODES);
    let records = records_of(words);
    let caption = Caption {
        title: text_of(words, "title"),
        author: text_of(words, "author"),
    };
    match show(
        alloc, opened, &caption, nodes, tariffs, bounds, source, out, records, MOST_NAMED,
    ) {
        Ok(()) => finished(DONE, out),
        Err(fault) => Err(refusal_of(fault)),
    }
}
