//! A certificate is checked and shown as a page.
ghost use Rattle.std.specs.Prelude.{◌≡◌, ◌⊎◌, false, true, IfErr, OnErr, OnOk};
ghost use Rattle.pg_certificate.specs.Pushing.{Grows, MayPush, Pushes};
ghost use Rattle.pg_checker.specs.Answering.{HasAnswer, failures};
ghost use Rattle.pg_checker.specs.Cuts.{any_rules_by, rules_by};
ghost use Rattle.pg_checker.specs.Opening.{bytes_of};
ghost use Rattle.pg_checker.specs.Terms.{terms};
ghost use Rattle.pg_page.specs.Page.{AddsHead, IsPageFault, IsShowingFault, IsShown};

use crate::fault::PageFault;
use crate::heading::{Caption, write_head};
use crate::log::Log;
use crate::script::{SCRIPT, VIEWER};
use crate::telling::tell;
use pg_captures::Bound;
use pg_certificate::{Refused, Sink, Source};
use pg_checker::{Answer, Opened, Problem, answer_opened};
use pg_fen::text::digits;
use pg_sentences::phrases::{
    AFTER, AS, AT_THE_START, BARREN, CUT_BY, ELSEWHERE, EXCLUDED, SOLUTION, UNSEEN,
};
use pg_sentences::untold;
use pg_tolls::Tariff;
use std::alloc::Global;

// Appends texts.
fn write_all<W: Sink>(texts: &[&str], out: &mut W) -> Result<(), Refused>
    ensures { MayPush W.held W.has_failed Grows out.old out.new result }
{
    for text in texts {
        out.push(text.as_bytes())?;
    }
    Ok(())
}

// Appends what stands between the games and the trees: the command that checks the certificate, and the words that the
// script puts beside what the trees say, with how many tariffs stand before the certificate.
fn write_viewer<W: Sink>(tariffs: usize, out: &mut W) -> Result<(), Refused>
    ensures { MayPush W.held W.has_failed Grows out.old out.new result }
{
    let tariffs = digits(tariffs);
    let untold = untold(0);
    write_all(
        &[
            VIEWER,
            "</code>.</p>\n<div id=\"phrases\" hidden data-start=\"",
            AT_THE_START,
            "\" data-after=\"",
            AFTER,
            "\" data-as=\"",
            AS,
            "\" data-barren=\"",
            BARREN,
            "\" data-excluded=\"",
            EXCLUDED,
            "\" data-cut=\"",
            CUT_BY,
            "\" data-unseen=\"",
            UNSEEN,
            "\" data-solution=\"",
            SOLUTION,
            "\" data-elsewhere=\"",
            ELSEWHERE,
            "\" data-untold=\"",
            untold.as_str(),
            "\" data-tariffs=\"",
            tariffs.as_str(),
            "\"></div>\n<pre id=\"trees\" hidden>",
        ],
        out,
    )
}

// Appends what stands behind the trees.
fn write_end<W: Sink>(out: &mut W) -> Result<(), Refused>
    ensures { Pushes W.held W.has_failed Grows out.old out.new result }
{
    write_all(&["</pre>\n<script>\n", SCRIPT], out)?;
    out.push(b"</script>\n</body>\n</html>\n")
}

// Appends what stands below the games.
fn write_proof<W: Sink>(problem: &Problem, log: &Log<'_>, out: &mut W) -> Result<(), Refused>
    ensures { Pushes W.held W.has_failed Grows out.old out.new result }
{
    write_viewer(log.tariffs.len(), out)?;
    tell(&problem.diagram, log, out)?;
    write_end(out)
}

// Writes the page of a problem and its answer, with what was met of the trees. Not inlined: what it needs of the stack
// would lie below the check too.
#[inline(never)]
fn show<W: Sink>(
    problem: &Problem,
    caption: &Caption<'_>,
    answer: &Answer,
    log: &Log<'_>,
    out: &mut W,
) -> Result<(), Refused>
    ensures { Pushes W.held W.has_failed
        (AddsHead problem.now.diagram problem.now.length caption.now.title.now caption.now.author.now answer.now)
        out.old out.new result }
{
    write_head(problem, caption, answer, out)?;
    write_proof(problem, log, out)
}

// Writes the page of a problem and its answer, with what was met of the trees, where there was room for that.
fn write_page<W: Sink>(
    problem: &Problem,
    caption: &Caption<'_>,
    answer: &Answer,
    log: &mut Log<'_>,
    out: &mut W,
) -> Result<(), PageFault>
    ensures head { OnOk result (AddsHead problem.now.diagram problem.now.length
        caption.now.title.now caption.now.author.now answer.now (W.held out.old) (W.held out.new)) }
    ensures runs { OnOk result (W.has_failed out.new ≡ false) }
    ensures err { IfErr result (IsShowingFault (W.has_failed out.new)) }
{
    log.end_tree();
    if log.is_lost {
        return Err(PageFault::Memory);
    }
    match show(problem, caption, answer, log, out) {
        Ok(()) => Ok(()),
        Err(Refused) => Err(PageFault::Write),
    }
}

/// Checks a certificate that was opened, and writes a page that shows it: one file of HTML, which needs nothing else,
/// with the title and the author of `caption`, and at most `nodes` expanded nodes of the tree of the stated length, and
/// of the shorter ones together. `tariffs` are those of the bounds with the codes from `Tolls::FIRST_CODE` on, in their
/// order, for the words of their cuts.
/// docs/FORMATS.md says what stands there. Ok means that some list of games is the exact answer to the problem of the
/// header, that the certificate proves it, and that the page begins with the head of just that answer: the caption, the
/// diagram, the verdict, what was checked, and each game. No clause speaks of what follows. Nothing is written before
/// the check has said yes.
///
/// The certificate is read once: `source` is the one that it was opened from, as that call left it. The games, the
/// named nodes, the lines of the trees and the tables of tariffs take their room from `alloc`; nothing else takes
/// memory. Where room for tables is refused, the cuts by a tariff are told as not seen to exclude.
///
/// # Errors
/// In this order: `Answer` where the certificate gives no answer, with its cause; and where it does, `Memory` where
/// there was no room for the lines, and `Write` where the sink has failed.
pub fn page<R: Source, W: Sink>(
    alloc: Global,
    opened: &mut Opened,
    caption: &Caption<'_>,
    nodes: u64,
    tariffs: &[Tariff],
    bounds: &[Box<dyn Bound>],
    source: &mut R,
    out: &mut W,
    max_records: u64,
    max_named: u32,
) -> Result<(), PageFault>
    ensures right { OnOk result (HasAnswer
        (terms (rules_by code_of excluded bounds.now) max_records max_named (bytes_of opened.old (R.left source.old)))
        opened.old.diagram opened.old.plies) }
    ensures head { OnOk result (IsShown
        (terms (rules_by code_of excluded bounds.now) max_records max_named (bytes_of opened.old (R.left source.old)))
        opened.old.diagram opened.old.plies caption.now.title.now caption.now.author.now
        (W.held out.old) (W.held out.new)) }
    ensures silent { (W.held out.new ≡ W.held out.old) ⊎ HasAnswer
        (terms (rules_by code_of excluded bounds.now) max_records max_named (bytes_of opened.old (R.left source.old)))
        opened.old.diagram opened.old.plies }
    ensures runs { OnOk result (W.has_failed out.new ≡ false) }
    ensures err { IfErr result (IsPageFault
        (terms (rules_by code_of excluded bounds.now) max_records max_named (bytes_of opened.old (R.left source.old)))
        (terms (any_rules_by code_of excluded bounds.now) max_records max_named
        (bytes_of opened.old (R.left source.old)))
        opened.old.diagram opened.old.plies (failures (R.has_failed source.new) (W.has_failed out.new))) }
{
    let problem = opened.problem();
    let mut log = Log::new(alloc, &problem, tariffs, nodes);
    match answer_opened(
        alloc,
        opened,
        bounds,
        source,
        &mut log,
        max_records,
        max_named,
    ) {
        Ok(answer) => {
            match write_page(&problem, caption, &answer, &mut log, out) {
                Ok(()) => Ok(()),
                Err(fault) => Err(fault),
            }
        }
        Err(fault) => Err(PageFault::Answer(fault)),
    }
}
