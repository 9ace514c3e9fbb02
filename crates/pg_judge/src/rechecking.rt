//! A certificate that stands there already.
ghost use Rattle.std.specs.Prelude.{◌≡◌, IfOk};
ghost use Rattle.pg_judge.specs.Ruling.{IsFindingOf, unread};

use crate::entry::Entry;
use crate::ruling::{Finding, Known, Means, Reason, Ruling};
use pg_captures::Bound;
use pg_certificate::Source;
use pg_certificate::format::MOST_NAMED;
use pg_checker::{Answer, AnswerFault, answer};
use pg_texts::verdict_on;
use std::alloc::Global;

/// What a certificate of an entry's problem proves, by these bounds: its games are all that solve the problem, and no game of
/// fewer plies ends on the diagram. The list and the named nodes are taken from `alloc`.
///
/// # Errors
/// As for `answer`: where the certificate is refused, or is of another problem.
pub fn recheck<R: Source>(
    alloc: Global,
    entry: &Entry<'_>,
    bounds: &[Box<dyn Bound>],
    source: &mut R,
    max_records: u64,
) -> Result<Ruling, AnswerFault>
    ensures headline { IfOk result (λ r. IsFindingOf entry.now r.finding) }
{
    match answer(
        alloc,
        &entry.problem.diagram,
        entry.problem.length,
        bounds,
        source,
        max_records,
        MOST_NAMED,
    ) {
        Ok(answer) => {
            let Answer { games, proved } = answer;
            Ok(Ruling {
                finding: Finding::Settled(verdict_on(&games), games),
                means: Means::Certificate(proved.records),
            })
        }
        Err(fault) => Err(fault),
    }
}

/// What is found where the time was over before a certificate that stands there was read to its end: nothing.
pub fn time_is_over() -> Ruling
    ensures { result ≡ unread }
{
    Ruling {
        finding: Finding::NotSettled(Known {
            games: 0,
            below: None,
            foreign: None,
            reason: Reason::Nodes,
        }),
        means: Means::Unread,
    }
}
