//! Games as PGN, in place of a report of them, or beside a certificate.

ghost use Rattle.std.specs.Prelude.{◌≡◌, false, true, IfOk, IfErr, OnOk};
ghost use Rattle.pg_certificate.specs.Pushing.{AddsSome, MayPush};
ghost use Rattle.pg_judge.specs.Rows.{IsWritable};
ghost use Rattle.pg_judge.specs.Ruling.{IsFindingOf};
ghost use Rattle.pg_judge.specs.declared.ruling.Finding.TheVariants.{NotSound};
ghost use Rattle.pg_pgn.specs.Writing.{IsPgnText};
ghost use Rattle.pg_report.specs.declared.fault.RunFault.TheVariants.{Write};
ghost use Rattle.pg_streams.specs.Buffer.{sink_of};
ghost use Rattle.pg_cli.specs.Judging.{IsSpoiled};
ghost use Rattle.pg_cli.specs.Solving.{games_of};
ghost use Rattle.pg_cli.specs.declared.refusals.Refusal.TheVariants.{Check};

use crate::checking::finished;
use crate::judging::{Orders, Place, Spoiled};
use crate::refusals::{DONE, Refusal};
use pg_certificate::{Refused, ToWrite};
use pg_files::{Draft, FileFault, begin_here, is_missing};
use pg_judge::{Entry, Evidence, Finding};
use pg_pgn::{write_pgn, write_pgn_and};
use pg_report::{Games, RunFault, Sink};
use pg_streams::Gathered;
use std::io::Write;
use std::rt::Runtime;

// Writes games as PGN, and hands all of it on; this status.
//
// # Errors
// `Check` with `Write` where writing is refused.
pub(crate) fn send<W: Sink>(games: &Games, status: u8, out: &mut Gathered<W>) -> Result<u8, Refusal>
    ensures ok { IfOk result (λ s. s ≡ status) }
    ensures text { OnOk result (AddsSome (IsPgnText games.now)
        (⟦<Gathered<W> as Sink>⟧.held out.old) (W.held (sink_of out.new))) }
    ensures err { IfErr result (λ refusal. (refusal ≡ Check Write)
        × (⟦<Gathered<W> as Sink>⟧.has_failed out.new ≡ true)) }
{
    match write_pgn(games, out) {
        Ok(()) => finished(status, out),
        Err(_) => Err(Refusal::Check(RunFault::Write)),
    }
}

// Writes the games that show that a problem is not sound, beside the author's, as PGN.
fn write_evidence<W: Sink>(
    entry: &Entry<'_>,
    evidence: &Evidence,
    out: &mut W,
) -> Result<(), Refused>
    requires { IsWritable evidence.now }
    ensures { MayPush W.held W.has_failed
        (AddsSome (IsPgnText (games_of entry.now.games (NotSound evidence.now)))) out.old out.new result }
{
    match evidence {
        Evidence::Several(games) => write_pgn(games, out),
        Evidence::Another(game) => write_pgn_and(&entry.games, game.as_slice(), out),
        Evidence::Shorter(game) => write_pgn_and(&entry.games, game.as_slice(), out),
    }
}

// Writes the games that are told of what is found of a problem, as PGN; none where it is not settled.
//
// # Errors
// `Refused` where the sink has failed.
pub(crate) fn write_found<W: Sink>(
    entry: &Entry<'_>,
    finding: &Finding,
    out: &mut W,
) -> Result<(), Refused>
    requires { IsFindingOf entry.now finding.now }
    ensures { MayPush W.held W.has_failed
        (AddsSome (IsPgnText (games_of entry.now.games finding.now))) out.old out.new result }
{
    match finding {
        Finding::Settled(_, games) => write_pgn(games, out),
        Finding::NotSound(evidence) => write_evidence(entry, evidence, out),
        Finding::NotSettled(_) => Ok(()),
    }
}

// Writes games as PGN to a place.
//
// # Errors
// `Write` where writing is refused.
fn send_to<P: Write + Drop>(games: &Games, place: P) -> Result<(), FileFault> {
    let mut out = Gathered::new(ToWrite::new(place));
    match send(games, DONE, &mut out) {
        Ok(_) => Ok(()),
        Err(_) => Err(FileFault::Write),
    }
}

// Puts games as PGN in the place of a draft.
//
// # Errors
// `Place` where that is not done; what stood there is as it was then.
fn put_games<R: Runtime + AllocGlobal>(
    rt: &R,
    games: &Games,
    draft: Draft<R::File>,
) -> Result<(), Spoiled>
    ensures { IfErr result (IsSpoiled false) }
{
    let written = match draft.handle() {
        Ok(handle) => send_to(games, handle),
        Err(fault) => Err(fault),
    };
    match written {
        Ok(()) => {}
        Err(fault) => {
            draft.discard(rt);
            return Err(Spoiled::from(fault));
        }
    }
    match draft.put(rt) {
        Ok(()) => Ok(()),
        Err(fault) => Err(Spoiled::from(fault)),
    }
}

// Writes the games that settle a problem as PGN, `NAME.pgn` beside its certificate `NAME.pgc`, where that is wanted. A
// file that has this name stays as it is.
#[inline(never)]
pub(crate) fn keep_games<R: Runtime + AllocGlobal>(
    rt: &R,
    entry: &Entry<'_>,
    finding: &Finding,
    orders: &Orders<'_>,
) -> Result<(), Spoiled>
    ensures { IfErr result (IsSpoiled false) }
{
    let Place::Folder(folder) = orders.place else {
        return Ok(());
    };
    let Finding::Settled(_, games) = finding else {
        return Ok(());
    };
    if !orders.as_pgn {
        return Ok(());
    }
    let path = match format!(in rt.alloc(); "{folder}/{}.pgn", entry.name) {
        Ok(path) => path,
        Err(_) => return Err(Spoiled::Run(Refusal::Memory)),
    };
    if !is_missing(rt, path.as_str()) {
        return Ok(());
    }
    match begin_here(rt, path.as_str()) {
        Ok(draft) => put_games(rt, games, draft),
        Err(fault) => Err(Spoiled::from(fault)),
    }
}
