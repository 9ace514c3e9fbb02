//! `pg upgrade`: a certificate of version 1 is copied as one of version 2.
ghost use Rattle.std.specs.Prelude.{◌≡◌, ◌≤◌, ℕ, List, IfOk, IfErr, OnOk, OnErr, true};
ghost use Rattle.clap.specs.Words.{found_of, rows_of};
ghost use Rattle.std.specs.Io.KnownBytes.{Appends, Consumes, IsAtEnd};
ghost use Rattle.pg_streams.specs.Buffer.{sink_of};
ghost use Rattle.pg_texts.specs.Upgrade.{IsUpgraded};
ghost use Rattle.pg_cli.specs.Runs.{IsUpgradeRefusal, copied_text};
ghost use Rattle.pg_cli.specs.Words.{ByRecords};

use crate::refusals::{DONE, Named, Refusal};
use crate::spelling::{records_of, text_of};
use clap::ArgMatches;
use pg_fen::text::digits;
use pg_files::{Obstacle, begin, lead_to_one, open, size_of};
use pg_report::{Refused, Sink, Source, ToWrite, UpgradeFault, upgrade as upgrade_from};
use pg_streams::{Cleared, Gathered, Passing, Terminal};
use std::io;
use std::io::Write;
use std::rt::Runtime;

// Writes how many records there are, and hands it on.
fn write_count<W: Sink>(count: u64, out: &mut Gathered<W>) -> Result<(), Refused>
    ensures text { OnOk result (Appends (⟦<Gathered<W> as Sink>⟧.held out.old) (W.held (sink_of out.new))
        (copied_text count)) }
    ensures fault { OnErr result (⟦<Gathered<W> as Sink>⟧.has_failed out.new ≡ true) }
{
    out.push(b"records ")?;
    out.push(digits(count as usize).as_bytes())?;
    out.push(b"\n")?;
    out.flush()
}

// Copies the certificate that a source gives to a sink, and prints how many records it has, no more than the words
// allow: the answer. The sink has the whole copy then, and the number is handed on.
//
// # Errors
// `Upgrade` with the fault of the copying, or with `Write` where the number is not printed.
pub(crate) fn upgrade_on<S: Source, W: Sink, O: Sink>(
    words: &ArgMatches<'_>,
    source: &mut S,
    new: &mut W,
    out: &mut Gathered<O>,
) -> Result<u64, Refusal>
    ensures copied { IfOk result (λ n. (text : List ℕ) × (copy : List ℕ) × IsUpgraded text copy n
        × Consumes (S.left source.old) (S.left source.new) text × Appends (W.held new.old) (W.held new.new) copy) }
    ensures end { OnOk result (IsAtEnd (S.left source.new)) }
    ensures few { IfOk result (λ n. ByRecords (rows_of (found_of words.now)) (λ records. n ≤ records)) }
    ensures told { IfOk result (λ n. Appends (⟦<Gathered<O> as Sink>⟧.held out.old) (O.held (sink_of out.new))
        (copied_text n)) }
    ensures err { IfErr result (λ refusal. ByRecords (rows_of (found_of words.now)) (λ records. IsUpgradeRefusal records
        (S.left source.old) (S.has_failed source.new)
        (W.has_failed new.new) (⟦<Gathered<O> as Sink>⟧.has_failed out.new) refusal)) }
{
    let count = match upgrade_from(source, new, records_of(words)) {
        Ok(count) => count,
        Err(fault) => return Err(Refusal::Upgrade(fault)),
    };
    match write_count(count, out) {
        Ok(()) => Ok(count),
        Err(Refused) => Err(Refusal::Upgrade(UpgradeFault::Write)),
    }
}

// The same with a file as the sink; what that holds then is not said.
fn upgrade_file<S: Source, F: Write + Drop, O: Sink>(
    words: &ArgMatches<'_>,
    source: &mut S,
    file: F,
    out: &mut Gathered<O>,
) -> Result<u64, Refusal> {
    upgrade_on(words, source, &mut ToWrite::new(file), out)
}

// `pg upgrade`: the copy is written beside its place, and put there once the number of its records
// stands on standard output. Else it is taken away, and what stood there is as it was.
#[inline(never)]
pub(crate) fn upgrade<R: Runtime + AllocGlobal>(
    rt: &R,
    words: &ArgMatches<'_>,
    screen: bool,
) -> Result<u8, Refusal>
    ensures { IfOk result (λ status. status ≡ 0) }
{
    let old = text_of(words, "OLD");
    let new = text_of(words, "NEW");
    let source = match open(rt, old) {
        Ok(source) => source,
        Err(fault) => return Err(Refusal::of_file(fault, Named::Old)),
    };
    if lead_to_one(rt, old, new) {
        return Err(Refusal::Open(Named::New, Obstacle::NamedTwice));
    }
    let mut draft = match begin(rt, new) {
        Ok(draft) => draft,
        Err(fault) => return Err(Refusal::of_file(fault, Named::New)),
    };
    let terminal = Terminal::new(screen);
    let mut source = Passing::new(rt, &terminal, source, size_of(rt, old));
    let mut out = Gathered::new(Cleared::new(ToWrite::new(io::writer(rt)), rt, &terminal));
    let answer = upgrade_file(words, &mut source, &mut draft.file, &mut out);
    source.end();
    if let Err(refusal) = answer {
        draft.discard(rt);
        return Err(refusal);
    }
    match draft.put(rt) {
        Ok(()) => Ok(DONE),
        Err(fault) => Err(Refusal::of_file(fault, Named::New)),
    }
}
