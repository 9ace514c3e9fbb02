//! `pg search`: a certificate is searched for and written, and then checked.

ghost use Rattle.std.specs.Prelude.{◌≡◌, ◌⊎◌, ◌≤◌, List, None, codes, IfNone, IfOk, IfErr};
ghost use Rattle.pg_position.specs.declared.moves.Move.{Move};
ghost use Rattle.pg_certificate.specs.Pushing.{AddsSome};
ghost use Rattle.pg_streams.specs.Buffer.{sink_of};
ghost use Rattle.pg_texts.specs.Report.{IsReport};
ghost use Rattle.clap.specs.Words.{first_of, found_of, rows_of};
ghost use Rattle.pg_cli.specs.Answers.{HasAnswer, IsAnswered, OfGiven};
ghost use Rattle.pg_cli.specs.Ending.{IsSearchRefused};
ghost use Rattle.pg_cli.specs.Runs.{AreMet, IsGivenUp, IsOfFile, IsOfSink, IsSearchRefusal};
ghost use Rattle.pg_cli.specs.Runs.{search_refusal};

use crate::checking::check_listed;
use crate::knowing::Listed;
use crate::limits::{Reach, reach_of};
use crate::refusals::{Named, Reached, Refusal};
use crate::spelling::{RECORDS, text_of};
use clap::ArgMatches;
use pg_cooks::{standing_on, write_solutions};
use pg_files::{Draft, Obstacle, begin, begin_apart, stand_at_one};
use pg_report::{
    Bound, Fault, Games, Problem, ProblemFault, Refused, RunFault, SearchFault, Sink, ToWrite,
};
use pg_searcher::{FoundTariffs, Met, find_tariffs, search_by_tolls};
use pg_streams::{Cleared, Deadline, Gathered, Limited, Passing, SearchLine, Terminal, Timed};
use pg_tariff_files::{BYTES, MAGIC, number_of, stating_all, tariffs_of, write_carried};
use pg_tolls::Tariff;
use std::alloc::Global;
use std::io;
use std::io::{Read, Seek, SeekFrom, Write};
use std::rt::Runtime;

// The most nodes of a search, where the words do not say it.
const NODES: u64 = 1_000_000;

// Tolls alike for both sides and all squares: what a file has whose search found no tariffs.
const PLAIN: Tariff = Tariff {
    weights: [16, 16],
    tolls: [[0; 64]; 2],
};

// How a search goes: how far, and the bytes that state the tariffs by which it cuts, if there are any.
#[derive(Clone, Copy)]
pub(crate) struct Means<'a> {
    pub(crate) reach: Reach,
    pub(crate) tariffs: &'a [u8],
}

// What a search came to: what it found, the games or tariffs, or why it has none; the games that it met, each tested;
// how far it came; whether the certificate had no more room; and whether the time was over.
#[derive(Drop)]
pub(crate) struct Searched<T> {
    found: Result<T, SearchFault>,
    met: Games,
    known: Reached,
    is_full: bool,
    is_late: bool,
}

// How a search ended, as `Met` was told: whether memory was refused for a game, the tree at work, and how many nodes
// more were allowed.
#[derive(Clone, Copy)]
struct Ended {
    is_short: bool,
    tree: u8,
    left: u64,
}

// How far a search of so many nodes came, by the games that it met, which are tested.
//
// # Errors
// `Memory` where a growth was refused for a game that was met; `Check` with `Listed` where such a game is no solution,
// which should not be.
fn known_of(problem: &Problem, games: &Games, nodes: u64, ended: Ended) -> Result<Reached, Refusal>
    ensures ok { IfOk result (AreMet problem.now.diagram problem.now.length) }
    ensures err { IfErr result (IsSearchRefusal problem.now.diagram problem.now.length) }
{
    if ended.is_short {
        return Err(Refusal::Memory);
    }
    match standing_on(&problem.diagram, problem.length, games) {
        Ok(_) => Ok(Reached {
            games: games.len(),
            nodes: nodes.saturating_sub(ended.left),
            tree: ended.tree,
            plies: problem.length.plies(),
        }),
        Err(fault) => Err(Refusal::Check(RunFault::Check(Fault::Listed(fault)))),
    }
}

// Writes what stands before a certificate by these tariffs, if there are any. A sink that refuses it refuses what is
// written behind it too.
fn write_lead<W: Sink>(tariffs: &[u8], sink: &mut W) {
    if !tariffs.is_empty() {
        let _ = write_carried(number_of(tariffs), tariffs, sink);
    }
}

// How many bytes that are.
fn lead_of(tariffs: &[u8]) -> u64 {
    if tariffs.is_empty() {
        0
    } else {
        (MAGIC.len() + 1 + BYTES * usize::from(number_of(tariffs))) as u64
    }
}

// Searches, and writes the certificate to a writer, behind its tariffs.
//
// # Errors
// `Memory` where a growth was refused for tariffs; and those of `known_of`.
#[inline(never)]
pub(crate) fn search_to<R: Runtime + AllocGlobal, W: Write + Drop>(
    rt: &R,
    problem: &Problem,
    bounds: &[Box<dyn Bound>],
    certificate: W,
    means: Means<'_>,
    terminal: &Terminal,
) -> Result<Searched<Games>, Refusal>
    ensures found { IfOk result (λ searched. IfErr searched.found (λ fault. IsGivenUp problem.now.length fault)) }
    ensures met { IfOk result (λ searched. AreMet problem.now.diagram problem.now.length searched.known) }
    ensures err { IfErr result (λ refusal. IsSearchRefusal problem.now.diagram problem.now.length refusal) }
{
    let Ok(tariffs) = tariffs_of(rt.alloc(), means.tariffs) else {
        return Err(Refusal::Memory);
    };
    let mut sink = ToWrite::new(Limited::new(certificate, means.reach.bytes));
    write_lead(means.tariffs, &mut sink);
    let nodes = means.reach.nodes;
    let allowed = means.reach.allowed();
    let line = SearchLine::new(rt, terminal, problem.length.plies(), allowed);
    let mut timed = Timed::new(line, Deadline::new(rt, means.reach.milliseconds));
    let mut games = Games::new(rt.alloc());
    let mut met = Met::new(&mut timed, &mut games, nodes);
    let found = search_by_tolls(
        rt.alloc(),
        &problem.diagram,
        problem.length,
        nodes,
        bounds,
        tariffs.as_slice(),
        &mut sink,
        &mut met,
    );
    let (is_short, tree, left) = (met.is_short, met.tree, met.left);
    let is_late = timed.is_late();
    timed.line.end();
    let ended = Ended {
        is_short,
        tree,
        left,
    };
    match known_of(problem, &games, nodes, ended) {
        Ok(known) => Ok(Searched {
            found,
            met: games,
            known,
            is_full: sink.into_inner().is_full(),
            is_late,
        }),
        Err(refusal) => Err(refusal),
    }
}

// Searches for tariffs, and writes nothing.
//
// # Errors
// Those of `known_of`.
#[inline(never)]
fn find_to<R: Runtime + AllocGlobal>(
    rt: &R,
    problem: &Problem,
    bounds: &[Box<dyn Bound>],
    reach: Reach,
    terminal: &Terminal,
) -> Result<Searched<FoundTariffs>, Refusal>
    ensures found { IfOk result (λ searched. IfErr searched.found (λ fault. IsGivenUp problem.now.length fault)) }
    ensures met { IfOk result (λ searched. AreMet problem.now.diagram problem.now.length searched.known) }
    ensures err { IfErr result (λ refusal. IsSearchRefusal problem.now.diagram problem.now.length refusal) }
{
    let nodes = reach.nodes;
    let line = SearchLine::new(rt, terminal, problem.length.plies(), reach.allowed());
    let mut timed = Timed::new(line, Deadline::new(rt, reach.milliseconds));
    let mut games = Games::new(rt.alloc());
    let mut met = Met::new(&mut timed, &mut games, nodes);
    let found = find_tariffs(
        rt.alloc(),
        &problem.diagram,
        problem.length,
        nodes,
        bounds,
        &mut met,
    );
    let (is_short, tree, left) = (met.is_short, met.tree, met.left);
    let is_late = timed.is_late();
    timed.line.end();
    let ended = Ended {
        is_short,
        tree,
        left,
    };
    match known_of(problem, &games, nodes, ended) {
        Ok(known) => Ok(Searched {
            found,
            met: games,
            known,
            is_full: false,
            is_late,
        }),
        Err(refusal) => Err(refusal),
    }
}

// Why a search has no certificate that was ended by its nodes or by its time.
fn ended_early(known: Reached, is_late: bool) -> Refusal
    ensures { result ≡ search_refusal SearchFault.Budget known is_late }
{
    if is_late {
        Refusal::Late(known)
    } else {
        Refusal::GaveUp(SearchFault::Budget, known)
    }
}

// Why a search has no certificate, with what is known then, and whether its time was over.
fn gave_up(fault: SearchFault, known: Reached, is_late: bool) -> Refusal
    ensures { result ≡ search_refusal fault known is_late }
{
    match fault {
        SearchFault::Budget => ended_early(known, is_late),
        SearchFault::Shorter(_) | SearchFault::TooManyGames => Refusal::GaveUp(fault, known),
        SearchFault::Write | SearchFault::Memory => Refusal::Search(fault),
    }
}

// Writes a list of solutions to a file, where there is one.
fn write_list<F: Write>(
    problem: &Problem,
    games: &Games,
    list: &mut Option<Draft<F>>,
) -> Result<(), Refusal>
    ensures { IfErr result (λ refusal. IsSearchRefusal problem.now.diagram problem.now.length refusal) }
{
    let Some(list) = list else {
        return Ok(());
    };
    let mut out = Gathered::new(ToWrite::new(&mut list.file));
    match write_solutions(&problem.diagram, problem.length, games, &mut out) {
        Ok(_) => match out.finish() {
            Ok(_) => Ok(()),
            Err(Refused) => Err(Refusal::Write),
        },
        Err(fault) => Err(Refusal::of_listing(fault)),
    }
}

// The most records that the check of a certificate takes, where the search visited at most these nodes: no fewer than it
// wrote, which is at most one for each node.
fn records_for(nodes: u64) -> u64
    ensures usual { 100000000 ≤ result }
    ensures all { nodes ≤ result }
{
    nodes.max(RECORDS)
}

// The files that a search writes, beside their places: the certificate, and the list, if one is wanted.
#[derive(Drop)]
pub(crate) struct Drafts<F> {
    certificate: Draft<F>,
    list: Option<Draft<F>>,
}

// Searches, writes the certificate to its new file and the games that were met to the list's, if one is wanted; reads
// the certificate again from there, behind its tariffs, and checks it, and writes the report; the status of its
// verdict. With a refusal nothing is written, but where the sink refuses it.
pub(crate) fn search_in<R, F, W>(
    rt: &R,
    problem: &Problem,
    bounds: &[Box<dyn Bound>],
    drafts: &mut Drafts<F>,
    terminal: &Terminal,
    out: &mut Gathered<W>,
    means: Means<'_>,
) -> Result<u8, Refusal>
where
    R: Runtime + AllocGlobal,
    F: Read + Write + Seek,
    W: Sink,
    ensures headline { IfOk result (λ status. (games : List (List Move))
        × IsAnswered problem.now.diagram problem.now.length games status
        × AddsSome (IsReport problem.now.diagram problem.now.length games)
        (⟦<Gathered<W> as Sink>⟧.held out.old) (W.held (sink_of out.new))) }
    ensures err { IfErr result (λ refusal. IsSearchRefusal problem.now.diagram problem.now.length refusal) }
    ensures unwritten { IfErr result (λ refusal. ¬ IsOfSink refusal → out.new ≡ out.old) }
{
    let certificate = &mut drafts.certificate.file;
    let searched = match search_to(rt, problem, bounds, certificate, means, terminal) {
        Ok(searched) => searched,
        Err(refusal) => return Err(refusal),
    };
    let Searched {
        found,
        met,
        known,
        is_full,
        is_late,
    } = searched;
    match write_list(problem, &met, &mut drafts.list) {
        Ok(()) => {}
        Err(refusal) => return Err(refusal),
    }
    let games = match found {
        Ok(games) => games,
        Err(_) if is_full => return Err(Refusal::Full(known)),
        Err(fault) => return Err(gave_up(fault, known, is_late)),
    };
    let size = drafts.certificate.file.seek(SeekFrom::End(0)).ok();
    let lead = lead_of(means.tariffs);
    if drafts.certificate.file.seek(SeekFrom::Start(lead)).is_err() {
        return Err(Refusal::Read);
    }
    let records = records_for(means.reach.nodes);
    let mut source = Passing::new(rt, terminal, &mut drafts.certificate.file, size);
    let listed = Listed {
        problem: *problem,
        games,
    };
    let answer = check_listed(rt.alloc(), &listed, records, bounds, &mut source, out);
    source.end();
    answer
}

// Begins the file of the certificate, whose draft is not where the list is to stand, if the words want one.
fn begin_certificate<R: Runtime + AllocGlobal>(
    rt: &R,
    words: &ArgMatches<'_>,
) -> Result<Draft<R::File>, Refusal>
    ensures { IfErr result IsOfFile }
{
    let name = text_of(words, "CERT");
    let begun = match words.get_str("games") {
        Some(list) => begin_apart(rt, name, list),
        None => begin(rt, name),
    };
    match begun {
        Ok(draft) => Ok(draft),
        Err(fault) => Err(Refusal::of_file(fault, Named::Certificate)),
    }
}

// Begins the file of the list that the words want, if they want one, whose place is not that of the certificate.
fn begin_list<R: Runtime + AllocGlobal>(
    rt: &R,
    words: &ArgMatches<'_>,
) -> Result<Option<Draft<R::File>>, Refusal>
    ensures ok { IfOk result (λ list. IfNone list
        (first_of (codes "games") (rows_of (found_of words.now)) ≡ None)) }
    ensures err { IfErr result IsOfFile }
{
    let path = match words.get_str("games") {
        Some(path) => path,
        None => return Ok(None),
    };
    let certificate = text_of(words, "CERT");
    if stand_at_one(rt, certificate, path) {
        return Err(Refusal::Open(Named::Kept, Obstacle::NamedTwice));
    }
    match begin_apart(rt, path, certificate) {
        Ok(draft) => Ok(Some(draft)),
        Err(fault) => Err(Refusal::of_file(fault, Named::Kept)),
    }
}

// Begins the files of a search.
#[inline(never)]
fn begin_both<R: Runtime + AllocGlobal>(
    rt: &R,
    words: &ArgMatches<'_>,
) -> Result<Drafts<R::File>, Refusal>
    ensures { IfErr result IsOfFile }
{
    let certificate = match begin_certificate(rt, words) {
        Ok(certificate) => certificate,
        Err(refusal) => return Err(refusal),
    };
    match begin_list(rt, words) {
        Ok(list) => Ok(Drafts { certificate, list }),
        Err(refusal) => {
            certificate.discard(rt);
            Err(refusal)
        }
    }
}

// Puts the list in its place, where one is wanted.
fn put_list<R: Runtime + AllocGlobal>(rt: &R, list: Option<Draft<R::File>>) -> Result<(), Refusal>
    ensures { IfErr result IsOfFile }
{
    let Some(list) = list else {
        return Ok(());
    };
    match list.put(rt) {
        Ok(()) => Ok(()),
        Err(fault) => Err(Refusal::of_file(fault, Named::Kept)),
    }
}

// Puts both files in their places, after a report.
#[inline(never)]
fn put_both<R: Runtime + AllocGlobal>(rt: &R, drafts: Drafts<R::File>) -> Result<(), Refusal>
    ensures { IfErr result IsOfFile }
{
    let Drafts { certificate, list } = drafts;
    match certificate.put(rt) {
        Ok(()) => put_list(rt, list),
        Err(fault) => {
            if let Some(list) = list {
                list.discard(rt);
            }
            Err(Refusal::of_file(fault, Named::Certificate))
        }
    }
}

// Whether a search gave up and had met games.
fn has_games(refusal: &Refusal) -> bool {
    match refusal {
        Refusal::GaveUp(_, known) | Refusal::Full(known) | Refusal::Late(known) => known.games > 0,
        _ => false,
    }
}

// Ends a search that has no report: the certificate is taken away, and the list put in its place where the search gave
// up and has games for it.
#[inline(never)]
fn end_both<R: Runtime + AllocGlobal>(rt: &R, drafts: Drafts<R::File>, refusal: Refusal) -> Refusal
    ensures { (result ≡ refusal) ⊎ IsOfFile result }
{
    let Drafts { certificate, list } = drafts;
    certificate.discard(rt);
    if has_games(&refusal) {
        return match put_list(rt, list) {
            Ok(()) => refusal,
            Err(other) => other,
        };
    }
    if let Some(list) = list {
        list.discard(rt);
    }
    refusal
}

// Discards both files.
fn discard_both<R: Runtime + AllocGlobal>(rt: &R, drafts: Drafts<R::File>) {
    let Drafts { certificate, list } = drafts;
    certificate.discard(rt);
    if let Some(list) = list {
        list.discard(rt);
    }
}

// Keeps the games that a search for tariffs met which has none, as `end_both` does.
#[inline(never)]
fn keep_met<R: Runtime + AllocGlobal>(
    rt: &R,
    words: &ArgMatches<'_>,
    problem: &Problem,
    met: &Games,
    refusal: Refusal,
) -> Refusal
    ensures { (result ≡ refusal) ⊎ (IsOfFile result
        ⊎ IsSearchRefusal problem.now.diagram problem.now.length result) }
{
    let mut drafts = match begin_both(rt, words) {
        Ok(drafts) => drafts,
        Err(other) => return other,
    };
    match write_list(problem, met, &mut drafts.list) {
        Ok(()) => end_both(rt, drafts, refusal),
        Err(other) => {
            discard_both(rt, drafts);
            other
        }
    }
}

// The bytes that state tariffs, or that state the plain one where there are none.
fn stating_some(alloc: Global, tariffs: &[Tariff]) -> Result<Vec<u8>, Refusal>
    ensures { IfErr result IsOfFile }
{
    let stated = if tariffs.is_empty() {
        stating_all(alloc, &[PLAIN])
    } else {
        stating_all(alloc, tariffs)
    };
    match stated {
        Ok(stated) => Ok(stated),
        Err(_) => Err(Refusal::Memory),
    }
}

// The bytes that state the tariffs by which the games of a problem are searched for, at least one. They are found by a
// search of its own. Before it begins it is tried whether the files of the words can be begun.
//
// # Errors
// Those of `begin_both`; why the search gave up; `Memory` where a growth was refused.
#[inline(never)]
pub(crate) fn find_for<R: Runtime + AllocGlobal>(
    rt: &R,
    words: &ArgMatches<'_>,
    problem: &Problem,
    bounds: &[Box<dyn Bound>],
    screen: bool,
) -> Result<Vec<u8>, Refusal>
    ensures { IfErr result (λ refusal. IsOfFile refusal
        ⊎ IsSearchRefusal problem.now.diagram problem.now.length refusal) }
{
    match begin_both(rt, words) {
        Ok(drafts) => discard_both(rt, drafts),
        Err(refusal) => return Err(refusal),
    }
    let terminal = Terminal::new(screen);
    let searched = match find_to(rt, problem, bounds, reach_of(words, NODES), &terminal) {
        Ok(searched) => searched,
        Err(refusal) => return Err(refusal),
    };
    let Searched {
        found,
        met,
        known,
        is_late,
        ..
    } = searched;
    match found {
        Ok(found) => stating_some(rt.alloc(), found.tariffs.as_slice()),
        Err(fault) => Err(keep_met(rt, words, problem, &met, gave_up(fault, known, is_late))),
    }
}

// Searches for the games of a problem: the certificate is written beside its place, checked from there and put in its
// place once the report stands on standard output. Else it is taken away, and what stood there is as it was. So is the
// list that the words may want, but a search that gives up puts it there too, if it met a game.
fn search_for<R: Runtime + AllocGlobal>(
    rt: &R,
    words: &ArgMatches<'_>,
    problem: &Problem,
    tariffs: &[u8],
    bounds: &[Box<dyn Bound>],
    screen: bool,
) -> Result<u8, Refusal>
    ensures ok { IfOk result (λ status. HasAnswer problem.now.diagram problem.now.length status) }
    ensures err { IfErr result (λ refusal. IsOfFile refusal
        ⊎ IsSearchRefusal problem.now.diagram problem.now.length refusal) }
{
    let means = Means {
        reach: reach_of(words, NODES),
        tariffs,
    };
    let mut drafts = match begin_both(rt, words) {
        Ok(drafts) => drafts,
        Err(refusal) => return Err(refusal),
    };
    let terminal = Terminal::new(screen);
    let mut out = Gathered::new(Cleared::new(ToWrite::new(io::writer(rt)), rt, &terminal));
    match search_in(rt, problem, bounds, &mut drafts, &terminal, &mut out, means) {
        Ok(status) => match put_both(rt, drafts) {
            Ok(()) => Ok(status),
            Err(refusal) => Err(refusal),
        },
        Err(refusal) => Err(end_both(rt, drafts, refusal)),
    }
}

// `pg search`: games are searched for, by these tariffs if there are any, and a certificate is written and checked. A
// status means that a list is the exact answer to the problem, and 0 that it has one game. The games that a search which
// gave up says to have met solve the problem.
#[inline(never)]
pub(crate) fn search<R: Runtime + AllocGlobal>(
    rt: &R,
    words: &ArgMatches<'_>,
    problem: Result<Problem, ProblemFault>,
    tariffs: &[u8],
    bounds: &[Box<dyn Bound>],
    screen: bool,
) -> Result<u8, Refusal>
    ensures ok { IfOk result (λ status. OfGiven problem (λ d n. HasAnswer d n status)) }
    ensures err { IfErr result (IsSearchRefused problem) }
{
    let problem = match problem {
        Ok(problem) => problem,
        Err(fault) => return Err(Refusal::of_problem(fault)),
    };
    search_for(rt, words, &problem, tariffs, bounds, screen)
}
