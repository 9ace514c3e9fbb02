//! `pg judge`: the problems of a file are judged one after the other, and each has a row as soon as it is known.

ghost use Rattle.std.specs.Prelude.{◌≡◌, ◌≢◌, All, IfOk, IfErr, OnOk, codes, false};
ghost use Rattle.clap.specs.Words.{found_of, rows_of};
ghost use Rattle.pg_certificate.specs.Pushing.{AddsSome};
ghost use Rattle.pg_judge.specs.Ruling.{IsFindingOf, IsSoundLine};
ghost use Rattle.pg_judge.specs.declared.entry.Entry.{Entry};
ghost use Rattle.pg_san.specs.GameText.{lines};
ghost use Rattle.pg_streams.specs.Buffer.{IsHandedOn};
ghost use Rattle.pg_cli.specs.Answers.{IsGivenBy};
ghost use Rattle.pg_cli.specs.Judging.{AreJudged, EndsRun, GivesList, IsCutOff, IsFindingStatus, IsJudged};
ghost use Rattle.pg_cli.specs.Judging.{IsListJudged, IsRowStatus, IsRuled, IsSpoiled, IsStanding, IsTextJudged};
ghost use Rattle.pg_cli.specs.Runs.{IsListRefused, IsOfFile};
ghost use Rattle.pg_cli.specs.Words.{spelled};

use crate::bounds::{journeys_to, tolls_to, travel_to};
use crate::converting::problems_as;
use crate::keeping::{Loose, OnDisk};
use crate::limits::{Reach, reach_of};
use crate::problems::{AtPlace, FAILS, Tally, count_problems, say_bad};
use crate::refusals::{Named, Refusal};
use crate::screen::Screen;
use crate::sending::keep_games;
use crate::spelling::{say_pgn, say_replace, text_of};
use crate::watching::Watch;
use clap::ArgMatches;
use pg_captures::{Bound, Captures, Promotions};
use pg_certificate::{Refused, Sink, ToWrite};
use pg_checker::AnswerFault;
use pg_files::{
    Draft, FileFault, begin, begin_here, is_missing, list, make_folder, open_plain, size_of,
};
use pg_judge::{
    Enough, Entry, EntryFault, Finding, Given, JudgeProgress, Limits, Old, Prepared, Ruling,
    Scratch, Unsettled, given_to, is_sound, judge as judge_problem, judge_by_tolls, prepare_tolls,
    read_entry, recheck, time_is_over, unmarked, unsettled_of, write_row,
};
use pg_pawns::PawnFiles;
use pg_san::{GamesFault, next_line};
use pg_streams::{Cleared, Deadline, Gathered, Passing, Terminal, Until};
use pg_tariff_files::{CarriedFault, number_of, read_carried, stating_all, write_carried};
use std::alloc::{AllocError, AllocFailed, Global};
use std::collections::BTreeSet;
use std::io;
use std::io::{Cursor, Eprint, Read};
use std::rt::Runtime;
use std::time::Clock;

// The most nodes of one search for the games of a problem, where the words do not say it.
pub(crate) const NODES: u64 = 100_000_000;

// A problem is not sound, or not settled.
const OTHER: u8 = 1;

// Where the certificate of a problem is kept.
#[derive(Clone, Copy)]
pub(crate) enum Place<'a> {
    /// Nowhere.
    Nowhere,
    /// In a folder, under the name of the problem.
    Folder(&'a str),
    /// In a file.
    File(&'a str),
}

// What is asked of each problem: its limits, where its certificate is kept, whether another one is replaced there, and
// whether its games are wanted as PGN.
#[derive(Clone, Copy)]
pub(crate) struct Orders<'a> {
    pub(crate) reach: Reach,
    pub(crate) enough: Enough,
    pub(crate) place: Place<'a>,
    pub(crate) replaces: bool,
    pub(crate) as_pgn: bool,
}

impl Orders<'_> {
    // How far a problem is searched.
    fn limits(&self) -> Limits {
        Limits {
            max_nodes: self.reach.nodes,
            enough: self.enough,
        }
    }
}

// What is found of a problem, and what stood in the place of its certificate.
#[derive(Drop)]
pub(crate) struct Judged {
    pub(crate) ruling: Ruling,
    old: Old,
}

// Why a problem has no row.
#[derive(Drop)]
pub(crate) enum Spoiled {
    /// The run ends.
    Run(Refusal),
    /// The file of its certificate is not read or written.
    Place(FileFault),
}

impl From<AllocError> for Spoiled {
    ghost use Rattle.std.specs.Prelude.{false};

    ghost from_gives = { λ _ spoiled. IsSpoiled false spoiled };

    fn from(_fault: AllocError) -> Spoiled {
        Spoiled::Run(Refusal::Memory)
    }
}

impl<T: Drop> From<AllocFailed<T>> for Spoiled {
    ghost use Rattle.std.specs.Prelude.{false};

    ghost from_gives = { λ _ spoiled. IsSpoiled false spoiled };

    fn from(_fault: AllocFailed<T>) -> Spoiled {
        Spoiled::Run(Refusal::Memory)
    }
}

impl From<FileFault> for Spoiled {
    ghost use Rattle.std.specs.Prelude.{false};

    ghost from_gives = { λ _ spoiled. IsSpoiled false spoiled };

    fn from(fault: FileFault) -> Spoiled {
        match fault {
            FileFault::Memory => Spoiled::Run(Refusal::Memory),
            fault => Spoiled::Place(fault),
        }
    }
}

// What a certificate that stands in a problem's place comes to: what it shows, or what is told of it.
#[derive(Drop)]
enum Standing {
    Shows(Ruling),
    Shown(Old),
}

// What becomes of a problem whose certificate stands there and does not settle it.
fn unsettled(fault: &AnswerFault, is_over: bool) -> Result<Standing, Spoiled>
    ensures ok { (entry : Entry) → IfOk result (IsStanding entry) }
    ensures err { IfErr result (IsSpoiled false) }
{
    match unsettled_of(fault) {
        Unsettled::Bytes => Ok(Standing::Shown(Old::Refused)),
        Unsettled::OfAnother => Ok(Standing::Shown(Old::OfAnother)),
        Unsettled::Games => Ok(Standing::Shown(Old::Absent)),
        Unsettled::Memory => Err(Spoiled::Run(Refusal::Memory)),
        Unsettled::Read if is_over => Ok(Standing::Shows(time_is_over())),
        Unsettled::Read => Err(Spoiled::Place(FileFault::Read)),
    }
}

// What becomes of a problem where the tariffs of the file that stands there are not read.
fn untold(fault: CarriedFault) -> Result<Standing, Spoiled>
    ensures ok { (entry : Entry) → IfOk result (IsStanding entry) }
    ensures err { IfErr result (IsSpoiled false) }
{
    match fault {
        CarriedFault::Number | CarriedFault::Truncated => Ok(Standing::Shown(Old::Refused)),
        CarriedFault::Memory => Err(Spoiled::Run(Refusal::Memory)),
        CarriedFault::Read => Err(Spoiled::Place(FileFault::Read)),
    }
}

// What a certificate of a problem at this path, if one stands there, comes to within the time that a problem has.
#[inline(never)]
fn recheck_at<R: Runtime + AllocGlobal>(
    rt: &R,
    entry: &Entry<'_>,
    bounds: &[Box<dyn Bound>],
    path: &str,
    orders: &Orders<'_>,
    terminal: &Terminal,
) -> Result<Standing, Spoiled>
    ensures ok { IfOk result (IsStanding entry.now) }
    ensures err { IfErr result (IsSpoiled false) }
{
    if is_missing(rt, path) {
        return Ok(Standing::Shown(Old::Absent));
    }
    let mut file = open_plain(rt, path)?;
    let front = match read_carried(rt.alloc(), &mut file) {
        Ok(carried) => carried.front,
        Err(fault) => return untold(fault),
    };
    let whole = Cursor::new(front).chain(file);
    let passing = Passing::new(rt, terminal, whole, size_of(rt, path));
    let mut source = Until::new(passing, Deadline::new(rt, orders.reach.milliseconds));
    let found = recheck(rt.alloc(), entry, bounds, &mut source, u64::MAX);
    let is_over = source.is_over();
    source.into_inner().end();
    match found {
        Ok(ruling) => Ok(Standing::Shows(ruling)),
        Err(fault) => unsettled(&fault, is_over),
    }
}

// What stands before the certificate of a search by these tariffs: nothing where there are none.
fn lead_of(alloc: Global, stated: &[u8]) -> Result<Vec<u8>, AllocError> {
    let mut sink = ToWrite::new(Vec::new(alloc));
    if !stated.is_empty() && write_carried(number_of(stated), stated, &mut sink).is_err() {
        return Err(AllocError);
    }
    Ok(sink.into_inner())
}

// Judges a problem by the five bounds and by the tariffs that were found for it.
#[inline(never)]
fn judge_with_tolls<R: Runtime + AllocGlobal, S: Scratch, P: JudgeProgress>(
    rt: &R,
    entry: &Entry<'_>,
    prepared: Prepared,
    limits: Limits,
    scratch: &mut S,
    watch: &mut P,
) -> Result<Ruling, Spoiled>
    ensures ok { IfOk result (λ r. IsFindingOf entry.now r.finding) }
    ensures err { IfErr result (IsSpoiled false) }
{
    let stated = stating_all(rt.alloc(), prepared.tariffs.as_slice())?;
    let lead = lead_of(rt.alloc(), stated.as_slice())?;
    let diagram = &entry.problem.diagram;
    let captures = Box::new(rt.alloc(), Captures)?;
    let promotions = Box::new(rt.alloc(), Promotions)?;
    let pawn_files = Box::new(rt.alloc(), PawnFiles)?;
    let travel = travel_to(rt.alloc(), diagram)?;
    let journeys = journeys_to(rt.alloc(), diagram)?;
    let five: [Box<dyn Bound>; 5] = [captures, promotions, pawn_files, travel, journeys];
    let mut bounds = Vec::from_array(rt.alloc(), five)?;
    for number in 0..number_of(stated.as_slice()) {
        let tolls: Box<dyn Bound> = tolls_to(rt.alloc(), diagram, stated.as_slice(), number)?;
        bounds.push(tolls)?;
    }
    Ok(judge_by_tolls(
        rt.alloc(),
        entry,
        bounds.as_slice(),
        prepared,
        lead.as_slice(),
        limits,
        scratch,
        watch,
    ))
}

// Judges a problem by its first searches, and where these leave it open by tolls.
#[inline(never)]
fn judge_on<R: Runtime + AllocGlobal, S: Scratch, P: JudgeProgress>(
    rt: &R,
    entry: &Entry<'_>,
    bounds: &[Box<dyn Bound>],
    limits: Limits,
    scratch: &mut S,
    watch: &mut P,
) -> Result<Ruling, Spoiled>
    ensures ok { IfOk result (λ r. IsFindingOf entry.now r.finding) }
    ensures err { IfErr result (IsSpoiled false) }
{
    let pending = match judge_problem(rt.alloc(), entry, bounds, limits, scratch, watch) {
        Ok(ruling) => return Ok(ruling),
        Err(pending) => pending,
    };
    if !pending.goes_on(limits, watch) {
        return Ok(pending.ruling(entry));
    }
    match prepare_tolls(rt.alloc(), entry, bounds, pending, limits, watch) {
        Ok(prepared) => judge_with_tolls(rt, entry, prepared, limits, scratch, watch),
        Err(ruling) => Ok(ruling),
    }
}

// Judges a problem, and puts the certificate that settles it in the place of a draft.
#[inline(never)]
fn judge_to<R: Runtime + AllocGlobal, P: JudgeProgress>(
    rt: &R,
    entry: &Entry<'_>,
    bounds: &[Box<dyn Bound>],
    orders: &Orders<'_>,
    draft: Draft<R::File>,
    watch: &mut P,
) -> Result<Ruling, Spoiled>
    ensures ok { IfOk result (λ r. IsFindingOf entry.now r.finding) }
    ensures err { IfErr result (IsSpoiled false) }
{
    let handle = match draft.handle() {
        Ok(handle) => handle,
        Err(fault) => {
            draft.discard(rt);
            return Err(Spoiled::Place(fault));
        }
    };
    let mut scratch = OnDisk::new(handle, orders.reach.bytes);
    let ruling = match judge_on(rt, entry, bounds, orders.limits(), &mut scratch, watch) {
        Ok(ruling) => ruling,
        Err(spoiled) => {
            draft.discard(rt);
            return Err(spoiled);
        }
    };
    if !matches!(&ruling.finding, Finding::Settled(_, _)) {
        draft.discard(rt);
        return Ok(ruling);
    }
    match draft.put(rt) {
        Ok(()) => Ok(ruling),
        Err(fault) => Err(Spoiled::from(fault)),
    }
}

// Judges a problem, and keeps no certificate of it.
#[inline(never)]
fn judge_loosely<R: Runtime + AllocGlobal, P: JudgeProgress>(
    rt: &R,
    entry: &Entry<'_>,
    bounds: &[Box<dyn Bound>],
    orders: &Orders<'_>,
    old: Old,
    watch: &mut P,
) -> Result<Judged, Spoiled>
    ensures ok { IfOk result (λ j. IsFindingOf entry.now j.ruling.finding) }
    ensures err { IfErr result (IsSpoiled false) }
{
    let mut scratch = Loose::new(rt, orders.reach.bytes);
    match judge_on(rt, entry, bounds, orders.limits(), &mut scratch, watch) {
        Ok(ruling) => Ok(Judged { ruling, old }),
        Err(spoiled) => Err(spoiled),
    }
}

// Judges a problem by the certificate of the folder, if that is right, else by searches, which put theirs there.
fn judge_in<R: Runtime + AllocGlobal>(
    rt: &R,
    entry: &Entry<'_>,
    bounds: &[Box<dyn Bound>],
    orders: &Orders<'_>,
    path: &str,
    watch: &mut Watch<'_, R>,
) -> Result<Judged, Spoiled>
    ensures ok { IfOk result (λ j. IsFindingOf entry.now j.ruling.finding) }
    ensures err { IfErr result (IsSpoiled false) }
{
    let old = match recheck_at(rt, entry, bounds, path, orders, watch.terminal) {
        Ok(Standing::Shows(ruling)) => {
            return Ok(Judged {
                ruling,
                old: Old::Absent,
            });
        }
        Ok(Standing::Shown(old)) => old,
        Err(spoiled) => return Err(spoiled),
    };
    if old == Old::OfAnother && !orders.replaces {
        return judge_loosely(rt, entry, bounds, orders, old, watch);
    }
    let old = if old == Old::OfAnother {
        Old::Refused
    } else {
        old
    };
    let draft = begin_here(rt, path)?;
    match judge_to(rt, entry, bounds, orders, draft, watch) {
        Ok(ruling) => Ok(Judged { ruling, old }),
        Err(spoiled) => Err(spoiled),
    }
}

// Judges a problem by searches, and puts its certificate in the file of this name.
fn judge_at<R: Runtime + AllocGlobal>(
    rt: &R,
    entry: &Entry<'_>,
    bounds: &[Box<dyn Bound>],
    orders: &Orders<'_>,
    name: &str,
    watch: &mut Watch<'_, R>,
) -> Result<Judged, Spoiled>
    ensures ok { IfOk result (λ j. IsFindingOf entry.now j.ruling.finding) }
    ensures err { IfErr result (IsSpoiled false) }
{
    let draft = begin(rt, name)?;
    match judge_to(rt, entry, bounds, orders, draft, watch) {
        Ok(ruling) => Ok(Judged {
            ruling,
            old: Old::Absent,
        }),
        Err(spoiled) => Err(spoiled),
    }
}

// Judges a problem, with its certificate at this path, if certificates are kept in a folder.
fn judge_by<R: Runtime + AllocGlobal>(
    rt: &R,
    entry: &Entry<'_>,
    bounds: &[Box<dyn Bound>],
    orders: &Orders<'_>,
    path: Option<&str>,
    watch: &mut Watch<'_, R>,
) -> Result<Judged, Spoiled>
    ensures ok { IfOk result (λ j. IsFindingOf entry.now j.ruling.finding) }
    ensures err { IfErr result (IsSpoiled false) }
{
    if let Some(path) = path {
        return judge_in(rt, entry, bounds, orders, path, watch);
    }
    match orders.place {
        Place::File(name) => judge_at(rt, entry, bounds, orders, name, watch),
        Place::Nowhere | Place::Folder(_) => {
            judge_loosely(rt, entry, bounds, orders, Old::Absent, watch)
        }
    }
}

// Where the certificate of a problem stands, if certificates are kept in a folder.
fn path_of<R: Runtime + AllocGlobal>(
    rt: &R,
    entry: &Entry<'_>,
    place: Place<'_>,
) -> Result<Option<String>, Spoiled>
    ensures { IfErr result (IsSpoiled false) }
{
    let Place::Folder(folder) = place else {
        return Ok(None);
    };
    match format!(in rt.alloc(); "{folder}/{}.pgc", entry.name) {
        Ok(path) => Ok(Some(path)),
        Err(_) => Err(Spoiled::Run(Refusal::Memory)),
    }
}

// The bytes that state the tariffs of the file at this path, if it has some; its other faults are told by its check.
#[inline(never)]
fn tariffs_at<R: Runtime + AllocGlobal>(rt: &R, path: Option<&str>) -> Result<Vec<u8>, Spoiled>
    ensures { IfErr result (IsSpoiled false) }
{
    let none = Vec::new(rt.alloc());
    let Some(path) = path else {
        return Ok(none);
    };
    let Ok(mut file) = open_plain(rt, path) else {
        return Ok(none);
    };
    match read_carried(rt.alloc(), &mut file) {
        Ok(carried) => Ok(carried.stated),
        Err(CarriedFault::Memory) => Err(Spoiled::Run(Refusal::Memory)),
        Err(_) => Ok(none),
    }
}

// Judges a problem by the five bounds, and by the tariffs that stand in its folder; searches find tariffs of their own.
#[inline(never)]
pub(crate) fn judge_entry<R: Runtime + AllocGlobal>(
    rt: &R,
    entry: &Entry<'_>,
    orders: &Orders<'_>,
    watch: &mut Watch<'_, R>,
) -> Result<Judged, Spoiled>
    ensures ok { IfOk result (λ j. IsFindingOf entry.now j.ruling.finding) }
    ensures err { IfErr result (IsSpoiled false) }
{
    let captures = Box::new(rt.alloc(), Captures)?;
    let promotions = Box::new(rt.alloc(), Promotions)?;
    let pawn_files = Box::new(rt.alloc(), PawnFiles)?;
    let travel = travel_to(rt.alloc(), &entry.problem.diagram)?;
    let journeys = journeys_to(rt.alloc(), &entry.problem.diagram)?;
    let five: [Box<dyn Bound>; 5] = [captures, promotions, pawn_files, travel, journeys];
    let mut bounds = Vec::from_array(rt.alloc(), five)?;
    let path = match path_of(rt, entry, orders.place) {
        Ok(path) => path,
        Err(spoiled) => return Err(spoiled),
    };
    let path = path.as_deref();
    let tariffs = match tariffs_at(rt, path) {
        Ok(tariffs) => tariffs,
        Err(spoiled) => return Err(spoiled),
    };
    for number in 0..number_of(tariffs.as_slice()) {
        let diagram = &entry.problem.diagram;
        let tolls: Box<dyn Bound> = tolls_to(rt.alloc(), diagram, tariffs.as_slice(), number)?;
        bounds.push(tolls)?;
    }
    judge_by(rt, entry, bounds.as_slice(), orders, path, watch)
}

// The status of a ruling: 0 where it is said that the problem is sound, else 1.
pub(crate) fn status_of(ruling: &Ruling) -> u8
    ensures { IsFindingStatus ruling.now.finding result }
{
    if is_sound(ruling) {
        return 0;
    }
    OTHER
}

// The status of a row: 5 where the author's game fails, else that of the ruling.
fn row_status(given: Given, ruling: &Ruling) -> u8
    ensures { IsRowStatus given ruling.now.finding result }
{
    match given {
        Given::NoGame => status_of(ruling),
        Given::Solves => status_of(ruling),
        Given::StopsAt(_) => FAILS,
        Given::OfPlies(_) => FAILS,
        Given::EndsElsewhere => FAILS,
    }
}

// Which of how many problems.
#[derive(Clone, Copy)]
pub(crate) struct Turn {
    pub(crate) number: usize,
    pub(crate) count: usize,
}

// Judges a problem, writes its row and hands it on: 5 where the author's game fails, else 0 where the problem is sound,
// else 1. A refusal leaves no row in the sink.
#[inline(never)]
fn judge_and_tell<R: Runtime + AllocGlobal, W: Sink>(
    rt: &R,
    entry: &Entry<'_>,
    orders: &Orders<'_>,
    seen: &mut Count,
    terminal: &Terminal,
    out: &mut Gathered<W>,
) -> Result<u8, Spoiled>
    ensures row { IfOk result (λ status. AddsSome (IsRuled entry.now status)
        (⟦<Gathered<W> as Sink>⟧.held out.old) (⟦<Gathered<W> as Sink>⟧.held out.new)) }
    ensures handed { OnOk result (IsHandedOn out.new) }
    ensures err { IfErr result (IsSpoiled (⟦<Gathered<W> as Sink>⟧.has_failed out.new)) }
    ensures unwritten { IfErr result (λ spoiled. spoiled ≢ Spoiled.Run Refusal.Write → out.new ≡ out.old) }
{
    seen.turn.number = seen.turn.number.saturating_add(1);
    let plies = entry.problem.length.plies();
    let mut watch = Watch::new(rt, terminal, seen.turn, plies, orders.reach.milliseconds);
    let answer = judge_entry(rt, entry, orders, &mut watch);
    watch.line.end();
    let judged = match answer {
        Ok(judged) => judged,
        Err(spoiled) => return Err(spoiled),
    };
    match keep_games(rt, entry, &judged.ruling.finding, orders) {
        Ok(()) => {}
        Err(spoiled) => return Err(spoiled),
    }
    seen.tally.count(&judged.ruling.finding);
    match write_row(entry, &judged.ruling, judged.old, out) {
        Ok(()) => {}
        Err(_) => return Err(Spoiled::Run(Refusal::Write)),
    }
    match out.flush() {
        Ok(()) => Ok(row_status(given_to(entry), &judged.ruling)),
        Err(Refused) => Err(Spoiled::Run(Refusal::Write)),
    }
}

// The folder of the certificates; no text where there is none.
fn folder_of(place: Place<'_>) -> &str {
    match place {
        Place::Folder(folder) => folder,
        Place::Nowhere | Place::File(_) => "",
    }
}

// Judges the problem of a line, if it spells one, and writes its row and hands it on; the status of the line.
fn judge_line<'t, R: Runtime + AllocGlobal, W: Sink>(
    rt: &R,
    line: &'t [u8],
    orders: &Orders<'_>,
    seen: &mut Seen<'t>,
    terminal: &Terminal,
    out: &mut Gathered<W>,
) -> Result<u8, Refusal>
    ensures row { IfOk result (λ status. AddsSome (IsJudged line.now status)
        (⟦<Gathered<W> as Sink>⟧.held out.old) (⟦<Gathered<W> as Sink>⟧.held out.new)) }
    ensures handed { IsHandedOn out.old → OnOk result (IsHandedOn out.new) }
    ensures err { IfErr result (EndsRun (⟦<Gathered<W> as Sink>⟧.has_failed out.new)) }
    ensures unwritten { IfErr result (λ refusal. refusal ≢ Refusal.Write → out.new ≡ out.old) }
{
    seen.lines = seen.lines.saturating_add(1);
    let entry = match read_entry(rt.alloc(), line) {
        Ok(Some(entry)) => entry,
        Ok(None) => return Ok(0),
        Err(EntryFault::Games(GamesFault::Memory)) => return Err(Refusal::Memory),
        Err(fault) => return Ok(say_bad(rt, seen.lines, fault)),
    };
    match seen.names.insert(entry.name) {
        Ok(true) => {}
        Ok(false) => return Ok(say_bad(rt, seen.lines, "this name stands above")),
        Err(_) => return Err(Refusal::Memory),
    }
    seen.count.tally.say_given(rt, seen.lines, line, &entry);
    match judge_and_tell(rt, &entry, orders, &mut seen.count, terminal, out) {
        Ok(status) => Ok(status),
        Err(Spoiled::Run(refusal)) => Err(refusal),
        Err(Spoiled::Place(fault)) => {
            let (folder, name) = (folder_of(orders.place), entry.name);
            let place = AtPlace {
                folder,
                name,
                fault,
            };
            Ok(say_bad(rt, seen.lines, place))
        }
    }
}

// How many problems of how many came before a line, and what was found of them.
#[derive(Drop)]
struct Count {
    turn: Turn,
    tally: Tally,
}

impl Count {
    // Before the first line of a text; `hints` says whether second lines are told.
    fn new<R: Clock>(rt: &R, text: &[u8], hints: bool) -> Count {
        let count = count_problems(text);
        Count {
            turn: Turn { number: 0, count },
            tally: Tally::new(rt, hints),
        }
    }
}

// What came before a line: how many lines, and the names of the problems.
#[derive(Drop)]
struct Seen<'t> {
    lines: usize,
    names: BTreeSet<&'t str>,
    count: Count,
}

// Judges the problems of a text and hands on their rows: the worst status of a line, which is 2 where the line is bad.
//
// # Errors
// `Memory`, with the rows of the first lines written, and `Write` where the sink has failed.
fn judge_all<R: Runtime + AllocGlobal, W: Sink>(
    rt: &R,
    text: &[u8],
    orders: &Orders<'_>,
    count: Count,
    terminal: &Terminal,
    out: &mut Gathered<W>,
) -> Result<u8, Refusal>
    ensures rows { IfOk result (λ status. AddsSome (AreJudged (lines text.now) status)
        (⟦<Gathered<W> as Sink>⟧.held out.old) (⟦<Gathered<W> as Sink>⟧.held out.new)) }
    ensures headline { IfOk result (λ status. status ≡ 0 → All IsSoundLine (lines text.now)) }
    ensures handed { IsHandedOn out.old → OnOk result (IsHandedOn out.new) }
    ensures err { IfErr result (IsCutOff text.now
        (⟦<Gathered<W> as Sink>⟧.held out.old) (⟦<Gathered<W> as Sink>⟧.held out.new)
        (⟦<Gathered<W> as Sink>⟧.has_failed out.new)) }
{
    let mut seen = Seen {
        lines: 0,
        names: BTreeSet::new(rt.alloc()),
        count,
    };
    let mut worst = 0u8;
    let mut rest = Some(text);
    while let Some(left) = rest {
        let (line, after) = next_line(left);
        rest = after;
        let status = match judge_line(rt, line, orders, &mut seen, terminal, out) {
            Ok(status) => status,
            Err(refusal) => return Err(refusal),
        };
        let number = seen.lines;
        seen.count.tally.end_line(rt, number, line, status);
        worst = worst.max(status);
    }
    seen.count.tally.end(rt);
    Ok(worst)
}

// Judges the problems of a text, behind a byte order mark if one stands at its front, and hands on their rows.
fn judge_text<R: Runtime + AllocGlobal, W: Sink>(
    rt: &R,
    text: &[u8],
    orders: &Orders<'_>,
    screen: Screen,
    terminal: &Terminal,
    out: &mut Gathered<W>,
) -> Result<u8, Refusal>
    ensures ok { IfOk result (IsTextJudged text.now) }
    ensures err { IfErr result IsOfFile }
{
    let rest = unmarked(text);
    let count = Count::new(rt, rest, screen.hints);
    judge_all(rt, rest, orders, count, terminal, out)
}

// The list of problems: the bytes of a file, or of standard input where its name is a hyphen; or the games in PGN of a
// file with such a name.
fn problems_of<R: Runtime + AllocGlobal>(rt: &R, words: &ArgMatches<'_>) -> Result<Vec<u8>, Refusal>
    ensures ok { IfOk result (λ text. GivesList (IsGivenBy R.File.remaining R.Reader.remaining)
        (spelled (codes "PROBLEMS") (rows_of (found_of words.now))) text.items) }
    ensures err { IfErr result (IsListRefused (IsGivenBy R.File.remaining R.Reader.remaining)
        (spelled (codes "PROBLEMS") (rows_of (found_of words.now)))) }
{
    let name = text_of(words, "PROBLEMS");
    match list(rt, name) {
        Ok(given) => problems_as(rt.alloc(), name, given),
        Err(fault) => Err(Refusal::of_file(fault, Named::Problems)),
    }
}

// Makes the folder of the certificates, if they are kept and it is not there.
fn make_place<R: Runtime + AllocGlobal>(rt: &R, folder: Option<&str>) -> Result<(), Refusal>
    ensures { IfErr result IsOfFile }
{
    let Some(folder) = folder else {
        return Ok(());
    };
    match make_folder(rt, folder) {
        Ok(()) => Ok(()),
        Err(fault) => Err(Refusal::of_file(fault, Named::Folder)),
    }
}

// `pg judge`: a row for each problem of the text that PROBLEMS gives, of which no contract can say which text it is.
#[inline(never)]
pub(crate) fn judge<R: Runtime + AllocGlobal>(
    rt: &R,
    words: &ArgMatches<'_>,
    screen: Screen,
) -> Result<u8, Refusal>
    ensures ok { IfOk result (λ status. IsListJudged (IsGivenBy R.File.remaining R.Reader.remaining)
        (spelled (codes "PROBLEMS") (rows_of (found_of words.now))) status) }
    ensures err { IfErr result (IsListRefused (IsGivenBy R.File.remaining R.Reader.remaining)
        (spelled (codes "PROBLEMS") (rows_of (found_of words.now)))) }
{
    let text = match problems_of(rt, words) {
        Ok(text) => text,
        Err(refusal) => return Err(refusal),
    };
    let folder = words.get_str("certificates");
    match make_place(rt, folder) {
        Ok(()) => {}
        Err(refusal) => return Err(refusal),
    }
    let orders = Orders {
        reach: reach_of(words, NODES),
        enough: Enough::OneSearch,
        place: match folder {
            Some(folder) => Place::Folder(folder),
            None => Place::Nowhere,
        },
        replaces: say_replace(words),
        as_pgn: say_pgn(words),
    };
    let terminal = Terminal::new(screen.lines);
    let mut out = Gathered::new(Cleared::new(ToWrite::new(io::writer(rt)), rt, &terminal));
    judge_text(rt, text.as_slice(), &orders, screen, &terminal, &mut out)
}
