//! Why a command ends without its answer, what the program says then, and its status.
ghost use Rattle.std.specs.Prelude.{◌≡◌, ◌<◌, false, true};
ghost use Rattle.pg_report.specs.Run.{of_problem};
ghost use Rattle.pg_cli.specs.Refusals.{file_refusal, listing_refusal, pgn_status, refusal_status, tariffs_status};

use pg_cooks::ListingFault;
use pg_files::{FileFault, FileName, Obstacle};
use pg_pgn::PgnFault;
use pg_report::{
    AnswerRunFault, CountRunFault, Fault, MovesFault, ProblemFault, Refused, RunFault, SearchFault,
    ShowFault, Sink, UpgradeFault, answer_status, count_status, moves_status, search_status,
    show_status, status, upgrade_status, write_movetext,
};
use pg_streams::Gathered;
use pg_tariff_files::CarriedFault;
use std::alloc::{AllocError, AllocFailed};
use std::fmt::{Display, Formatter, Write};
use std::io::Eprint;
use std::{fmt, str};
use thiserror::Error;

// A command is done, or its words ask for help.
pub(crate) const DONE: u8 = 0;

// A search gave up, or what is found is not that a problem is sound.
pub(crate) const GAVE_UP: u8 = 1;

// Words or texts are refused.
pub(crate) const BAD_INPUT: u8 = 2;

const MEMORY: u8 = 3;

const FILES: u8 = 4;

// How far a search came that gave up: the games that it met, each tested; the nodes that it visited; and the plies of
// the tree at work and of the game that is asked.
#[derive(Clone, Copy, Debug, PartialEq, Eq)]
pub(crate) struct Reached {
    pub(crate) games: usize,
    pub(crate) nodes: u64,
    pub(crate) tree: u8,
    pub(crate) plies: u8,
}

// Which word of a command names a file.
#[derive(Clone, Copy, Debug, PartialEq, Eq)]
pub(crate) enum Named {
    /// The certificate that is read, or that a search writes.
    Certificate,
    /// The list of games that is read.
    Games,
    /// The list of games that a search writes, or that is read for a problem that is solved.
    Kept,
    /// The certificate that is copied.
    Old,
    /// The copy.
    New,
    /// The list of problems that are judged.
    Problems,
    /// The folder in which certificates stand.
    Folder,
    /// The certificate that is kept of a problem that is solved.
    Proof,
    /// The page that is written.
    Page,
    /// The games in PGN that are read.
    Pgn,
}

impl Named {
    // The name of the word.
    pub(crate) fn word(self) -> &'static str {
        match self {
            Named::Certificate => "CERT",
            Named::Games => "GAMES",
            Named::Kept => "games",
            Named::Old => "OLD",
            Named::New => "NEW",
            Named::Problems => "PROBLEMS",
            Named::Folder => "certificates",
            Named::Proof => "keep",
            Named::Page => "out",
            Named::Pgn => "FILE",
        }
    }
}

// The word as its user types it.
impl Display for Named {
    fn fmt<W: fmt::Write>(&self, f: &mut Formatter<W>) -> fmt::Result {
        match self {
            Named::Kept => f.write_str("--games"),
            Named::Folder => f.write_str("--certificates"),
            Named::Proof => f.write_str("--keep"),
            Named::Page => f.write_str("--out"),
            named => f.write_str(named.word()),
        }
    }
}

// No name of a file.
pub(crate) const NO_FILE: FileName<'static> = FileName("");

// Why a command ends without its answer. It has no name of a file in it: the words of the command have that.
#[derive(Debug, PartialEq, Eq, Drop, Error)]
pub(crate) enum Refusal {
    /// A word of the command line is not UTF-8.
    #[error("a word of the command line is not UTF-8")]
    Words,
    /// A number of minutes is none.
    #[error("bad number of minutes")]
    Minutes,
    /// A number of nodes is none.
    #[error("bad number of nodes: it is as 1000000, 250k, 10M, 2G or 1e6")]
    Nodes,
    /// A number of bytes is none.
    #[error("bad number of bytes: it is as 1000000, 250k, 10M, 2G or 1e6")]
    Bytes,
    /// A file cannot be opened, created or put in its place, or must not be written: which word names it, and what
    /// stands in the way. Its name stands behind the text.
    #[error("cannot open ")]
    Open(Named, Obstacle),
    /// A page would stand on a terminal.
    #[error("standard output is a terminal: say --out FILE")]
    OnTerminal,
    /// A word that is to name a file or a folder is empty.
    #[error("cannot open {0}: the word is empty")]
    NoName(Named),
    /// The moves that are asked for are not one game.
    #[error("not one line of moves")]
    Line,
    /// The list of games has none, where one is to go by.
    #[error("no game to go by")]
    NoGame,
    /// The list of games is not UTF-8.
    #[error("games are not UTF-8")]
    NotUtf8,
    /// The list of games is longer than 16,777,216 bytes, or a read of it has failed.
    #[error("read fault")]
    Read,
    /// A file is not wholly written, or the help is not.
    #[error("write fault")]
    Write,
    /// A growth was refused.
    #[error("out of memory")]
    Memory,
    /// A diagram is not shown.
    #[error("{0}")]
    Show(ShowFault),
    /// The moves of a position are not written.
    #[error("{0}")]
    Moves(MovesFault),
    /// The number of games from a position is not written.
    #[error("{0}")]
    Count(CountRunFault),
    /// The search has no certificate.
    #[error("{0}")]
    Search(SearchFault),
    /// The certificate of a search would have more bytes than it may, and so much is known.
    #[error("certificate limit reached")]
    Full(Reached),
    /// The time of a search was over, and so much is known.
    #[error("time limit reached")]
    Late(Reached),
    /// The search gave up, and so much is known.
    #[error("{0}")]
    GaveUp(SearchFault, Reached),
    /// The certificate is not copied.
    #[error("{0}")]
    Upgrade(UpgradeFault),
    /// The check has no report.
    #[error("{0}")]
    Check(RunFault),
    /// A certificate has no report of its games.
    #[error("{0}")]
    Answer(AnswerRunFault),
    /// The tariffs of a file are not read.
    #[error("{0}")]
    Tariffs(CarriedFault),
    /// Bytes are no games in PGN.
    #[error("{0}")]
    Pgn(PgnFault),
    /// There are no letters of this name.
    #[error("bad letters: they are english, german, french, dutch, spanish or italian")]
    Letters,
}

// The status where the tariffs of a file are not read.
fn tariffs_status(fault: CarriedFault) -> u8
    ensures value { result ≡ tariffs_status fault }
    ensures fails { 0 < result }
{
    match fault {
        CarriedFault::Read => FILES,
        CarriedFault::Memory => MEMORY,
        CarriedFault::Number | CarriedFault::Truncated => GAVE_UP,
    }
}

// The status where bytes are no games in PGN.
fn pgn_status(fault: &PgnFault) -> u8
    ensures value { result ≡ pgn_status fault.now }
    ensures fails { 0 < result }
{
    match fault {
        PgnFault::Memory => MEMORY,
        _ => BAD_INPUT,
    }
}

impl Refusal {
    // Why the file that a word names is not read or written.
    pub(crate) fn of_file(fault: FileFault, named: Named) -> Refusal
        ensures { result ≡ file_refusal fault named }
    {
        match fault {
            FileFault::Open(obstacle) => Refusal::Open(named, obstacle),
            FileFault::Read => Refusal::Read,
            FileFault::Write => Refusal::Write,
            FileFault::Memory => Refusal::Memory,
        }
    }

    // Why words are no problem, as a refusal.
    pub(crate) fn of_problem(fault: ProblemFault) -> Refusal
        ensures { result ≡ Refusal.Check (of_problem fault) }
    {
        Refusal::Check(RunFault::of_problem(fault))
    }

    // Why a list is not written, as a refusal.
    pub(crate) fn of_listing(fault: ListingFault) -> Refusal
        ensures { result ≡ listing_refusal fault }
    {
        match fault {
            ListingFault::Listed(fault) => Refusal::Check(RunFault::Check(Fault::Listed(fault))),
            ListingFault::Write => Refusal::Check(RunFault::Write),
        }
    }

    // The status of the program then: 1 where a list or a certificate is refused or a search gave up,
    // 2 for bad words and texts, 3 for want of memory, 4 for a file that is not opened, created, read or written.
    pub(crate) fn status(&self) -> u8
        ensures value { result ≡ refusal_status self.now }
        ensures fails { 0 < result }
    {
        match self {
            Refusal::Open(_, _) | Refusal::NoName(_) | Refusal::Read | Refusal::Write => FILES,
            Refusal::Full(_) | Refusal::Late(_) => GAVE_UP,
            Refusal::Words | Refusal::Line | Refusal::NoGame | Refusal::NotUtf8 => BAD_INPUT,
            Refusal::Minutes | Refusal::Nodes | Refusal::Bytes => BAD_INPUT,
            Refusal::OnTerminal => BAD_INPUT,
            Refusal::Memory => MEMORY,
            Refusal::Show(fault) => show_status(fault),
            Refusal::Moves(fault) => moves_status(fault),
            Refusal::Count(fault) => count_status(fault),
            Refusal::Search(fault) | Refusal::GaveUp(fault, _) => search_status(fault),
            Refusal::Upgrade(fault) => upgrade_status(fault),
            Refusal::Check(fault) => status(fault),
            Refusal::Answer(fault) => answer_status(fault),
            Refusal::Tariffs(fault) => tariffs_status(*fault),
            Refusal::Pgn(fault) => pgn_status(fault),
            Refusal::Letters => BAD_INPUT,
        }
    }
}

impl From<AllocError> for Refusal {
    ghost use Rattle.std.specs.Prelude.{◌≡◌};
    ghost use Rattle.pg_cli.specs.declared.refusals.Refusal.TheVariants.{Memory};

    ghost from_gives = { λ _ refusal. refusal ≡ Memory };

    fn from(_fault: AllocError) -> Refusal {
        Refusal::Memory
    }
}

impl<T: Drop> From<AllocFailed<T>> for Refusal {
    ghost use Rattle.std.specs.Prelude.{◌≡◌};
    ghost use Rattle.pg_cli.specs.declared.refusals.Refusal.TheVariants.{Memory};

    ghost from_gives = { λ _ refusal. refusal ≡ Memory };

    fn from(_fault: AllocFailed<T>) -> Refusal {
        Refusal::Memory
    }
}

// Writes what is said of a file of this name, or of none; with a game that is not listed, its movetext.
//
// # Errors
// `Refused` where the sink refuses it.
pub(crate) fn say<W: Sink>(
    refusal: &Refusal,
    file: FileName<'_>,
    out: &mut Gathered<W>,
) -> Result<(), Refused> {
    if write!(out, "{refusal}{file}").is_err() {
        return Err(Refused);
    }
    let Refusal::Check(RunFault::Check(Fault::Unlisted(game))) = refusal else {
        return Ok(());
    };
    match write_movetext(game.as_slice(), out) {
        Ok(()) => Ok(()),
        Err(_) => Err(Refused),
    }
}

// Standard error as a sink of texts.
#[derive(Drop)]
struct Errors<'a, R> {
    rt: &'a R,
    failed: bool,
}

impl<R: Eprint> Sink for Errors<'_, R> {
    ghost use Rattle.std.specs.Prelude.{None};

    ghost held = { λ s. None };

    ghost has_failed = { λ s. s.failed };

    fn push(&mut self, bytes: &[u8]) -> Result<(), Refused> {
        if self.failed {
            return Err(Refused);
        }
        match str::from_utf8(bytes) {
            Ok(text) if eprint!(self.rt; "{text}").is_ok() => Ok(()),
            _ => {
                self.failed = true;
                Err(Refused)
            }
        }
    }

    fn failed(&self) -> bool {
        self.failed
    }
}

// Says on standard error why there is no answer, of a file of this name or of none. It takes no memory.
fn print_refusal<R: Eprint>(rt: &R, refusal: &Refusal, file: FileName<'_>) -> Result<(), Refused> {
    let mut out = Gathered::new(Errors { rt, failed: false });
    out.push(b"pg: ")?;
    say(refusal, file, &mut out)?;
    out.push(b"\n")?;
    match out.finish() {
        Ok(_) => Ok(()),
        Err(Refused) => Err(Refused),
    }
}

// Says on standard error why there is no answer, of a file of this name or of none, and gives the status.
pub(crate) fn refuse<R: Eprint>(rt: &R, refusal: &Refusal, file: FileName<'_>) -> u8
    ensures value { result ≡ refusal_status refusal.now }
    ensures fails { 0 < result }
{
    let _ = print_refusal(rt, refusal, file);
    refusal.status()
}
