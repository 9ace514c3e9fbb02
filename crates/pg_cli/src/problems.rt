//! What is told on standard error of the lines of a list of problems.
ghost use Rattle.std.specs.Prelude.{◌≡◌};

use crate::lists::{tell_end, tell_moves};
use pg_fen::LengthFault;
use pg_files::{FileFault, FileName};
use pg_hints::{
    Remark, bad_byte, misfit_of, on_few_words, on_move, on_name, on_placement, on_problem_length,
};
use pg_judge::{Entry, EntryFault, Finding, Given, given_to, read_entry};
use pg_san::next_word;
use pg_texts::Verdict;
use std::fmt::{Display, Formatter};
use std::io::Eprint;
use std::rt::Runtime;
use std::time::{Clock, Instant};
use std::{fmt, str};

// A line of a list of problems is bad.
const BAD: u8 = 2;

// The author's game does not solve its problem.
pub(crate) const FAILS: u8 = 5;

// The file of a problem's certificate, as it is told, and what is the matter with it.
#[derive(Drop)]
pub(crate) struct AtPlace<'a> {
    pub(crate) folder: &'a str,
    pub(crate) name: &'a str,
    pub(crate) fault: FileFault,
}

impl Display for AtPlace<'_> {
    fn fmt<W: fmt::Write>(&self, f: &mut Formatter<W>) -> fmt::Result {
        let (folder, name) = (FileName(self.folder), self.name);
        match self.fault {
            FileFault::Open(obstacle) => write!(f, "cannot open {folder}/{name}.pgc: {obstacle}"),
            FileFault::Read => write!(f, "cannot read {folder}/{name}.pgc"),
            FileFault::Write | FileFault::Memory => write!(f, "cannot write {folder}/{name}.pgc"),
        }
    }
}

// About how many lines of a text are problems: those that begin with anything but `#`.
pub(crate) fn count_problems(text: &[u8]) -> usize {
    let mut count = 0usize;
    let mut is_first = true;
    for byte in text {
        if is_first && !matches!(*byte, b'#' | b'\n' | b'\r') {
            count = count.saturating_add(1);
        }
        is_first = *byte == b'\n';
    }
    count
}

// Says on standard error what is wrong with a line, and gives the status.
pub(crate) fn say_bad<R: Eprint, D: Display + Drop>(rt: &R, number: usize, what: D) -> u8
    ensures { result ≡ 2 }
{
    let _ = eprintln!(rt; "pg: line {number}: {what}");
    BAD
}

// What is said of a line with this fault, and where.
fn remark_on(line: &str, fault: &EntryFault) -> Option<Remark> {
    match fault {
        EntryFault::Name => on_name(line),
        EntryFault::Short => on_few_words(line),
        EntryFault::Diagram(fault) => on_placement(line, *fault),
        EntryFault::Length(LengthFault::Shape) => on_problem_length(line),
        _ => None,
    }
}

// Points to what is wrong in a line that spells no problem.
fn advise_line<R: Eprint>(rt: &R, number: usize, line: &[u8], fault: &EntryFault) {
    if let Some(place) = bad_byte(line) {
        let byte = place.byte;
        let _ = eprintln!(rt; "pg: line {number}: the first bad byte is byte {byte}");
        return;
    }
    let Ok(text) = str::from_utf8(line) else {
        return;
    };
    if let Some(remark) = remark_on(text, fault) {
        let column = remark.column;
        let _ = eprintln!(rt;
            "pg: line {number}, column {column}: {}",
            remark.hint.as_str()
        );
    }
}

// What stands behind the name, the diagram and the length of a line; nothing where it has no more.
fn behind_length(line: &[u8]) -> &[u8] {
    let mut rest = line;
    for _ in 0..3 {
        match next_word(rest) {
            Some((_, more)) => rest = more,
            None => return &[],
        }
    }
    rest
}

// Points to the word by which an author's game is none, or says its length or where it ends.
fn advise_given<R: Runtime + AllocGlobal>(rt: &R, number: usize, line: &[u8], entry: &Entry<'_>) {
    let Ok(text) = str::from_utf8(behind_length(line)) else {
        return;
    };
    if let Some(bad) = &entry.bad {
        let hint = on_move(rt.alloc(), text, 1, bad.ply);
        if !hint.is_empty() {
            let _ = eprintln!(rt; "pg: line {number}: {}", hint.as_str());
        }
        return;
    }
    let Ok(Some(game)) = misfit_of(rt.alloc(), text, 0) else {
        return;
    };
    if game.plies == usize::from(entry.problem.length.plies()) {
        tell_end(rt, number, &game, &entry.problem.diagram);
    } else {
        tell_moves(rt, number, &game, entry.problem.length);
    }
}

// Says why the author's game of a line fails.
fn say_given<R: Eprint>(rt: &R, number: usize, entry: &Entry<'_>) {
    if let Some(bad) = &entry.bad {
        let (ply, cause) = (bad.ply, bad.cause);
        let _ = eprintln!(rt; "pg: line {number}: the author's game: ply {ply}: {cause}");
        return;
    }
    let what = match given_to(entry) {
        Given::OfPlies(_) => "it does not have the stated length",
        Given::EndsElsewhere => "it does not end on the diagram",
        Given::NoGame | Given::Solves | Given::StopsAt(_) => return,
    };
    let _ = eprintln!(rt; "pg: line {number}: the author's game: {what}");
}

// How many problems were judged with each verdict, and how many lines were bad; from when on; and whether that is told,
// and second lines.
#[derive(Drop)]
pub(crate) struct Tally {
    hints: bool,
    began: Option<Instant>,
    sound: usize,
    cooked: usize,
    no_game: usize,
    not_sound: usize,
    not_settled: usize,
    failing: usize,
    bad: usize,
}

impl Tally {
    // Of a run that begins now; `hints` says whether it tells second lines.
    pub(crate) fn new<R: Clock>(rt: &R, hints: bool) -> Tally {
        Tally {
            hints,
            began: Instant::now(rt).ok(),
            sound: 0,
            cooked: 0,
            no_game: 0,
            not_sound: 0,
            not_settled: 0,
            failing: 0,
            bad: 0,
        }
    }

    // Says why the author's game of a line fails, if it does.
    pub(crate) fn say_given<R: Runtime + AllocGlobal>(
        &self,
        rt: &R,
        number: usize,
        line: &[u8],
        entry: &Entry<'_>,
    ) {
        if matches!(given_to(entry), Given::NoGame | Given::Solves) {
            return;
        }
        say_given(rt, number, entry);
        if self.hints {
            advise_given(rt, number, line, entry);
        }
    }

    // Counts what is found of a problem.
    pub(crate) fn count(&mut self, finding: &Finding) {
        match finding {
            Finding::Settled(Verdict::Sound, _) => self.sound = self.sound.saturating_add(1),
            Finding::Settled(Verdict::Cooked, _) => self.cooked = self.cooked.saturating_add(1),
            Finding::Settled(Verdict::NoGame, _) => self.no_game = self.no_game.saturating_add(1),
            Finding::NotSound(_) => self.not_sound = self.not_sound.saturating_add(1),
            Finding::NotSettled(_) => self.not_settled = self.not_settled.saturating_add(1),
        }
    }

    // Counts a line with this status, and says more of one that spells no problem.
    pub(crate) fn end_line<R: Runtime + AllocGlobal>(
        &mut self,
        rt: &R,
        number: usize,
        line: &[u8],
        status: u8,
    ) {
        match status {
            FAILS => self.failing = self.failing.saturating_add(1),
            BAD => self.bad = self.bad.saturating_add(1),
            _ => return,
        }
        if !self.hints || status != BAD {
            return;
        }
        if let Err(fault) = read_entry(rt.alloc(), line) {
            advise_line(rt, number, line, &fault);
        }
    }

    // Says how many problems were judged, with which verdicts, and in which time.
    pub(crate) fn end<R: Clock + Eprint>(&self, rt: &R) {
        if !self.hints {
            return;
        }
        let tenths = match &self.began {
            Some(began) => match began.elapsed(rt) {
                Ok(passed) => passed.as_millis() / 100,
                Err(_) => 0,
            },
            None => 0,
        };
        let (seconds, tenth) = (tenths / 10, tenths % 10);
        let _ = eprintln!(rt; "pg: {self}; {seconds}.{tenth} s");
    }
}

// Writes a number and a word behind it, with a mark before them; nothing for none.
fn write_count<W: fmt::Write>(
    mark: &str,
    n: usize,
    word: &str,
    f: &mut Formatter<W>,
) -> fmt::Result {
    match n {
        0 => Ok(()),
        _ => write!(f, "{mark}{n} {word}"),
    }
}

// Writes how many problems have a verdict, behind so many others; how many these are together.
fn write_verdict<W: fmt::Write>(
    before: usize,
    n: usize,
    word: &str,
    f: &mut Formatter<W>,
) -> Result<usize, fmt::Error> {
    let mark = if before == 0 { ": " } else { ", " };
    write_count(mark, n, word, f)?;
    Ok(before.saturating_add(n))
}

impl Display for Tally {
    fn fmt<W: fmt::Write>(&self, f: &mut Formatter<W>) -> fmt::Result {
        let settled = self
            .sound
            .saturating_add(self.cooked)
            .saturating_add(self.no_game);
        let all = settled
            .saturating_add(self.not_sound)
            .saturating_add(self.not_settled);
        write!(f, "{all} {}", if all == 1 { "entry" } else { "entries" })?;
        let n = write_verdict(0, self.sound, "sound", f)?;
        let n = write_verdict(n, self.cooked, "cooked", f)?;
        let n = write_verdict(n, self.no_game, "no game", f)?;
        let n = write_verdict(n, self.not_sound, "not sound", f)?;
        write_verdict(n, self.not_settled, "not settled", f)?;
        let fails = if self.failing == 1 {
            "author's game fails"
        } else {
            "authors' games fail"
        };
        write_count("; ", self.failing, fails, f)?;
        let bad = if self.bad == 1 {
            "line is bad"
        } else {
            "lines are bad"
        };
        write_count("; ", self.bad, bad, f)
    }
}
