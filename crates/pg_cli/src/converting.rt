//! `pg pgn` and `pg end`: games in PGN as a list, and where the games of a list end; and games in PGN as problems.
ghost use Rattle.std.specs.Prelude.{◌≡◌, ◌↔◌, ℕ, List, Some, codes, IfOk, IfErr, IsTrue, OnOk};
ghost use Rattle.clap.specs.Words.{first_of, found_of, rows_of};
ghost use Rattle.pg_certificate.specs.Pushing.{AddsSome};
ghost use Rattle.pg_position.specs.declared.moves.Move.{Move};
ghost use Rattle.pg_pgn.specs.Ends.{AreEndTexts};
ghost use Rattle.pg_pgn.specs.Languages.{name_of};
ghost use Rattle.pg_pgn.specs.Pgn.{IsFile};
ghost use Rattle.pg_san.specs.Listing.{IsListing};
ghost use Rattle.pg_streams.specs.Buffer.{sink_of};
ghost use Rattle.pg_texts.specs.Report.{AreGameLines};
ghost use Rattle.pg_cli.specs.Answers.{IsGivenBy};
ghost use Rattle.pg_cli.specs.Converting.{AreNamed, HasEnds, HasPgn, IsTyped, IsUnnamed};
ghost use Rattle.pg_cli.specs.Ending.{refuses};
ghost use Rattle.pg_cli.specs.Judging.{ArePgnProblems, IsPgnName, IsReadAs};
ghost use Rattle.pg_cli.specs.Runs.{IsEndsRefusal, IsOfFile, IsPgnRefusal, IsReadFault};
ghost use Rattle.pg_cli.specs.Words.{spelled};

use crate::checking::finished;
use crate::commands::{Command, OtherCommand};
use crate::refusals::{DONE, Named, Refusal};
use crate::spelling::text_of;
use clap::ArgMatches;
use pg_files::{is_input, list};
use pg_pgn::{Letters, letters_of, read_pgn, write_ends, write_list, write_problems};
use pg_report::{Refused, RunFault, Sink, ToWrite};
use pg_san::read_games;
use pg_streams::Gathered;
use std::alloc::Global;
use std::rt::Runtime;
use std::{io, str};

// The letters of a name.
//
// # Errors
// `Letters` where there are none of that name.
fn letters_named(name: &str) -> Result<Letters, Refusal>
    ensures ok { IfOk result (λ letters. name.now ≡ name_of letters) }
    ensures err { IfErr result (IsUnnamed (Some name.now)) }
{
    match letters_of(name) {
        Some(letters) => Ok(letters),
        None => Err(Refusal::Letters),
    }
}

// The letters that the words name, English ones where they name none.
//
// # Errors
// `Letters` where there are none of that name.
fn letters_in(words: &ArgMatches<'_>) -> Result<Letters, Refusal>
    ensures ok { IfOk result (AreNamed (first_of (codes "letters") (rows_of (found_of words.now)))) }
    ensures err { IfErr result (IsUnnamed (first_of (codes "letters") (rows_of (found_of words.now)))) }
{
    match words.get_str("letters") {
        Some(name) => letters_named(name),
        None => Ok(Letters::English),
    }
}

// Reads games in PGN, writes them as the lines of a list, and hands all of it on.
//
// # Errors
// `Pgn` where the bytes are no games, and `Check` with `Write` where writing is refused.
pub(crate) fn pgn_on<W: Sink>(
    alloc: Global,
    text: &[u8],
    letters: Letters,
    out: &mut Gathered<W>,
) -> Result<u8, Refusal>
    ensures ok { OnOk result ((games : List (List Move)) × IsFile letters text.now games
        × AddsSome (AreGameLines games) (⟦<Gathered<W> as Sink>⟧.held out.old) (W.held (sink_of out.new))) }
    ensures zero { IfOk result (λ status. status ≡ 0) }
    ensures err { IfErr result (IsPgnRefusal letters text.now (⟦<Gathered<W> as Sink>⟧.has_failed out.new)) }
{
    let games = match read_pgn(alloc, text, letters) {
        Ok(games) => games,
        Err(fault) => return Err(Refusal::Pgn(fault)),
    };
    match write_list(&games, out) {
        Ok(()) => finished(DONE, out),
        Err(Refused) => Err(Refusal::Check(RunFault::Write)),
    }
}

// The bytes of the file of this name, or of standard input where it is a hyphen.
fn bytes_of<R: Runtime + AllocGlobal>(rt: &R, words: &ArgMatches<'_>) -> Result<Vec<u8>, Refusal>
    ensures ok { IfOk result (λ text. IsGivenBy R.File.remaining R.Reader.remaining
        (spelled (codes "FILE") (rows_of (found_of words.now))) text.items) }
    ensures err { IfErr result IsOfFile }
{
    match list(rt, text_of(words, "FILE")) {
        Ok(text) => Ok(text),
        Err(fault) => Err(Refusal::of_file(fault, Named::Pgn)),
    }
}

// `pg pgn`: the games of a file in PGN as a list, on standard output.
//
// # Errors
// Those of `letters_in`, of the file, and of `pgn_on`.
#[inline(never)]
pub(crate) fn pgn<R: Runtime + AllocGlobal>(rt: &R, words: &ArgMatches<'_>) -> Result<u8, Refusal>
    ensures ok { IfOk result (λ status. HasPgn (IsGivenBy R.File.remaining R.Reader.remaining)
        (spelled (codes "FILE") (rows_of (found_of words.now)))
        (first_of (codes "letters") (rows_of (found_of words.now))) status) }
    ensures err { IfErr result (λ refusal. refuses (IsGivenBy R.File.remaining R.Reader.remaining)
        (Command.Other OtherCommand.Pgn) (rows_of (found_of words.now)) refusal) }
{
    let letters = match letters_in(words) {
        Ok(letters) => letters,
        Err(refusal) => return Err(refusal),
    };
    let text = match bytes_of(rt, words) {
        Ok(text) => text,
        Err(refusal) => return Err(refusal),
    };
    let mut out = Gathered::new(ToWrite::new(io::writer(rt)));
    pgn_on(rt.alloc(), text.as_slice(), letters, &mut out)
}

// Writes where the games of a list end, and hands all of it on.
//
// # Errors
// In this order: `NotUtf8` where the bytes are no text; `Check` with `Games` where the text is refused, and with `Write`
// where writing is.
pub(crate) fn ends_on<W: Sink>(
    alloc: Global,
    text: &[u8],
    out: &mut Gathered<W>,
) -> Result<u8, Refusal>
    ensures ok { OnOk result ((games : List (List Move)) × IsListing text.now games
        × AddsSome (AreEndTexts games) (⟦<Gathered<W> as Sink>⟧.held out.old) (W.held (sink_of out.new))) }
    ensures zero { IfOk result (λ status. status ≡ 0) }
    ensures err { IfErr result (IsEndsRefusal text.now (⟦<Gathered<W> as Sink>⟧.has_failed out.new)) }
{
    let Ok(text) = str::from_utf8(text) else {
        return Err(Refusal::NotUtf8);
    };
    let games = match read_games(alloc, text) {
        Ok(games) => games,
        Err(fault) => return Err(Refusal::Check(RunFault::Games(fault))),
    };
    match write_ends(&games, out) {
        Ok(()) => finished(DONE, out),
        Err(Refused) => Err(Refusal::Check(RunFault::Write)),
    }
}

// The bytes of the list whose games' ends are asked: the moves that the words spell, or standard input where these are
// a hyphen.
fn typed<R: Runtime + AllocGlobal>(rt: &R, words: &ArgMatches<'_>) -> Result<Vec<u8>, Refusal>
    ensures ok { IfOk result (λ text. IsTyped (IsGivenBy R.File.remaining R.Reader.remaining)
        (spelled (codes "MOVES") (rows_of (found_of words.now))) text.items) }
    ensures err { IfErr result IsOfFile }
{
    let moves = text_of(words, "MOVES");
    if !is_input(moves) {
        return Ok(Vec::from_slice(rt.alloc(), moves.as_bytes())?);
    }
    match list(rt, moves) {
        Ok(text) => Ok(text),
        Err(fault) => Err(Refusal::of_file(fault, Named::Games)),
    }
}

// `pg end`: where the games of a list end, on standard output.
//
// # Errors
// Those of standard input, where MOVES is a hyphen, and of `ends_on`.
#[inline(never)]
pub(crate) fn end<R: Runtime + AllocGlobal>(rt: &R, words: &ArgMatches<'_>) -> Result<u8, Refusal>
    ensures ok { IfOk result (λ status. HasEnds (IsGivenBy R.File.remaining R.Reader.remaining)
        (spelled (codes "MOVES") (rows_of (found_of words.now))) status) }
    ensures err { IfErr result (λ refusal. refuses (IsGivenBy R.File.remaining R.Reader.remaining)
        (Command.Other OtherCommand.End) (rows_of (found_of words.now)) refusal) }
{
    let text = match typed(rt, words) {
        Ok(text) => text,
        Err(refusal) => return Err(refusal),
    };
    let mut out = Gathered::new(ToWrite::new(io::writer(rt)));
    ends_on(rt.alloc(), text.as_slice(), &mut out)
}

// Whether a name is that of a file of games in PGN.
fn is_pgn(name: &str) -> bool
    ensures { IsTrue result ↔ IsPgnName name.now }
{
    name.as_bytes().ends_with(b".pgn")
}

// The most games of a file that are a list of problems: a longer list would not be read either.
const MOST_PROBLEMS: usize = 262_144;

// The list of problems that games in PGN are, in English letters.
//
// # Errors
// `Pgn` where the bytes are no games, `Read` where they are more than such a list has, and `Memory` where memory is refused.
fn problems_from(alloc: Global, given: &[u8]) -> Result<Vec<u8>, Refusal>
    ensures ok { IfOk result (λ text. ArePgnProblems given.now text.items) }
    ensures err { (name : List ℕ) → IsPgnName name → IfErr result (IsReadFault name given.now) }
{
    let games = match read_pgn(alloc, given, Letters::English) {
        Ok(games) => games,
        Err(fault) => return Err(Refusal::Pgn(fault)),
    };
    if games.len() > MOST_PROBLEMS {
        return Err(Refusal::Read);
    }
    let mut out = ToWrite::new(Vec::new(alloc));
    match write_problems(alloc, given, &games, &mut out) {
        Ok(()) => Ok(out.into_inner()),
        Err(_) => Err(Refusal::Memory),
    }
}

// The list of problems that the bytes are which a name gives: the text that they are, or the problems that games in PGN
// are where it is the name of a file of these.
//
// # Errors
// Those of `problems_from`, for such a name.
#[inline(never)]
pub(crate) fn problems_as(alloc: Global, name: &str, given: Vec<u8>) -> Result<Vec<u8>, Refusal>
    ensures ok { IfOk result (λ text. IsReadAs name.now given.items text.items) }
    ensures err { IfErr result (IsReadFault name.now given.items) }
{
    if is_pgn(name) {
        problems_from(alloc, given.as_slice())
    } else {
        Ok(given)
    }
}
