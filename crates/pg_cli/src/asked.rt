//! What a command is asked of, which is found once, before its bounds are made.
ghost use Rattle.std.specs.Prelude.{◌≡◌, Some, codes, IfSome, IfOk, IfErr};
ghost use Rattle.std.specs.Fmt.{option_append};
ghost use Rattle.clap.specs.Words.{found_of, rows_of};
ghost use Rattle.pg_checker.specs.Naming.{Begins, IsNamed};
ghost use Rattle.pg_checker.specs.Opening.{IsUnopened, bytes_of};
ghost use Rattle.pg_checker.specs.declared.fault.OpenFault.{OpenFault};
ghost use Rattle.pg_report.specs.Answering.{of_opening};
ghost use Rattle.pg_tariff_files.specs.Files.{IsBegun, IsUnread};
ghost use Rattle.pg_tariff_files.specs.declared.fault.CarriedFault.{CarriedFault};
ghost use Rattle.pg_cli.specs.Answers.{IsGivenBy, IsNamedBy};
ghost use Rattle.pg_cli.specs.Asking.{IsAskedBy, IsOpenedBy};
ghost use Rattle.pg_cli.specs.Ending.{refuses};
ghost use Rattle.pg_cli.specs.Runs.{IsOfInput};
ghost use Rattle.pg_cli.specs.Words.{spelled};

use crate::commands::{CertificateCommand, Command, OtherCommand, ProblemCommand};
use crate::refusals::{Named, Refusal};
use crate::spelling::{problem_in, say_tolls, text_of};
use clap::ArgMatches;
use either::Either;
use pg_files::{INPUT, Obstacle, is_input, lead_to_one, open as open_file};
use pg_report::{AnswerRunFault, Diagram, FromRead, Opened, Problem, ProblemFault, Source, open};
use pg_tariff_files::{Carried, read_carried};
use std::alloc::Global;
use std::io::{Chain, Cursor, Read};
use std::rt::Runtime;

// The tariffs that stand before a certificate, as bytes, and the reader that gives the certificate.
#[derive(Drop)]
pub(crate) struct Carrying<F> {
    pub(crate) stated: Vec<u8>,
    pub(crate) file: Chain<Cursor<Vec<u8>>, F>,
}

impl<F: Read> Carrying<F> {
    // Of what was read of a file, and what is left of it.
    #[tactic(auto, using(crate::proofs::EndLemmas::front_left))]
    fn of(carried: Carried, file: F) -> Carrying<F>
        ensures stated { result.stated ≡ carried.stated }
        ensures left { ⟦<Chain<Cursor<Vec<u8>>, F> as Read>⟧.remaining result.file
            ≡ option_append (Some carried.front.items) (F.remaining file) }
    {
        let Carried { stated, front } = carried;
        let read = Cursor::new(front);
        Carrying {
            stated,
            file: read.chain(file),
        }
    }
}

// A certificate that was opened: its header, and the reader that it was opened from, as that was left, with its
// tariffs.
#[derive(Drop)]
pub(crate) struct Certificate<F> {
    pub(crate) carrying: Carrying<F>,
    pub(crate) opened: Opened,
}

// What a command is asked of.
#[derive(Drop)]
pub(crate) enum Asked<F> {
    /// The problem that the words DIAGRAM and LENGTH spell, or why they spell none.
    Words(ProblemCommand, Result<Problem, ProblemFault>),
    /// The same, of a check of the certificate that the word CERT names. Its reader is large, and would stand on the
    /// stack below each command.
    Check(Result<Problem, ProblemFault>, Box<Carrying<F>>),
    /// The same, of a search.
    Search(Result<Problem, ProblemFault>),
    /// The certificate that the word CERT names.
    File(CertificateCommand, Box<Certificate<F>>),
    /// None of these.
    Other(OtherCommand),
}

// Reads the tariffs that stand before the certificate of a file, if some do.
//
// # Errors
// `Tariffs` where they are not read.
fn carried_from<F: Read + Drop>(alloc: Global, mut file: F) -> Result<Carrying<F>, Refusal>
    ensures ok { IfOk result (λ c. IsBegun (F.remaining file)
        (⟦<Chain<Cursor<Vec<u8>>, F> as Read>⟧.remaining c.file) c.stated.items) }
    ensures err { IfErr result (λ refusal. (fault : CarriedFault) × (refusal ≡ Refusal.Tariffs fault)
        × IsUnread (F.remaining file) fault) }
{
    match read_carried(alloc, &mut file) {
        Ok(carried) => Ok(Carrying::of(carried, file)),
        Err(fault) => Err(Refusal::Tariffs(fault)),
    }
}

// Reads the header of a certificate from a source.
//
// # Errors
// `Answer`, with `Check` where no header is read, or with `NoProblem` where it names none.
fn opened_from<S: Source>(source: &mut S) -> Result<Opened, Refusal>
    ensures named { IfOk result (λ o. IfSome (S.left source.old) (Begins (λ h. IsNamed h o.diagram o.plies))) }
    ensures err { IfErr result (λ refusal. (fault : OpenFault) × (refusal ≡ Refusal.Answer (of_opening fault))
        × IsUnopened (S.left source.old) (S.has_failed source.new) fault) }
{
    match open(source) {
        Ok(opened) => Ok(opened),
        Err(fault) => Err(Refusal::Answer(AnswerRunFault::of_opening(fault))),
    }
}

// The file that the word CERT names, or standard input, with what it carries read.
//
// # Errors
// `Open` where the file is not opened, and those of `carried_from`.
fn carrying_of<R: Runtime + AllocGlobal>(
    rt: &R,
    words: &ArgMatches<'_>,
) -> Result<Carrying<Either<R::File, R::Reader>>, Refusal>
    ensures ok { IfOk result (λ c. IsOpenedBy R.File.remaining R.Reader.remaining
        (spelled (codes "CERT") (rows_of (found_of words.now)))
        (⟦<Chain<Cursor<Vec<u8>>, Either<R::File, R::Reader>> as Read>⟧.remaining c.file) c.stated.items) }
    ensures err { IfErr result IsOfInput }
{
    match open_file(rt, text_of(words, "CERT")) {
        Ok(file) => carried_from(rt.alloc(), file),
        Err(fault) => Err(Refusal::of_file(fault, Named::Certificate)),
    }
}

// The certificate that the word CERT names, a file or standard input, with its header read.
//
// # Errors
// Those of `carrying_of` and of `opened_from`, and `Memory` where room for it was refused.
#[inline(never)]
fn certificate_of<R: Runtime + AllocGlobal>(
    rt: &R,
    words: &ArgMatches<'_>,
) -> Result<Box<Certificate<Either<R::File, R::Reader>>>, Refusal>
    ensures { IfOk result (λ c. IsNamedBy R.File.remaining R.Reader.remaining
        (spelled (codes "CERT") (rows_of (found_of words.now))) c.value.opened.diagram c.value.opened.plies) }
{
    let carrying = match carrying_of(rt, words) {
        Ok(carrying) => carrying,
        Err(refusal) => return Err(refusal),
    };
    let Carrying { stated, mut file } = carrying;
    let opened = match opened_from(&mut FromRead::new(&mut file)) {
        Ok(opened) => opened,
        Err(refusal) => return Err(refusal),
    };
    let carrying = Carrying { stated, file };
    match Box::new(rt.alloc(), Certificate { carrying, opened }) {
        Ok(certificate) => Ok(certificate),
        Err(_) => Err(Refusal::Memory),
    }
}

// Whether the list of games is to come from the file of the certificate, or from the same standard input.
#[inline(never)]
fn are_one<R: Runtime + AllocGlobal>(rt: &R, certificate: &str, games: Option<&str>) -> bool {
    match games {
        Some(games) if lead_to_one(rt, certificate, games) => true,
        games => is_input(certificate) && is_input(games.unwrap_or(INPUT)),
    }
}

// The certificate that is checked, a file or standard input, with its tariffs read where the words say `--tolls`.
//
// # Errors
// `Open` where the file is not opened, or the list of games is to come from there too; and those of `carried_from`.
fn checked_of<R: Runtime + AllocGlobal>(
    rt: &R,
    words: &ArgMatches<'_>,
) -> Result<Carrying<Either<R::File, R::Reader>>, Refusal>
    ensures { IfErr result IsOfInput }
{
    let name = text_of(words, "CERT");
    let file = match open_file(rt, name) {
        Ok(file) => file,
        Err(fault) => return Err(Refusal::of_file(fault, Named::Certificate)),
    };
    if are_one(rt, name, words.get_str("GAMES")) {
        return Err(Refusal::Open(Named::Certificate, Obstacle::NamedTwice));
    }
    if say_tolls(words) {
        return carried_from(rt.alloc(), file);
    }
    Ok(Carrying::of(Carried::none(rt.alloc()), file))
}

// The same in a box.
//
// # Errors
// Those of `checked_of`, and `Memory` where room for it was refused.
#[inline(never)]
fn boxed_checked_of<R: Runtime + AllocGlobal>(
    rt: &R,
    words: &ArgMatches<'_>,
) -> Result<Box<Carrying<Either<R::File, R::Reader>>>, Refusal>
    ensures { IfErr result IsOfInput }
{
    let carrying = match checked_of(rt, words) {
        Ok(carrying) => carrying,
        Err(refusal) => return Err(refusal),
    };
    match Box::new(rt.alloc(), carrying) {
        Ok(carrying) => Ok(carrying),
        Err(_) => Err(Refusal::Memory),
    }
}

// What a command with these words is asked of.
//
// # Errors
// Those of `certificate_of` and `checked_of`. Words that spell no problem are told by the command.
#[inline(never)]
pub(crate) fn asked_by<R: Runtime + AllocGlobal>(
    rt: &R,
    command: Command,
    words: &ArgMatches<'_>,
) -> Result<Asked<Either<R::File, R::Reader>>, Refusal>
    ensures ok { IfOk result (IsAskedBy (IsNamedBy R.File.remaining R.Reader.remaining)
        command (rows_of (found_of words.now))) }
    ensures err { IfErr result (λ refusal. refuses (IsGivenBy R.File.remaining R.Reader.remaining)
        command (rows_of (found_of words.now)) refusal) }
{
    match command {
        Command::OfProblem(command) => Ok(Asked::Words(command, problem_in(words))),
        Command::Check => match boxed_checked_of(rt, words) {
            Ok(carrying) => Ok(Asked::Check(problem_in(words), carrying)),
            Err(refusal) => Err(refusal),
        },
        Command::Search => Ok(Asked::Search(problem_in(words))),
        Command::OfCertificate(command) => match certificate_of(rt, words) {
            Ok(certificate) => Ok(Asked::File(command, certificate)),
            Err(refusal) => Err(refusal),
        },
        Command::Other(command) => Ok(Asked::Other(command)),
    }
}

impl<F> Asked<F> {
    // The diagram about which bounds are asked often, if they are.
    pub(crate) fn diagram(&self) -> Option<Diagram> {
        match self {
            Asked::Check(Ok(problem), _) | Asked::Search(Ok(problem)) => Some(problem.diagram),
            Asked::File(_, certificate) => Some(certificate.opened.problem().diagram),
            _ => None,
        }
    }
}
