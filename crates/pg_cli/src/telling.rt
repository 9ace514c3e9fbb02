//! `pg answer`, `pg why` and `pg page`: what a certificate tells stands on standard output, or a page in a file.
ghost use Rattle.std.specs.Prelude.{◌≡◌, Ok, IfOk};
ghost use Rattle.pg_cli.specs.Words.{says_of_certificate};

use crate::answering::answer_told;
use crate::asked::Certificate;
use crate::commands::CertificateCommand;
use crate::guiding::why_on;
use crate::paging::page_on;
use crate::refusals::{Named, Refusal};
use crate::screen::Screen;
use crate::spelling::text_of;
use clap::ArgMatches;
use pg_files::{Draft, Obstacle, begin, lead_to_one, size_of};
use pg_report::{Bound, ToWrite};
use pg_streams::{Cleared, Gathered, Passing, Terminal};
use pg_tariff_files::tariffs_of;
use std::io;
use std::io::{Read, Write};
use std::rt::Runtime;

// Begins the file that the words want a page in, if they want one. Without it a page is not for a terminal.
//
// # Errors
// `OnTerminal`; and `Open` or `Memory` where the file is not begun, or is that of the certificate.
fn begin_page<R: Runtime + AllocGlobal>(
    rt: &R,
    command: CertificateCommand,
    words: &ArgMatches<'_>,
    screen: Screen,
) -> Result<Option<Draft<R::File>>, Refusal> {
    let Some(name) = words.get_str("out") else {
        return match command {
            CertificateCommand::Page if screen.output => Err(Refusal::OnTerminal),
            _ => Ok(None),
        };
    };
    if lead_to_one(rt, text_of(words, "CERT"), name) {
        return Err(Refusal::Open(Named::Page, Obstacle::NamedTwice));
    }
    match begin(rt, name) {
        Ok(draft) => Ok(Some(draft)),
        Err(fault) => Err(Refusal::of_file(fault, Named::Page)),
    }
}

// Puts the file that was begun in its place after an answer, or else takes it away: what stood there is as it was then.
//
// # Errors
// Why there is no answer, or why the file is not put in its place.
fn end_page<R: Runtime + AllocGlobal>(
    rt: &R,
    draft: Option<Draft<R::File>>,
    answer: Result<u8, Refusal>,
) -> Result<u8, Refusal>
    ensures { IfOk result (λ status. answer ≡ Ok status) }
{
    let Some(draft) = draft else {
        return answer;
    };
    match answer {
        Ok(status) => match draft.put(rt) {
            Ok(()) => Ok(status),
            Err(fault) => Err(Refusal::of_file(fault, Named::Page)),
        },
        Err(refusal) => {
            draft.discard(rt);
            Err(refusal)
        }
    }
}

// Does a command on a certificate, and writes to a place. A status says what that of `tell` does.
#[inline(never)]
fn tell_to<R: Runtime + AllocGlobal, F: Read + Drop, P: Write + Drop>(
    rt: &R,
    command: CertificateCommand,
    words: &ArgMatches<'_>,
    certificate: &mut Certificate<F>,
    bounds: &[Box<dyn Bound>],
    screen: bool,
    place: P,
) -> Result<u8, Refusal>
    ensures { IfOk result (λ status. says_of_certificate command
        certificate.old.opened.diagram certificate.old.opened.plies status) }
{
    let Certificate { carrying, opened } = certificate;
    let alloc = rt.alloc();
    let Ok(tariffs) = tariffs_of(alloc, carrying.stated.as_slice()) else {
        return Err(Refusal::Memory);
    };
    let terminal = Terminal::new(screen);
    let size = size_of(rt, text_of(words, "CERT"));
    let mut source = Passing::new(rt, &terminal, &mut carrying.file, size);
    let mut out = Gathered::new(Cleared::new(ToWrite::new(place), rt, &terminal));
    let answer = match command {
        CertificateCommand::Answer => {
            answer_told(alloc, words, opened, bounds, &mut source, &mut out)
        }
        CertificateCommand::Why => why_on(
            alloc,
            words,
            opened,
            &tariffs,
            bounds,
            &mut source,
            &mut out,
        ),
        CertificateCommand::Page => page_on(
            alloc,
            words,
            opened,
            &tariffs,
            bounds,
            &mut source,
            &mut out,
        ),
    };
    source.end();
    answer
}

// Does a command on a certificate, as `tell_to` does, and writes to the file that was begun, or else to standard output.
fn tell_in<R: Runtime + AllocGlobal, F: Read + Drop>(
    rt: &R,
    command: CertificateCommand,
    words: &ArgMatches<'_>,
    certificate: &mut Certificate<F>,
    bounds: &[Box<dyn Bound>],
    screen: bool,
    draft: &Option<Draft<R::File>>,
) -> Result<u8, Refusal>
    ensures { IfOk result (λ status. says_of_certificate command
        certificate.old.opened.diagram certificate.old.opened.plies status) }
{
    let Some(draft) = draft else {
        return tell_to(
            rt,
            command,
            words,
            certificate,
            bounds,
            screen,
            io::writer(rt),
        );
    };
    match draft.handle() {
        Ok(file) => tell_to(rt, command, words, certificate, bounds, screen, file),
        Err(fault) => Err(Refusal::of_file(fault, Named::Page)),
    }
}

// Does a command on a certificate. A status means that some list is the exact answer to the problem of its header. With
// `answer` it is 0 where that list has one game, with `why` and `page` it is 0. A page that is wanted in a file is
// written beside its place, and put there when it is whole.
//
// # Errors
// Those of `begin_page`; those of the command; and why the file is not put in its place.
#[inline(never)]
pub(crate) fn tell<R: Runtime + AllocGlobal, F: Read + Drop>(
    rt: &R,
    command: CertificateCommand,
    words: &ArgMatches<'_>,
    certificate: &mut Certificate<F>,
    bounds: &[Box<dyn Bound>],
    screen: Screen,
) -> Result<u8, Refusal>
    ensures { IfOk result (λ status. says_of_certificate command
        certificate.old.opened.diagram certificate.old.opened.plies status) }
{
    let draft = match begin_page(rt, command, words, screen) {
        Ok(draft) => draft,
        Err(refusal) => return Err(refusal),
    };
    let answer = tell_in(
        rt,
        command,
        words,
        certificate,
        bounds,
        screen.lines,
        &draft,
    );
    end_page(rt, draft, answer)
}
