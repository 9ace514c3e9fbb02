//! What the words of a command spell, as `clap` has read them.
ghost use Rattle.std.specs.Prelude.{◌≡◌, ◌↔◌, IsTrue, codes};
ghost use Rattle.clap.specs.Words.{found_of, one_of, rows_of};
ghost use Rattle.pg_cli.specs.Asking.{IsOfWords};
ghost use Rattle.pg_cli.specs.Words.{IsNumber, Says, spelled};

use crate::refusals::Named;
use clap::ArgMatches;
use pg_report::{Problem, ProblemFault};

// The text of the word with this name; no text where there is none.
pub(crate) fn text_of<'a>(words: &ArgMatches<'a>, name: &str) -> &'a str
    ensures { result.now ≡ spelled name.now (rows_of (found_of words.now)) }
{
    match words.get_str(name) {
        Some(text) => text,
        None => "",
    }
}

// The most records that are read, where the words do not say it.
pub(crate) const RECORDS: u64 = 100_000_000;

// The most records of a certificate that are read, as the words say it.
pub(crate) fn records_of(words: &ArgMatches<'_>) -> u64
    ensures { IsNumber 64 (one_of (codes "records") (rows_of (found_of words.now))) 100000000 result }
{
    match words.get_one::<u64>("records") {
        Some(records) => records,
        None => RECORDS,
    }
}

// The plies of the games that are counted, as the words say it.
pub(crate) fn plies_of(words: &ArgMatches<'_>) -> u8
    ensures { IsNumber 8 (one_of (codes "PLIES") (rows_of (found_of words.now))) 255 result }
{
    match words.get_one::<u8>("PLIES") {
        Some(plies) => plies,
        None => u8::MAX,
    }
}

// The problem that the words DIAGRAM and LENGTH spell.
//
// # Errors
// `Diagram` and then `Length` where that word is refused.
pub(crate) fn problem_in(words: &ArgMatches<'_>) -> Result<Problem, ProblemFault>
    ensures { IsOfWords (rows_of (found_of words.now)) result }
{
    let diagram = text_of(words, "DIAGRAM");
    let length = text_of(words, "LENGTH");
    Problem::read(diagram, length)
}

// Whether the words have the name of a flag.
fn say(words: &ArgMatches<'_>, flag: &str) -> bool
    ensures { IsTrue result ↔ Says flag.now (rows_of (found_of words.now)) }
{
    match words.get_str(flag) {
        Some(text) => text == "true",
        None => false,
    }
}

// Whether the words say `--journeys`.
pub(crate) fn say_journeys(words: &ArgMatches<'_>) -> bool
    ensures { IsTrue result ↔ Says (codes "journeys") (rows_of (found_of words.now)) }
{
    say(words, "journeys")
}

// Whether the words say `--tolls`.
pub(crate) fn say_tolls(words: &ArgMatches<'_>) -> bool
    ensures { IsTrue result ↔ Says (codes "tolls") (rows_of (found_of words.now)) }
{
    say(words, "tolls")
}

// Whether the words say `--no-journeys`.
pub(crate) fn say_no_journeys(words: &ArgMatches<'_>) -> bool
    ensures { IsTrue result ↔ Says (codes "no-journeys") (rows_of (found_of words.now)) }
{
    say(words, "no-journeys")
}

// Whether the words say `--replace`.
pub(crate) fn say_replace(words: &ArgMatches<'_>) -> bool
    ensures { IsTrue result ↔ Says (codes "replace") (rows_of (found_of words.now)) }
{
    say(words, "replace")
}

// Whether the words say `--all`.
pub(crate) fn say_all(words: &ArgMatches<'_>) -> bool
    ensures { IsTrue result ↔ Says (codes "all") (rows_of (found_of words.now)) }
{
    say(words, "all")
}

// Whether the words say `--pgn`.
pub(crate) fn say_pgn(words: &ArgMatches<'_>) -> bool
    ensures { IsTrue result ↔ Says (codes "pgn") (rows_of (found_of words.now)) }
{
    say(words, "pgn")
}

// The words that name files and folders.
const NAMES: [Named; 10] = [
    Named::Certificate,
    Named::Games,
    Named::Kept,
    Named::Old,
    Named::New,
    Named::Problems,
    Named::Folder,
    Named::Proof,
    Named::Page,
    Named::Pgn,
];

// The first word of a command that is to name a file or a folder and is empty, if one is.
pub(crate) fn nameless_in(words: &ArgMatches<'_>) -> Option<Named> {
    for named in NAMES {
        if words.get_str(named.word()) == Some("") {
            return Some(named);
        }
    }
    None
}
