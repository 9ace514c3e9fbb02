//! The words that the program understands.

use clap::builder::ValueParser;
use clap::{Arg, ArgAction, Command};
use std::alloc::{AllocError, Global};

const ABOUT: &str = "Checks shortest proof games: whether a list holds every game of a length that
ends on a diagram, and no shorter game does";

const EXAMPLE: &str = "Example, a problem by Schweig (1938):
  pg solve r1bqkbnr/ppp2ppp/3p4/8/8/8/PPPPPPPP/R1BQKBNR 4.0

A number of nodes or bytes may be as 250k, 10M, 2G or 1e6.

Statuses: 0 sound, or a command done; 1 cooked, no game, not sound, a list or
certificate refused, or a search that gave up; 2 bad words or texts; 3 out of
memory; 4 a file that cannot be opened, created, read or written; 5 an author's
game of `judge` that fails.";

const SOLVE_EXAMPLE: &str =
    "It looks for another game where the author's is given, for two games by drawn
orders where none is, and through all games; what it finds is checked or tested.
The report has the games, and last `sound`, `cooked`, `no game`, `not sound` or
`not settled`. It ends at the second game, but with `--all`. Without LENGTH it
takes that of the author's game, or the least one that has a game.

Example:
  pg solve r1bqkbnr/ppp2ppp/3p4/8/8/8/PPPPPPPP/R1BQKBNR 4.0";

const SHOW_EXAMPLE: &str =
    "Below the board stand, for each side, its men, how many it captured, and how
many moves of its own it needs at least, with what shows that; and a length that
no game which ends on the diagram can be below. With LENGTH stands for each side
how many of its moves of such a game are left over, on which squares alone its
captures land and which of its men never move; and last, as a guess, how many
nodes a search by journeys may visit.

Example:
  pg show r1bqkbnr/ppp2ppp/3p4/8/8/8/PPPPPPPP/R1BQKBNR 4.0";

const MOVES_EXAMPLE: &str = "Example:
  pg moves 'rnbqkbnr/pppppppp/8/8/8/8/PPPPPPPP/RNBQKBNR w KQkq - 0 1'";

const COUNT_EXAMPLE: &str = "Example:
  pg count 'rnbqkbnr/pppppppp/8/8/8/8/PPPPPPPP/RNBQKBNR w KQkq - 0 1' 4";

const GAMES_EXAMPLE: &str =
    "It tests that each game ends on the diagram, and prints them. With two games or
more the last line is `not sound`, which no other game can change; that needs no
certificate. With one it is `at least one game`, with none `no game given`.

Example:
  echo '1. e3 e6 2. d3' >games
  echo '1. d3 e6 2. e3' >>games
  pg games rnbqkbnr/pppp1ppp/4p3/8/8/3PP3/PPP2PPP/RNBQKBNR 1.5 games || true";

const COOKS_EXAMPLE: &str =
    "The search keeps near the games of the list: first it plays their kinds of moves
alone, then one foreign move, then two, and so on. A move is foreign where in
these games no man of that kind goes from that square to that one; the last two
plies may be any moves. A game that is found is tested and printed, with where
it parts from the first of the list, and `not sound` below it. Else it says how
far the search went: no proof of anything.

Example:
  echo '1. e3 e6 2. d3' >games
  pg cooks rnbqkbnr/pppp1ppp/4p3/8/8/3PP3/PPP2PPP/RNBQKBNR 1.5 games || true";

const JUDGE_EXAMPLE: &str =
    "A line of PROBLEMS is a name, a diagram, a length and, if wanted, the author's
game; `#` begins a comment. Of a file NAME.pgn each game is a problem, named by
its tag Event or White. Each problem has a row, with tabs between its columns:
name, length, verdict, what the author's game is, by what, the games.
With `--certificates` each proof goes to FOLDER/NAME.pgc, and one that stands
there is checked in place of a search, so that a run can be gone on with. One of
another problem stays, but with `--replace`; `--bytes` says how long one may be.

Example:
  echo 'two rnbqkbnr/pppp1ppp/4p3/8/8/3PP3/PPP2PPP/RNBQKBNR 1.5' >problems
  pg judge problems || true";

const CHECK_EXAMPLE: &str =
    "The report goes to standard output: the diagram, the length, the games, and
`sound`, `cooked` or `no game`. CERT may be standard input too, as `-`.

Example, with a certificate that a search writes first:
  pg search rnbqkbnr/pppp1ppp/8/4p3/4P3/8/PPPP1PPP/RNBQKBNR 1.0 e4e5.pgc
  echo '1. e4 e5' >games
  pg check rnbqkbnr/pppp1ppp/8/4p3/4P3/8/PPPP1PPP/RNBQKBNR 1.0 e4e5.pgc games";

const ANSWER_EXAMPLE: &str =
    "The certificate says which diagram and length it is for, and proves which games
there are. The report of these goes to standard output, as after `pg check`:
hold its diagram and its length against the problem.

Example, with a certificate that a search writes first:
  pg search rnbqkbnr/pppp1ppp/8/4p3/4P3/8/PPPP1PPP/RNBQKBNR 1.0 e4e5.pgc
  pg answer e4e5.pgc";

const SEARCH_EXAMPLE: &str =
    "What the search finds counts for nothing until the check of its certificate has
said yes. CERT is written, or replaced, only then. The games that it met are
solutions whatever ended it; `--games` keeps them as a list. Where it gave up
and met none, FILE stays as it is. Problems of more than ten moves want
`--journeys`. `--tolls` reaches further: a first search finds tariffs, a second
one writes CERT by them. Whoever checks CERT against games says the same word.

Example:
  pg search rnbqkbnr/pppp1ppp/8/4p3/4P3/8/PPPP1PPP/RNBQKBNR 1.0 e4e5.pgc";

const WHY_EXAMPLE: &str =
    "One line for each ply says what the certificate has there, up to where it ends
the line. Nothing is written before the check has said yes, and last that the
certificate is right.

Example, with a certificate that a search writes first:
  pg search rnbqkbnr/pppp1ppp/8/4p3/4P3/8/PPPP1PPP/RNBQKBNR 1.0 e4e5.pgc
  pg why e4e5.pgc '1. e4'";

const PAGE_EXAMPLE: &str =
    "The page shows the diagram, the verdict, the games, and what the certificate has
at each position; it is one file of HTML and loads nothing else. Nothing is
written before the check has said yes. What the page says of a position is not
proved.

Example, with a certificate that a search writes first:
  pg search rnbqkbnr/pppp1ppp/8/4p3/4P3/8/PPPP1PPP/RNBQKBNR 1.0 e4e5.pgc
  pg page e4e5.pgc --out e4.html --title 'Open game'";

const UPGRADE_EXAMPLE: &str =
    "The copy says what the old one says. It is put in its place when it is whole.

Example, with the certificate that the initial array is reached in no move:
  echo UEdDMQAkUzZCEREREQAAAAAAAAAAAAAAAAAAAACZmZmZrNu+yg== | base64 -d >v1.pgc
  pg upgrade v1.pgc v2.pgc";

const PGN_EXAMPLE: &str =
    "Tags, comments, variations, NAGs and results are passed over; a game may stand
over several lines. What is printed is what `pg games` and `--games` read.

Example:
  echo '1. e4 {best} e5 (1... c5) 2. Sf3 *' >mail.pgn
  pg pgn mail.pgn";

const END_EXAMPLE: &str = "Four lines a game: its moves, and where it ends as `pg solve`, `show` and
`search` take it. With `-` the games are those of standard input, one a line.

Example:
  pg end '1. e4 e5 2. Nf3'";

// How a word is read.
#[derive(Clone, Copy)]
enum Kind {
    /// A text that must be given.
    Text,
    /// A text that may be missing.
    TextOrNone,
    /// A text that must be given, and may begin with a hyphen.
    Line,
    /// A number that must be given, 255 at most.
    Number,
    /// A number behind the name of the word, from the least one up: what it is called, the one that is usual, and the
    /// least.
    Limit(&'static str, &'static str, u64),
    /// A number of nodes or of bytes behind the name of the word, which the program reads: what it is called, and the
    /// one that is usual.
    Amount(&'static str, &'static str),
    /// A number behind the name of the word, 255 at most, which may be missing: what it is called.
    NumberOrNone(&'static str),
    /// A text behind the name of the word, which may be missing: what it is called.
    Named(&'static str),
    /// A name that stands there or not.
    Flag,
}

// What may stand behind a command: its name, how it is read, and its help.
struct Word {
    name: &'static str,
    kind: Kind,
    help: &'static str,
}

const FEN: Word = Word {
    name: "FEN",
    kind: Kind::Text,
    help: "The position: the six fields of a FEN, as one word",
};

const PLIES: Word = Word {
    name: "PLIES",
    kind: Kind::Number,
    help: "How many plies, 8 at most",
};

const DIAGRAM: Word = Word {
    name: "DIAGRAM",
    kind: Kind::Text,
    help: "Where the games end: the placement of a FEN, or all its fields",
};

const LENGTH: Word = Word {
    name: "LENGTH",
    kind: Kind::Text,
    help: "In moves, 64.0 at most: 18.5 is 37 plies, 18 and 18.0 are 36",
};

// The length of `pg solve`, which may be missing.
const LENGTH_SOLVED: Word = Word {
    name: "LENGTH",
    kind: Kind::TextOrNone,
    help: "In moves, 64.0 at most: 18.5 is 37 plies",
};

// The length of `pg show`, which may be missing.
const LENGTH_SHOWN: Word = Word {
    name: "LENGTH",
    kind: Kind::TextOrNone,
    help: "In moves, 64.0 at most: says what a game of it leaves over",
};

const CERTIFICATE: Word = Word {
    name: "CERT",
    kind: Kind::Text,
    help: "The certificate, as `pg search` writes it",
};

// The certificate of `pg search`, which is written.
const CERTIFICATE_WRITTEN: Word = Word {
    name: "CERT",
    kind: Kind::Text,
    help: "The plain file that the certificate is written to",
};

const GAMES: Word = Word {
    name: "GAMES",
    kind: Kind::TextOrNone,
    help: "A file with one game a line; - or none: standard input",
};

// The games of `pg cooks`, which must be given.
const GAMES_KNOWN: Word = Word {
    name: "GAMES",
    kind: Kind::Text,
    help: "A file with one game a line, at least one; -: standard input",
};

const MOVES: Word = Word {
    name: "MOVES",
    kind: Kind::Line,
    help: "The moves of a game from the array, as one word; - for none",
};

// The moves of `pg end`.
const MOVES_ENDED: Word = Word {
    name: "MOVES",
    kind: Kind::Line,
    help: "The moves of a game, as one word; -: a list on standard input",
};

const PGN: Word = Word {
    name: "FILE",
    kind: Kind::Line,
    help: "Games in PGN; - for standard input",
};

const LETTERS: Word = Word {
    name: "letters",
    kind: Kind::Named("LANGUAGE"),
    help: "german, french, dutch, spanish or italian",
};

const OLD: Word = Word {
    name: "OLD",
    kind: Kind::Text,
    help: "The certificate of version 1",
};

const NEW: Word = Word {
    name: "NEW",
    kind: Kind::Text,
    help: "The plain file that the copy is written to",
};

const RECORDS: Word = Word {
    name: "records",
    kind: Kind::Limit("N", "100000000", 1),
    help: "Refuses a certificate of more records",
};

const NODES: Word = Word {
    name: "nodes",
    kind: Kind::Amount("N", "1000000"),
    help: "Gives up before more nodes are visited",
};

// The nodes of `pg cooks`.
const NODES_LED: Word = Word {
    name: "nodes",
    kind: Kind::Amount("N", "10000000"),
    help: "Gives up where more would be visited",
};

// The nodes of `pg page`.
const NODES_TOLD: Word = Word {
    name: "nodes",
    kind: Kind::Amount("K", "3000"),
    help: "The most expanded nodes that are shown",
};

const TITLE: Word = Word {
    name: "title",
    kind: Kind::Named("TEXT"),
    help: "The title of the page, in place of the length",
};

const PAGE: Word = Word {
    name: "out",
    kind: Kind::Named("FILE"),
    help: "Puts the page in FILE; nothing is printed then",
};

const AUTHOR: Word = Word {
    name: "author",
    kind: Kind::Named("WHO"),
    help: "The author of the problem, behind the title",
};

// The nodes of `pg judge`.
const NODES_JUDGED: Word = Word {
    name: "nodes",
    kind: Kind::Amount("N", "100000000"),
    help: "The last limit of a search",
};

const MINUTES: Word = Word {
    name: "minutes",
    kind: Kind::Named("M"),
    help: "Gives up after M minutes, as 5 or 0.5, or 90s or 2h",
};

// The minutes of `pg judge`.
const MINUTES_JUDGED: Word = Word {
    name: "minutes",
    kind: Kind::Named("M"),
    help: "Gives up a problem after M, as 5, 90s or 2h",
};

const BYTES: Word = Word {
    name: "bytes",
    kind: Kind::Amount("N", "4000000000"),
    help: "Gives up before CERT is longer",
};

// The bytes of `pg judge`.
const BYTES_JUDGED: Word = Word {
    name: "bytes",
    kind: Kind::Amount("N", "4000000000"),
    help: "Most bytes of a certificate",
};

const PROBLEMS: Word = Word {
    name: "PROBLEMS",
    kind: Kind::Line,
    help: "A file with one problem a line; - for standard input",
};

const FOLDER: Word = Word {
    name: "certificates",
    kind: Kind::Named("FOLDER"),
    help: "Keeps each certificate as FOLDER/NAME.pgc",
};

// Certificates of other problems that stand where those of `pg judge` are put.
const REPLACED: Word = Word {
    name: "replace",
    kind: Kind::Flag,
    help: "Replaces certificates of other problems too",
};

const FOREIGN: Word = Word {
    name: "foreign",
    kind: Kind::NumberOrNone("D"),
    help: "The most foreign moves, the last two plies apart",
};

// The fifth bound, where a certificate is written.
const JOURNEYS: Word = Word {
    name: "journeys",
    kind: Kind::Flag,
    help: "Cuts by the bound by journeys too: far fewer nodes",
};

// The fifth bound, where a certificate is checked against a list.
const JOURNEYS_TAKEN: Word = Word {
    name: "journeys",
    kind: Kind::Flag,
    help: "Takes cuts by the bound by journeys too",
};

// The fifth bound, where problems are judged and where a certificate is read by itself: both go by it always.
const JOURNEYS_ACCEPTED: Word = Word {
    name: "journeys",
    kind: Kind::Flag,
    help: "Changes nothing: journeys are asked always",
};

// Games as PGN, in place of a report.
const AS_PGN: Word = Word {
    name: "pgn",
    kind: Kind::Flag,
    help: "Prints the games as PGN, in place of the report",
};

// The same beside certificates.
const PGN_KEPT: Word = Word {
    name: "pgn",
    kind: Kind::Flag,
    help: "Writes the games as NAME.pgn beside NAME.pgc",
};

// Tariffs, where a certificate is written.
const TOLLS: Word = Word {
    name: "tolls",
    kind: Kind::Flag,
    help: "Cuts by journeys and by tolls, whose tariffs go into CERT",
};

// No journeys, where tariffs are.
const NO_JOURNEYS: Word = Word {
    name: "no-journeys",
    kind: Kind::Flag,
    help: "With --tolls: no journeys; more nodes, often in less time",
};

// Tariffs, where a certificate is read for a problem.
const TOLLS_TAKEN: Word = Word {
    name: "tolls",
    kind: Kind::Flag,
    help: "Takes cuts by journeys and by the tariffs of CERT too",
};

// The file of `pg search` that the games are written to.
const GAMES_KEPT: Word = Word {
    name: "games",
    kind: Kind::Named("FILE"),
    help: "Keeps the games that it met, if any, also if it gives up",
};

// The author's game.
const GAME: Word = Word {
    name: "game",
    kind: Kind::Named("MOVES"),
    help: "The author's game, as one word",
};

// The file of the author's games.
const GAMES_GIVEN: Word = Word {
    name: "games",
    kind: Kind::Named("FILE"),
    help: "The author's games, one a line; -: standard input",
};

// The certificate of a problem that is solved.
const KEPT: Word = Word {
    name: "keep",
    kind: Kind::Named("CERT"),
    help: "Keeps the certificate that settles the problem",
};

// All games of a problem that is solved.
const ALL: Word = Word {
    name: "all",
    kind: Kind::Flag,
    help: "Goes on where two games are known, to find all",
};

// More lines where a command has no answer, for the program and behind each command; the helps of these leave it out.
const HINTS: Word = Word {
    name: "hints",
    kind: Kind::Flag,
    help: "Says what may help, as on a terminal",
};

// A command: its name, what it does, what stands below its help, and its words in their order.
struct Entry {
    name: &'static str,
    about: &'static str,
    below: &'static str,
    words: &'static [Word],
}

const COMMANDS: [Entry; 15] = [
    Entry {
        name: "solve",
        about: "Says of one problem whether it is sound, with the games",
        below: SOLVE_EXAMPLE,
        words: &[
            DIAGRAM,
            LENGTH_SOLVED,
            GAME,
            GAMES_GIVEN,
            KEPT,
            ALL,
            NODES_JUDGED,
            MINUTES,
            BYTES,
            AS_PGN,
            JOURNEYS_ACCEPTED,
        ],
    },
    Entry {
        name: "show",
        about: "Prints the board of a diagram, and what is known of it at once",
        below: SHOW_EXAMPLE,
        words: &[DIAGRAM, LENGTH_SHOWN],
    },
    Entry {
        name: "moves",
        about: "Prints the legal moves of a position, one a line",
        below: MOVES_EXAMPLE,
        words: &[FEN],
    },
    Entry {
        name: "count",
        about: "Prints the number of games of so many plies from a position",
        below: COUNT_EXAMPLE,
        words: &[FEN, PLIES],
    },
    Entry {
        name: "games",
        about: "Prints what a list of games shows by itself",
        below: GAMES_EXAMPLE,
        words: &[DIAGRAM, LENGTH, GAMES, AS_PGN],
    },
    Entry {
        name: "cooks",
        about: "Looks for another game, or a shorter one, near the games of a list",
        below: COOKS_EXAMPLE,
        words: &[DIAGRAM, LENGTH, GAMES_KNOWN, NODES_LED, MINUTES, FOREIGN],
    },
    Entry {
        name: "check",
        about: "Checks a certificate against a list of games, and prints the report",
        below: CHECK_EXAMPLE,
        words: &[
            DIAGRAM,
            LENGTH,
            CERTIFICATE,
            GAMES,
            RECORDS,
            JOURNEYS_TAKEN,
            TOLLS_TAKEN,
            AS_PGN,
        ],
    },
    Entry {
        name: "answer",
        about: "Checks a certificate by itself, and prints the report of its games",
        below: ANSWER_EXAMPLE,
        words: &[CERTIFICATE, RECORDS, AS_PGN, JOURNEYS_ACCEPTED],
    },
    Entry {
        name: "search",
        about: "Searches for the games, writes a certificate, checks it, and reports",
        below: SEARCH_EXAMPLE,
        words: &[
            DIAGRAM,
            LENGTH,
            CERTIFICATE_WRITTEN,
            NODES,
            MINUTES,
            BYTES,
            GAMES_KEPT,
            JOURNEYS,
            TOLLS,
            NO_JOURNEYS,
        ],
    },
    Entry {
        name: "judge",
        about: "Judges the problems of a file, one after the other, a row for each",
        below: JUDGE_EXAMPLE,
        words: &[
            PROBLEMS,
            FOLDER,
            REPLACED,
            PGN_KEPT,
            NODES_JUDGED,
            MINUTES_JUDGED,
            BYTES_JUDGED,
            JOURNEYS_ACCEPTED,
        ],
    },
    Entry {
        name: "why",
        about: "Explains a line of moves by a certificate",
        below: WHY_EXAMPLE,
        words: &[CERTIFICATE, MOVES, RECORDS, JOURNEYS_ACCEPTED],
    },
    Entry {
        name: "page",
        about: "Writes a page of HTML that shows a certificate",
        below: PAGE_EXAMPLE,
        words: &[
            CERTIFICATE,
            RECORDS,
            NODES_TOLD,
            PAGE,
            TITLE,
            AUTHOR,
            JOURNEYS_ACCEPTED,
        ],
    },
    Entry {
        name: "upgrade",
        about: "Copies a certificate of version 1 as one of version 2",
        below: UPGRADE_EXAMPLE,
        words: &[OLD, NEW, RECORDS],
    },
    Entry {
        name: "pgn",
        about: "Prints the games of a file in PGN as a list, one a line",
        below: PGN_EXAMPLE,
        words: &[PGN, LETTERS],
    },
    Entry {
        name: "end",
        about: "Prints the diagram, the length and the FEN at the end of games",
        below: END_EXAMPLE,
        words: &[MOVES_ENDED],
    },
];

// The argument that a word is read by.
fn arg_of<'a>(alloc: Global, word: &Word) -> Arg<'a> {
    let arg = Arg::new(alloc, word.name).help(word.help);
    match word.kind {
        Kind::Text => arg.required(true),
        Kind::TextOrNone => arg,
        Kind::Line => arg.required(true).allow_hyphen_values(true),
        Kind::Number => arg
            .required(true)
            .value_parser(ValueParser::unsigned(0, 255)),
        Kind::Limit(called, usual, least) => arg
            .long(word.name)
            .value_name(called)
            .default_value(usual)
            .value_parser(ValueParser::unsigned(least, u64::MAX)),
        Kind::Amount(called, usual) => arg.long(word.name).value_name(called).default_value(usual),
        Kind::NumberOrNone(called) => arg
            .long(word.name)
            .value_name(called)
            .value_parser(ValueParser::unsigned(0, 255)),
        Kind::Named(called) => arg.long(word.name).value_name(called),
        Kind::Flag => arg.long(word.name).action(ArgAction::SetTrue),
    }
}

// A command with one more word.
fn with_word<'a>(
    command: Command<'a>,
    alloc: Global,
    word: &Word,
) -> Result<Command<'a>, AllocError> {
    command.arg(arg_of(alloc, word))
}

// A command by its entry.
fn command_of<'a>(alloc: Global, entry: &Entry) -> Result<Command<'a>, AllocError> {
    let mut command = Command::new(alloc, entry.name)
        .about(entry.about)
        .after_help(entry.below);
    for word in entry.words {
        command = with_word(command, alloc, word)?;
    }
    command.arg(arg_of(alloc, &HINTS).hide(true))
}

// `pg` with no command yet.
fn top<'a>(alloc: Global) -> Result<Command<'a>, AllocError> {
    let pg = Command::new(alloc, "pg")
        .version("2.0.0")
        .about(ABOUT)
        .after_help(EXAMPLE)
        .subcommand_required(true)
        .arg_required_else_help(true);
    with_word(pg, alloc, &HINTS)
}

// A command with one more command below it.
fn with_command<'a>(
    pg: Command<'a>,
    alloc: Global,
    entry: &Entry,
) -> Result<Command<'a>, AllocError> {
    match command_of(alloc, entry) {
        Ok(command) => pg.subcommand(command),
        Err(fault) => Err(fault),
    }
}

/// `pg` with its commands.
///
/// # Errors
/// `AllocError` where a growth is refused.
pub fn pg<'a>(alloc: Global) -> Result<Command<'a>, AllocError> {
    let mut pg = top(alloc)?;
    for entry in &COMMANDS {
        pg = with_command(pg, alloc, entry)?;
    }
    Ok(pg)
}
