//! Second lines, on a terminal or with `--hints`, behind the line that says why a command has no answer: what is wrong in
//! a text or a file, and what to try. They take no part in any answer.

use crate::lists::{tell_byte, tell_letters, tell_list, tell_misfit, tell_name};
use crate::refusals::{GAVE_UP, Named, Reached, Refusal};
use crate::spelling::{say_tolls, text_of};
use clap::ArgMatches;
use pg_fen::{Length, LengthFault};
use pg_files::{Obstacle, first_bytes};
use pg_hints::{
    Hint, hyphen_wanted_in, is_fen_in_words, is_game_in_words, is_like_game, is_open,
    is_unit_apart_in, meant_by, on_diagram, on_known, on_length, on_limit, on_turned, packing_of,
};
use pg_journeys::Journeys;
use pg_report::{
    AnswerFault, AnswerRunFault, CountRunFault, Fault, FenFault, MovesFault, RunFault, SearchFault,
    UpgradeFault,
};
use pg_tariff_files::MAGIC;
use std::fmt::Display;
use std::io::Eprint;
use std::rt::Runtime;
use std::str;

// Says a line, where there is one.
fn tell<R: Eprint>(rt: &R, hint: &Hint) {
    if !hint.is_empty() {
        let _ = eprintln!(rt; "pg: {}", hint.as_str());
    }
}

// Says what stands in the way.
fn tell_value<R: Eprint, D: Display + Drop>(rt: &R, value: D) {
    let _ = eprintln!(rt; "pg: {value}");
}

// Points to what is wrong in the text of a diagram or of a position.
fn tell_diagram<R: Runtime + AllocGlobal>(rt: &R, words: &ArgMatches<'_>, fault: FenFault) {
    let text = match text_of(words, "DIAGRAM") {
        "" => text_of(words, "FEN"),
        text => text,
    };
    tell(rt, &on_diagram(text, fault));
}

// Says what a command does that solves the problem of these words' diagram and of what stands behind it, to be pasted.
fn tell_solve<R: Eprint>(rt: &R, words: &ArgMatches<'_>, does: &str, length: &str, more: &str) {
    let diagram = text_of(words, "DIAGRAM");
    let quote = if diagram.contains(' ') { "'" } else { "" };
    let space = if length.is_empty() { "" } else { " " };
    let _ = eprintln!(rt; "pg: {does}: pg solve {quote}{diagram}{quote}{space}{length}{more}");
}

// Says what a length is, and which one is meant where that is known, or which command finds one.
fn tell_length<R: Eprint>(rt: &R, words: &ArgMatches<'_>) {
    let _ = eprintln!(rt; "pg: a length is in moves, as 2.0 or 2.5");
    let text = text_of(words, "LENGTH");
    match meant_by(text) {
        Some(length) => tell(rt, &on_length(length.plies())),
        None if is_open(text) => {
            tell_solve(rt, words, "this finds the least that has a game", "", "")
        }
        None => {}
    }
}

// Says that a game stands where the name of a list is wanted, or which command needs no certificate.
fn tell_wanted<R: Eprint>(rt: &R, words: &ArgMatches<'_>, named: Named, obstacle: Obstacle) {
    if named == Named::Certificate && obstacle == Obstacle::NotPlain {
        let length = text_of(words, "LENGTH");
        if !length.is_empty() && text_of(words, "CERT").starts_with("/dev/") {
            tell_solve(rt, words, "this writes no certificate", length, "");
        }
    }
    let is_list = matches!(named, Named::Games | Named::Kept);
    if is_list && is_like_game(text_of(words, named.word())) {
        let _ = eprintln!(rt; "pg: it looks like a game; a file with one game a line is wanted");
    }
}

// Says that a certificate looks packed.
fn tell_packing<R: Runtime + AllocGlobal>(rt: &R, path: &str) {
    if let Some(packing) = packing_of(&first_bytes(rt, path)) {
        let _ = eprintln!(rt;
            "pg: it looks packed by {packing}; unpack it, or let `pg check` read it from a pipe"
        );
    }
}

// Says which command reaches further than a search with these words.
fn tell_further<R: Eprint>(rt: &R, words: &ArgMatches<'_>) {
    if !say_tolls(words) {
        let length = text_of(words, "LENGTH");
        tell_solve(rt, words, "this reaches further", length, " --minutes 10");
    }
}

// Says which command shows a game of this many plies.
fn tell_shorter<R: Eprint>(rt: &R, words: &ArgMatches<'_>, plies: u8) {
    if let Some(length) = Length::from_plies(plies) {
        tell_solve(rt, words, "this shows it", length.write().as_str(), "");
    }
}

// Says what a search with these words that gave up knows, and what to try.
fn tell_known<R: Eprint>(rt: &R, words: &ArgMatches<'_>, fault: &SearchFault, known: &Reached) {
    if let SearchFault::Shorter(plies) = fault {
        tell_shorter(rt, words, *plies);
        return;
    }
    tell(rt, &on_limit(known.nodes, known.tree, known.plies));
    tell(rt, &on_known(known.games));
    match fault {
        SearchFault::Budget => tell_ways(rt, words, "--nodes"),
        SearchFault::TooManyGames => {
            let length = text_of(words, "LENGTH");
            tell_solve(rt, words, "this shows two of them", length, "");
        }
        _ => {}
    }
}

// Says what may help a search with these words, which wants more of this.
fn tell_ways<R: Eprint>(rt: &R, words: &ArgMatches<'_>, more: &str) {
    tell_further(rt, words);
    let _ = eprintln!(rt;
        "pg: try `pg cooks` with a game, `pg show DIAGRAM LENGTH` for a forecast, or more {more}"
    );
}

// Says what a search with these words knows whose time was over, and what to try.
fn tell_late<R: Eprint>(rt: &R, words: &ArgMatches<'_>, known: &Reached) {
    tell(rt, &on_limit(known.nodes, known.tree, known.plies));
    tell(rt, &on_known(known.games));
    tell_ways(rt, words, "--minutes");
}

// Says what a search knows whose certificate would be too long, and what to try.
fn tell_full<R: Eprint>(rt: &R, known: &Reached) {
    tell(rt, &on_limit(known.nodes, known.tree, known.plies));
    tell(rt, &on_known(known.games));
    let _ = eprintln!(rt; "pg: more --bytes let it be longer");
}

// Whether bytes begin a list of games.
fn are_like_game(bytes: &[u8; 6]) -> bool {
    match str::from_utf8(bytes) {
        Ok(text) => is_like_game(text),
        Err(_) => false,
    }
}

// Says that tariffs stand before a certificate, where the words could say that they are taken; else what else it looks
// like, a list of games or a packed file.
fn tell_front<R: Runtime + AllocGlobal>(rt: &R, words: &ArgMatches<'_>) {
    let path = text_of(words, "CERT");
    let front = first_bytes(rt, path);
    let is_unsaid = words.get_str("tolls") == Some("false");
    if is_unsaid && front.starts_with(&MAGIC) {
        let _ = eprintln!(rt; "pg: tariffs stand before it: say --tolls");
    } else if are_like_game(&front) {
        let _ = eprintln!(rt;
            "pg: it looks like a list of games; `pg search` writes a certificate"
        );
    } else {
        tell_packing(rt, path);
    }
}

// Says what may be wrong with a certificate.
fn tell_certificate<R: Runtime + AllocGlobal>(rt: &R, words: &ArgMatches<'_>, fault: &Fault) {
    match fault {
        Fault::Magic | Fault::Truncated => tell_front(rt, words),
        Fault::UnknownBound(Journeys::CODE) => {
            let _ = eprintln!(rt; "pg: bound 5 is that by journeys: say --journeys");
        }
        _ => {}
    }
}

// Points to what is wrong in a text of a check.
fn tell_check<R: Runtime + AllocGlobal>(rt: &R, words: &ArgMatches<'_>, fault: &RunFault) {
    match fault {
        RunFault::Diagram(fault) => tell_diagram(rt, words, *fault),
        RunFault::Length(LengthFault::Shape) => tell_length(rt, words),
        RunFault::Games(fault) => {
            tell_list(rt, words, fault);
            tell_name(rt, words);
        }
        RunFault::Check(Fault::Listed(fault)) => tell_misfit(rt, words, fault),
        RunFault::Check(fault) => tell_certificate(rt, words, fault),
        _ => {}
    }
}

// Says what may help where a command of these words has no answer.
pub(crate) fn advise<R: Runtime + AllocGlobal>(rt: &R, words: &ArgMatches<'_>, refusal: &Refusal) {
    match refusal {
        Refusal::Open(named, obstacle) => {
            tell_value(rt, *obstacle);
            tell_wanted(rt, words, *named, *obstacle);
        }
        Refusal::Minutes => tell_value(rt, "it is as 5, 0.5, 90s, 5m or 2h"),
        Refusal::GaveUp(fault, known) => tell_known(rt, words, fault, known),
        Refusal::Full(known) => tell_full(rt, known),
        Refusal::Late(known) => tell_late(rt, words, known),
        Refusal::NotUtf8 => tell_byte(rt, words),
        Refusal::Pgn(_) => tell_letters(rt, words),
        Refusal::Check(fault) => tell_check(rt, words, fault),
        Refusal::Answer(AnswerRunFault::Answer(AnswerFault::Check(fault))) => {
            tell_certificate(rt, words, fault)
        }
        Refusal::Moves(MovesFault::Position(fault))
        | Refusal::Count(CountRunFault::Position(fault)) => tell_diagram(rt, words, *fault),
        Refusal::Upgrade(UpgradeFault::NotVersion1 | UpgradeFault::Truncated) => {
            tell_packing(rt, text_of(words, "OLD"))
        }
        _ => {}
    }
}

// Says what the diagram of these words is when it is turned, where a command that ends with this status may have met one
// that is upside down.
pub(crate) fn advise_status<R: Eprint>(rt: &R, words: &ArgMatches<'_>, status: u8) {
    if status == GAVE_UP {
        tell(rt, &on_turned(text_of(words, "DIAGRAM")));
    }
}

// Says what is one word, where the words have it in pieces, or which word an option is.
pub(crate) fn advise_words<R: Eprint>(rt: &R, words: &[String]) {
    if is_fen_in_words(words) {
        let _ = eprintln!(rt; "pg: quote the FEN: it is one word");
    }
    if is_game_in_words(words) {
        let _ = eprintln!(rt; "pg: a game is one word in quotes, behind --game");
    }
    if is_unit_apart_in(words) {
        let _ = eprintln!(rt; "pg: a time is one word: as 5, 90s, 5m or 2h");
    }
    if let Some(word) = hyphen_wanted_in(words) {
        let _ = eprintln!(rt; "pg: two hyphens stand before an option: -{word}");
    }
}
