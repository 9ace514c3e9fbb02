//! What excludes a colour, in words.

use crate::names::{Phrase, color_name, many, number_name, put_all, put_many, put_number};
use crate::numbers::{Castling, Excess};
use crate::sentences::Sentence;
use crate::travel::write_nowhere;
use pg_board::Color;

// That a colour has captured more men than the diagram lacks.
pub(crate) fn write_too_many(color: Color, owed: i16, text: &mut Sentence) {
    let color = color_name(color);
    let men = many(u64::from(owed.unsigned_abs()), "man", "men");
    put_all(text, &[color, " has captured ", men.as_str(), " too many"]);
}

// That a colour must capture more men than it has moves.
fn write_captures(color: Color, owed: i16, own: u8, text: &mut Sentence) {
    let color = color_name(color);
    let men = many(u64::from(owed.unsigned_abs()), "man", "men");
    let moves = many(u64::from(own), "move", "moves");
    let (men, moves) = (men.as_str(), moves.as_str());
    put_all(
        text,
        &[color, " must capture ", men, " and has ", moves, " left"],
    );
}

// How many pawns are for pieces, if any are.
fn promoted_words(pieces: u16) -> Phrase {
    let mut words = Phrase::new();
    if pieces > 0 {
        let pieces = number_name(u64::from(pieces));
        put_all(&mut words, &[", ", pieces.as_str(), " of them to promote,"]);
    }
    words
}

// That a colour needs more pawns, some of them for pieces, than it has.
fn write_promotions(color: Color, needed: u16, pieces: u16, here: u16, text: &mut Sentence) {
    let color = color_name(color);
    let needs = many(u64::from(needed), "pawn", "pawns");
    let promoted = promoted_words(pieces);
    let here_name = number_name(u64::from(here));
    let short = number_name(u64::from(needed.saturating_sub(here)));
    let (needs, promoted) = (needs.as_str(), promoted.as_str());
    let (here, short) = (here_name.as_str(), short.as_str());
    put_all(
        text,
        &[
            color,
            " needs ",
            needs,
            promoted,
            " and has ",
            here,
            ": ",
            short,
            " short",
        ],
    );
}

// That a colour's pawns must change file more often than it has men to capture.
fn write_files(color: Color, shift: u16, owed: i16, text: &mut Sentence) {
    let color = color_name(color);
    let times = many(u64::from(shift), "time", "times");
    let men = many(u64::from(owed.unsigned_abs()), "man", "men");
    let (times, men) = (times.as_str(), men.as_str());
    put_all(
        text,
        &[
            color,
            "'s pawns must change file ",
            times,
            ", and ",
            color,
            " has ",
            men,
            " to capture",
        ],
    );
}

// What a need by travel begins with.
fn needs_name(color: Color) -> &'static str {
    match color {
        Color::White => "white needs ",
        Color::Black => "black needs ",
    }
}

// What a need by travel ends with: the castling that helps to it, if one does.
fn castling_name(castling: Castling) -> &'static str {
    match castling {
        Castling::None => " (travel)",
        Castling::KingSide => " (travel, castling king side)",
        Castling::QueenSide => " (travel, castling queen side)",
    }
}

// That a colour needs more moves than it has. In few pieces: a page has such words at most of its cuts.
fn write_travel(color: Color, need: u16, own: u8, castling: Castling, text: &mut Sentence) {
    let need = u64::from(need);
    put_all(text, &[needs_name(color)]);
    put_many(
        text,
        need,
        "no move and has ",
        "1 move and has ",
        " moves and has ",
    );
    put_number(text, u64::from(own));
    put_all(text, &[castling_name(castling)]);
}

// What excludes a colour.
pub(crate) fn write_excess(color: Color, excess: &Excess, text: &mut Sentence) {
    match excess {
        Excess::TooMany(owed) => write_too_many(color, *owed, text),
        Excess::Captures { owed, own } => write_captures(color, *owed, *own, text),
        Excess::Promotions {
            needed,
            pieces,
            here,
        } => write_promotions(color, *needed, *pieces, *here, text),
        Excess::Files { shift, owed } => write_files(color, *shift, *owed, text),
        Excess::Travel {
            need,
            own,
            castling,
        } => write_travel(color, *need, *own, *castling, text),
        Excess::Nowhere(missing) => write_nowhere(color, missing, text),
    }
}
