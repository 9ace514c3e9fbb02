//! What is meant by a text that is no length.

use crate::strangers::is_digits;
use pg_fen::Length;

// The length of `moves` moves with a dot behind them, and `half` behind the dot.
fn with_dot(moves: &str, half: &str) -> Option<Length> {
    if !is_digits(moves) {
        return None;
    }
    let whole = Length::read(moves).ok()?;
    match half {
        "0" => Some(whole),
        "5" => Length::from_plies(whole.plies() + 1),
        _ => None,
    }
}

// The length of `number` plies; none of more than 128.
fn of_plies(number: &str) -> Option<Length> {
    match number.parse::<u8>() {
        Ok(plies) => Length::from_plies(plies),
        Err(_) => None,
    }
}

/// The one length that is meant by a text that is none: a comma stands for the dot, as in `2,0`; the plies are counted,
/// as in `8 plies`; the half of a move is one sign, as in `2½`; or a dot or three stand behind the moves, as in `4...`.
/// None where no length is meant so.
pub fn meant_by(text: &str) -> Option<Length> {
    if let Some((moves, half)) = text.split_once(',') {
        return with_dot(moves, half);
    }
    if let Some(number) = text.strip_suffix(" plies") {
        return of_plies(number);
    }
    if let Some(moves) = text.strip_suffix('\u{bd}') {
        return with_dot(moves, "5");
    }
    let moves = match text.strip_suffix("...") {
        Some(moves) => moves,
        None => text.strip_suffix('.')?,
    };
    Length::read(moves).ok()
}

/// Whether a text that is no length leaves one open: it has a question mark, or a dash as between two lengths.
pub fn is_open(text: &str) -> bool {
    text.contains(|c: char| matches!(c, '?' | '-' | '\u{2013}'))
}
