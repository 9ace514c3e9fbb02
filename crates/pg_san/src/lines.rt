//! The lines of a text.
ghost use Rattle.std.specs.Prelude.{◌≡◌, ◌+◌, ◌<◌, ◌∷◌, length};
ghost use Rattle.std.specs.Str.Lines.{strip_carriage_return};
ghost use Rattle.pg_san.specs.GameText.{lines};
ghost use Rattle.pg_san.specs.TextLeft.{lines_left, length_left};

use memchr::memchr;

fn without_return(line: &[u8]) -> &[u8]
    ensures { result.now ≡ strip_carriage_return line.now }
{
    let n = line.len();
    if n > 0 && line[n - 1] == b'\r' {
        &line[..n - 1]
    } else {
        line
    }
}

/// The first line of a text, without the one carriage return at its end, and what follows its line feed, if it has one.
pub fn next_line(text: &[u8]) -> (&[u8], Option<&[u8]>)
    ensures cut { lines text.now ≡ result.0.now ∷ lines_left result.1 }
    ensures less { length_left result.1 < length text.now + 1 }
{
    match memchr(b'\n', text) {
        Some(n) => (without_return(&text[..n]), Some(&text[n + 1..])),
        None => (without_return(text), None),
    }
}
