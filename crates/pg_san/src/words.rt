//! The words of a line of games.
ghost use Rattle.std.specs.Prelude.{◌≡◌, ◌<◌, ◌≤◌, MatchOption, [], ◌∷◌, length};
ghost use Rattle.std.specs.List.{prefix_len};
ghost use Rattle.pg_san.specs.GameText.{is_gap, is_word_byte, words, is_dot, digits_len, without_move_number};

fn is_gap(byte: u8) -> bool
    ensures { result ≡ is_gap byte }
{
    byte == b' ' || byte == b'\t'
}

fn gap_len(text: &[u8]) -> usize
    ensures value { result ≡ prefix_len is_gap text.now }
    ensures fits { result ≤ length text.now }
{
    text.iter().take_while(|b| is_gap(**b)).count()
}

fn word_len(text: &[u8]) -> usize
    ensures value { result ≡ prefix_len is_word_byte text.now }
    ensures fits { result ≤ length text.now }
{
    text.iter().take_while(|b| !is_gap(**b)).count()
}

/// The first word of a line, and what follows it; none where the line has no word. Spaces and tabs stand between words.
pub fn next_word(text: &[u8]) -> Option<(&[u8], &[u8])>
    ensures { MatchOption result
        (words text.now ≡ [])
        (λ r. (words text.now ≡ r.0.now ∷ words r.1.now) × (length r.1.now < length text.now)) }
{
    let (_, text) = text.split_at(gap_len(text));
    if text.is_empty() {
        return None;
    }
    Some(text.split_at(word_len(text)))
}

fn digits_len(text: &[u8]) -> usize
    ensures value { result ≡ digits_len text.now }
    ensures fits { result ≤ length text.now }
{
    text.iter().take_while(|b| b.is_ascii_digit()).count()
}

fn dot_len(text: &[u8]) -> usize
    ensures value { result ≡ prefix_len is_dot text.now }
    ensures fits { result ≤ length text.now }
{
    text.iter().take_while(|b| **b == b'.').count()
}

// The word without a move number at its front.
#[tactic(auto, unfolding(crate::specs::GameText::without_move_number))]
pub(crate) fn without_move_number(word: &[u8]) -> &[u8]
    ensures { result.now ≡ without_move_number word.now }
{
    let digits = digits_len(word);
    let (_, rest) = word.split_at(digits);
    let dots = dot_len(rest);
    if digits > 0 && dots > 0 {
        let (_, rest) = rest.split_at(dots);
        return rest;
    }
    word
}
