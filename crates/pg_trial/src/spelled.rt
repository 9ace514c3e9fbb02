//! Texts that spell bytes.

// Appends what a word spells; whether it spells something, and memory is there.
fn append_word(bytes: &mut Vec<u8>, word: &str) -> bool {
    let (digits, times) = word.split_once('*').unwrap_or((word, "1"));
    let (Ok(number), Ok(times)) = (u64::from_str_radix(digits, 16), times.parse::<u32>()) else {
        return false;
    };
    let unused = 8usize.saturating_sub(digits.len() / 2);
    for _ in 0..times {
        if bytes
            .extend_from_slice(&number.to_be_bytes()[unused..])
            .is_err()
        {
            return false;
        }
    }
    true
}

/// Appends the bytes that a text spells: words of at most eight bytes, two digits a byte, and behind a star how many
/// times they stand there, as in `01 0204*13`. Says whether each word spells bytes, and memory is there.
pub fn append_spelled(bytes: &mut Vec<u8>, text: &str) -> bool {
    for word in text.split_whitespace() {
        if !append_word(bytes, word) {
            return false;
        }
    }
    true
}
