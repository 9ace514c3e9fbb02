//! How a text is cut into tokens.
ghost use Rattle.std.specs.Prelude.{◌≡◌, ◌||◌, ◌≤◌, length, IfSome};
ghost use Rattle.std.specs.List.{prefix_len};
ghost use Rattle.std.specs.Char.{is_ascii_digit};
ghost use Rattle.pg_pgn.specs.Tokens.{is_line_end, is_in_line, is_gap, kind_of};
ghost use Rattle.pg_pgn.specs.Tokens.{kind_at, is_word_byte, is_inside, hidden_len};
ghost use Rattle.pg_pgn.specs.Tokens.{comment_len, next_part, tag_from, more_len, without_mark, body};
ghost use Rattle.pg_pgn.specs.declared.tokens.TagPart.TheVariants as TagPart;

/// What a token is, by its first byte.
#[derive(Clone, Copy, Debug, PartialEq, Eq)]
pub(crate) enum TokenKind {
    /// Spaces between tokens.
    Gap,
    /// A line end, with the line behind it where `%` hides that.
    LineEnd,
    /// From `{` to `}`.
    Comment,
    /// From `;` to the end of the line.
    LineComment,
    /// A tag pair, from `[` to `]`.
    Tag,
    /// A numeric annotation glyph: `$` and digits.
    Glyph,
    /// `(`, the front of a variation.
    Opens,
    /// `)`, the end of a variation.
    Closes,
    /// `*`, a result.
    Star,
    /// A move, a move number or a result.
    Word,
}

/// Where in a tag pair one is.
#[derive(Clone, Copy, Debug, PartialEq, Eq)]
pub(crate) enum TagPart {
    /// In no string.
    Bare,
    /// In a string.
    Quoted,
    /// In a string, behind `\`.
    Escaped,
    /// Behind the end.
    Closed,
    /// Behind a line end in a string.
    Broken,
}

fn is_line_end(byte: u8) -> bool
    ensures { result ≡ is_line_end byte }
{
    byte == b'\n' || byte == b'\r'
}

fn is_gap(byte: u8) -> bool
    ensures { result ≡ is_gap byte }
{
    byte == b' ' || byte == b'\t' || byte == 194 || byte == 160
}

/// Whether a byte is a gap or ends a line.
pub(crate) fn is_blank(byte: u8) -> bool
    ensures { result ≡ is_gap byte || is_line_end byte }
{
    is_gap(byte) || is_line_end(byte)
}

/// The kind of the token that a byte begins.
#[tactic(auto, unfolding(crate::specs::Tokens::kind_of))]
pub(crate) fn kind_of(byte: u8) -> TokenKind
    ensures { result ≡ kind_of byte }
{
    match byte {
        b' ' | b'\t' | 194 | 160 => TokenKind::Gap,
        b'\n' | b'\r' => TokenKind::LineEnd,
        b'{' => TokenKind::Comment,
        b';' => TokenKind::LineComment,
        b'[' => TokenKind::Tag,
        b'$' => TokenKind::Glyph,
        b'(' => TokenKind::Opens,
        b')' => TokenKind::Closes,
        b'*' => TokenKind::Star,
        _ => TokenKind::Word,
    }
}

/// The kind of a token.
pub(crate) fn kind_at(token: &[u8]) -> TokenKind
    ensures { result ≡ kind_at token.now }
{
    match token.split_first() {
        Some((first, _)) => kind_of(*first),
        None => TokenKind::Gap,
    }
}

fn is_word_byte(byte: u8) -> bool
    ensures { result ≡ is_word_byte byte }
{
    matches!(kind_of(byte), TokenKind::Word)
}

fn gap_len(more: &[u8]) -> usize
    ensures value { result ≡ prefix_len is_gap more.now }
    ensures fits { result ≤ length more.now }
{
    more.iter().take_while(|b| is_gap(**b)).count()
}

fn line_len(more: &[u8]) -> usize
    ensures value { result ≡ prefix_len is_in_line more.now }
    ensures fits { result ≤ length more.now }
{
    more.iter().take_while(|b| !is_line_end(**b)).count()
}

fn digits_len(more: &[u8]) -> usize
    ensures value { result ≡ prefix_len is_ascii_digit more.now }
    ensures fits { result ≤ length more.now }
{
    more.iter().take_while(|b| b.is_ascii_digit()).count()
}

fn word_len(more: &[u8]) -> usize
    ensures value { result ≡ prefix_len is_word_byte more.now }
    ensures fits { result ≤ length more.now }
{
    more.iter().take_while(|b| is_word_byte(**b)).count()
}

fn inside_len(more: &[u8]) -> usize
    ensures value { result ≡ prefix_len is_inside more.now }
    ensures fits { result ≤ length more.now }
{
    more.iter().take_while(|b| **b != b'}').count()
}

// How long the line is that `%` hides at the front of a text.
fn hidden_len(text: &[u8]) -> usize
    ensures value { result ≡ hidden_len text.now }
    ensures fits { result ≤ length text.now }
{
    match text.split_first() {
        Some((b'%', more)) => 1 + line_len(more),
        _ => 0,
    }
}

fn comment_len(more: &[u8]) -> Option<usize>
    ensures value { result ≡ comment_len more.now }
    ensures fits { IfSome result (λ n. n ≤ length more.now) }
{
    let inside = inside_len(more);
    if inside < more.len() {
        Some(inside + 1)
    } else {
        None
    }
}

fn next_part(part: TagPart, byte: u8) -> TagPart
    ensures { result ≡ next_part part byte }
{
    match part {
        TagPart::Bare => match byte {
            b'"' => TagPart::Quoted,
            b']' => TagPart::Closed,
            _ => TagPart::Bare,
        },
        TagPart::Quoted => match byte {
            b'"' => TagPart::Bare,
            b'\\' => TagPart::Escaped,
            b'\n' | b'\r' => TagPart::Broken,
            _ => TagPart::Quoted,
        },
        TagPart::Escaped => match byte {
            b'\n' | b'\r' => TagPart::Broken,
            _ => TagPart::Quoted,
        },
        TagPart::Closed => TagPart::Closed,
        TagPart::Broken => TagPart::Broken,
    }
}

// How many bytes go to the end of a tag pair.
#[tactic(auto, unfolding(crate::specs::Tokens::tag_from))]
fn tag_len(more: &[u8]) -> Option<usize>
    ensures value { result ≡ tag_from 0 TagPart.Bare more.now }
    ensures fits { IfSome result (λ n. n ≤ length more.now) }
{
    let mut part = TagPart::Bare;
    let mut count = 0;
    let mut rest = more;
    while let Some((byte, after)) = rest.split_first() {
        count += 1;
        rest = after;
        part = next_part(part, *byte);
        match part {
            TagPart::Closed => return Some(count),
            TagPart::Broken => return None,
            _ => {}
        }
    }
    None
}

/// How many bytes of a token of this kind stand behind its first; none where it is not closed.
pub(crate) fn more_len(kind: TokenKind, more: &[u8]) -> Option<usize>
    ensures value { result ≡ more_len kind more.now }
    ensures fits { IfSome result (λ n. n ≤ length more.now) }
{
    match kind {
        TokenKind::Gap => Some(gap_len(more)),
        TokenKind::LineEnd => Some(hidden_len(more)),
        TokenKind::Comment => comment_len(more),
        TokenKind::LineComment => Some(line_len(more)),
        TokenKind::Tag => tag_len(more),
        TokenKind::Glyph => Some(digits_len(more)),
        TokenKind::Opens | TokenKind::Closes | TokenKind::Star => Some(0),
        TokenKind::Word => Some(word_len(more)),
    }
}

/// A text without the byte order mark at its front.
pub(crate) fn without_mark(text: &[u8]) -> &[u8]
    ensures { result.now ≡ without_mark text.now }
{
    match text {
        [239, 187, 191, rest @ ..] => rest,
        _ => text,
    }
}

/// And without a first line that `%` hides.
pub(crate) fn body(text: &[u8]) -> &[u8]
    ensures { result.now ≡ body text.now }
{
    let text = without_mark(text);
    let (_, rest) = text.split_at(hidden_len(text));
    rest
}
