//! The fields of a text.

ghost use Rattle.std.specs.Prelude.{◌≡◌, ◌<◌, ◌≤◌, [], ◌∷◌, length, IfSome, MatchOption};
ghost use Rattle.std.specs.List.{prefix_len};
ghost use Rattle.pg_fen.specs.Fields.{is_field_gap, is_field_byte, fields, AreFields};

/// The one field or the six fields of a text.
#[derive(Debug, Clone, Copy)]
pub struct Fields<'a> {
    pub placement: &'a [u8],
    pub details: Option<DetailFields<'a>>,
}

/// The five fields behind the placement.
#[derive(Debug, Clone, Copy)]
pub struct DetailFields<'a> {
    pub side: &'a [u8],
    pub rights: &'a [u8],
    pub passed: &'a [u8],
    pub half: &'a [u8],
    pub full: &'a [u8],
}

fn is_gap(byte: u8) -> bool
    ensures { result ≡ is_field_gap byte }
{
    matches!(byte, b' ' | b'\t' | b'\n' | b'\r')
}

fn gap_len(text: &[u8]) -> usize
    ensures value { result ≡ prefix_len is_field_gap text.now }
    ensures fits { result ≤ length text.now }
{
    text.iter().take_while(|b| is_gap(**b)).count()
}

fn word_len(text: &[u8]) -> usize
    ensures value { result ≡ prefix_len is_field_byte text.now }
    ensures fits { result ≤ length text.now }
{
    text.iter().take_while(|b| !is_gap(**b)).count()
}

/// The first field of a text of Forsyth-Edwards notation, a run of bytes that are no space, tab, line feed or carriage
/// return, and what follows it; None where such gaps are all that the text has.
pub fn next_field(text: &[u8]) -> Option<(&[u8], &[u8])>
    ensures cut { MatchOption result (fields text.now ≡ []) (λ r. fields text.now ≡ r.0.now ∷ fields r.1.now) }
    ensures less { IfSome result (λ r. length r.1.now < length text.now) }
{
    let (_, text) = text.split_at(gap_len(text));
    if text.is_empty() {
        return None;
    }
    Some(text.split_at(word_len(text)))
}

/// The fields of a text that has one or six.
pub fn fields_of(text: &[u8]) -> Option<Fields<'_>>
    ensures { AreFields result (fields text.now) }
{
    let (placement, rest) = next_field(text)?;
    let Some((side, rest)) = next_field(rest) else {
        return Some(Fields {
            placement,
            details: None,
        });
    };
    let (rights, rest) = next_field(rest)?;
    let (passed, rest) = next_field(rest)?;
    let (half, rest) = next_field(rest)?;
    let (full, rest) = next_field(rest)?;
    if next_field(rest).is_some() {
        return None;
    }
    Some(Fields {
        placement,
        details: Some(DetailFields {
            side,
            rights,
            passed,
            half,
            full,
        }),
    })
}
