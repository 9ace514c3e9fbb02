//! A header, of its bytes.
ghost use Rattle.std.specs.Prelude.{◌≡◌};
ghost use Rattle.pg_certificate.specs.Reading.{version_named, version_of, header_of};

use crate::format::HEADER_LENGTH;
use crate::record::Header;

// The version that a digit stands for; none where there is no such version.
fn version_named(digit: u8) -> Option<u8>
    ensures { result ≡ version_named digit }
{
    match digit {
        b'1' => Some(1),
        b'2' => Some(2),
        _ => None,
    }
}

// The version whose magic is the first four bytes: PGC and its digit.
fn version_of(text: &[u8; HEADER_LENGTH]) -> Option<u8>
    ensures { result ≡ version_of text.now }
{
    if text[0] == b'P' && text[1] == b'G' && text[2] == b'C' {
        version_named(text[3])
    } else {
        None
    }
}

/// The header that the bytes spell; none where they begin with the magic of no version.
pub fn header_of(text: &[u8; HEADER_LENGTH]) -> Option<Header>
    ensures { result ≡ header_of text.now }
{
    let version = version_of(text)?;
    let mut diagram = [0; 32];
    diagram.copy_from_slice(&text[5..]);
    Some(Header {
        version,
        plies: text[4],
        diagram,
    })
}
