//! What stands before the lists of a priced record, and the lists.
ghost use Rattle.std.specs.Prelude.{◌≡◌, ◌+◌, ◌*◌, length};
ghost use Rattle.pg_certificate.specs.Reading.{color_of, lists_of};
ghost use Rattle.pg_certificate.specs.Spelling.{color_byte};
ghost use Rattle.pg_certificate.specs.inner.Outlines.{IsOutline, AreListsOf, lists_spelling};

use pg_board::Color;
use pg_price_lists::Prices;

/// The parts of a priced record before its lists.
#[derive(Clone, Copy)]
pub struct Outline {
    /// Which bound the prices belong to.
    pub code: u8,
    /// Whose men they are for.
    pub color: Color,
    /// How many lists follow, 1 to 3.
    pub ways: usize,
    /// How many sources each list has, 0 to 64.
    pub sources: usize,
    /// How many targets each list has, 0 to 64.
    pub targets: usize,
}

/// The colour of a byte.
pub fn color_of(byte: u8) -> Color
    ensures { result ≡ color_of byte }
{
    if byte == 0 {
        Color::White
    } else {
        Color::Black
    }
}

/// The byte of a colour.
pub fn color_byte(color: Color) -> u8
    ensures { result ≡ color_byte color }
{
    match color {
        Color::White => 0,
        Color::Black => 1,
    }
}

/// Puts the price lists whose bytes these are in place of those that are held.
pub fn put_prices(bytes: &[u8], outline: &Outline, prices: &mut Prices)
    requires fits { IsOutline outline.now }
    requires whole { length bytes.now ≡ outline.now.ways * (outline.now.sources + outline.now.targets) }
    ensures lists { prices.new ≡ lists_of outline.now.ways outline.now.sources outline.now.targets bytes.now }
    ensures spelled { lists_spelling prices.new ≡ bytes.now }
    ensures fits { AreListsOf outline.now prices.new }
{
    let sources = outline.sources;
    let both = sources + outline.targets;
    prices.set(&bytes[..sources], &bytes[sources..both]);
    let mut at = both;
    for _ in 1..outline.ways {
        prices.add(&bytes[at..at + sources], &bytes[at + sources..at + both]);
        at += both;
    }
}
