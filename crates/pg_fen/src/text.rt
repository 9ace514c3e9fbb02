//! Texts of a fixed capacity: a character more, and the digits of a number.
ghost use Rattle.std.specs.Prelude.{◌≡◌, ◌<◌, [], ◌∷◌, ◌++◌, length};
ghost use Rattle.std.specs.Fmt.{decimal};

use arrayvec::ArrayString;

/// Appends the ASCII character `byte`.
pub fn put<const CAP: usize>(text: &mut ArrayString<CAP>, byte: u8)
    requires ascii { byte < 128 }
    requires room { length text.old.bytes < CAP }
    ensures { text.new.bytes ≡ text.old.bytes ++ byte ∷ [] }
{
    text.push(char::from(byte));
}

/// The digits of a number, with no leading zero: 20 at most.
#[tactic(auto, using(crate::proofs::Decimals::decimal_more, crate::proofs::Decimals::decimal_one, crate::proofs::Decimals::decimal_room))]
pub fn digits(n: usize) -> ArrayString<20>
    ensures { result.bytes ≡ decimal n }
{
    if n < 10 {
        let mut text = ArrayString::new();
        put(&mut text, b'0' + n as u8);
        text
    } else {
        let mut text = digits(n / 10);
        put(&mut text, b'0' + (n % 10) as u8);
        text
    }
}
