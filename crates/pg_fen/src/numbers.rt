//! Decimal numbers in a text.
ghost use Rattle.std.specs.Prelude.{◌≡◌, ◌<◌, ◌≤◌, length, min, IsTrue};
ghost use Rattle.std.specs.List.{prefix_len};
ghost use Rattle.std.specs.Char.{is_ascii_digit};
ghost use Rattle.std.specs.Str.{all_ascii_digits};
ghost use Rattle.std.specs.Str.Parse.{digits_value};

/// How many digits stand at the front.
pub fn digits_len(bytes: &[u8]) -> usize
    ensures value { result ≡ prefix_len is_ascii_digit bytes.now }
    ensures fits { result ≤ length bytes.now }
{
    bytes.iter().take_while(|b| b.is_ascii_digit()).count()
}

/// The number that the digits spell, or `most` where it is above that.
pub fn number_up_to(digits: &[u8], most: u32) -> u32
    requires digits { IsTrue (all_ascii_digits digits.now) }
    requires small { most < 1000000 }
    ensures { result ≡ min most (digits_value 10 digits.now) }
{
    let mut n = 0u32;
    for d in digits {
        n = (n * 10 + u32::from(*d - b'0')).min(most);
    }
    n
}
