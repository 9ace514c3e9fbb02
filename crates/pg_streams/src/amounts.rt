//! Numbers of nodes and bytes, as a user says them.
ghost use Rattle.pg_streams.specs.Amounts.{IsPlain};

use crate::deadline::are_digits;

/// The number that a text says: decimal digits, as in `1000000`; or digits, maybe a dot and digits behind it, and then
/// `k`, `M` or `G` for thousands, millions and billions, or `e` and a power of ten, as in `250k`, `1.5M`, `2G` and
/// `1e6`. None for any other text, for what is no whole number, and for more than 2^64 - 1.
pub fn amount_of(text: &str) -> Option<u64>
    ensures { IsPlain text.now result }
{
    match text.parse::<u64>() {
        Ok(number) => Some(number),
        Err(_) => long_form(text),
    }
}

// What a text says that has a letter for a power of ten.
fn long_form(text: &str) -> Option<u64> {
    let (number, power) = number_and_power(text)?;
    let (whole, part) = match number.split_once('.') {
        Some((whole, part)) => (whole, part),
        None => (number, "0"),
    };
    if !are_digits(whole) || !are_digits(part) {
        return None;
    }
    let whole = whole.parse::<u64>().ok()?;
    whole
        .checked_mul(10u64.checked_pow(power)?)?
        .checked_add(part_of(part, power)?)
}

// What stands before the letter, and the power of ten that it is.
fn number_and_power(text: &str) -> Option<(&str, u32)> {
    if let Some(number) = text.strip_suffix('k') {
        return Some((number, 3));
    }
    if let Some(number) = text.strip_suffix('M') {
        return Some((number, 6));
    }
    if let Some(number) = text.strip_suffix('G') {
        return Some((number, 9));
    }
    let (number, power) = text.split_once('e')?;
    if !are_digits(power) {
        return None;
    }
    Some((number, power.parse::<u32>().ok()?))
}

// So many times the power of ten is a part by the digits behind its dot; none where that is no whole number.
fn part_of(digits: &str, power: u32) -> Option<u64> {
    let digits = digits.trim_end_matches('0');
    if digits.is_empty() {
        return Some(0);
    }
    let places = u32::try_from(digits.len()).ok()?;
    let left = power.checked_sub(places)?;
    digits
        .parse::<u64>()
        .ok()?
        .checked_mul(10u64.checked_pow(left)?)
}
