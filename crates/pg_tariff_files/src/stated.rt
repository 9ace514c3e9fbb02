//! A tariff as 130 bytes.
ghost use Rattle.std.specs.Prelude.{◌≡◌, ◌≤◌, ◌*◌, ◌/◌, min, length, get_or, IfOk};
ghost use Rattle.pg_tolls.specs.Stated.{stated};
ghost use Rattle.pg_tariff_files.specs.Files.{AreRead, AreTolls, IsAt, signed};

use pg_board::{Color, Square};
use pg_tolls::Tariff;
use std::alloc::{AllocError, Global};

/// How many bytes state a tariff: White's weight, Black's, White's tolls from a1 to h1 and on to h8, and Black's tolls.
/// A toll is a number with a sign, where a byte from 128 on is 256 less.
pub const BYTES: usize = 130;

// A byte as a number with a sign.
fn signed(byte: u8) -> i8
    ensures { result ≡ signed byte }
{
    if byte < 128 {
        byte as i8
    } else {
        (i16::from(byte) - 256) as i8
    }
}

// The byte of a number with a sign.
fn byte_of(toll: i8) -> u8
    ensures { signed result ≡ toll }
{
    if toll >= 0 {
        toll as u8
    } else {
        (i16::from(toll) + 256) as u8
    }
}

// The byte at a place, or 0 behind the last.
fn byte_at(bytes: &[u8], at: usize) -> u8
    ensures { result ≡ get_or bytes.now at 0 }
{
    match bytes.get(at) {
        Some(byte) => *byte,
        None => 0,
    }
}

// The tolls that begin at a place.
fn tolls_at(bytes: &[u8], at: usize) -> [i8; 64]
    requires { at ≤ 65536 }
    ensures { AreTolls bytes.now at result 64 }
{
    let mut tolls = [0i8; 64];
    for q in 0..64usize {
        tolls[q] = signed(byte_at(bytes, at + q));
    }
    tolls
}

/// The tariff of this number, from 0, among those that bytes state one after the other. Bytes that they lack are 0.
pub fn tariff_at(bytes: &[u8], number: u8) -> Tariff
    ensures { IsAt bytes.now (130 * number) (stated result) }
{
    let at = BYTES * usize::from(number);
    Tariff {
        weights: [byte_at(bytes, at), byte_at(bytes, at + 1)],
        tolls: [tolls_at(bytes, at + 2), tolls_at(bytes, at + 66)],
    }
}

/// The bytes that state a tariff.
pub fn stating(tariff: &Tariff) -> [u8; BYTES]
    ensures { IsAt result 0 (stated tariff.now) }
{
    let mut bytes = [0u8; BYTES];
    bytes[0] = tariff.weight(Color::White);
    bytes[1] = tariff.weight(Color::Black);
    for at in 0..64usize {
        let square = Square::at(at as u8);
        bytes[2 + at] = byte_of(tariff.toll(Color::White, square));
        bytes[66 + at] = byte_of(tariff.toll(Color::Black, square));
    }
    bytes
}

/// How many tariffs bytes state one after the other, 250 at most; a rest of fewer than 130 bytes is none.
pub fn number_of(stated: &[u8]) -> u8
    ensures { result ≡ min (length stated.now / 130) 250 }
{
    (stated.len() / BYTES).min(250) as u8
}

/// The tariffs that bytes state one after the other, `number_of` them, each as `tariff_at` has it.
///
/// # Errors
/// Where memory is refused.
pub fn tariffs_of(alloc: Global, bytes: &[u8]) -> Result<Vec<Tariff>, AllocError>
    ensures { IfOk result (λ tariffs. AreRead bytes.now tariffs.items (min (length bytes.now / 130) 250)) }
{
    let mut tariffs = Vec::new(alloc);
    for number in 0..number_of(bytes) {
        tariffs.push(tariff_at(bytes, number))?;
    }
    Ok(tariffs)
}
