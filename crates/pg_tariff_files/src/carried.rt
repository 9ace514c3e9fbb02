//! The front of a file: the tariffs that it carries, if it carries any.
ghost use Rattle.std.specs.Prelude.{◌≡◌, ◌↔◌, ℕ, ◌<◌, ◌≤◌, ◌*◌, [], ◌∷◌, codes, length, IsTrue, Some, IfOk, IfErr, IfSome};
ghost use Rattle.std.specs.Fmt.{option_append};
ghost use Rattle.std.specs.Io.KnownBytes.{Consumes, IsAtEnd};
ghost use Rattle.pg_tariff_files.specs.Files.{IsBegun, IsOfReading, IsUnread, IsUnstated};

use crate::fault::CarriedFault;
use crate::stated::BYTES;
use pg_files::{FileFault, read_front};
use std::alloc::Global;
use std::io::Read;

/// What a file begins with that carries tariffs.
pub const MAGIC: [u8; 4] = *b"PGT1";

/// The most tariffs of a file.
pub const MOST: u8 = 250;

/// The front of a file: its tariffs, 130 bytes each, none where it is a certificate alone; and the bytes of the
/// certificate that were read, before those that are left in the file.
#[derive(Drop)]
pub struct Carried {
    pub stated: Vec<u8>,
    pub front: Vec<u8>,
}

impl Carried {
    /// Of a file of which nothing was read, and that carries none.
    pub fn none(alloc: Global) -> Carried
        ensures stated { result.stated.items ≡ [] }
        ensures front { result.front.items ≡ [] }
    {
        Carried {
            stated: Vec::new(alloc),
            front: Vec::new(alloc),
        }
    }
}

// Why bytes were not read.
fn fault_of(fault: FileFault) -> CarriedFault {
    match fault {
        FileFault::Memory => CarriedFault::Memory,
        _ => CarriedFault::Read,
    }
}

// Whether bytes are those that a file with tariffs begins with.
fn are_magic(bytes: &[u8]) -> bool
    ensures { IsTrue result ↔ (bytes.now ≡ codes "PGT1") }
{
    bytes == MAGIC.as_slice()
}

// The next `most` bytes of a reader; fewer only where no more are left.
fn next<R: Read>(alloc: Global, reader: &mut R, most: usize) -> Result<Vec<u8>, CarriedFault>
    ensures bytes { IfOk result (λ bytes.
        Consumes (R.remaining reader.old) (R.remaining reader.new) bytes.items) }
    ensures end { IfOk result (λ bytes. length bytes.items < most → IsAtEnd (R.remaining reader.new)) }
    ensures few { IfOk result (λ bytes. length bytes.items ≤ most) }
    ensures fault { IfErr result IsOfReading }
{
    match read_front(alloc, reader, most) {
        Ok(bytes) => Ok(bytes),
        Err(FileFault::Memory) => Err(CarriedFault::Memory),
        Err(_) => Err(CarriedFault::Read),
    }
}

// How many tariffs a file carries of which the magic was read.
fn read_number<R: Read>(alloc: Global, reader: &mut R) -> Result<u8, CarriedFault>
    ensures ok { IfOk result (λ n. 0 < n × n ≤ 250
        × Consumes (R.remaining reader.old) (R.remaining reader.new) (n ∷ [])) }
    ensures err { IfErr result (λ e. IfSome (R.remaining reader.old) (IsUnstated e)) }
{
    let bytes = match next(alloc, reader, 1) {
        Ok(bytes) => bytes,
        Err(fault) => return Err(fault),
    };
    match bytes.first() {
        None => Err(CarriedFault::Truncated),
        Some(number) if *number == 0 || *number > MOST => Err(CarriedFault::Number),
        Some(number) => Ok(*number),
    }
}

// The bytes of `number` tariffs, which stand next.
fn read_stated<R: Read>(alloc: Global, reader: &mut R, number: u8) -> Result<Vec<u8>, CarriedFault>
    ensures length { IfOk result (λ s. length s.items ≡ 130 * number) }
    ensures bytes { IfOk result (λ s. Consumes (R.remaining reader.old) (R.remaining reader.new) s.items) }
    ensures err { IfErr result (λ e. IfSome (R.remaining reader.old) (λ rest. IsUnstated e (number ∷ rest))) }
{
    let most = BYTES * usize::from(number);
    match next(alloc, reader, most) {
        Ok(stated) if stated.len() == most => Ok(stated),
        Ok(_) => Err(CarriedFault::Truncated),
        Err(fault) => Err(fault),
    }
}

// The tariffs of a file of which the magic was read.
fn read_tariffs<R: Read>(alloc: Global, reader: &mut R) -> Result<Vec<u8>, CarriedFault>
    ensures ok { IfOk result (λ s. (n : ℕ) × 0 < n × n ≤ 250 × (length s.items ≡ 130 * n)
        × Consumes (R.remaining reader.old) (R.remaining reader.new) (n ∷ s.items)) }
    ensures err { IfErr result (λ e. IfSome (R.remaining reader.old) (IsUnstated e)) }
{
    match read_number(alloc, reader) {
        Ok(number) => read_stated(alloc, reader, number),
        Err(fault) => Err(fault),
    }
}

/// Reads the tariffs that stand before the certificate of a file, if they do. Of a certificate alone its first four
/// bytes are read, and handed out.
///
/// # Errors
/// `Number` where the number of tariffs is 0 or above 250; `Truncated` where the file ends before that number, or
/// before the last tariff does; `Read` where a read fails; `Memory` where a growth is refused.
#[tactic(auto, using(crate::proofs::ReadingLemmas::alone))]
pub fn read_carried<R: Read>(alloc: Global, reader: &mut R) -> Result<Carried, CarriedFault>
    ensures ok { IfOk result (λ c. IsBegun (R.remaining reader.old)
        (option_append (Some c.front.items) (R.remaining reader.new)) c.stated.items) }
    ensures err { IfErr result (IsUnread (R.remaining reader.old)) }
{
    let front = match next(alloc, reader, MAGIC.len()) {
        Ok(front) => front,
        Err(fault) => return Err(fault),
    };
    if !are_magic(front.as_slice()) {
        return Ok(Carried {
            stated: Vec::new(alloc),
            front,
        });
    }
    match read_tariffs(alloc, reader) {
        Ok(stated) => Ok(Carried {
            stated,
            front: Vec::new(alloc),
        }),
        Err(fault) => Err(fault),
    }
}
