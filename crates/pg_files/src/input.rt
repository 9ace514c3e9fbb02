//! Files that are read, and lists of games, read whole. Of what a file holds, and of what stands in a folder, std says
//! nothing: it says what a reader gives from here on, where that is known.
ghost use Rattle.std.specs.Prelude.{◌≡◌, ◌+◌, ◌≤◌, ◌<◌, ◌⊎◌, ◌++◌, ◌↔◌, ℕ, List, length, codes};
ghost use Rattle.std.specs.Prelude.{IfErr, IfOk, IfSome, IsFalse, IsOk, OnOk};
ghost use Rattle.std.specs.Io.KnownBytes.{Consumes, IsAtEnd};
ghost use Rattle.either.specs.Either.{either, is_left};
ghost use Rattle.pg_files.specs.Faults.{IsNotOpened, IsNotRead, IsOfOpening};
ghost use Rattle.pg_files.specs.Inputs.{IsAll, IsFront, no_bytes};

use crate::faults::{FileFault, Obstacle};
use crate::names::{is_input, path_of};
use either::{Either, Left, Right};
use std::alloc::Global;
use std::fs;
use std::fs::File;
use std::io::{ErrorKind, Input, Read};
use std::rt::Files;

/// The longest list that is read: 16,777,216 bytes.
pub const MOST_BYTES: usize = 16_777_216;

// The file of this path, to be read.
fn open_path<R: Files>(rt: &R, path: &str) -> Result<R::File, FileFault>
    ensures { IfErr result IsOfOpening }
{
    match File::open(rt, path) {
        Ok(file) => Ok(file),
        Err(fault) => Err(FileFault::Open(Obstacle::of(&fault))),
    }
}

/// The file of this name, to be read, or standard input where the name is `-`.
///
/// # Errors
/// `Open` where it cannot be opened, or is a folder.
pub fn open<R: Files + Input + AllocGlobal>(
    rt: &R,
    name: &str,
) -> Result<Either<R::File, R::Reader>, FileFault>
    ensures input { name.now ≡ codes "-" → IsOk result }
    ensures side { IfOk result (λ source. IsFalse (is_left source) ↔ (name.now ≡ codes "-")) }
    ensures fault { IfErr result IsNotOpened }
{
    if is_input(name) {
        return Ok(Right(rt.reader()));
    }
    match fs::metadata(rt, name) {
        Ok(found) if found.is_dir() => Err(FileFault::Open(Obstacle::NotPlain)),
        _ => Ok(Left(open_path(rt, name)?)),
    }
}

/// The plain file of this name, to be read, also more than once; or that of standard input where the name is `-`.
///
/// # Errors
/// `Open` where it cannot be opened, or where it is no plain file: a folder, a pipe, a socket or a device.
pub fn open_plain<R: Files + AllocGlobal>(rt: &R, name: &str) -> Result<R::File, FileFault>
    ensures { IfErr result IsNotOpened }
{
    let path = path_of(name);
    match fs::metadata(rt, path) {
        Ok(found) if found.is_file() => open_path(rt, path),
        Ok(_) => Err(FileFault::Open(Obstacle::NotPlain)),
        Err(fault) => Err(FileFault::Open(Obstacle::of(&fault))),
    }
}

/// Whether nothing stands at this path, not even a link that leads to nothing. No clause can say so, since none says
/// what a path leads to.
pub fn is_missing<R: Files>(rt: &R, path: &str) -> bool {
    match fs::symlink_metadata(rt, path) {
        Ok(_) => false,
        Err(fault) => fault.kind() == ErrorKind::NotFound,
    }
}

/// How many bytes the plain file of this name has, or that of standard input where the name is `-`; none where it is no
/// plain file.
pub fn size_of<R: Files>(rt: &R, name: &str) -> Option<u64> {
    match fs::metadata(rt, path_of(name)) {
        Ok(found) if found.is_file() => Some(found.len()),
        _ => None,
    }
}

// The first six bytes of a reader; bytes that it lacks are 0. None where a read has failed.
fn six_of<R: Read + Drop>(reader: R) -> Option<[u8; 6]>
    ensures { IfSome result (IsFront (R.remaining reader)) }
{
    let lacking = [0u8; 6];
    let mut bytes = [0u8; 6];
    match reader.chain(lacking.as_slice()).read_exact(&mut bytes) {
        Ok(()) => Some(bytes),
        Err(_) => None,
    }
}

/// The first six bytes of a plain file; bytes that it lacks are 0, and all six where it cannot be read.
pub fn first_bytes<R: Files + AllocGlobal>(rt: &R, name: &str) -> [u8; 6]
    ensures { (result ≡ no_bytes) ⊎ ((file : R.File) × IsFront (R.File.remaining file) result) }
{
    match open_plain(rt, name) {
        Ok(file) => match six_of(file) {
            Some(front) => front,
            None => [0; 6],
        },
        Err(_) => [0; 6],
    }
}

// Reads once, and appends what came; how much that was.
fn read_more<R: Read>(
    bytes: &mut Vec<u8>,
    reader: &mut R,
    buffer: &mut [u8],
) -> Result<usize, FileFault>
    ensures came { OnOk result ((more : List ℕ) × (bytes.new.items ≡ bytes.old.items ++ more)
        × Consumes (R.remaining reader.old) (R.remaining reader.new) more) }
    ensures end { IfOk result (λ n. n ≡ 0 → 0 < length buffer.old → IsAtEnd (R.remaining reader.new)) }
    ensures few { OnOk result (length bytes.new.items ≤ length bytes.old.items + length buffer.old) }
    ensures limit { OnOk result (length bytes.new.items ≤ 16777216) }
    ensures fault { IfErr result IsNotRead }
{
    let Ok(count) = reader.read(buffer) else {
        return Err(FileFault::Read);
    };
    if bytes.len().saturating_add(count) > MOST_BYTES {
        return Err(FileFault::Read);
    }
    match bytes.extend_from_slice(&buffer[..count]) {
        Ok(()) => Ok(count),
        Err(_) => Err(FileFault::Memory),
    }
}

/// All the bytes of a reader, 16,777,216 at most. A longer reader, and one that fails, is `Read`; a
/// fault is not tried again. `Memory` where a growth is refused.
#[tactic(auto, using(crate::proofs::Whole::no_read, crate::proofs::Whole::read_on, crate::proofs::Whole::all_read))]
pub fn read_all<R: Read>(alloc: Global, reader: &mut R) -> Result<Vec<u8>, FileFault>
    ensures bytes { IfOk result (λ bytes. IsAll (R.remaining reader.old) bytes.items) }
    ensures end { OnOk result (IsAtEnd (R.remaining reader.new)) }
    ensures limit { IfOk result (λ bytes. length bytes.items ≤ 16777216) }
    ensures fault { IfErr result IsNotRead }
{
    let mut bytes = Vec::new(alloc);
    let mut buffer = [0u8; 4096];
    for _ in 0..u64::MAX {
        if read_more(&mut bytes, reader, &mut buffer)? == 0 {
            return Ok(bytes);
        }
    }
    Err(FileFault::Read)
}

/// The next `most` bytes of a reader; fewer only where no more are left. A fault is not tried again.
///
/// # Errors
/// `Read` where a read has failed, or where they are more than 16,777,216. `Memory` where a growth is refused.
#[tactic(auto, using(crate::proofs::Whole::no_read, crate::proofs::Whole::read_on))]
pub fn read_front<R: Read>(alloc: Global, reader: &mut R, most: usize) -> Result<Vec<u8>, FileFault>
    ensures bytes { IfOk result (λ bytes.
        Consumes (R.remaining reader.old) (R.remaining reader.new) bytes.items) }
    ensures end { IfOk result (λ bytes. length bytes.items < most → IsAtEnd (R.remaining reader.new)) }
    ensures few { IfOk result (λ bytes. length bytes.items ≤ most) }
    ensures fault { IfErr result IsNotRead }
{
    let mut bytes = Vec::new(alloc);
    let mut buffer = [0u8; 4096];
    for _ in 0..u64::MAX {
        let room = most.saturating_sub(bytes.len()).min(4096);
        if read_more(&mut bytes, reader, &mut buffer[..room])? == 0 {
            return Ok(bytes);
        }
    }
    Err(FileFault::Read)
}

/// The bytes of a list of games, from the file of this name, or from standard input where the name is `-`.
///
/// # Errors
/// Those of `open` and of `read_all`.
pub fn list<R: Files + Input + AllocGlobal>(rt: &R, name: &str) -> Result<Vec<u8>, FileFault>
    ensures bytes { IfOk result (λ bytes. (source : Either R.File R.Reader)
        × (IsFalse (is_left source) ↔ (name.now ≡ codes "-"))
        × IsAll (either R.File.remaining R.Reader.remaining source) bytes.items) }
    ensures limit { IfOk result (λ bytes. length bytes.items ≤ 16777216) }
    ensures fault { IfErr result (λ fault. IsNotOpened fault ⊎ IsNotRead fault) }
{
    let mut source = open(rt, name)?;
    read_all(rt.alloc(), &mut source)
}
