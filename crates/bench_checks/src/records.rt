//! The reader of records, on records of one byte and on records of prices, from memory.
ghost use Rattle.std.specs.Prelude.{◌≡◌, ◌*◌, ◌≤◌, List, length, IfOk, IfSome, OnOk};
ghost use Rattle.std.specs.List.{flat_map};
ghost use Rattle.pg_certificate.specs.declared.record.Record.{Record};
ghost use Rattle.pg_certificate.specs.Spelling.{spelling, longest_record};
ghost use Rattle.pg_certificate.specs.Reader.{PullsAtMost};

use pg_certificate::format::PRICED;
use pg_certificate::{Bare, FromRead, ReadFault, RecordReader, Source, no_spelling_is_longer};
use pg_price_lists::Prices;
use std::alloc::{AllocError, Global};

// Reads this many records and then the end, and answers how many were expansions.
fn count_expansions<S: Source>(source: &mut S, count: u64) -> Result<u64, ReadFault>
    ensures spelled { OnOk result (IfSome (S.left source.old) (λ bytes. (records : List Record)
        × (length records ≡ count) × (bytes ≡ flat_map spelling records))) }
    ensures counted { IfOk result (λ n. n ≤ count) }
    ensures pulls { PullsAtMost (longest_record * count) (S.left source.old) (S.left source.new) result }
{
    // What this law says of a record's bytes is what the bound on all of them rests on.
    no_spelling_is_longer();
    let mut reader = RecordReader::new();
    let mut prices = Prices::new(&[], &[]).unwrap();
    let mut expansions = 0;
    for read in 0..count {
        if let Bare::Expand { named: _ } = reader.next_bare(&mut prices, source)? {
            expansions += 1;
        }
    }
    reader.end(source)?;
    Ok(expansions)
}

// The number of expansions among `count` records of one byte.
pub(crate) fn read(alloc: Global, count: u32) -> Result<u64, AllocError> {
    let bytes = vec![in alloc; 1u8; count as usize]?;
    let mut source = FromRead::new(bytes.as_slice());
    Ok(count_expansions(&mut source, count as u64).unwrap_or(0))
}

// How many records of prices the memory has, among its first `most` records.
fn count_priced(bytes: &[u8], most: u64) -> u64 {
    let mut source = FromRead::new(bytes);
    let mut reader = RecordReader::new();
    let mut prices = Prices::new(&[], &[]).unwrap();
    let mut counted = 0u64;
    if reader.header(&mut source).is_err() {
        return counted;
    }
    for read in 0..most {
        if let Ok(Bare::Priced { code: _, color: _ }) = reader.next_bare(&mut prices, &mut source) {
            counted = counted.saturating_add(1);
        }
    }
    counted
}

// Reads the same hundred records of prices `rounds` times, three lists of 14 sources and 14 targets each.
pub(crate) fn read_priced(alloc: Global, rounds: u32) -> Result<u64, AllocError> {
    let mut bytes = Vec::new(alloc);
    bytes.extend_from_slice(b"PGC2")?;
    bytes.extend_from_slice(&[0; 33])?;
    for _ in 0..100 {
        bytes.extend_from_slice(&[PRICED, 4, 0, 3, 14, 14])?;
        bytes.extend_from_slice(&[1; 84])?;
    }
    let mut counted = 0u64;
    for round in 0..rounds {
        counted = counted.saturating_add(count_priced(bytes.as_slice(), 100));
    }
    Ok(counted)
}
