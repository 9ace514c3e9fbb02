//! Certificates, byte by byte.
ghost use Rattle.std.specs.Prelude.{◌≡◌, ◌++◌, IfOk, replicate};
ghost use Rattle.pg_trial.specs.Certificates.{header};

use pg_fen::{Diagram, Length};
use std::alloc::{AllocError, Global};

/// The header of a certificate whose version has this digit, and these records.
///
/// # Errors
/// Where memory is refused.
pub fn certificate(
    alloc: Global,
    digit: u8,
    diagram: &Diagram,
    length: Length,
    records: &[u8],
) -> Result<Vec<u8>, AllocError>
    ensures { IfOk result (λ bytes. bytes.items ≡ header digit length diagram.now ++ records.now) }
{
    let mut bytes = Vec::new(alloc);
    bytes.extend_from_slice(b"PGC")?;
    bytes.push(digit)?;
    bytes.push(length.plies())?;
    bytes.extend_from_slice(&diagram.packed())?;
    bytes.extend_from_slice(records)?;
    Ok(bytes)
}

/// A certificate of version 1 for a diagram after two plies, by 22 expansions with a name each. It takes no
/// memory.
pub fn named_expansions(diagram: &Diagram) -> [u8; 59]
    ensures { result ≡ header 49 2 diagram.now ++ replicate 22 5 }
{
    let mut bytes = [5; 59];
    bytes[..4].copy_from_slice(b"PGC1");
    bytes[4] = 2;
    bytes[5..37].copy_from_slice(&diagram.packed());
    bytes
}

/// The records for 1. e4 e5, the one game of length 1.0 to its diagram: a cut by travel in the tree of
/// length 0.5; in that of length 1.0 an expansion, thirteen cuts, an expansion and six cuts.
pub const OPEN_GAME: [u8; 42] = [
    2, 4, 1, 2, 4, 2, 4, 2, 4, 2, 4, 2, 4, 2, 4, 2, 4, 2, 4, 2, 4, 2, 4, 2, 4, 2, 4, 2, 4, 1, 2, 4,
    2, 4, 2, 4, 2, 4, 2, 4, 2, 4,
];

/// The records for 1. d3 e6 2. e3 and 1. e3 e6 2. d3, the games of length 1.5 to their diagram: a cut in
/// each of the trees of lengths 0.5 and 1.0; in that of length 1.5 an expansion and ten cuts, the node after
/// the first of the two moves, a cut, the node after the other, and seven cuts. Those two nodes are an
/// expansion, nine cuts, an expansion and ten cuts each.
pub const TWO_ORDERS: [u8; 121] = [
    2, 4, 2, 4, 1, 2, 4, 2, 4, 2, 4, 2, 4, 2, 4, 2, 4, 2, 4, 2, 4, 2, 4, 2, 4, 1, 2, 4, 2, 4, 2, 4,
    2, 4, 2, 4, 2, 4, 2, 4, 2, 4, 2, 4, 1, 2, 4, 2, 4, 2, 4, 2, 4, 2, 4, 2, 4, 2, 4, 2, 4, 2, 4, 2,
    4, 2, 4, 1, 2, 4, 2, 4, 2, 4, 2, 4, 2, 4, 2, 4, 2, 4, 2, 4, 2, 4, 1, 2, 4, 2, 4, 2, 4, 2, 4, 2,
    4, 2, 4, 2, 4, 2, 4, 2, 4, 2, 4, 2, 4, 2, 4, 2, 4, 2, 4, 2, 4, 2, 4, 2, 4,
];
