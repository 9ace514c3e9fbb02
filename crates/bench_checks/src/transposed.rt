//! A certificate in which positions are met again.

use pg_certificate::format::{EXPAND, NAMED, REF};
use pg_fen::{Diagram, Length};
use pg_moves::legal_moves;
use pg_position::Position;
use std::alloc::Global;

// The record of a node after three plies: named where the position is new, else a reference.
fn put_node(
    bytes: &mut Vec<u8>,
    met: &mut Vec<Position>,
    position: Position,
) -> anyhow::Result<()> {
    let place = met
        .as_slice()
        .iter()
        .position(|earlier| *earlier == position);
    match place {
        Some(number) => {
            bytes.push(REF)?;
            let number = u32::try_from(number).unwrap_or(u32::MAX);
            bytes.extend_from_slice(&number.to_be_bytes())?;
        }
        None => {
            bytes.push(NAMED)?;
            met.push(position)?;
        }
    }
    Ok(())
}

// The records of the tree of four plies.
fn put_tree(alloc: Global, bytes: &mut Vec<u8>) -> anyhow::Result<()> {
    let array = Position::array();
    let mut met = Vec::new(alloc);
    bytes.push(EXPAND)?;
    for first in &legal_moves(alloc, &array)? {
        let after_first = array.play(*first)?;
        bytes.push(EXPAND)?;
        for second in &legal_moves(alloc, &after_first)? {
            let after_second = after_first.play(*second)?;
            bytes.push(EXPAND)?;
            for third in &legal_moves(alloc, &after_second)? {
                put_node(bytes, &mut met, after_second.play(*third)?)?;
            }
        }
    }
    Ok(())
}

// A certificate of 2.0 by expansions, and by references wherever a position comes again after three
// plies.
pub(crate) fn certificate(
    alloc: Global,
    diagram: &Diagram,
    length: Length,
) -> anyhow::Result<Vec<u8>> {
    let mut bytes = Vec::new(alloc);
    bytes.extend_from_slice(b"PGC1")?;
    bytes.push(length.plies())?;
    bytes.extend_from_slice(&diagram.packed())?;
    for _ in 0..1 + 21 + 421 {
        bytes.push(EXPAND)?;
    }
    put_tree(alloc, &mut bytes)?;
    Ok(bytes)
}
