//! Games and positions as the texts that a user hands in.
use crate::fault::Fault;
use pg_position::Move;
use pg_report::{ToWrite, write_movetext};
use std::alloc::Global;

// Appends the movetext of a game, and a line feed.
pub(crate) fn put_line(alloc: Global, game: &[Move], text: &mut String) -> anyhow::Result<()> {
    let mut out = ToWrite::new(Vec::new(alloc));
    if write_movetext(game, &mut out).is_err() {
        return Err(Fault::NoAnswer("movetext"))?;
    }
    for byte in out.into_inner().as_slice() {
        text.push(char::from(*byte))?;
    }
    text.push('\n')?;
    Ok(())
}
