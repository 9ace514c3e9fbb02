//! The number of games from the initial array, or from the position of a FEN.

use crate::fault::Fault;
use pg_fen::read_position;
use pg_moves::count;
use pg_position::Position;
use std::alloc::Global;

// The position of a FEN, or the initial array.
fn start(fen: Option<&str>) -> Result<Position, Fault> {
    match fen {
        None => Ok(Position::array()),
        Some(text) => match read_position(text) {
            Ok(game) => Ok(game.position),
            Err(fault) => Err(Fault::Text(fault)),
        },
    }
}

// The number of games of `plies` plies.
pub(crate) fn games(alloc: Global, plies: u64, fen: Option<&str>) -> Result<u64, Fault> {
    let Ok(plies) = u8::try_from(plies) else {
        return Err(Fault::Usage);
    };
    match count(alloc, &start(fen)?, plies) {
        Ok(games) => Ok(games),
        Err(fault) => Err(Fault::Count(fault)),
    }
}
