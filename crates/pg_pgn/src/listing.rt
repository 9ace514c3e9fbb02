//! The games of a file as a list.
ghost use Rattle.std.specs.Prelude.{◌≡◌};
ghost use Rattle.pg_certificate.specs.Pushing.{AddsSome, MayPush};
ghost use Rattle.pg_texts.specs.Report.{AreGameLines};

use crate::games::PgnGames;
use pg_certificate::{Refused, Sink};
use pg_texts::write_game;

/// Appends the games of a file as the lines of a list: the movetext of each game, in the file's order, each ended by a
/// line feed. A game that stands in the file twice has two lines. Takes no memory.
///
/// # Errors
/// `Refused` where the sink has failed.
pub fn write_list<W: Sink>(games: &PgnGames, out: &mut W) -> Result<(), Refused>
    ensures { MayPush W.held W.has_failed (AddsSome (AreGameLines games.now)) out.old out.new result }
{
    for i in 0..games.len() {
        let Some(game) = games.game(i) else {
            unreachable!();
        };
        write_game(game, out)?;
    }
    Ok(())
}
