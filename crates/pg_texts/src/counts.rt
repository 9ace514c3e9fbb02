//! The number of games from a position.
ghost use Rattle.std.specs.Prelude.{◌≡◌, ◌≢◌, ◌∷◌, [], ◌++◌, IfErr, OnOk, false};
ghost use Rattle.std.specs.Fmt.{decimal};
ghost use Rattle.pg_certificate.specs.Pushing.{Adds, Pushes};
ghost use Rattle.pg_texts.specs.CountText.{IsCounted, IsCountRunFault};

use crate::fault::CountRunFault;
use crate::moves::game_of;
use pg_certificate::{Refused, Sink};
use pg_fen::text::digits;
use pg_moves::{CountProgress, Unwatched, count_watched};
use std::alloc::Global;

// Appends a number and a line feed.
fn write_number<W: Sink>(n: u64, out: &mut W) -> Result<(), Refused>
    ensures { Pushes W.held W.has_failed (Adds (decimal n ++ 10 ∷ [])) out.old out.new result }
{
    out.push(digits(n as usize).as_bytes())?;
    out.push(b"\n")
}

/// Writes the number of games of `plies` plies, 0 to 8, from the position that a text of six fields
/// spells, and a line feed. What the count needs is taken from `alloc`, and nothing is written before
/// the number stands.
///
/// # Errors
/// `Position` where the text is refused as a position, with that refusal; `Count` where the games are
/// not counted: `TooDeep` above 8 plies, `Overflow` where the number does not fit in 64 bits, `Memory`
/// where a growth was refused; `Write` where the sink has failed. With the first two the sink is as it
/// was.
pub fn run_count<W: Sink>(
    alloc: Global,
    fen: &str,
    plies: u8,
    out: &mut W,
) -> Result<(), CountRunFault>
    ensures ok { OnOk result (IsCounted fen.now plies (W.held out.old) (W.held out.new)) }
    ensures err { IfErr result (λ e. IsCountRunFault fen.now plies (W.has_failed out.new) e) }
    ensures unwritten { IfErr result (λ e. e ≢ CountRunFault.Write → out.new ≡ out.old) }
    ensures runs { OnOk result ((W.has_failed out.old ≡ false) × (W.has_failed out.new ≡ false)) }
{
    run_count_watched(alloc, fen, plies, out, &mut Unwatched)
}

/// As `run_count`, and tells `watch` of games as they are counted.
///
/// # Errors
/// As for `run_count`.
pub fn run_count_watched<W: Sink, P: CountProgress>(
    alloc: Global,
    fen: &str,
    plies: u8,
    out: &mut W,
    watch: &mut P,
) -> Result<(), CountRunFault>
    ensures ok { OnOk result (IsCounted fen.now plies (W.held out.old) (W.held out.new)) }
    ensures err { IfErr result (λ e. IsCountRunFault fen.now plies (W.has_failed out.new) e) }
    ensures unwritten { IfErr result (λ e. e ≢ CountRunFault.Write → out.new ≡ out.old) }
    ensures runs { OnOk result ((W.has_failed out.old ≡ false) × (W.has_failed out.new ≡ false)) }
{
    let game = match game_of(fen) {
        Ok(game) => game,
        Err(fault) => return Err(CountRunFault::Position(fault)),
    };
    let n = match count_watched(alloc, &game.position, plies, watch) {
        Ok(n) => n,
        Err(fault) => return Err(CountRunFault::Count(fault)),
    };
    match write_number(n, out) {
        Ok(()) => Ok(()),
        Err(Refused) => Err(CountRunFault::Write),
    }
}
