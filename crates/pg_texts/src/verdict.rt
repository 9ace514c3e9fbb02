//! What the games of a problem amount to.
ghost use Rattle.std.specs.Prelude.{◌≡◌, length};
ghost use Rattle.pg_texts.specs.Report.{IsVerdict, verdict_text};

use pg_san::Games;

/// What a list of all the games to a diagram amounts to.
#[derive(Debug, Clone, Copy, PartialEq, Eq)]
pub enum Verdict {
    /// There is one game.
    Sound,
    /// There are two games or more.
    Cooked,
    /// There is no game.
    NoGame,
}

/// What a list of games amounts to, where it has all the games to a diagram: that is for the caller to know.
pub fn verdict_on(games: &Games) -> Verdict
    ensures { IsVerdict games.now result }
{
    match games.len() {
        0 => Verdict::NoGame,
        1 => Verdict::Sound,
        _ => Verdict::Cooked,
    }
}

// The words of a verdict.
pub(crate) fn words(verdict: Verdict) -> &'static str
    ensures { result.now ≡ verdict_text verdict }
{
    match verdict {
        Verdict::Sound => "sound",
        Verdict::Cooked => "cooked",
        Verdict::NoGame => "no game",
    }
}
