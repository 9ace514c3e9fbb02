//! A bound that never excludes.
ghost use Rattle.std.specs.Prelude.{◌≡◌, false};

use pg_captures::Bound;
use pg_fen::Diagram;
use pg_position::Position;

/// A bound that never excludes, under a code of one's own.
#[derive(Drop)]
pub struct Never {
    code: u8,
}

impl Never {
    ghost use Rattle.pg_trial.specs.Codes.{code_in};

    /// The bound under this code, 0 to 255.
    pub fn new(code: u8) -> Never
        ensures { code_in result ≡ code }
    {
        Never { code }
    }
}

impl Bound for Never {
    ghost use Rattle.pg_captures.specs.Decided.{never_excludes};
    ghost use Rattle.pg_trial.specs.Codes.{code_in};

    ghost code_of = { λ b. code_in b };

    ghost excluded = { λ b d p k. false };

    ghost sound = { λ b d p k valid h. never_excludes h };

    fn code(&self) -> u8
        ensures { result ≡ code_in self.now }
    {
        self.code
    }

    fn excludes(&self, _diagram: &Diagram, _position: &Position, _left: u8) -> bool
        ensures { result ≡ false }
    {
        false
    }
}
