//! Laws of games in PGN, each the contract of a function that does nothing.
ghost use Rattle.std.specs.Prelude.{◌≡◌, ◌≢◌, ℕ, List};
ghost use Rattle.pg_position.specs.declared.moves.Move.{Move};
ghost use Rattle.pg_pgn.specs.declared.letters.Letters.{Letters as Language};
ghost use Rattle.pg_pgn.specs.declared.letters.Letters.TheVariants as Letters;
ghost use Rattle.pg_pgn.specs.Pgn.{IsFile, IsFirstFault};
ghost use Rattle.pg_pgn.specs.declared.fault.PgnFault.{PgnFault};
ghost use Rattle.pg_pgn.specs.declared.fault.PgnFault.TheVariants as Fault;
ghost use Rattle.pg_pgn.specs.Writing.{IsPgnText, AreShort};

/// A text has one list of games by the letters of a language; and it has no fault then, want of memory apart.
pub fn one_file_of_games()
    ensures games { (letters : Language) (text : List ℕ) (gs hs : List (List Move)) → IsFile letters text gs
        → IsFile letters text hs → gs ≡ hs }
    ensures apart { (letters : Language) (text : List ℕ) (gs : List (List Move)) (f : PgnFault) → f ≢ Fault.Memory
        → IsFile letters text gs → ¬ IsFirstFault letters text f }
{}

/// The text that is written of games is read as these games.
pub fn written_games_are_read()
    ensures { (games : List (List Move)) (text : List ℕ) → AreShort games → IsPgnText games text
        → IsFile Letters.English text games }
{}
