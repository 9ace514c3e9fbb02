//! Laws of lists of games, each the contract of a function that does nothing.
ghost use Rattle.std.specs.Prelude.{◌≡◌, ◌≢◌, ℕ, ◌↔◌, List};
ghost use Rattle.std.specs.List.{Contains};
ghost use Rattle.pg_position.specs.declared.moves.Move.{Move};
ghost use Rattle.pg_position.specs.Game.{IsOnce};
ghost use Rattle.pg_san.specs.Games.{IsGames};
ghost use Rattle.pg_san.specs.Listing.{IsListing, IsTextFault};
ghost use Rattle.pg_san.specs.declared.listing_fault.GamesFault.{GamesFault};

/// A list of games holds each of its games once.
pub fn games_stand_once()
    ensures { (gs : List (List Move)) → IsGames gs → IsOnce gs }
{}

/// Two lists of games that hold the same games are one list.
pub fn one_list_of_games()
    ensures { (gs hs : List (List Move)) → IsGames gs → IsGames hs → ((g : List Move) → Contains gs g ↔ Contains hs g)
        → gs ≡ hs }
{}

/// A text has one list of games or one first fault, want of memory apart: never two of them, and never
/// both.
pub fn one_answer_to_a_text()
    ensures games { (text : List ℕ) (gs hs : List (List Move)) → IsListing text gs → IsListing text hs → gs ≡ hs }
    ensures faults { (text : List ℕ) (e f : GamesFault) → e ≢ GamesFault.Memory → f ≢ GamesFault.Memory
        → IsTextFault text e → IsTextFault text f → e ≡ f }
    ensures apart { (text : List ℕ) (gs : List (List Move)) (e : GamesFault) → e ≢ GamesFault.Memory
        → IsListing text gs → ¬ IsTextFault text e }
{}
