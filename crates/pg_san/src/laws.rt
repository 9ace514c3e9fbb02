//! Laws of the texts of moves, each the contract of a function that does nothing.
ghost use Rattle.std.specs.Prelude.{◌≡◌, ◌↔◌, ℕ, List, None, Some, Result, Ok};
ghost use Rattle.pg_position.specs.declared.state.State.{State};
ghost use Rattle.pg_position.specs.declared.moves.Move.{Move};
ghost use Rattle.pg_position.specs.Position.{IsPosition};
ghost use Rattle.pg_position.specs.Step.{IsLegal};
ghost use Rattle.pg_san.specs.declared.fault.SanFault.{SanFault};
ghost use Rattle.pg_san.specs.declared.said.Said.{Said};
ghost use Rattle.pg_san.specs.Grammar.{IsSaidText};
ghost use Rattle.pg_san.specs.Matching.{Matches, IsReading};
ghost use Rattle.pg_san.specs.Said.{said_of};
ghost use Rattle.pg_san.specs.Writing.{IsSan};

/// A text says what the grammar of moves spells by it, and nothing of a move where the grammar spells
/// nothing by it.
pub fn text_grammar()
    ensures says { (text : List ℕ) (said : Said) → (said_of text ≡ Some said) ↔ IsSaidText text said }
    ensures nothing { (text : List ℕ) → (said_of text ≡ None) ↔ ((said : Said) → ¬ IsSaidText text said) }
{}

/// The text that is written for a legal move is matched by that move, and by no other legal move.
pub fn written_text_is_matched()
    ensures itself { (p : State) (m : Move) (text : List ℕ) → IsSan p m text → Matches p text m }
    ensures no_other { (p : State) (m n : Move) (text : List ℕ) → IsSan p m text → IsLegal p n → Matches p text n
        → n ≡ m }
{}

/// The text that is written for a legal move is read as that move.
pub fn written_text_is_read()
    ensures { (p : State) (m : Move) (text : List ℕ) (result : Result Move SanFault) → IsSan p m text
        → IsReading p text result → result ≡ Ok m }
{}

/// One text is written for each legal move of a position.
pub fn one_text()
    ensures { (p : State) (m : Move) (s t : List ℕ) → IsPosition p → IsSan p m s → IsSan p m t → s ≡ t }
{}

/// Two legal moves of a position never share a text.
pub fn texts_differ()
    ensures { (p : State) (m n : Move) (text : List ℕ) → IsSan p m text → IsSan p n text → m ≡ n }
{}
