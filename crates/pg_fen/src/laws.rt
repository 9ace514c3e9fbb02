//! Laws of the definitions that the contracts cite. The functions do nothing: their contracts are
//! the laws.
ghost use Rattle.std.specs.Prelude.{◌≡◌, ℕ, ◌<◌, ◌≤◌, ◌↔◌, List, map, Ok, Err};
ghost use Rattle.std.specs.Str.{chars};
ghost use Rattle.std.proofs.Math.Utf8.{encodes};
ghost use Rattle.pg_board.specs.declared.man.Color.{Color};
ghost use Rattle.pg_board.specs.Placement.{Placement};
ghost use Rattle.pg_board.specs.Tally.{count_of};
ghost use Rattle.pg_board.specs.Men.{king_of};
ghost use Rattle.pg_fen.specs.Lengths.{length_of, IsLength};
ghost use Rattle.pg_fen.specs.Fields.{fields};
ghost use Rattle.pg_fen.specs.PlacementText.{ranks_fit, ranks_fit_by_chars, read_placement};
ghost use Rattle.pg_fen.specs.DetailText.{details_of};
ghost use Rattle.pg_position.specs.Position.{HasOneKing};
ghost use Rattle.pg_fen.specs.DiagramText.{IsDiagram, diagram_of};
ghost use Rattle.pg_fen.specs.Grammar.{IsPlacementText, AreDetailTexts, IsDiagramText, IsPositionText};
ghost use Rattle.pg_fen.specs.PositionText.{game_parts};
ghost use Rattle.pg_fen.specs.declared.games.GameParts.{GameParts};
ghost use Rattle.pg_fen.specs.Packing.{packed_of};
ghost use Rattle.pg_fen.specs.declared.details.Details.{Details};
ghost use Rattle.pg_fen.specs.declared.fault.LengthFault.TheVariants.{TooLong};

/// A text reads as a length exactly where the grammar of lengths spells it so and it is at most 128
/// plies, and is too long exactly where the grammar spells more plies.
pub fn length_grammar(text: &str)
    ensures read { (n : ℕ) → (length_of text.now ≡ Ok n) ↔ (IsLength text.now n × (n ≤ 128)) }
    ensures too_long { (length_of text.now ≡ Err TooLong) ↔ ((n : ℕ) × IsLength text.now n × (128 < n)) }
{
    let _ = text;
}

/// A text reads as a diagram exactly where the grammar of diagrams spells it so.
pub fn diagram_grammar(text: &str)
    ensures { (b : Placement) → (diagram_of (fields text.now) ≡ Ok b) ↔ IsDiagramText text.now b }
{
    let _ = text;
}

/// A text says what a position's six fields say exactly where the grammar of positions spells it so.
pub fn position_grammar(text: &str)
    ensures { (g : GameParts) → (game_parts (fields text.now) ≡ Ok g) ↔ IsPositionText text.now g }
{
    let _ = text;
}

/// The first field reads as a placement exactly where it spells the placement and that is one of a
/// diagram; the five others read as values exactly where they spell them.
pub fn field_grammars(
    placement: &[u8],
    side: &[u8],
    rights: &[u8],
    passed: &[u8],
    half: &[u8],
    full: &[u8],
)
    ensures placement { (b : Placement) →
        (read_placement placement.now ≡ Ok b) ↔ (IsPlacementText placement.now b × IsDiagram b) }
    ensures details { (d : Details) →
        (details_of side.now rights.now passed.now half.now full.now ≡ Ok d)
        ↔ AreDetailTexts side.now rights.now passed.now half.now full.now d }
{
    let _ = placement;
    let _ = side;
    let _ = rights;
    let _ = passed;
    let _ = half;
    let _ = full;
}

/// Cutting the bytes of a text into fields is cutting its characters into fields, and the widths of
/// ranks that are counted over bytes are those that are counted over characters.
pub fn widths_by_characters(text: &str)
    ensures fields { fields text.now ≡ map encodes (fields (chars text.now)) }
    ensures widths { (field : List ℕ) → ranks_fit (encodes field) ≡ ranks_fit_by_chars field }
{
    let _ = text;
}

/// Placements with the same 32 bytes are one placement.
pub fn packed_apart()
    ensures { (a b : Placement) → (packed_of a ≡ packed_of b) ↔ (a ≡ b) }
{}

/// A colour has one king exactly where one is counted.
pub fn one_king_counted()
    ensures { (b : Placement) (c : Color) → (count_of b (king_of c) ≡ 1) ↔ HasOneKing b c }
{}
