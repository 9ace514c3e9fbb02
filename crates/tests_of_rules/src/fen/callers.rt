//! What a caller proves with no answer of its own.
ghost use Rattle.std.specs.Prelude.{◌≡◌, ◌≤◌, ◌↔◌, IsTrue, IsSome, Some, Ok, IfOk};
ghost use Rattle.pg_fen.specs.DiagramText.{IsDiagram};
ghost use Rattle.pg_fen.specs.Packing.{packed_of};
ghost use Rattle.pg_fen.specs.PlacementText.{placement_text};

use pg_fen::{Diagram, FenFault, Length, LengthFault};

// The length that is written and read again.
fn read_back(length: Length) -> Result<Length, LengthFault>
    ensures { result ≡ Ok length }
{
    Length::read(length.write().as_str())
}

// One ply more, where that is a length.
fn longer(length: Length) -> Option<Length>
    ensures { IsSome result ↔ (length ≤ 127) }
{
    Length::from_plies(length.plies() + 1)
}

// The diagram that is written and read again.
fn read_diagram_back(diagram: &Diagram) -> Result<Diagram, FenFault>
    ensures { result ≡ Ok diagram.now }
{
    Diagram::read(diagram.write().as_str())
}

// Whether two diagrams are one, by their bytes.
fn same_bytes(a: &Diagram, b: &Diagram) -> bool
    ensures { IsTrue result ↔ (a.now ≡ b.now) }
{
    let (x, y) = (a.packed(), b.packed());
    x == y
}

#[test]
fn calls(rt: HostRuntime) {
    let length = Length::read("18.5").expect(&rt, "18.5");
    let diagram = super::diagram(&rt, super::KINGS);
    super::check_all(
        &rt,
        &[
            read_back(length) == Ok(length),
            longer(length) == Length::from_plies(38),
            read_diagram_back(&diagram) == Ok(diagram),
            same_bytes(&diagram, &diagram),
        ],
    );
}
