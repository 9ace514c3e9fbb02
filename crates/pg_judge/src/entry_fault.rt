//! Why a line of a file of problems spells none.

use pg_fen::{FenFault, LengthFault};
use pg_san::GamesFault;
use std::fmt;
use std::fmt::{Display, Formatter};

/// Why a line spells no problem, in the order of testing.
#[derive(Clone, Copy, Debug, PartialEq, Eq)]
pub enum EntryFault {
    /// The first word has another character than letters and digits of ASCII, `-`, `_` and `.`, or begins with a dot.
    Name,
    /// Behind the name stands no diagram, or no length.
    Short,
    /// What stands behind the name is not UTF-8.
    NotUtf8,
    /// The second word is refused as a diagram.
    Diagram(FenFault),
    /// The third word is refused as a length.
    Length(LengthFault),
    /// What stands behind the length is refused as a list, and not by a word of it.
    Games(GamesFault),
}

impl Display for EntryFault {
    fn fmt<W: fmt::Write>(&self, f: &mut Formatter<W>) -> fmt::Result {
        match self {
            EntryFault::Name => f.write_str("bad name"),
            EntryFault::Short => f.write_str("a name, a diagram and a length are wanted"),
            EntryFault::NotUtf8 => f.write_str("not UTF-8"),
            EntryFault::Diagram(fault) => Display::fmt(fault, f),
            EntryFault::Length(fault) => Display::fmt(fault, f),
            EntryFault::Games(fault) => Display::fmt(fault, f),
        }
    }
}
