//! What a certificate is made of.

use pg_board::Color;
use pg_price_lists::Prices;

/// One node of a certificate's trees that has at least one ply left.
#[derive(Clone, Copy, Debug, PartialEq, Eq)]
pub enum Record {
    /// The node's children follow, one for each legal move. A named one takes a number when it
    /// closes, and references may cite it from then on.
    Expand {
        /// Whether the node takes a number.
        named: bool,
    },
    /// No game of the plies that are left ends on the diagram, by the bound with this code.
    Cut(u8),
    /// The node is like the closed named node with this number, counted from 0.
    Ref(u32),
    /// No game of the plies that are left ends on the diagram, by price lists for the men of one
    /// colour. No record of version 1.
    Priced {
        /// Which bound the prices belong to.
        code: u8,
        /// Whose men they are for.
        color: Color,
        /// One list for each way.
        prices: Prices,
    },
}

/// A record apart from its price lists: a few bytes, where a [`Record`] has some 400.
#[derive(Clone, Copy, Debug, PartialEq, Eq)]
pub enum Bare {
    /// The node's children follow, as after the `Expand` of [`Record`].
    Expand {
        /// Whether the node takes a number.
        named: bool,
    },
    /// No game of the plies that are left ends on the diagram, by the bound with this code.
    Cut(u8),
    /// The node is like the closed named node with this number, counted from 0.
    Ref(u32),
    /// No game of the plies that are left ends on the diagram, by price lists that stand elsewhere.
    Priced {
        /// Which bound the prices belong to.
        code: u8,
        /// Whose men they are for.
        color: Color,
    },
}

/// What a certificate is for: its first 37 bytes.
#[derive(Clone, Copy, Debug, PartialEq, Eq)]
pub struct Header {
    /// The version of the format: 1 or 2.
    pub version: u8,
    /// The length of the games, in plies.
    pub plies: u8,
    /// The diagram, two squares a byte: byte j has square `2 * j` in its low half and square
    /// `2 * j + 1` in its high half.
    pub diagram: [u8; 32],
}
