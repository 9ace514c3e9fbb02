//! The numbers of the format, each said once. docs/FORMATS.md has the format.

/// The length of a header, in bytes: four of magic, one of plies, 32 of the diagram.
pub const HEADER_LENGTH: usize = 37;

/// The first byte of an expanded node without a number, which is all of its record.
pub const EXPAND: u8 = 0x01;

/// The first byte of a cut. The bound's code follows.
pub const CUT: u8 = 0x02;

/// The first byte of a reference. A number of [`NUMBER_LENGTH`] bytes follows.
pub const REF: u8 = 0x03;

/// The first byte of an expanded node that takes a number, which is all of its record.
pub const NAMED: u8 = 0x05;

/// The first byte of a cut by price lists, a record of version 2 alone. An outline of
/// [`OUTLINE_LENGTH`] bytes and the lists follow.
pub const PRICED: u8 = 0x06;

/// The length of a reference's number, in bytes, most significant first.
pub const NUMBER_LENGTH: usize = 4;

/// The length, in bytes, of what stands before the price lists of a record, its first byte not
/// counted: the bound's code, the colour, and how many lists, sources and targets there are.
pub const OUTLINE_LENGTH: usize = 5;

/// How many price lists a record has at most, one for each way.
pub const MOST_LISTS: usize = 3;

/// How many sources, and how many targets, a price list has at most: one for each square.
pub const MOST_PRICES: usize = 64;

/// The length of the price lists of a record at most, in bytes.
pub const LONGEST_LISTS: usize = MOST_LISTS * (MOST_PRICES + MOST_PRICES);

/// The length of a record at most, in bytes: 390.
pub const LONGEST_RECORD: usize = 1 + OUTLINE_LENGTH + LONGEST_LISTS;

/// How many nodes of a certificate take a number at most, in what this program writes and by the
/// limit with which it checks.
pub const MOST_NAMED: u32 = 4_194_304;
