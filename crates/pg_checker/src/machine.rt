//! What the walk holds.
ghost use Rattle.std.specs.Prelude.{◌≡◌, ◌≤◌, ℕ, None, [], length, reverse};
ghost use Rattle.pg_certificate.specs.Reader.{ReaderState};
ghost use Rattle.pg_checker.specs.inner.Machine.{IsReading, IsReady, path, with_reader};

use crate::finds::Finds;
use crate::table::Table;
use arrayvec::ArrayVec;
use pg_captures::Bound;
use pg_certificate::RecordReader;
use pg_fen::Diagram;
use pg_moves::LegalMoves;
use pg_position::{Move, Position};
use pg_san::Games;
use pg_travel::{Prices, Rows};
use std::alloc::Global;

// What is asked of a certificate: with a list of games, or with none, where each game on the diagram is kept; its
// version, which its header told, and rows of distances for the tests of price lists, where they are at hand.
#[derive(Drop)]
pub(crate) struct Question<'a> {
    pub(crate) diagram: &'a Diagram,
    pub(crate) plies: u8,
    pub(crate) version: u8,
    pub(crate) games: Option<&'a Games>,
    pub(crate) bounds: &'a [Box<dyn Bound>],
    pub(crate) rows: Option<Rows>,
}

// An open node: its position with the moves that are still to be played, the plies left below it,
// whether it is named, and whether a child so far is fertile.
#[derive(Drop)]
pub(crate) struct Frame {
    pub(crate) moves: LegalMoves,
    pub(crate) plies: u8,
    pub(crate) named: bool,
    pub(crate) fertile: bool,
}

impl Default for Frame {
    fn default() -> Frame {
        Frame {
            moves: LegalMoves::new(&Position::array()),
            plies: 0,
            named: false,
            fertile: false,
        }
    }
}

// What a good record says: nothing stands below the node, or its children do.
#[derive(Clone, Copy)]
pub(crate) enum Opening {
    Done,
    Opened(bool),
}

// What a certificate is read from: the reader of its records, the price lists that it read last, and how
// many records may still come.
#[derive(Drop)]
pub(crate) struct Input {
    pub(crate) reader: RecordReader,
    pub(crate) prices: Prices,
    pub(crate) records: u64,
}

// The table of named nodes, and how many may still come. A named node takes its place in the table as its
// record is read.
#[derive(Drop)]
pub(crate) struct Names {
    pub(crate) table: Table,
    pub(crate) left: u32,
}

// The open nodes, the topmost last, and whether the subtree that ended last is fertile.
#[derive(Drop)]
pub(crate) struct Stack {
    pub(crate) frames: ArrayVec<Frame, 128>,
    pub(crate) fertile: bool,
}

// What the walk holds. A function takes the part that it may change.
#[derive(Drop)]
pub(crate) struct Machine {
    pub(crate) input: Input,
    pub(crate) names: Names,
    pub(crate) stack: Stack,
    pub(crate) finds: Finds,
}

impl Machine {
    // Before the first tree, with limits of records and of named nodes. Its reader has read nothing: it is large, so the
    // one that has read the header is made or put there.
    pub(crate) fn new(alloc: Global, max_records: u64, max_named: u32) -> Machine
        ensures held { result.input.reader.held ≡ [] }
        ensures reads { IsReading 1 result.input.reader }
        ensures records { result.input.records ≡ max_records }
        ensures room { result.names.left ≡ max_named }
        ensures entries { result.names.table.entries ≡ [] }
        ensures closed { result.stack.frames.items ≡ [] }
        ensures finds { result.finds ≡ record { games = []; loss = None } }
        ensures ready { (version : ℕ) (reader : ReaderState) → IsReading version reader
            → IsReady version (with_reader reader result) }
    {
        Machine {
            input: Input {
                reader: RecordReader::new(),
                prices: Prices::new(&[], &[]).unwrap(),
                records: max_records,
            },
            names: Names {
                table: Table::new(alloc),
                left: max_named,
            },
            stack: Stack {
                frames: ArrayVec::new(),
                fertile: false,
            },
            finds: Finds::new(alloc),
        }
    }
}

// The game that leads along the open nodes: the move that was played last at each.
pub(crate) fn game_along(frames: &[Frame]) -> ArrayVec<Move, 128>
    requires { length frames.now ≤ 128 }
    ensures { result.items ≡ path (reverse frames.now) }
{
    let mut game = ArrayVec::new();
    for frame in frames {
        match frame.moves.last() {
            Some(m) => game.push(m),
            None => {}
        }
    }
    game
}
