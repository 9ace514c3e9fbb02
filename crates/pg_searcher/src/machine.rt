//! What the search holds.

use crate::budget::Budget;
use crate::fault::SearchFault;
use crate::judge::{Asked, CutBy, Judge};
use crate::outlook::Outlook;
use crate::sides::Sides;
use crate::tolled::Tolled;
use pg_certificate::format::MOST_NAMED;
use pg_certificate::{Record, RecordWriter, Sink, WriteFault};
use pg_fen::Diagram;
use pg_moves::LegalMoves;
use pg_position::Position;
use pg_prices::Closed;
use pg_san::Games;
use std::alloc::{AllocError, Global};

// What is searched for, games of `plies` plies to a diagram, and how many plies the tree at work has.
#[derive(Drop)]
pub(crate) struct Question<'a> {
    pub(crate) diagram: &'a Diagram,
    pub(crate) plies: u8,
    pub(crate) tree: u8,
}

// An open node with at least two plies left: its position with the moves that are still to be played,
// what is known of both colours, its key, whether it is named, and whether a game below it so far ends
// on the diagram.
#[derive(Drop)]
pub(crate) struct Frame {
    pub(crate) moves: LegalMoves,
    pub(crate) outlook: Outlook,
    pub(crate) key: u64,
    pub(crate) named: bool,
    pub(crate) fertile: bool,
}

// A node that opens: its position, what is known of both colours, its key, and whether it is named.
#[derive(Clone, Copy)]
pub(crate) struct Opened {
    pub(crate) position: Position,
    pub(crate) sides: Sides,
    pub(crate) key: u64,
    pub(crate) named: bool,
}

// The named nodes: those that have closed with no game below them, how many have a name, and how many of
// those have closed.
#[derive(Drop)]
pub(crate) struct Names {
    barren: Closed,
    given: u32,
    closed: u32,
}

impl Names {
    // No named nodes.
    pub(crate) fn new(alloc: Global) -> Names {
        Names {
            barren: Closed::new(alloc),
            given: 0,
            closed: 0,
        }
    }

    // A node opens. It has a name, which is the answer, where not too many have.
    pub(crate) fn open(&mut self) -> bool {
        let named = self.given < MOST_NAMED;
        self.given = self.given.saturating_add(u32::from(named));
        named
    }

    // A named node closes and takes its number. One below which no game ends on the diagram is entered by
    // its key.
    pub(crate) fn close(&mut self, key: u64, fertile: bool) -> Result<(), AllocError> {
        let number = self.closed;
        self.closed = self.closed.saturating_add(1);
        if fertile {
            return Ok(());
        }
        self.barren.insert(key, number)
    }

    // The number of the closed node with this key below which no game ends on the diagram.
    pub(crate) fn find(&self, key: u64) -> Option<u32> {
        self.barren.find(key)
    }
}

// The certificate so far: the writer of its records, the named nodes, which it may refer to, how many nodes may
// still be visited; and the bound by journeys, where it is asked of each node before it opens.
#[derive(Drop)]
pub(crate) struct Output<'a> {
    pub(crate) writer: RecordWriter,
    pub(crate) names: Names,
    pub(crate) budget: Budget,
    pub(crate) journeys: Option<Asked<'a>>,
}

// What the writer answered, as a search says it.
#[inline(always)]
pub(crate) fn written(answer: Result<(), WriteFault>) -> Result<(), SearchFault> {
    match answer {
        Ok(()) => Ok(()),
        Err(_) => Err(SearchFault::Write),
    }
}

impl Output<'_> {
    // Writes a record.
    pub(crate) fn put<W: Sink>(&mut self, node: &Record, sink: &mut W) -> Result<(), SearchFault> {
        written(self.writer.put_record(node, sink))
    }

    // Writes that a node is expanded, with a name or without.
    pub(crate) fn expand<W: Sink>(&mut self, named: bool, sink: &mut W) -> Result<(), SearchFault> {
        written(self.writer.put_expansion(named, sink))
    }

    // Writes `count` expansions without a name.
    pub(crate) fn expansions<W: Sink>(
        &mut self,
        count: u64,
        sink: &mut W,
    ) -> Result<(), SearchFault> {
        for _ in 0..count {
            self.expand(false, sink)?;
        }
        Ok(())
    }

    // Writes a cut by a bound.
    #[inline(always)]
    pub(crate) fn cut<W: Sink>(&mut self, bound: CutBy, sink: &mut W) -> Result<(), SearchFault> {
        written(self.writer.put_cut(bound.code(), sink))
    }

    // Writes a cut by the bound with a code.
    pub(crate) fn cut_by_code<W: Sink>(
        &mut self,
        code: u8,
        sink: &mut W,
    ) -> Result<(), SearchFault> {
        written(self.writer.put_cut(code, sink))
    }

    // Writes `count` cuts by a bound.
    pub(crate) fn cuts<W: Sink>(
        &mut self,
        bound: CutBy,
        count: u8,
        sink: &mut W,
    ) -> Result<(), SearchFault> {
        for _ in 0..count {
            self.cut(bound, sink)?;
        }
        Ok(())
    }

    // Writes a reference to a closed node by its number.
    pub(crate) fn refer<W: Sink>(&mut self, number: u32, sink: &mut W) -> Result<(), SearchFault> {
        written(self.writer.put_reference(number, sink))
    }
}

// What chooses the record of each node, the certificate to which it goes, the tariffs, where they are asked, which are
// many bytes and so in a box, and the node that opened last, which each `true` that is handed back speaks of: handed
// back itself by each call between the one that opens it and the one that makes its frame, it would be copied at each,
// also where none has opened.
#[derive(Drop)]
pub(crate) struct Recorder<'a> {
    pub(crate) judge: Judge,
    pub(crate) output: Output<'a>,
    pub(crate) tolls: Option<Box<Tolled>>,
    pub(crate) opened: Opened,
}

// What is asked of a node beside the bounds and prices that each search asks: journeys, and tariffs.
#[derive(Drop)]
pub(crate) struct Asking<'a> {
    pub(crate) journeys: Option<Asked<'a>>,
    pub(crate) tolls: Option<Box<Tolled>>,
}

impl<'a> Recorder<'a> {
    // Of a certificate of which nothing is written, with `nodes` nodes that may be visited. Where journeys or tariffs
    // are handed in, nodes are cut by them.
    pub(crate) fn new(alloc: Global, judge: Judge, nodes: u64, asking: Asking<'a>) -> Recorder<'a> {
        let Asking { journeys, tolls } = asking;
        Recorder {
            judge,
            output: Output {
                writer: RecordWriter::new(),
                names: Names::new(alloc),
                budget: Budget { nodes },
                journeys,
            },
            tolls,
            opened: Opened {
                position: Position::array(),
                sides: Sides::none(),
                key: 0,
                named: false,
            },
        }
    }
}

// The games that were found, and whether one of the subtree that ended last ends on the diagram.
#[derive(Drop)]
pub(crate) struct Findings {
    pub(crate) games: Games,
    pub(crate) fertile: bool,
}

// The frames of open nodes, the topmost last, and behind them those of nodes that have closed: a frame stays where it
// is until the next node takes its place, since to take it off the list would move it. They are many bytes, so they do
// not stand on the stack.
pub(crate) type Frames = Vec<Frame>;

// Puts the frame of a node in the place behind those of the `open` open ones.
pub(crate) fn put_frame(frames: &mut Frames, open: u8, frame: Frame) -> Result<(), SearchFault> {
    if let Some(place) = frames.get_mut(usize::from(open)) {
        *place = frame;
        return Ok(());
    }
    match frames.push(frame) {
        Ok(()) => Ok(()),
        Err(_) => Err(SearchFault::Memory),
    }
}

// The frames of the `open` open nodes.
pub(crate) fn open_frames(frames: &Frames, open: u8) -> &[Frame] {
    match frames.get(..usize::from(open)) {
        Some(frames) => frames,
        None => &[],
    }
}

// How many nodes are open, what writes the records of nodes, and what was found. The frames stand apart: one of them and
// the machine change together.
#[derive(Drop)]
pub(crate) struct Machine<'a> {
    pub(crate) open: u8,
    pub(crate) recorder: Recorder<'a>,
    pub(crate) findings: Findings,
}
