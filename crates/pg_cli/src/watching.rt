//! Who is told how far a problem is judged.

use crate::judging::Turn;
use pg_judge::{Effort, JudgeProgress};
use pg_position::Move;
use pg_searcher::SearchProgress;
use pg_streams::{Deadline, JudgeLine, Terminal};
use std::io::Eprint;
use std::time::Clock;

// Shows how far a problem is judged, and ends that when its time is over. A search by drawn orders has a tenth of it.
#[derive(Drop)]
pub(crate) struct Watch<'a, R> {
    rt: &'a R,
    pub(crate) line: JudgeLine<'a, R>,
    milliseconds: Option<u64>,
    deadline: Deadline<'a, R>,
    drawn: Option<Deadline<'a, R>>,
    pub(crate) terminal: &'a Terminal,
}

impl<'a, R: Clock + Eprint> Watch<'a, R> {
    // Of a problem with its number, from 1, and so many plies, which is judged from now on, within these milliseconds
    // if any are told.
    pub(crate) fn new(
        rt: &'a R,
        terminal: &'a Terminal,
        turn: Turn,
        plies: u8,
        milliseconds: Option<u64>,
    ) -> Watch<'a, R> {
        Watch {
            rt,
            line: JudgeLine::new(rt, terminal, [turn.number, turn.count], plies, milliseconds),
            milliseconds,
            deadline: Deadline::new(rt, milliseconds),
            drawn: None,
            terminal,
        }
    }
}

impl<R: Clock + Eprint> JudgeProgress for Watch<'_, R> {
    fn begins(&mut self, effort: Effort, limit: u64) {
        let called = match effort {
            Effort::Cooks => "cooks",
            Effort::Search => "search",
            Effort::Journeys => "journeys",
            Effort::Drawn => "drawn",
            Effort::Tariffs => "tariffs",
            Effort::Tolls => "tolls",
        };
        self.line.begin(called, limit);
        if let (Effort::Drawn, Some(all)) = (effort, self.milliseconds) {
            self.drawn = Some(Deadline::new(self.rt, Some(all / 10)));
        }
    }

    fn has_drawn(&mut self) {
        self.drawn = None;
    }
}

impl<R: Clock + Eprint> SearchProgress for Watch<'_, R> {
    fn reached(&mut self, plies: u8, left: u64) {
        self.line.reach(plies, left);
    }

    fn met(&mut self, _game: &[Move]) {
        self.line.meet();
    }

    fn goes_on(&mut self) -> bool {
        if let Some(drawn) = &mut self.drawn {
            if drawn.is_over() {
                return false;
            }
        }
        !self.deadline.is_over()
    }
}
