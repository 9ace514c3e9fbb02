//! A line on the terminal, rewritten about twice a second.
ghost use Rattle.std.specs.Prelude.{◌≡◌};

use pg_certificate::{Refused, Sink};
use std::cell::Cell;
use std::io::Eprint;
use std::time::{Clock, Instant};

// The milliseconds before anything is shown.
const FIRST: u128 = 1000;

// The milliseconds between two lines.
const BETWEEN: u128 = 500;

// Goes up a line (`ESC [ A`, ECMA-48).
const UP: &str = "\x1b[A";

// Goes to the front of the line, and takes away what stands there (`ESC [ K`).
const CLEAR: &str = "\r\x1b[K";

// The most characters of a line.
pub(crate) const WIDTH: usize = 79;

/// The line of a terminal on which runs say how far they are, as all see it that write there. The cursor stands below
/// it.
#[derive(Drop)]
pub struct Terminal {
    /// Whether somebody looks at it, and it can take a line away.
    screen: bool,
    /// Whether a text stands on the line.
    shown: Cell<bool>,
}

impl Terminal {
    /// A line with no text, on a screen that understands escape sequences, or on none.
    pub fn new(screen: bool) -> Terminal {
        Terminal {
            screen,
            shown: Cell::new(false),
        }
    }

    // Shows a text in the place of the last one, and goes below it. A terminal that is narrower cuts it off: it is told
    // not to wrap (`ESC [ ? 7 l`, ECMA-48 and DEC), so one line is all that has to be taken away. All of that is
    // printed at once, so that a run which is interrupted leaves a whole line and the cursor below it.
    fn show<R: Eprint>(&self, rt: &R, text: &str) {
        let up = if self.shown.replace(true) { UP } else { "" };
        let _ = eprint!(rt; "{up}{CLEAR}\x1b[?7l{text}\x1b[?7h\n");
    }

    // Takes the text away, where one is shown.
    fn clear<R: Eprint>(&self, rt: &R) {
        if self.shown.replace(false) {
            let _ = eprint!(rt; "{UP}{CLEAR}");
        }
    }
}

// A run that says on the terminal how far it is.
#[derive(Drop)]
pub(crate) struct Line<'a, R> {
    rt: &'a R,
    terminal: &'a Terminal,
    /// None where nothing is to be shown.
    began: Option<Instant>,
    /// The milliseconds after which the next text is due.
    due: u128,
    /// The milliseconds that had passed when the clock was last asked.
    pub(crate) passed: u64,
}

impl<'a, R: Clock + Eprint> Line<'a, R> {
    // On a terminal. The run begins now.
    pub(crate) fn new(rt: &'a R, terminal: &'a Terminal) -> Line<'a, R> {
        Line {
            rt,
            terminal,
            began: if terminal.screen {
                Instant::now(rt).ok()
            } else {
                None
            },
            due: FIRST,
            passed: 0,
        }
    }

    // Whether a text may ever be due.
    pub(crate) fn is_on(&self) -> bool {
        self.began.is_some()
    }

    // Whether the next text is due. The one after it is due half a second later.
    pub(crate) fn is_due(&mut self) -> bool {
        let Some(began) = self.began else {
            return false;
        };
        let Ok(passed) = began.elapsed(self.rt) else {
            return false;
        };
        let passed = passed.as_millis();
        if passed < self.due {
            return false;
        }
        self.due = passed.saturating_add(BETWEEN);
        self.passed = u64::try_from(passed).unwrap_or(u64::MAX);
        true
    }

    // Shows a text in the place of the last one.
    pub(crate) fn show(&mut self, text: &str) {
        self.terminal.show(self.rt, text);
    }

    // Takes the text away. Nothing is due from then on.
    pub(crate) fn end(&mut self) {
        self.terminal.clear(self.rt);
        self.began = None;
    }
}

/// A sink that takes the text on the terminal away before it hands bytes on, which may stand there too.
#[derive(Drop)]
pub struct Cleared<'a, W, R> {
    inner: W,
    rt: &'a R,
    terminal: &'a Terminal,
}

impl<'a, W: Sink, R: Eprint> Cleared<'a, W, R> {
    /// Over a sink.
    pub fn new(inner: W, rt: &'a R, terminal: &'a Terminal) -> Cleared<'a, W, R>
        ensures held { ⟦<Cleared<'a, W, R> as Sink>⟧.held result ≡ W.held inner }
        ensures runs { ⟦<Cleared<'a, W, R> as Sink>⟧.has_failed result ≡ W.has_failed inner }
    {
        Cleared {
            inner,
            rt,
            terminal,
        }
    }
}

impl<W: Sink, R: Eprint> Sink for Cleared<'_, W, R> {
    ghost held = { λ s. W.held s.inner };

    ghost has_failed = { λ s. W.has_failed s.inner };

    fn push(&mut self, bytes: &[u8]) -> Result<(), Refused> {
        self.terminal.clear(self.rt);
        self.inner.push(bytes)
    }

    fn failed(&self) -> bool {
        self.inner.failed()
    }
}
