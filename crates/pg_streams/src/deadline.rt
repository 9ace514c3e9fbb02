//! A run that ends when its time is over.
ghost use Rattle.std.specs.Prelude.{◌≡◌, false, IsTrue};
ghost use Rattle.pg_streams.specs.Ending.{has_ended, is_late};

use pg_position::Move;
use pg_searcher::{LedProgress, SearchProgress};
use std::time::{Clock, Instant};

// In how many turns of a search the clock is asked once.
const TURNS: u32 = 1024;

// How many digits of a part of a minute count.
const PLACES: usize = 6;

/// The milliseconds that a text of minutes says: decimal digits, and maybe a dot and digits behind it, of which the
/// first six count, as in `5` and `0.5`; and maybe a letter for a unit, `s` for seconds, `m` for minutes, `h` for hours,
/// as in `90s`. None for any other text, and for more than 2^64 - 1.
pub fn milliseconds_of(minutes: &str) -> Option<u64> {
    let (number, unit) = number_and_unit(minutes);
    let (whole, part) = match number.split_once('.') {
        Some((whole, part)) => (whole, part),
        None => (number, "0"),
    };
    if !are_digits(whole) || !are_digits(part) {
        return None;
    }
    let whole = whole.parse::<u64>().ok()?;
    whole.checked_mul(unit)?.checked_add(part_of(part, unit))
}

// What stands before the letter of a unit, and the milliseconds of that: of a minute where there is none.
fn number_and_unit(text: &str) -> (&str, u64) {
    if let Some(number) = text.strip_suffix('s') {
        return (number, 1000);
    }
    if let Some(number) = text.strip_suffix('h') {
        return (number, 3_600_000);
    }
    match text.strip_suffix('m') {
        Some(number) => (number, 60_000),
        None => (text, 60_000),
    }
}

// Whether a text is decimal digits.
pub(crate) fn are_digits(text: &str) -> bool {
    !text.is_empty() && text.bytes().all(|byte| byte.is_ascii_digit())
}

// The milliseconds of a part of a unit, which has `unit` of them, by the digits behind the dot.
fn part_of(digits: &str, unit: u64) -> u64 {
    let mut millionths = 0u64;
    let mut place = 100_000u64;
    for byte in digits.bytes().take(PLACES) {
        let digit = u64::from(byte.saturating_sub(b'0'));
        millionths = millionths.saturating_add(digit.saturating_mul(place));
        place /= 10;
    }
    millionths.saturating_mul(unit) / 1_000_000
}

/// When the time of a run is over, if ever. A clock that cannot be read gives no end.
#[derive(Drop)]
pub struct Deadline<'a, R> {
    rt: &'a R,
    began: Option<Instant>,
    milliseconds: u64,
    turns: u32,
    is_over: bool,
}

impl<'a, R: Clock> Deadline<'a, R> {
    /// Of a run that begins now, and ends after these milliseconds, if there are any.
    pub fn new(rt: &'a R, milliseconds: Option<u64>) -> Deadline<'a, R>
        ensures { has_ended result ≡ false }
    {
        Deadline {
            rt,
            began: match milliseconds {
                Some(_) => Instant::now(rt).ok(),
                None => None,
            },
            milliseconds: milliseconds.unwrap_or(u64::MAX),
            turns: 0,
            is_over: false,
        }
    }

    // Whether the time is over now, by the clock.
    fn has_passed(&self) -> bool {
        let Some(began) = self.began else {
            return false;
        };
        match began.elapsed(self.rt) {
            Ok(passed) => passed.as_millis() >= u128::from(self.milliseconds),
            Err(_) => false,
        }
    }

    /// Whether the time is over, by the clock. Once it is over it stays so.
    pub fn is_over_now(&mut self) -> bool
        ensures told { result ≡ has_ended self.new }
        ensures stays { IsTrue (has_ended self.old) → IsTrue result }
    {
        if !self.is_over {
            self.is_over = self.has_passed();
        }
        self.is_over
    }

    /// Whether the time is over, by the clock at the first turn and at each 1,024th from then on. Once it is over it
    /// stays so.
    pub fn is_over(&mut self) -> bool
        ensures told { result ≡ has_ended self.new }
        ensures stays { IsTrue (has_ended self.old) → IsTrue result }
    {
        if self.turns % TURNS == 0 {
            let _ = self.is_over_now();
        }
        self.turns = self.turns.wrapping_add(1);
        self.is_over
    }

    // Whether the time was over when the clock was last asked.
    pub(crate) fn has_ended(&self) -> bool
        ensures { result ≡ has_ended self.now }
    {
        self.is_over
    }
}

/// A search that ends when its time is over; who is told how far it is, is told too.
#[derive(Drop)]
pub struct Timed<'a, P, R> {
    /// Who is told.
    pub line: P,
    deadline: Deadline<'a, R>,
}

impl<'a, P, R> Timed<'a, P, R> {
    /// Of a search that has this deadline.
    pub fn new(line: P, deadline: Deadline<'a, R>) -> Timed<'a, P, R> {
        Timed { line, deadline }
    }
}

impl<P, R: Clock> Timed<'_, P, R> {
    /// Whether the time was over when the clock was last asked.
    pub fn is_late(&self) -> bool
        ensures { result ≡ is_late self.now }
    {
        self.deadline.has_ended()
    }
}

impl<P: SearchProgress, R: Clock> SearchProgress for Timed<'_, P, R> {
    fn reached(&mut self, plies: u8, left: u64) {
        self.line.reached(plies, left);
    }

    fn met(&mut self, game: &[Move]) {
        self.line.met(game);
    }

    fn goes_on(&mut self) -> bool {
        !self.deadline.is_over() && self.line.goes_on()
    }
}

impl<P: LedProgress, R: Clock> LedProgress for Timed<'_, P, R> {
    fn reached(&mut self, foreign: u8, plies: u8, left: u64) {
        self.line.reached(foreign, plies, left);
    }

    fn goes_on(&mut self) -> bool {
        !self.deadline.is_over() && self.line.goes_on()
    }
}
