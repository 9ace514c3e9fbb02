//! The line on the terminal that says how far a run is.

use crate::shared::{number, repeated, word};
use pg_certificate::{Sink, Source, ToWrite};
use pg_moves::CountProgress;
use pg_searcher::SearchProgress;
use pg_streams::{
    Allowed, Cleared, CountLine, Passing, SearchLine, Terminal, count_line, led_line, line_of,
    search_line,
};
use pg_trial::{FailsAt, OneByte};
use std::cell::Cell;
use std::fmt::Display;
use std::io;
use std::io::{Eprint, ErrorKind};
use std::process::Abort;
use std::time::{Clock, Duration};

// A clock that is set by hand, and a screen that counts what is printed on it.
#[derive(Drop)]
struct Desk {
    millis: Cell<u64>,
    prints: Cell<u32>,
}

impl Clock for Desk {
    fn monotonic(&self) -> io::Result<Duration> {
        Ok(Duration::from_millis(self.millis.get()))
    }

    fn since_1970(&self) -> io::Result<Duration> {
        Ok(Duration::from_millis(self.millis.get()))
    }
}

impl Eprint for Desk {
    fn eprint<D: Display + Drop>(&self, _value: D) -> io::Result<()> {
        self.prints.set(self.prints.get().saturating_add(1));
        Ok(())
    }

    fn eprintln<D: Display + Drop>(&self, value: D) -> io::Result<()> {
        self.eprint(value)
    }
}

// One read of a source for a byte, which gives `wanted` bytes.
fn check_pull<S: Source>(rt: &impl Abort, source: &mut S, wanted: usize) {
    let mut buffer = [0u8; 1];
    assert_eq!(rt; source.pull(&mut buffer).expect(rt, "a read"), wanted);
}

// So much was printed up to now, and nothing without a screen.
fn check_prints(rt: &impl Abort, desk: &Desk, screen: bool, wanted: &str) {
    let wanted = if screen { number(rt, wanted) } else { 0 };
    assert_eq!(rt; u64::from(desk.prints.get()), wanted);
}

// A source is pulled at three times, and at its end: how often something was printed before the end, and with it.
const PULLS: &str = "0 1 999 0 0
0 1000 1001 1 2
1000 1499 1500 2 3
1000 1500 2000 3 4";

fn check_pulls<R: Abort + AllocGlobal>(rt: &R, row: &str, screen: bool) {
    let desk = desk_at(5000);
    let bytes = repeated(rt, 1, 3);
    let terminal = Terminal::new(screen);
    let mut source = Passing::new(&desk, &terminal, bytes.as_slice(), None);
    for place in 0..3usize {
        let time = number(rt, word(row, place));
        desk.millis.set(time.saturating_add(5000));
        check_pull(rt, &mut source, 1);
    }
    check_prints(rt, &desk, screen, word(row, 3));
    check_pull(rt, &mut source, 0);
    source.end();
    check_prints(rt, &desk, screen, word(row, 4));
}

// A line after one second, then each half second, and it is taken away once.
#[test]
fn lines_that_are_shown(rt: HostRuntime) {
    for row in PULLS.lines() {
        check_pulls(&rt, row, true);
        check_pulls(&rt, row, false);
    }
}

// A read that fails after others is a fault of the watched source, and each later one is.
#[test]
fn watched_reads_that_fail(rt: HostRuntime) {
    let desk = desk_at(5000);
    let terminal = Terminal::new(false);
    let bytes = repeated(&rt, 1, 8);
    let pieces = FailsAt::new(OneByte::new(bytes.as_slice()), 2, ErrorKind::Other);
    let mut source = Passing::new(&desk, &terminal, pieces, None);
    check_pull(&rt, &mut source, 1);
    check_pull(&rt, &mut source, 1);
    let mut buffer = [0u8; 1];
    assert!(rt; source.pull(&mut buffer).is_err() && source.failed());
    assert!(rt; source.pull(&mut buffer).is_err() && source.failed());
    source.end();
}

// The number of a row that has this place from 0 before `: `.
fn at(rt: &impl Abort, row: &str, place: usize) -> u64 {
    number(rt, word(row, place).trim_end_matches(':'))
}

// The same, as a number of plies or of moves.
fn few_at(rt: &impl Abort, row: &str, place: usize) -> u8 {
    u8::try_from(at(rt, row, place)).expect(rt, row)
}

// Bytes and the size of their file, where it is known, and what is shown.
const CHECKS: &str = "0 -: 0 bytes
0 0: 0 bytes 100% of file
0 1: 0 bytes 0% of file
99999 100000: 99999 bytes 99% of file
100000 100000: 100k bytes 100% of file
12345678 100000000: 12345k bytes 12% of file
99999999 99999999: 99999k bytes 100% of file
100000000 1000000000: 100M bytes 10% of file
18446744073709551615 18446744073709551615: 18446P bytes 100% of file";

// Games, and what is shown.
const COUNTS: &str = "0: 0 games
84998978956: 84998M games
18446744073709551615: 18446P games";

// Milliseconds, the limits of nodes and of milliseconds, if there is one, the plies at work and the stated ones, the
// nodes, what the tree may come to, where that is told, and the games; and what is shown.
const SEARCHES: &str = "0 1000000 - 0 0 0 - 0: 0:00 0% of nodes, tree 0.0 of 0.0, 0 nodes, 0 games
83999 1000000 - 11 18 80428 - 1: 1:23 8% of nodes, tree 5.5 of 9.0, 80428 nodes, 1 game
3599999 80000000 - 24 24 32105000 40123456 2: 59:59 40% of nodes, tree 12.0 of 12.0, 32105k nodes of ~40123k, 2 games
84000 18446744073709551615 300000 29 34 840000 - 0: 1:24 28% of time, tree 14.5 of 17.0, 840k nodes, 0 games
84000 1000000 300000 29 34 840000 - 0: 1:24 84% of nodes, tree 14.5 of 17.0, 840k nodes, 0 games
3600000 1000000 3600000 29 34 1000000 - 0: 1h00 100% of time, tree 14.5 of 17.0, 1000k nodes, 0 games
18446744073709551615 99999999 - 128 128 99999999 18446744073709551615 4096: 9999h25 100% of nodes, tree 64.0 of 64.0, \
99999k nodes of ~18446P, 4096 games";

// The same of a led search, with its foreign moves in place of what the tree may come to.
const LED: &str = "0 10 - 0 0 0 0: 0:00 0% of nodes, tree 0.0 of 0.0, +0 foreign, 0 nodes
45000 10000000 90000 36 37 1234567 3: 0:45 50% of time, tree 18.0 of 18.5, +3 foreign, 1234k nodes
18446744073709551615 99999999 - 128 128 99999999 255: 9999h25 100% of nodes, tree 64.0 of 64.0, \
+255 foreign, 99999k nodes";

// What is shown is what stands behind `: `, and never wider than 79 columns.
fn check_shown(rt: &impl Abort, shown: &str, row: &str) {
    let (_, wanted) = row.split_once(": ").expect(rt, row);
    assert_eq!(rt; shown, wanted);
    assert!(rt; shown.len() <= 79, "{row}");
}

#[test]
fn lines_that_fit(rt: HostRuntime) {
    for row in CHECKS.lines() {
        let size = word(row, 1).trim_end_matches(':').parse().ok();
        check_shown(&rt, line_of(at(&rt, row, 0), size).as_str(), row);
    }
}

#[test]
fn lines_of_counts(rt: HostRuntime) {
    for row in COUNTS.lines() {
        check_shown(&rt, count_line(at(&rt, row, 0)).as_str(), row);
    }
}

// What a row allows a search.
fn allowed_in(rt: &impl Abort, row: &str) -> Allowed {
    Allowed {
        nodes: at(rt, row, 1),
        milliseconds: word(row, 2).parse().ok(),
    }
}

#[test]
fn lines_of_searches(rt: HostRuntime) {
    for row in SEARCHES.lines() {
        let trees = [few_at(&rt, row, 3), few_at(&rt, row, 4)];
        let expected = word(row, 6).parse().ok();
        let (passed, nodes, games) = (at(&rt, row, 0), at(&rt, row, 5), at(&rt, row, 7));
        let shown = search_line(passed, allowed_in(&rt, row), trees, nodes, expected, games);
        check_shown(&rt, shown.as_str(), row);
    }
}

#[test]
fn lines_of_led_searches(rt: HostRuntime) {
    for row in LED.lines() {
        let trees = [few_at(&rt, row, 3), few_at(&rt, row, 4)];
        let (passed, nodes) = (at(&rt, row, 0), at(&rt, row, 5));
        let shown = led_line(
            passed,
            allowed_in(&rt, row),
            trees,
            few_at(&rt, row, 6),
            nodes,
        );
        check_shown(&rt, shown.as_str(), row);
    }
}

// A desk at this time.
fn desk_at(millis: u64) -> Desk {
    Desk {
        millis: Cell::new(millis),
        prints: Cell::new(0),
    }
}

// A line of a count is shown after a second, and taken away once.
fn check_count(rt: &impl Abort, screen: bool) {
    let desk = desk_at(7);
    let terminal = Terminal::new(screen);
    let mut line = CountLine::new(&desk, &terminal);
    line.counted(20);
    desk.millis.set(1007);
    line.counted(400);
    check_prints(rt, &desk, screen, "1");
    line.end();
    line.end();
    check_prints(rt, &desk, screen, "2");
}

#[test]
fn counts_that_are_shown(rt: HostRuntime) {
    check_count(&rt, true);
    check_count(&rt, false);
}

// The clock is asked once in 1,024 turns of a search.
fn check_search(rt: &impl Abort, screen: bool) {
    let desk = desk_at(7);
    let terminal = Terminal::new(screen);
    let allowed = Allowed {
        nodes: 5000,
        milliseconds: None,
    };
    let mut line = SearchLine::new(&desk, &terminal, 8, allowed);
    desk.millis.set(1007);
    for left in 0..1023u64 {
        line.reached(8, left);
    }
    check_prints(rt, &desk, screen, "0");
    line.reached(8, 1);
    check_prints(rt, &desk, screen, "1");
    line.end();
    check_prints(rt, &desk, screen, "2");
}

#[test]
fn searches_that_are_shown(rt: HostRuntime) {
    check_search(&rt, true);
    check_search(&rt, false);
}

// What is shown is taken away before a report begins, once, and by who writes it.
#[test]
fn lines_before_reports(rt: HostRuntime) {
    let desk = desk_at(7);
    let terminal = Terminal::new(true);
    let mut line = CountLine::new(&desk, &terminal);
    desk.millis.set(1007);
    line.counted(20);
    let mut out = Cleared::new(ToWrite::new(Vec::new(rt.alloc())), &desk, &terminal);
    check_prints(&rt, &desk, true, "1");
    assert!(rt; out.push(b"a").is_ok());
    check_prints(&rt, &desk, true, "2");
    assert!(rt; out.push(b"b").is_ok());
    line.end();
    check_prints(&rt, &desk, true, "2");
}
