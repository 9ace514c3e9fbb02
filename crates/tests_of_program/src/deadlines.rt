//! The time that a run has, and the line of a judge.

use crate::shared::{number, word};
use pg_certificate::{FromRead, Source};
use pg_moves::Unwatched;
use pg_searcher::SearchProgress;
use pg_streams::{Allowed, Deadline, Timed, Until, amount_of, judge_line, milliseconds_of};
use pg_trial::FailsAt;
use std::cell::Cell;
use std::io;
use std::io::ErrorKind;
use std::process::Abort;
use std::time::{Clock, Duration};

// A clock that is set by hand.
#[derive(Drop)]
struct Watch {
    millis: Cell<u64>,
}

impl Clock for Watch {
    fn monotonic(&self) -> io::Result<Duration> {
        Ok(Duration::from_millis(self.millis.get()))
    }

    fn since_1970(&self) -> io::Result<Duration> {
        Ok(Duration::from_millis(self.millis.get()))
    }
}

// Minutes, and how many milliseconds they are.
const MINUTES: &str = "0 0
5 300000
0.5 30000
1.25 75000
0.000016 0
0.000017 1
2.5000009 150000
307445734561825 18446744073709500000
90s 90000
0.25s 250
0.0019s 1
1.5m 90000
2h 7200000
0.5h 1800000
5124095576030h 18446744073708000000";

// Texts that are no minutes.
const NO_MINUTES: &str = "
.5
5.
-1
1,5
307445734561826
18446744073709551616
s
5ms
5S
5 s
5d
5124095576031h";

// The minutes that the text of a row tells are the row's milliseconds.
fn check_minutes(rt: &impl Abort, row: &str) {
    let found = milliseconds_of(word(row, 0)).expect(rt, row);
    assert_eq!(rt; found, number(rt, word(row, 1)), "{row}");
}

#[test]
fn minutes(rt: HostRuntime) {
    for row in MINUTES.lines() {
        check_minutes(&rt, row);
    }
    for text in NO_MINUTES.lines() {
        assert!(rt; milliseconds_of(text).is_none(), "{text}");
    }
}

// Numbers of nodes and bytes, and what they say.
const AMOUNTS: &str = "0 0
007 7
+5 5
18446744073709551615 18446744073709551615
250k 250000
10M 10000000
2G 2000000000
1.5M 1500000
0.25k 250
1.50e1 15
1e6 1000000
1e0 1
0e19 0
18446744073G 18446744073000000000
18446744073.709551615G 18446744073709551615
1.8446744073709551615e19 18446744073709551615";

// What is no whole number, too large, or another text.
const NO_AMOUNTS: &str = "
x
-1
1.5
0.0001k
1.55e1
k
.5k
5.k
5K
5m
1E6
1e
e6
1e-3
1e+3
1e20
0e20
5 k
10MM
1,5M
18446744073709551616
18446744073709551.616k";

// The number that the text of a row says is the row's other one.
fn check_amount(rt: &impl Abort, row: &str) {
    let found = amount_of(word(row, 0)).expect(rt, row);
    assert_eq!(rt; found, number(rt, word(row, 1)), "{row}");
}

#[test]
fn amounts(rt: HostRuntime) {
    for row in AMOUNTS.lines() {
        check_amount(&rt, row);
    }
    for text in NO_AMOUNTS.lines() {
        assert!(rt; amount_of(text).is_none(), "{text}");
    }
}

// The clock is asked at the first turn and at each 1,024th from then on; what is over stays so.
#[test]
fn searches_that_end_in_time(rt: HostRuntime) {
    let clock = Watch {
        millis: Cell::new(1000),
    };
    let mut watch = Timed::new(Unwatched, Deadline::new(&clock, Some(500)));
    let first = SearchProgress::goes_on(&mut watch) && !watch.is_late();
    clock.millis.set(1500);
    let mut more = 0u32;
    for _ in 0..5000 {
        if SearchProgress::goes_on(&mut watch) {
            more = more.saturating_add(1);
        }
    }
    clock.millis.set(1000);
    let last = SearchProgress::goes_on(&mut watch);
    assert!(rt; watch.is_late());
    let mut endless = Deadline::new(&clock, None);
    assert!(rt; first && !last && !endless.is_over());
    assert_eq!(rt; more, 1023);
}

// Pulls once at a time, and tells how many bytes came; 9 where that was refused.
fn pulled_at<S: Source>(source: &mut S, clock: &Watch, millis: u64) -> usize {
    clock.millis.set(millis);
    let mut buffer = [0u8; 2];
    source.pull(&mut buffer).unwrap_or(9)
}

// The clock is asked at each pull. What is over stays so, and leaves the source below as it was.
#[test]
fn sources_that_end_in_time(rt: HostRuntime) {
    let clock = Watch {
        millis: Cell::new(1000),
    };
    let text = FromRead::new(b"12345".as_slice());
    let mut source = Until::new(text, Deadline::new(&clock, Some(500)));
    assert_eq!(rt; pulled_at(&mut source, &clock, 1000), 2);
    assert_eq!(rt; pulled_at(&mut source, &clock, 1499), 2);
    assert!(rt; !source.is_over() && !source.failed());
    assert_eq!(rt; pulled_at(&mut source, &clock, 1500), 9);
    assert_eq!(rt; pulled_at(&mut source, &clock, 1000), 9);
    assert!(rt; source.is_over() && source.failed());
    let mut endless = Until::new(source.into_inner(), Deadline::new(&clock, None));
    assert_eq!(rt; pulled_at(&mut endless, &clock, 9_000_000), 1);
    assert_eq!(rt; pulled_at(&mut endless, &clock, 9_000_000), 0);
    assert!(rt; !endless.is_over());
}

// A source that fails by itself has not come to the end of its time.
#[test]
fn sources_that_fail_in_time(rt: HostRuntime) {
    let clock = Watch {
        millis: Cell::new(1000),
    };
    let failing = FailsAt::new(b"12345".as_slice(), 1, ErrorKind::Other);
    let mut source = Until::new(FromRead::new(failing), Deadline::new(&clock, Some(500)));
    assert_eq!(rt; pulled_at(&mut source, &clock, 1000), 2);
    assert_eq!(rt; pulled_at(&mut source, &clock, 1000), 9);
    assert!(rt; source.failed() && !source.is_over());
}

#[test]
fn lines_of_judges(rt: HostRuntime) {
    let mut allowed = Allowed {
        nodes: 10_000_000,
        milliseconds: None,
    };
    let line = judge_line([3, 30], "search", 84_000, allowed, [14, 19], [840_123, 1]);
    assert_eq!(rt;
        line.as_str(),
        "3 of 30: 1:24 8% of nodes, search 7.0 of 9.5, 840k nodes, 1 game"
    );
    allowed.milliseconds = Some(600_000);
    let line = judge_line([1, 1], "journeys", 84_000, allowed, [14, 19], [840_123, 0]);
    assert_eq!(rt;
        line.as_str(),
        "1:24 14% of time, journeys 7.0 of 9.5, 840k nodes, 0 games"
    );
    let line = judge_line(
        [100, 100],
        "journeys",
        u64::MAX,
        allowed,
        [128, 128],
        [u64::MAX, 4096],
    );
    assert!(rt; line.len() <= 79);
}
