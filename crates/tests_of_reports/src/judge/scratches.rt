//! Scratches that do not keep a certificate whole.

use super::tolling::{Orders, row_by_tolls};
use super::*;
use arrayvec::ArrayString;
use pg_certificate::Refused;
use std::fmt::Write as Append;
use std::io;
use std::io::{Error, ErrorKind, Read, Write};

const LIMITS: Limits = Limits {
    max_nodes: 1000,
    enough: Enough::OneSearch,
};

const PAWNS: &str = "pawns rnbqkbnr/pppp1ppp/8/4p3/4P3/8/PPPP1PPP/RNBQKBNR 1.0";

// What a scratch does with more bytes than it has room for.
#[derive(Clone, Copy, PartialEq, Eq)]
enum Room {
    /// It refuses them.
    Refuses,
    /// It drops all, and takes as many as there are where it is asked to.
    Drops,
    /// It drops all, and never takes more.
    Stays,
    /// It takes them, and gives nothing back.
    Loses,
}

// A scratch that has room for ten bytes.
#[derive(Drop)]
struct Small {
    bytes: Cursor<Vec<u8>>,
    room: Room,
    is_dropped: bool,
    is_wide: bool,
}

impl Read for Small {
    fn read(&mut self, buffer: &mut [u8]) -> io::Result<usize> {
        if self.room == Room::Loses {
            return Ok(0);
        }
        self.bytes.read(buffer)
    }
}

impl Write for Small {
    fn write(&mut self, bytes: &[u8]) -> io::Result<usize> {
        let length = self.bytes.get_ref().len().saturating_add(bytes.len());
        if self.is_wide || self.room == Room::Loses || length <= 10 {
            return self.bytes.write(bytes);
        }
        if self.room == Room::Refuses {
            return Err(Error::from(ErrorKind::FileTooLarge));
        }
        self.is_dropped = true;
        Ok(bytes.len())
    }

    fn flush(&mut self) -> io::Result<()> {
        Ok(())
    }
}

impl Scratch for Small {
    fn lack(&self) -> Reason {
        if self.room == Room::Refuses {
            Reason::Bytes
        } else {
            Reason::Scratch
        }
    }

    fn is_whole(&self) -> bool {
        !self.is_dropped
    }

    fn widen(&mut self) -> Result<(), Refused> {
        if self.room != Room::Drops {
            return Err(Refused);
        }
        self.is_wide = true;
        Ok(())
    }

    fn clear(&mut self) -> Result<(), Refused> {
        self.is_dropped = false;
        self.bytes.clear()
    }

    fn rewind(&mut self) -> Result<(), Refused> {
        self.bytes.rewind()
    }
}

// Writes down each search that begins.
#[derive(Drop)]
struct Begun {
    said: ArrayString<256>,
}

impl SearchProgress for Begun {
    fn reached(&mut self, _plies: u8, _left: u64) {}
}

impl JudgeProgress for Begun {
    fn begins(&mut self, effort: Effort, limit: u64) {
        let _ = write!(self.said, "{effort:?} {limit}, ");
    }
}

// An empty one.
fn of_room<R: Abort + AllocGlobal>(rt: &R, room: Room) -> Small {
    Small {
        bytes: Cursor::new(Vec::new(rt.alloc())),
        room,
        is_dropped: false,
        is_wide: false,
    }
}

// The row of a problem that is judged by such a scratch, and which searches are made.
fn check_small<R: Abort + AllocGlobal>(rt: &R, room: Room, row: &str, searches: &str) {
    let mut scratch = of_room(rt, room);
    let mut watch = Begun {
        said: ArrayString::new(),
    };
    let told = ruled(rt, PAWNS, LIMITS, &mut scratch, &mut watch);
    assert_eq!(rt; told.as_str(), row);
    assert_eq!(rt; watch.said.as_str(), searches);
}

#[test]
fn small_scratches(rt: HostRuntime) {
    check_small(
        &rt,
        Room::Refuses,
        "pawns|1.0|not settled|-|search, 22 nodes|1 game met; none below 1.0; certificate limit reached\n",
        "Search 1000, ",
    );
    check_small(
        &rt,
        Room::Drops,
        "pawns|1.0|sound|-|search, 22 nodes|1. e4 e5\n",
        "Search 1000, Search 1000, ",
    );
    check_small(
        &rt,
        Room::Stays,
        "pawns|1.0|not settled|-|search, 22 nodes|1 game met; none below 1.0; certificate not written\n",
        "Search 1000, ",
    );
}

// The same of one that is judged by tolls, where bytes stand before the certificate.
fn check_led<R: Abort + AllocGlobal>(rt: &R, room: Room, lead: &[u8], row: &str, searches: &str) {
    let mut scratch = of_room(rt, room);
    let mut watch = Begun {
        said: ArrayString::new(),
    };
    let orders = Orders {
        lead,
        first: 100,
        second: 1000,
    };
    let told = row_by_tolls(rt, PAWNS, orders, &mut scratch, &mut watch);
    assert_eq!(rt; told.as_str(), row);
    assert_eq!(rt; watch.said.as_str(), searches);
}

#[test]
fn small_scratches_by_tolls(rt: HostRuntime) {
    check_led(
        &rt,
        Room::Refuses,
        b"in front",
        "pawns|1.0|not settled|-|tolls, 22 nodes|1 game met; none below 1.0; no cook with at most 0 foreign moves; \
certificate limit reached\n",
        "Tariffs 100, Tolls 1000, ",
    );
    check_led(
        &rt,
        Room::Refuses,
        b"far in front",
        "pawns|1.0|not settled|-|tolls, 0 nodes|1 game met; no cook with at most 0 foreign moves; \
certificate limit reached\n",
        "Tariffs 100, Tolls 1000, ",
    );
    check_led(
        &rt,
        Room::Drops,
        b"in front",
        "pawns|1.0|sound|-|tolls, 22 nodes|1. e4 e5\n",
        "Tariffs 100, Tolls 1000, Tolls 1000, ",
    );
    check_led(
        &rt,
        Room::Loses,
        b"in front",
        "pawns|1.0|not settled|-|tolls, 22 nodes|1 game met; none below 1.0; no cook with at most 0 foreign moves; \
certificate not written\n",
        "Tariffs 100, Tolls 1000, ",
    );
}
