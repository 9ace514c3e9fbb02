//! Lists of games, read whole.

use crate::shared::{repeated, to_text};
use pg_files::{FileFault, MOST_BYTES, Obstacle, first_bytes, list, open_plain, read_all};
use pg_trial::{Endless, FailsAt};
use std::io;
use std::io::Read;
use std::process::Abort;

// That a reader is not read whole, and why.
fn check_unread<R: Abort + AllocGlobal, C: Read>(rt: &R, reader: &mut C) {
    let unread = read_all(rt.alloc(), reader);
    assert!(rt; matches!(&unread, Err(FileFault::Read)));
}

// The bytes of a reader.
fn whole<R: Abort + AllocGlobal, C: Read>(rt: &R, reader: &mut C) -> Vec<u8> {
    let Ok(bytes) = read_all(rt.alloc(), reader) else {
        panic!(rt; "a list");
    };
    bytes
}

#[test]
fn lists_that_are_not_read(rt: HostRuntime) {
    let missing = list(&rt, "no/such/file");
    assert!(rt; matches!(&missing, Err(FileFault::Open(Obstacle::System(2)))));
    let folder = list(&rt, "/");
    assert!(rt; matches!(&folder, Err(FileFault::Open(Obstacle::NotPlain))));
    check_unread(&rt, &mut Endless::new(b'\n'));
}

// What stands in the way of a file, as it is said.
const OBSTACLES: &str = "no/such/file: No such file or directory (os error 2)
/: it is no plain file
/dev/null: it is no plain file
/dev/null/file: Not a directory (os error 20)";

#[test]
fn obstacles(rt: HostRuntime) {
    for row in OBSTACLES.lines() {
        let (path, wanted) = row.split_once(": ").expect(&rt, row);
        let Err(FileFault::Open(obstacle)) = open_plain(&rt, path) else {
            panic!(rt; "{row}");
        };
        let said = to_text(&rt, obstacle);
        assert_eq!(rt; said.as_str(), wanted);
        assert!(rt; first_bytes(&rt, path) == [0; 6]);
    }
}

#[test]
fn lists_of_the_greatest_length(rt: HostRuntime) {
    let longer = repeated(&rt, b'\n', MOST_BYTES + 1);
    let mut most = &longer[..MOST_BYTES.min(longer.len())];
    assert_eq!(rt; whole(&rt, &mut most).len(), 16_777_216);
    check_unread(&rt, &mut longer.as_slice());
}

#[test]
fn a_read_that_fails(rt: HostRuntime) {
    let text = b"1. e4 e5".as_slice();
    let mut reader = FailsAt::new(text, 1, io::ErrorKind::Interrupted);
    check_unread(&rt, &mut reader);
    assert_eq!(rt; whole(&rt, &mut b"1. e4 e5".as_slice()).as_slice(), text);
}
