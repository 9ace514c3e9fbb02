//! Why a file is not read or written.
ghost use Rattle.std.specs.Prelude.{◌≡◌};
ghost use Rattle.std.specs.IoError.{raw_os_error};
ghost use Rattle.pg_files.specs.Faults.{obstacle_of};

use std::fmt;
use std::fmt::{Display, Formatter};
use std::io::Error;

/// What stands in the way of a file that cannot be opened, created or put in its place, or of a folder.
#[derive(Clone, Copy, Debug, PartialEq, Eq)]
pub enum Obstacle {
    /// The system refused it, by the error of this number (`errno`).
    System(i32),
    /// The system refused it, and gave no number.
    Unknown,
    /// The name is empty, or is that of a folder.
    NoName,
    /// It is no plain file: a folder, a pipe, a socket or a device.
    NotPlain,
    /// It is a symbolic link, where none is followed.
    Link,
    /// It is no folder, where one is wanted.
    NoFolder,
    /// It is `-`, standard input, where a file is to be written.
    Input,
    /// The program prints to it.
    PrintedTo,
    /// Another word of the same command names this file.
    NamedTwice,
    /// 1,000 drafts of it stand beside its place, which runs that were killed have left.
    Drafts,
}

impl Obstacle {
    // What the system says.
    pub(crate) fn of(fault: &Error) -> Obstacle
        ensures { result ≡ obstacle_of (raw_os_error fault.now) }
    {
        match fault.raw_os_error() {
            Some(number) => Obstacle::System(number),
            None => Obstacle::Unknown,
        }
    }
}

impl Display for Obstacle {
    fn fmt<W: fmt::Write>(&self, f: &mut Formatter<W>) -> fmt::Result {
        match *self {
            Obstacle::System(number) => Display::fmt(&Error::from_raw_os_error(number), f),
            Obstacle::Unknown => f.write_str("the system gives no reason"),
            Obstacle::NoName => f.write_str("it is no name of a file"),
            Obstacle::NotPlain => f.write_str("it is no plain file"),
            Obstacle::Link => f.write_str("it is a link, which is not followed"),
            Obstacle::NoFolder => f.write_str("it is no folder"),
            Obstacle::Input => f.write_str("it is standard input, which is not written"),
            Obstacle::PrintedTo => f.write_str("the program prints to it"),
            Obstacle::NamedTwice => f.write_str("another word names this file"),
            Obstacle::Drafts => f.write_str("1000 drafts that runs have left stand beside it"),
        }
    }
}

/// Why a file is not read or written. It has no name in it, so that it is copied as it is: who asked knows the name.
#[derive(Clone, Copy, Debug, PartialEq, Eq)]
pub enum FileFault {
    /// A file cannot be opened, created or put in its place, or must not be written, and what stands in the way.
    Open(Obstacle),
    /// A read has failed, or there is too much to read.
    Read,
    /// A file is not wholly written.
    Write,
    /// A growth was refused.
    Memory,
}
