//! Why a header or a record was not read or not written.

use thiserror::Error;

/// Why a reader of records refused.
#[derive(Clone, Copy, Debug, PartialEq, Eq, Error)]
pub enum ReadFault {
    /// The bytes end inside the header or a record, or where a record must stand.
    #[error("truncated certificate")]
    Truncated,
    /// There are 37 bytes, and they begin with the magic of no version.
    #[error("not a certificate")]
    Magic,
    /// The first byte that no record of the version can have at its place.
    #[error("unknown record byte {0}")]
    UnknownRecord(u8),
    /// The source has failed.
    #[error("read fault")]
    Read,
    /// A byte is left where the certificate must end.
    #[error("bytes after the certificate")]
    Trailing,
    /// The reader of records had refused before this call.
    #[error("reading went on after a fault")]
    Failed,
}

/// Why a writer of records refused.
#[derive(Clone, Copy, Debug, PartialEq, Eq, Error)]
pub enum WriteFault {
    /// The sink has failed. How many bytes went out is not known.
    #[error("write fault")]
    Write,
    /// The writer of records had refused before this call.
    #[error("writing went on after a fault")]
    Failed,
}
