//! Certificates: the header and the records of one, read from any source of bytes and written to
//! any sink. docs/FORMATS.md has the format.
#![tactic(auto)]

mod fault;
pub mod format;
mod from_read;
mod laws;
mod magic;
mod outline;
mod reader;
mod record;
mod source;
mod to_write;
mod writer;

pub use fault::{ReadFault, WriteFault};
pub use from_read::FromRead;
pub use laws::{
    headers_are_read_again, no_spelling_begins_another, no_spelling_is_longer,
    records_are_read_again, refuses_what_is_no_header, truncated_where_cut_short,
    unknown_where_none_goes_on, what_is_read_is_a_header, what_is_read_is_spelled,
};
pub use reader::RecordReader;
pub use record::{Bare, Header, Record};
pub use source::{Refused, Sink, Source};
pub use to_write::ToWrite;
pub use writer::RecordWriter;
