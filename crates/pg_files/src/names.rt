//! Names of files, as they are given and as they are shown.
ghost use Rattle.std.specs.Prelude.{◌≡◌, ◌↔◌, IsTrue, codes};

use std::fmt;
use std::fmt::{Display, Formatter};

/// The name that stands for standard input, where a file is read.
pub const INPUT: &str = "-";

/// Whether a name stands for standard input.
pub fn is_input(name: &str) -> bool
    ensures { IsTrue result ↔ (name.now ≡ codes "-") }
{
    name == INPUT
}

// The path under which a name can be asked about, and opened as a plain file.
pub(crate) fn path_of(name: &str) -> &str {
    if is_input(name) { "/dev/stdin" } else { name }
}

/// The name of a file as it was given. It is shown with its control characters escaped, as `\n` or
/// `\u{1b}`, so that no name does anything to a terminal.
#[derive(Clone, Copy, Debug, PartialEq, Eq)]
pub struct FileName<'a>(pub &'a str);

impl Display for FileName<'_> {
    fn fmt<W: fmt::Write>(&self, f: &mut Formatter<W>) -> fmt::Result {
        for shown in self.0.chars() {
            if shown.is_control() {
                for part in shown.escape_default() {
                    f.write_char(part)?;
                }
            } else {
                f.write_char(shown)?;
            }
        }
        Ok(())
    }
}
