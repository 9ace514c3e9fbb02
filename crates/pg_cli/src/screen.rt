//! Which of the standard streams are terminals, and whether second lines are told.

use std::env;
use std::rt::Runtime;

// Whether the standard streams are terminals: somebody types the first and reads the others.
#[derive(Clone, Copy)]
pub(crate) struct Screen {
    pub(crate) input: bool,
    pub(crate) output: bool,
    /// Whether second lines are told on that of errors: where it is one, or the words ask for them.
    pub(crate) hints: bool,
    /// Whether that of errors understands escape sequences, so that a line on it can be taken away.
    pub(crate) lines: bool,
}

// Whether the words ask for second lines where no terminal is.
pub(crate) fn ask_for_hints(words: &[String]) -> bool {
    words.iter().any(|word| word.as_str() == "--hints")
}

// Whether the terminal is said to understand no escape sequences.
pub(crate) fn is_dumb<R: Runtime + AllocGlobal>(rt: &R) -> bool {
    match env::var(rt, "TERM") {
        Ok(name) => name.as_str() == "dumb",
        Err(_) => false,
    }
}
