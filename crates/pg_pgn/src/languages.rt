//! Which language's letters a text is in.
ghost use Rattle.std.specs.Prelude.{◌≡◌, ◌≢◌, ◌↔◌, List, IsTrue, IfSome, Some};
ghost use Rattle.pg_position.specs.declared.moves.Move.{Move};
ghost use Rattle.pg_pgn.specs.declared.letters.Letters.{Letters};
ghost use Rattle.pg_pgn.specs.declared.letters.Letters.TheVariants as Language;
ghost use Rattle.pg_pgn.specs.Pgn.{IsFirstFault};
ghost use Rattle.pg_pgn.specs.Languages.{name_of, IsReadBy, IsFaulty};

use crate::fault::PgnFault;
use crate::letters::Letters;
use crate::reading::read_pgn;
use std::alloc::Global;

/// The language of a name, as `german`; none of another name.
pub fn letters_of(name: &str) -> Option<Letters>
    ensures { (l : Letters) → (result ≡ Some l) ↔ (name.now ≡ name_of l) }
{
    match name {
        "english" => Some(Letters::English),
        "german" => Some(Letters::German),
        "french" => Some(Letters::French),
        "dutch" => Some(Letters::Dutch),
        "spanish" => Some(Letters::Spanish),
        "italian" => Some(Letters::Italian),
        _ => None,
    }
}

/// The name of a language.
pub fn name_of(letters: Letters) -> &'static str
    ensures { result.now ≡ name_of letters }
{
    match letters {
        Letters::English => "english",
        Letters::German => "german",
        Letters::French => "french",
        Letters::Dutch => "dutch",
        Letters::Spanish => "spanish",
        Letters::Italian => "italian",
    }
}

// Whether a text is a file of games by the letters of a language.
fn is_read_by(alloc: Global, text: &[u8], letters: Letters) -> bool
    ensures { IsTrue result → IsReadBy letters text.now }
{
    match read_pgn(alloc, text, letters) {
        Ok(_) => true,
        Err(_) => false,
    }
}

// Whether a fault is one of the text, and no want of memory.
fn is_of_text(fault: &PgnFault) -> bool
    ensures { IsTrue result → fault.now ≢ PgnFault.Memory }
{
    match fault {
        PgnFault::Memory => false,
        PgnFault::At { .. } | PgnFault::Form { .. } => true,
    }
}

// The fault that a text has by English letters.
fn fault_of(alloc: Global, text: &[u8]) -> Option<PgnFault>
    ensures { IfSome result (λ e. IsFirstFault Language.English text.now e) }
{
    read_pgn(alloc, text, Letters::English).err()
}

// Whether a text has a fault by English letters.
fn is_faulty(alloc: Global, text: &[u8]) -> bool
    ensures { IsTrue result → IsFaulty text.now }
{
    match fault_of(alloc, text) {
        Some(fault) => is_of_text(&fault),
        None => false,
    }
}

// The first other language by whose letters a text is a file of games.
fn other(alloc: Global, text: &[u8]) -> Option<Letters>
    ensures { IfSome result (λ l. (l ≢ Language.English) × IsReadBy l text.now) }
{
    if is_read_by(alloc, text, Letters::German) {
        return Some(Letters::German);
    }
    if is_read_by(alloc, text, Letters::French) {
        return Some(Letters::French);
    }
    if is_read_by(alloc, text, Letters::Dutch) {
        return Some(Letters::Dutch);
    }
    if is_read_by(alloc, text, Letters::Spanish) {
        return Some(Letters::Spanish);
    }
    if is_read_by(alloc, text, Letters::Italian) {
        return Some(Letters::Italian);
    }
    None
}

/// The first other language by whose letters a text is a file of games, where it has a fault by English ones. By the
/// letters of each other language that would do the games are the same.
pub fn fitting(alloc: Global, text: &[u8]) -> Option<Letters>
    ensures { IfSome result (λ l. (l ≢ Language.English) × IsReadBy l text.now × IsFaulty text.now) }
{
    if is_faulty(alloc, text) {
        other(alloc, text)
    } else {
        None
    }
}
