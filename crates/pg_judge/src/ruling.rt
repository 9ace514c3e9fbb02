//! What is found of a problem, by what, and what shows it.
ghost use Rattle.std.specs.Prelude.{◌↔◌, IsTrue};
ghost use Rattle.pg_judge.specs.Ruling.{IsFindingOf, IsSaidSound, IsSound};
ghost use Rattle.pg_judge.specs.declared.entry.Entry.{Entry};

use crate::progress::Effort;
use pg_fen::Length;
use pg_san::Games;
use pg_searcher::Game;
use pg_texts::Verdict;

/// What shows that a problem is not sound.
#[derive(Drop)]
pub enum Evidence {
    /// Two games or more of the stated length that end on the diagram, of which more may be.
    Several(Games),
    /// One beside the author's.
    Another(Game),
    /// A game of fewer plies that ends on the diagram.
    Shorter(Game),
}

/// Why a problem is not settled.
#[derive(Clone, Copy, Debug, PartialEq, Eq)]
pub enum Reason {
    /// The searches came to their limits of nodes.
    Nodes,
    /// The time of the searches was over.
    Time,
    /// Memory was refused.
    Memory,
    /// The certificate could not be written, or read again.
    Scratch,
    /// The certificate would have more bytes than it may.
    Bytes,
    /// The check refused what a search had written, which should not be.
    Refused,
}

/// What the searches met that settled nothing. None of it is proved.
#[derive(Clone, Copy, Debug, PartialEq, Eq)]
pub struct Known {
    /// So many games of the stated length that end on the diagram.
    pub games: usize,
    /// None of fewer plies than this length has, where a search went through all shorter games.
    pub below: Option<Length>,
    /// The search for cooks went through all games with at most so many foreign moves, where it ran and came so far.
    pub foreign: Option<u8>,
    pub reason: Reason,
}

/// What is found of a problem.
#[derive(Drop)]
pub enum Finding {
    /// These games are all that solve it, and none is shorter: sound, cooked or no game.
    Settled(Verdict, Games),
    /// No list of one game is the answer.
    NotSound(Evidence),
    /// Nothing is claimed.
    NotSettled(Known),
}

/// By what it was found.
#[derive(Clone, Copy, Debug, PartialEq, Eq)]
pub enum Means {
    /// A certificate that stood there, of so many records.
    Certificate(u64),
    /// A certificate that stood there, which was not read to its end: the time was over before.
    Unread,
    /// A search, which visited so many nodes as far as it told.
    Search(Effort, u64),
}

/// What is found of a problem, and by what.
#[derive(Drop)]
pub struct Ruling {
    pub finding: Finding,
    pub means: Means,
}

// Whether it is said that the problem is sound.
fn is_said_sound(finding: &Finding) -> bool
    ensures { IsTrue result ↔ IsSaidSound finding.now }
{
    match finding {
        Finding::Settled(verdict, _) => *verdict == Verdict::Sound,
        Finding::NotSound(_) | Finding::NotSettled(_) => false,
    }
}

/// Whether the problem is sound: just one game is found, and no other is there, nor a shorter one.
pub fn is_sound(ruling: &Ruling) -> bool
    ensures said { IsTrue result ↔ IsSaidSound ruling.now.finding }
    ensures means { (entry : Entry) → IsFindingOf entry ruling.now.finding → IsTrue result
        → IsSound entry.problem.diagram entry.problem.length }
{
    is_said_sound(&ruling.finding)
}
