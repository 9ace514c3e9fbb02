//! What a second game and a shorter one say. Each law is a function that does nothing: its contract is
//! the law.
ghost use Rattle.pg_cooks.specs.Unsound.{NotSoundIsTrue, ShorterIsACook, TwoAreACook, UnlistedIsACook};

/// Where two different games of the length end on the diagram, no list of one game is the exact answer.
pub fn two_are_a_cook()
    ensures { TwoAreACook }
{}

/// Where the games of a list end on the diagram, and what they say is that the problem is not sound, no
/// list of one game is the exact answer.
pub fn not_sound_is_true()
    ensures { NotSoundIsTrue }
{}

/// Where a game of the length ends on the diagram, no list without it is the exact answer.
pub fn unlisted_is_a_cook()
    ensures { UnlistedIsACook }
{}

/// Where a game of fewer plies ends on the diagram, no list is the exact answer.
pub fn shorter_is_a_cook()
    ensures { ShorterIsACook }
{}
