//! What reading and spelling have to do with one another. Each law is a function that does nothing:
//! its contract is the law.
ghost use Rattle.std.specs.Prelude.{◌≡◌, List, ℕ};
ghost use Rattle.pg_certificate.specs.declared.format.TheConstants.{LONGEST_RECORD};
ghost use Rattle.pg_certificate.specs.Spelling.{longest_record};
ghost use Rattle.pg_certificate.specs.Laws.{RecordsAreReadAgain, WhatIsReadIsSpelled, NoSpellingBeginsAnother};
ghost use Rattle.pg_certificate.specs.Laws.{NoSpellingIsLonger};
ghost use Rattle.pg_certificate.specs.Laws.{TruncatedWhereCutShort, UnknownWhereNoneGoesOn};
ghost use Rattle.pg_certificate.specs.Laws.{HeadersAreReadAgain, WhatIsReadIsAHeader, RefusesWhatIsNoHeader};

/// Bytes that begin with the spelling of a record of a version are read as that record by that
/// version, and what follows is left.
pub fn records_are_read_again()
    ensures { RecordsAreReadAgain }
{}

/// The bytes of a record that is read begin with its spelling, and it is a record of the version by
/// which it was read.
pub fn what_is_read_is_spelled()
    ensures { WhatIsReadIsSpelled }
{}

/// No record's spelling begins that of another: where the same bytes begin with two, the records
/// are one.
pub fn no_spelling_begins_another()
    ensures { NoSpellingBeginsAnother }
{}

/// No record has more bytes than the longest, whose length is [`format::LONGEST_RECORD`].
///
/// [`format::LONGEST_RECORD`]: crate::format::LONGEST_RECORD
pub fn no_spelling_is_longer()
    ensures longest { NoSpellingIsLonger }
    ensures length { longest_record ≡ LONGEST_RECORD }
{}

/// Reading a record answers Truncated exactly where the bytes are less than a whole one.
pub fn truncated_where_cut_short()
    ensures { TruncatedWhereCutShort }
{}

/// Reading a record answers UnknownRecord exactly at the first byte that no record of the version
/// can have at its place.
pub fn unknown_where_none_goes_on()
    ensures { UnknownWhereNoneGoesOn }
{}

/// Bytes that begin with a header's spelling are read as that header, and what follows is left.
pub fn headers_are_read_again()
    ensures { HeadersAreReadAgain }
{}

/// The bytes of a header that is read begin with its spelling.
pub fn what_is_read_is_a_header()
    ensures { WhatIsReadIsAHeader }
{}

/// Reading a header answers Truncated exactly at fewer than 37 bytes, and Magic exactly at 37 or
/// more that begin with no header's spelling.
pub fn refuses_what_is_no_header()
    ensures { (bytes : List ℕ) → RefusesWhatIsNoHeader bytes }
{}
