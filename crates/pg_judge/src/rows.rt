//! The row of a problem.
ghost use Rattle.std.specs.Prelude.{◌≡◌, ◌<◌, ◌++◌, ◌≤◌, cond, eqb, length as length_of, codes, decimal, IfErr};
ghost use Rattle.pg_certificate.specs.Pushing.{Adds, AddsSome, MayPush, Pushes};
ghost use Rattle.pg_san.specs.Games.{IsFromArray};
ghost use Rattle.pg_texts.specs.Movetext.{IsMovetext};
ghost use Rattle.pg_texts.specs.Report.{verdict_text};
ghost use Rattle.pg_cooks.specs.Cooks.{foreign_text};
ghost use Rattle.pg_judge.specs.Ruling.{IsFindingOf};
ghost use Rattle.pg_judge.specs.Rows.{ArePair, AreShown, IsDetail, IsEvidenceText, IsNth, IsOther, IsRowOf, IsSecond};
ghost use Rattle.pg_judge.specs.Rows.{IsTold, IsWritable};
ghost use Rattle.pg_judge.specs.Rows.{IsWritten, below_text, cooks_text, effort_text, finding_text, given_text};
ghost use Rattle.pg_judge.specs.Rows.{head_text, known_text, means_text, reason_text, old_text};

use crate::entry::Entry;
use crate::given::{Given, given_to};
use crate::old::Old;
use crate::progress::Effort;
use crate::ruling::{Evidence, Finding, Known, Means, Reason, Ruling};
use pg_certificate::{Refused, Sink, WriteFault};
use pg_cooks::{write_apart, write_pair_apart};
use pg_fen::Length;
use pg_fen::text::digits;
use pg_position::Move;
use pg_san::Games;
use pg_texts::{Verdict, write_movetext};

// The words for a verdict.
pub(crate) fn verdict_words(verdict: Verdict) -> &'static str
    ensures { result.now ≡ verdict_text verdict }
{
    match verdict {
        Verdict::Sound => "sound",
        Verdict::Cooked => "cooked",
        Verdict::NoGame => "no game",
    }
}

// The words for what is found.
fn finding_words(finding: &Finding) -> &'static str
    ensures { result.now ≡ finding_text finding.now }
{
    match finding {
        Finding::Settled(verdict, _) => verdict_words(*verdict),
        Finding::NotSound(_) => "not sound",
        Finding::NotSettled(_) => "not settled",
    }
}

// The word behind a number of plies.
fn plies_words(n: usize) -> &'static str
    ensures { result.now ≡ cond (eqb n 1) (codes " ply") (codes " plies") }
{
    match n {
        1 => " ply",
        _ => " plies",
    }
}

// The words for a search.
fn effort_words(effort: Effort) -> &'static str
    ensures { result.now ≡ effort_text effort }
{
    match effort {
        Effort::Cooks => "cooks, ",
        Effort::Search => "search, ",
        Effort::Journeys => "journeys, ",
        Effort::Drawn => "drawn, ",
        Effort::Tariffs => "tariffs, ",
        Effort::Tolls => "tolls, ",
    }
}

// The words for why nothing is settled.
fn reason_words(reason: Reason) -> &'static str
    ensures { result.now ≡ reason_text reason }
{
    match reason {
        Reason::Nodes => "limit reached",
        Reason::Time => "time limit reached",
        Reason::Memory => "out of memory",
        Reason::Scratch => "certificate not written",
        Reason::Bytes => "certificate limit reached",
        Reason::Refused => "certificate refused",
    }
}

// The words behind a number of games that were met.
fn met_words(n: usize) -> &'static str
    ensures { result.now ≡ cond (eqb n 1) (codes " game met") (codes " games met") }
{
    match n {
        1 => " game met",
        _ => " games met",
    }
}

// The words behind a number of foreign moves.
fn foreign_words(n: u8) -> &'static str
    ensures { result.now ≡ foreign_text n }
{
    match n {
        1 => " foreign move",
        _ => " foreign moves",
    }
}

// The words for a certificate that stood there and did not settle the problem.
fn old_words(old: Old) -> &'static str
    ensures { result.now ≡ old_text old }
{
    match old {
        Old::Absent => "",
        Old::Refused => ", old certificate refused",
        Old::OfAnother => ", certificate of another problem kept",
    }
}

// Appends a text, a number and a text.
fn write_number<W: Sink>(before: &str, n: usize, behind: &str, out: &mut W) -> Result<(), Refused>
    ensures { Pushes W.held W.has_failed
        (Adds (before.now ++ (decimal n ++ behind.now))) out.old out.new result }
{
    out.push(before.as_bytes())?;
    out.push(digits(n).as_bytes())?;
    out.push(behind.as_bytes())
}

// Appends a text and a number.
fn write_last<W: Sink>(before: &str, n: usize, out: &mut W) -> Result<(), Refused>
    ensures { Pushes W.held W.has_failed (Adds (before.now ++ decimal n)) out.old out.new result }
{
    out.push(before.as_bytes())?;
    out.push(digits(n).as_bytes())
}

// Appends what the author's game is.
fn write_given<W: Sink>(given: Given, out: &mut W) -> Result<(), Refused>
    ensures { Pushes W.held W.has_failed (Adds (given_text given)) out.old out.new result }
{
    match given {
        Given::NoGame => out.push(b"-"),
        Given::Solves => out.push(b"solves"),
        Given::StopsAt(ply) => write_last("fails, ply ", ply, out),
        Given::OfPlies(plies) => write_number("fails, ", plies, plies_words(plies), out),
        Given::EndsElsewhere => out.push(b"fails, ends elsewhere"),
    }
}

// Appends by what something was found.
fn write_means<W: Sink>(means: Means, out: &mut W) -> Result<(), Refused>
    ensures { Pushes W.held W.has_failed (Adds (means_text means)) out.old out.new result }
{
    match means {
        Means::Certificate(records) => {
            write_number("certificate, ", records as usize, " records", out)
        }
        Means::Unread => out.push(b"certificate, time is over"),
        Means::Search(effort, nodes) => {
            write_number(effort_words(effort), nodes as usize, " nodes", out)
        }
    }
}

// Appends two texts, with a tab behind each.
fn write_columns<W: Sink>(first: &str, second: &str, out: &mut W) -> Result<(), Refused>
    ensures { Pushes W.held W.has_failed
        (Adds (first.now ++ (codes "\t" ++ (second.now ++ codes "\t")))) out.old out.new result }
{
    out.push(first.as_bytes())?;
    out.push(b"\t")?;
    out.push(second.as_bytes())?;
    out.push(b"\t")
}

// Appends what is found and what the author's game is, with a tab behind each.
fn write_found<W: Sink>(finding: &Finding, given: Given, out: &mut W) -> Result<(), Refused>
    ensures { Pushes W.held W.has_failed
        (Adds (finding_text finding.now ++ (codes "\t" ++ (given_text given ++ codes "\t")))) out.old out.new result }
{
    out.push(finding_words(finding).as_bytes())?;
    out.push(b"\t")?;
    write_given(given, out)?;
    out.push(b"\t")
}

// Appends by what something was found, with a tab behind it.
fn write_how<W: Sink>(means: Means, old: Old, out: &mut W) -> Result<(), Refused>
    ensures { Pushes W.held W.has_failed
        (Adds (means_text means ++ (old_text old ++ codes "\t"))) out.old out.new result }
{
    write_means(means, out)?;
    out.push(old_words(old).as_bytes())?;
    out.push(b"\t")
}

// Appends the columns before the last.
fn write_head<W: Sink>(
    name: &str,
    length: Length,
    given: Given,
    ruling: &Ruling,
    old: Old,
    out: &mut W,
) -> Result<(), Refused>
    ensures { Pushes W.held W.has_failed
        (Adds (head_text name.now length given ruling.now old)) out.old out.new result }
{
    write_columns(name, length.write().as_str(), out)?;
    write_found(&ruling.finding, given, out)?;
    write_how(ruling.means, old, out)
}

// Appends the movetext of a game from the initial array.
fn write_moves<W: Sink>(game: &[Move], out: &mut W) -> Result<(), Refused>
    requires { IsFromArray game.now }
    ensures { Pushes W.held W.has_failed (AddsSome (IsMovetext game.now)) out.old out.new result }
{
    match write_movetext(game, out) {
        Ok(()) => Ok(()),
        Err(_) => Err(Refused),
    }
}

// Appends the movetext of the game of a list with this index.
fn write_nth<W: Sink>(games: &Games, i: usize, out: &mut W) -> Result<(), Refused>
    requires { i < length_of games.now }
    ensures { Pushes W.held W.has_failed (AddsSome (IsNth games.now i)) out.old out.new result }
{
    // A fact for the proof: they are games from the initial array.
    games.len();
    let Some(game) = games.game(i) else {
        unreachable!();
    };
    write_moves(game, out)
}

// Appends the movetext of the second game of a list, and where the first two part.
fn write_second<W: Sink>(games: &Games, out: &mut W) -> Result<(), Refused>
    requires { 2 ≤ length_of games.now }
    ensures { Pushes W.held W.has_failed (AddsSome (IsSecond games.now)) out.old out.new result }
{
    write_nth(games, 1, out)?;
    write_pair_apart("; they part", games, "", out)
}

// Appends the movetexts of the first two games of a list, and where they part.
fn write_pair<W: Sink>(games: &Games, out: &mut W) -> Result<(), Refused>
    requires { 2 ≤ length_of games.now }
    ensures { Pushes W.held W.has_failed (AddsSome (ArePair games.now)) out.old out.new result }
{
    write_nth(games, 0, out)?;
    out.push(b"; ")?;
    write_second(games, out)
}

// Appends the games of a list: none, one, or how many there are and the first two.
fn write_list<W: Sink>(label: &str, games: &Games, out: &mut W) -> Result<(), Refused>
    ensures { Pushes W.held W.has_failed (AddsSome (AreShown label.now games.now)) out.old out.new result }
{
    match games.len() {
        0 => out.push(b"-"),
        1 => write_nth(games, 0, out),
        n => {
            write_number("", n, label, out)?;
            write_pair(games, out)
        }
    }
}

// Appends a text, and the movetext of a game behind it.
fn write_told<W: Sink>(label: &str, game: &[Move], out: &mut W) -> Result<(), Refused>
    requires { IsFromArray game.now }
    ensures { Pushes W.held W.has_failed (AddsSome (IsTold label.now game.now)) out.old out.new result }
{
    out.push(label.as_bytes())?;
    write_moves(game, out)
}

// Appends the movetext of a shorter game, behind the number of its plies.
fn write_shorter<W: Sink>(game: &[Move], out: &mut W) -> Result<(), Refused>
    requires { IsFromArray game.now }
    ensures { Pushes W.held W.has_failed (AddsSome (IsTold
        (codes "a game of " ++ (decimal (length_of game.now) ++ codes " plies: ")) game.now)) out.old out.new result }
{
    write_number("a game of ", game.len(), " plies: ", out)?;
    write_moves(game, out)
}

// Appends another game, and where it parts from the first of the author's.
fn write_other<W: Sink>(author: &Games, game: &[Move], out: &mut W) -> Result<(), Refused>
    requires { IsFromArray game.now }
    ensures { Pushes W.held W.has_failed (AddsSome (IsOther author.now game.now)) out.old out.new result }
{
    write_told("another game: ", game, out)?;
    write_apart("; they part", author, game, "", out)
}

// Appends what shows that a problem is not sound, beside the author's games.
fn write_evidence<W: Sink>(author: &Games, evidence: &Evidence, out: &mut W) -> Result<(), Refused>
    requires { IsWritable evidence.now }
    ensures { Pushes W.held W.has_failed (AddsSome (IsEvidenceText author.now evidence.now)) out.old out.new result }
{
    match evidence {
        Evidence::Several(games) => write_list(" games met: ", games, out),
        Evidence::Another(game) => write_other(author, game.as_slice(), out),
        Evidence::Shorter(game) => write_shorter(game.as_slice(), out),
    }
}

// Appends below which length no game was met, where that is known.
fn write_below<W: Sink>(below: &Option<Length>, out: &mut W) -> Result<(), Refused>
    ensures { MayPush W.held W.has_failed (Adds (below_text below.now)) out.old out.new result }
{
    match below {
        Some(length) => {
            out.push(b"; none below ")?;
            out.push(length.write().as_bytes())
        }
        None => Ok(()),
    }
}

// Appends how far the search for cooks came.
fn write_cooks<W: Sink>(foreign: Option<u8>, out: &mut W) -> Result<(), Refused>
    ensures { MayPush W.held W.has_failed (Adds (cooks_text foreign)) out.old out.new result }
{
    match foreign {
        Some(n) => write_number(
            "; no cook with at most ",
            usize::from(n),
            foreign_words(n),
            out,
        ),
        None => Ok(()),
    }
}

// Appends what is known where nothing is settled.
pub(crate) fn write_known<W: Sink>(known: &Known, out: &mut W) -> Result<(), Refused>
    ensures { Pushes W.held W.has_failed (Adds (known_text known.now)) out.old out.new result }
{
    write_number("", known.games, met_words(known.games), out)?;
    write_below(&known.below, out)?;
    write_cooks(known.foreign, out)?;
    out.push(b"; ")?;
    out.push(reason_words(known.reason).as_bytes())
}

// Appends the last column.
fn write_detail<W: Sink>(author: &Games, finding: &Finding, out: &mut W) -> Result<(), Refused>
    requires { IsWritten finding.now }
    ensures { Pushes W.held W.has_failed (AddsSome (IsDetail author.now finding.now)) out.old out.new result }
{
    match finding {
        Finding::Settled(_, games) => write_list(" games: ", games, out),
        Finding::NotSound(evidence) => write_evidence(author, evidence, out),
        Finding::NotSettled(known) => write_known(known, out),
    }
}

// Appends a row.
fn append_row<W: Sink>(
    entry: &Entry<'_>,
    ruling: &Ruling,
    old: Old,
    out: &mut W,
) -> Result<(), Refused>
    requires { IsFindingOf entry.now ruling.now.finding }
    ensures { Pushes W.held W.has_failed
        (AddsSome (IsRowOf entry.now ruling.now old)) out.old out.new result }
{
    let length = entry.problem.length;
    write_head(entry.name, length, given_to(entry), ruling, old, out)?;
    write_detail(&entry.games, &ruling.finding, out)?;
    out.push(b"\n")
}

/// Writes the row of a problem, of what is found of it and by what, and of a certificate that stood there and did not
/// settle it. The columns, with a tab between two of them: the name; the length; `sound`, `cooked`, `no game`, `not
/// sound` or `not settled`; `-` where no game is given, `solves` where the author's game does, else `fails, ply 7` for
/// the word that is no move, `fails, 12 plies` or `fails, ends elsewhere`; by what it was found, as `search, 67036
/// nodes`, `journeys, 3033 nodes`, `drawn, 64 nodes`, `tariffs, 64 nodes`, `tolls, 64 nodes`, `cooks, 211 nodes`,
/// `certificate, 67037 records` or `certificate, time is over`, and `, old certificate refused` or `, certificate of
/// another problem kept`; and last the game, of more than one their number and the first two, the
/// other game, the shorter one, or what is known where nothing is settled. Behind two games, and behind another game
/// where the author's is given, stands where the two part, as `write_apart` tells it. Takes no memory.
///
/// # Errors
/// `Write` where the sink has failed.
pub fn write_row<W: Sink>(
    entry: &Entry<'_>,
    ruling: &Ruling,
    old: Old,
    out: &mut W,
) -> Result<(), WriteFault>
    requires { IsFindingOf entry.now ruling.now.finding }
    ensures row { Pushes W.held W.has_failed
        (AddsSome (IsRowOf entry.now ruling.now old)) out.old out.new result }
    ensures fault { IfErr result (λ e. e ≡ WriteFault.Write) }
{
    match append_row(entry, ruling, old, out) {
        Ok(()) => Ok(()),
        Err(Refused) => Err(WriteFault::Write),
    }
}
