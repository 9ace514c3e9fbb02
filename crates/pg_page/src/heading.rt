//! What stands on the page above the trees: the diagram, the verdict and the games.
ghost use Rattle.std.specs.Prelude.{◌≡◌, ◌≤◌, ◌++◌, length};
ghost use Rattle.std.specs.Fmt.{decimal};
ghost use Rattle.pg_certificate.specs.Pushing.{Adds, AddsSome, MayPush, Pushes};
ghost use Rattle.pg_position.specs.Array.{array_state};
ghost use Rattle.pg_san.specs.Games.{IsFromArray};
ghost use Rattle.pg_texts.specs.Movetext.{IsMovetext};
ghost use Rattle.pg_page.specs.Heading.{AreGameItems, AreMoveTexts, IsGameItem, IsGameList, IsHead};
ghost use Rattle.pg_page.specs.Heading.{answer_text, author_text, caption_text, checked_text, end_words, front_text};
ghost use Rattle.pg_page.specs.Heading.{headed_text, list_end, list_start, named_text, title_text, verdict_words};

use crate::board::write_board;
use crate::lines::{move_text, write_around, write_escaped, write_number};
use crate::style::{BEGIN, MEN};
use pg_certificate::{Refused, Sink};
use pg_checker::{Answer, Problem};
use pg_position::{Move, Position};
use pg_san::Games;
use pg_texts::write_movetext;

/// What a page is to be called, and by whom the problem is: any texts, which are escaped. No text stands for none, and
/// a page without a title has its length as one.
#[derive(Clone, Copy, Debug)]
pub struct Caption<'a> {
    pub title: &'a str,
    pub author: &'a str,
}

// What was checked, behind the numbers.
const CHECKED: &str =
    " named nodes: a tree of all games up to this length, with a reason at each branch that ends early. The program
<code>pg</code> has tested each record. Its check is proved: where it says yes, the games below are all there are.</p>
";

// Appends a title, or that of a length where it is empty.
fn write_title<W: Sink>(title: &str, length: &str, out: &mut W) -> Result<(), Refused>
    ensures { MayPush W.held W.has_failed (Adds (title_text title.now length.now)) out.old out.new result }
{
    if title.is_empty() {
        return write_around("A proof game in ", length, " moves", out);
    }
    write_escaped(title, out)
}

// Appends by whom a problem is, where that is said.
fn write_author<W: Sink>(author: &str, out: &mut W) -> Result<(), Refused>
    ensures { MayPush W.held W.has_failed (Adds (author_text author.now)) out.old out.new result }
{
    if author.is_empty() {
        return Ok(());
    }
    out.push(b" by ")?;
    write_escaped(author, out)
}

// Appends the caption of a problem of this length.
fn write_caption<W: Sink>(caption: &Caption<'_>, length: &str, out: &mut W) -> Result<(), Refused>
    ensures { MayPush W.held W.has_failed
        (Adds (caption_text caption.now.title.now caption.now.author.now length.now)) out.old out.new result }
{
    write_title(caption.title, length, out)?;
    write_author(caption.author, out)
}

// Appends the style and the title of the document, up to the problem's diagram.
fn write_named<W: Sink>(caption: &Caption<'_>, length: &str, out: &mut W) -> Result<(), Refused>
    ensures { Pushes W.held W.has_failed
        (Adds (named_text (caption_text caption.now.title.now caption.now.author.now length.now)))
        out.old out.new result }
{
    out.push(BEGIN.as_bytes())?;
    out.push(b"<title>")?;
    write_caption(caption, length, out)?;
    out.push(b"</title>\n</head>\n<body data-diagram=\"")
}

// Appends the drawings of the men, and the heading.
fn write_headed<W: Sink>(caption: &Caption<'_>, length: &str, out: &mut W) -> Result<(), Refused>
    ensures { Pushes W.held W.has_failed
        (Adds (headed_text (caption_text caption.now.title.now caption.now.author.now length.now)))
        out.old out.new result }
{
    out.push(MEN.as_bytes())?;
    out.push(b"<h1>")?;
    write_caption(caption, length, out)?;
    out.push(b"</h1>\n")
}

// Appends what stands before the verdict: the same whatever the answer is.
fn write_front<W: Sink>(
    problem: &Problem,
    caption: &Caption<'_>,
    out: &mut W,
) -> Result<(), Refused>
    ensures { Pushes W.held W.has_failed
        (Adds (front_text problem.now.diagram problem.now.length caption.now.title.now caption.now.author.now))
        out.old out.new result }
{
    let placement = problem.diagram.write();
    let length = problem.length.write();
    let length = length.as_str();
    write_named(caption, length, out)?;
    write_escaped(placement.as_str(), out)?;
    write_around("\" data-length=\"", length, "\" data-plies=\"", out)?;
    write_number("", u64::from(problem.length.plies()), out)?;
    out.push(b"\">\n")?;
    write_headed(caption, length, out)?;
    write_board(&problem.diagram, out)
}

// Appends the verdict on so many games.
fn write_count<W: Sink>(count: usize, out: &mut W) -> Result<(), Refused>
    ensures { Pushes W.held W.has_failed (Adds (verdict_words count)) out.old out.new result }
{
    if count == 0 {
        out.push(b"<strong>No game.</strong> No game of ")
    } else if count == 1 {
        out.push(b"<strong>Sound.</strong> Just one game of ")
    } else {
        write_number("<strong>Cooked.</strong> ", count as u64, out)?;
        out.push(b" games of ")
    }
}

// What so many games do.
fn end_words(count: usize) -> &'static str
    ensures { result.now ≡ end_words count }
{
    if count <= 1 {
        " moves from the initial array ends on this diagram, and no shorter game does.</p>\n<p>"
    } else {
        " moves from the initial array end on this diagram, and no shorter game does.</p>\n<p>"
    }
}

// Appends two numbers, each behind its mark.
fn write_numbers<W: Sink>(
    first: &str,
    number: u64,
    second: &str,
    other: u64,
    out: &mut W,
) -> Result<(), Refused>
    requires first { length first.now ≤ 44 }
    requires second { length second.now ≤ 44 }
    ensures { Pushes W.held W.has_failed
        (Adds ((first.now ++ decimal number) ++ (second.now ++ decimal other))) out.old out.new result }
{
    write_number(first, number, out)?;
    write_number(second, other, out)
}

/// Appends how many records a certificate that was checked has, and how many of its nodes are named: the sentence of a
/// page up to the words behind these numbers.
///
/// # Errors
/// `Refused` where the sink has failed.
pub fn write_checked<W: Sink>(records: u64, named: u32, out: &mut W) -> Result<(), Refused>
    ensures { Pushes W.held W.has_failed (Adds (checked_text records named)) out.old out.new result }
{
    // (a cast, of which the proof sees that it changes nothing)
    let named = named as u64;
    write_numbers(
        "What was checked: a certificate of ",
        records,
        " records with ",
        named,
        out,
    )
}

// Appends a game as moves for the script.
fn write_moves<W: Sink>(game: &[Move], out: &mut W) -> Result<(), Refused>
    requires { IsFromArray game.now }
    ensures { MayPush W.held W.has_failed (AddsSome (AreMoveTexts array_state game.now)) out.old out.new result }
{
    let mut position = Position::array();
    for m in game {
        let next = match position.play(*m) {
            Ok(next) => next,
            Err(_) => unreachable!(),
        };
        out.push(move_text(&position, m, &next).as_str().as_bytes())?;
        out.push(b" ")?;
        position = next;
    }
    Ok(())
}

// Appends the movetext of a game.
fn write_words<W: Sink>(game: &[Move], out: &mut W) -> Result<(), Refused>
    requires { IsFromArray game.now }
    ensures { Pushes W.held W.has_failed (AddsSome (IsMovetext game.now)) out.old out.new result }
{
    match write_movetext(game, out) {
        Ok(()) => Ok(()),
        Err(_) => Err(Refused),
    }
}

// Appends a game as an item of a list, to be played through.
fn write_game<W: Sink>(game: &[Move], out: &mut W) -> Result<(), Refused>
    requires { IsFromArray game.now }
    ensures { Pushes W.held W.has_failed (AddsSome (IsGameItem game.now)) out.old out.new result }
{
    out.push(b"<li><span data-moves=\"")?;
    write_moves(game, out)?;
    out.push(b"\">")?;
    write_words(game, out)?;
    out.push(b"</span></li>\n")
}

// Appends the games of a list, in their order.
fn write_all<W: Sink>(games: &Games, out: &mut W) -> Result<(), Refused>
    ensures { MayPush W.held W.has_failed (AddsSome (AreGameItems games.now)) out.old out.new result }
{
    for i in 0..games.len() {
        let Some(game) = games.game(i) else {
            unreachable!();
        };
        write_game(game, out)?;
    }
    Ok(())
}

// Appends what stands before the games: of more than twenty the list is folded.
fn write_start<W: Sink>(count: usize, out: &mut W) -> Result<(), Refused>
    ensures { Pushes W.held W.has_failed (Adds (list_start count)) out.old out.new result }
{
    if count <= 20 {
        out.push(b"<h2>The games</h2>\n<ol id=\"games\">\n")
    } else {
        write_number("<h2>The games</h2>\n<details><summary>", count as u64, out)?;
        out.push(b" games</summary>\n<ol id=\"games\">\n")
    }
}

// What stands behind so many games.
fn list_end(count: usize) -> &'static str
    ensures { result.now ≡ list_end count }
{
    if count <= 20 {
        "</ol>\n"
    } else {
        "</ol>\n</details>\n"
    }
}

// Appends the list of the games.
fn write_games<W: Sink>(games: &Games, out: &mut W) -> Result<(), Refused>
    ensures { Pushes W.held W.has_failed (AddsSome (IsGameList games.now)) out.old out.new result }
{
    let count = games.len();
    write_start(count, out)?;
    write_all(games, out)?;
    out.push(list_end(count).as_bytes())
}

// Appends the verdict in a sentence, and what was checked.
fn write_answer<W: Sink>(problem: &Problem, answer: &Answer, out: &mut W) -> Result<(), Refused>
    ensures { Pushes W.held W.has_failed
        (Adds (answer_text problem.now.length answer.now)) out.old out.new result }
{
    let count = answer.games.len();
    let length = problem.length.write();
    out.push(b"<p id=\"verdict\">")?;
    write_count(count, out)?;
    out.push(length.as_str().as_bytes())?;
    out.push(end_words(count).as_bytes())?;
    write_checked(answer.proved.records, answer.proved.named, out)?;
    out.push(CHECKED.as_bytes())
}

// Appends all that stands before the trees.
pub(crate) fn write_head<W: Sink>(
    problem: &Problem,
    caption: &Caption<'_>,
    answer: &Answer,
    out: &mut W,
) -> Result<(), Refused>
    ensures { Pushes W.held W.has_failed (AddsSome
        (IsHead problem.now.diagram problem.now.length caption.now.title.now caption.now.author.now answer.now))
        out.old out.new result }
{
    write_front(problem, caption, out)?;
    write_answer(problem, answer, out)?;
    write_games(&answer.games, out)
}
