//! The trees of a certificate as lines for the page's script, depth first, a line for each node that is told.
//! docs/FORMATS.md has the lines.
ghost use Rattle.std.specs.Prelude.{◌≡◌, ◌++◌, codes};
ghost use Rattle.pg_certificate.specs.Pushing.{Adds, Grows, MayPush, Pushes};
ghost use Rattle.pg_page.specs.Escaping.{escaped};
ghost use Rattle.pg_page.specs.Lines.{leaf_mark};

use crate::floors::Tree;
use crate::lines::{MoveText, move_text, write_escaped};
use crate::log::{Item, Log, Said, read_lists};
use crate::reasons::Reasons;
use arrayvec::{ArrayString, ArrayVec};
use pg_certificate::{Bare, Refused, Sink};
use pg_fen::Diagram;
use pg_moves::LegalMoves;
use pg_position::{Move, Position};
use pg_price_lists::Prices;
use pg_sentences::{
    GrowingDistances, GrowingFares, Node, Sentence, Tally, put_all, put_expanded, put_number,
    put_things, untold,
};

// The lines that are written at once, up to the words at the end of the last: those of the leaves below a node, of
// which a position has at most 218, and that with which it closes.
type Text = ArrayString<3072>;

// Such lines, and the words.
#[derive(Drop)]
struct Lines {
    text: Text,
    words: Sentence,
}

// What is told: the trees of a diagram, so deep; the tree at work, the positions of its open nodes, the price lists of
// the last record, what is known of the diagram's distances and by tariffs, and the reasons that were told last.
#[derive(Drop)]
struct Told<'a> {
    diagram: &'a Diagram,
    tree: Tree,
    open: ArrayVec<Opened, 129>,
    prices: Prices,
    distances: GrowingDistances,
    fares: GrowingFares<'a>,
    reasons: Reasons,
}

// The position of an open node, and what its children are, so far as they were told.
#[derive(Clone, Copy)]
struct Opened {
    position: Position,
    tally: Tally,
}

impl Default for Opened {
    fn default() -> Opened {
        Opened {
            position: Position::array(),
            tally: Tally::default(),
        }
    }
}

// A node that is told: the text of the move that leads there, and its position.
#[derive(Clone, Copy)]
struct Reached {
    text: MoveText,
    position: Position,
}

// Appends a mark and a number.
fn put_marked(text: &mut Text, mark: &str, number: u64) {
    put_all(text, &[mark]);
    put_number(text, number);
}

// Appends the code of the bound that excludes a node, 0 where none does.
fn put_code(text: &mut Text, code: Option<u8>) {
    put_marked(text, ":", u64::from(code.unwrap_or(0)));
}

// The node that a move leads to from a position; none where it is not legal.
fn reached_from(position: &Position, m: &Move) -> Option<Reached> {
    match position.play(*m) {
        Ok(next) => Some(Reached {
            text: move_text(position, m, &next),
            position: next,
        }),
        Err(_) => None,
    }
}

// The node of a line: no move leads to a root, and an empty text stands in its place.
fn node_of(told: &Told, m: &Option<Move>) -> Option<Reached> {
    let Some(m) = m else {
        return Some(Reached {
            text: MoveText::new(),
            position: Position::array(),
        });
    };
    match told.open.last() {
        Some(top) => reached_from(&top.position, m),
        None => None,
    }
}

// Tells of a node that is expanded, and whether its moves are told, and opens it.
fn put_opened(told: &mut Told, left: u8, node: &Reached, text: &mut Text) {
    let _ = told.open.try_push(Opened {
        position: node.position,
        tally: Tally::default(),
    });
    let mark = if told.tree.is_told(left) { "(" } else { "." };
    put_all(text, &[node.text.as_str(), mark]);
}

// In place of a reason that is known stands where.
fn put_known(reasons: &mut Reasons, lines: &mut Lines) {
    if lines.words.is_empty() {
        return;
    }
    if let Some(place) = reasons.meet(&lines.words) {
        lines.words.clear();
        put_marked(&mut lines.text, "~", place as u64);
    }
}

// Tells of a node with nothing below it, and why it is cut. Its price lists, where it has any, are those that were read
// last.
fn put_ended(told: &mut Told, left: u8, reached: &Reached, said: &Bare, lines: &mut Lines) {
    put_all(&mut lines.text, &[reached.text.as_str()]);
    if let Bare::Ref(number) = said {
        return put_marked(&mut lines.text, "@", u64::from(*number));
    }
    let node = Node {
        diagram: told.diagram,
        position: &reached.position,
        left,
    };
    let words = &mut lines.words;
    let code = match told.fares.put_reason_of_cut(&node, said, words) {
        Some(code) => Some(code),
        None => told
            .distances
            .put_reason_of_cut(&node, said, &told.prices, words),
    };
    put_code(&mut lines.text, code);
    put_known(&mut told.reasons, lines);
}

// A node with this record is a child of the topmost open one, which counts it.
fn count_child(told: &mut Told, said: &Bare) {
    let tariffs = told.fares.count();
    if let Some(parent) = told.open.last_mut() {
        parent.tally.count(said, tariffs);
    }
}

// What stands behind the move of a leaf: whether it leads to the diagram.
fn leaf_mark(hit: bool) -> &'static str
    ensures { result.now ≡ leaf_mark hit }
{
    if hit { "*" } else { "," }
}

// Tells of the leaves below a node, and counts them.
fn put_leaves(diagram: &Diagram, node: &mut Opened, text: &mut Text) {
    let mut moves = LegalMoves::new(&node.position);
    for _ in 0..u16::MAX {
        let Some(m) = moves.next() else {
            return;
        };
        if let Some(leaf) = reached_from(&node.position, &m) {
            let hit = diagram.matches(&leaf.position);
            node.tally.count_leaf(hit);
            put_all(text, &[leaf.text.as_str(), leaf_mark(hit), "\n"]);
        }
    }
}

// Tells of the first of the four bounds that excludes a position with one ply left and no game, where one does, and
// counts such a child of the topmost node. Why it does, in words.
fn put_bound(told: &mut Told, position: &Position, text: &mut Text) -> Option<Sentence> {
    let node = Node {
        diagram: told.diagram,
        position,
        left: 1,
    };
    let mut reason = Sentence::new();
    let code = told.distances.put_reason_of_bounds(&node, &mut reason);
    put_code(text, code);
    if let Some(parent) = told.open.last_mut() {
        parent.tally.recount(code);
    }
    match code {
        Some(_) => Some(reason),
        None => None,
    }
}

// Tells what is said of a node that closes: of its moves where they are told, and else of its games, if it has any.
fn put_words(is_told: bool, left: u8, tally: &Tally, reason: &Option<Sentence>, lines: &mut Lines) {
    if is_told {
        put_all(&mut lines.text, &[" "]);
        put_expanded(left, tally, reason, &mut lines.words);
    } else if tally.games > 0 {
        put_all(&mut lines.text, &[" ", untold(tally.games).as_str()]);
    }
}

// Tells how a node closes: its number if it is named, its games if its moves are not told, with one ply left and no
// game the first bound that excludes, and what is said of it.
fn put_close(told: &mut Told, left: u8, node: &Opened, number: Option<u32>, lines: &mut Lines) {
    let is_told = told.tree.is_told(left);
    put_all(&mut lines.text, &[if is_told { ")" } else { "=" }]);
    if let Some(number) = number {
        put_number(&mut lines.text, u64::from(number));
    }
    if !is_told && node.tally.games > 0 {
        put_marked(&mut lines.text, "*", node.tally.games);
    }
    let reason = if left == 1 && node.tally.games == 0 && told.tree.is_last() {
        put_bound(told, &node.position, &mut lines.text)
    } else {
        None
    };
    put_words(is_told, left, &node.tally, &reason, lines);
}

// Tells of the leaves of the topmost node, where they are told, and how it closes, with so many games below.
fn put_closed(told: &mut Told, left: u8, number: Option<u32>, games: u64, lines: &mut Lines) {
    let Some(node) = told.open.pop() else {
        return;
    };
    let mut node = node;
    node.tally.games = games;
    if left == 1 && told.tree.is_told(left) {
        put_leaves(told.diagram, &mut node, &mut lines.text);
    }
    put_close(told, left, &node, number, lines);
}

// Tells that a tree begins; behind the line of the tree without a ply stands its root, which is a leaf.
fn put_began(told: &mut Told, plies: u8, text: &mut Text) {
    told.tree.plies = plies;
    put_marked(text, "/", u64::from(plies));
    if plies == 0 {
        put_all(
            text,
            &["\n", leaf_mark(told.diagram.matches(&Position::array()))],
        );
    }
}

// Tells that a tree ends, with so many expanded nodes.
fn put_over(expanded: u64, text: &mut Text) {
    put_all(text, &[";"]);
    put_things(text, expanded, "expanded node", "expanded nodes");
}

// Tells of a node that is reached, and counts it as a child of the topmost one.
fn put_node(told: &mut Told, lists: &[u8], item: &Item, lines: &mut Lines) {
    let Some(node) = node_of(told, &item.m) else {
        return;
    };
    let Said::Ended { said, at } = &item.said else {
        count_child(told, &Bare::Expand { named: false });
        return put_opened(told, item.left, &node, &mut lines.text);
    };
    count_child(told, said);
    if let Bare::Priced { .. } = said {
        read_lists(lists, *at, &mut told.prices);
    }
    put_ended(told, item.left, &node, said, lines);
}

// Tells what a line says.
fn put_item(told: &mut Told, lists: &[u8], item: &Item, lines: &mut Lines) {
    match &item.said {
        Said::Began => put_began(told, item.left, &mut lines.text),
        Said::Over(expanded) => put_over(*expanded, &mut lines.text),
        Said::Closed { number, games } => put_closed(told, item.left, *number, *games, lines),
        _ => put_node(told, lists, item, lines),
    }
}

// Appends lines, with the words at the end of the last.
fn write_lines<W: Sink>(lines: &Lines, out: &mut W) -> Result<(), Refused>
    ensures { Pushes W.held W.has_failed
        (Adds (lines.now.text.bytes ++ (escaped lines.now.words.bytes ++ codes "\n"))) out.old out.new result }
{
    out.push(lines.text.as_str().as_bytes())?;
    write_escaped(lines.words.as_str(), out)?;
    out.push(b"\n")
}

// Appends the trees that were met, the shorter ones first, each between a line with its plies and one with the number
// of its expanded nodes. Tables of tariffs and known reasons alone take memory; where it is refused, a cut by a tariff is
// not seen to exclude, and reasons are told in full.
pub(crate) fn tell<W: Sink>(diagram: &Diagram, log: &Log<'_>, out: &mut W) -> Result<(), Refused>
    ensures { MayPush W.held W.has_failed Grows out.old out.new result }
{
    let mut told = Told {
        diagram,
        tree: Tree {
            depths: log.depths(),
            plies: 0,
        },
        open: ArrayVec::new(),
        prices: Prices::new(&[], &[]).unwrap(),
        distances: GrowingDistances::new(diagram),
        fares: GrowingFares::new(log.alloc, diagram, log.tariffs),
        reasons: Reasons::new(log.alloc),
    };
    let mut lines = Lines {
        text: Text::new(),
        words: Sentence::new(),
    };
    let lists = log.lists.as_slice();
    for item in log.items.as_slice() {
        lines.text.clear();
        lines.words.clear();
        put_item(&mut told, lists, item, &mut lines);
        write_lines(&lines, out)?;
    }
    Ok(())
}
