//! Searches for all games: what they answer, write and tell.

use super::*;
use crate::shared::Goal;
use pg_certificate::{Sink, ToWrite};
use pg_fen::{Diagram, Length};
use pg_trial::FailsAt;
use std::io::ErrorKind;

// A search of `nodes` nodes, whose piece with the number `at` cannot be written.
#[derive(Clone, Copy)]
struct Asked {
    goal: Goal,
    nodes: u64,
    at: u64,
}

type Pieces = ToWrite<FailsAt<Vec<u8>>>;

fn pieces<R: Abort + AllocGlobal>(rt: &R, asked: &Asked) -> Pieces {
    ToWrite::new(FailsAt::new(Vec::new(rt.alloc()), asked.at, ErrorKind::Other))
}

// Hears what was written, and says how many pieces there were.
fn hear_pieces(pieces: Pieces, heard: &mut Heard) -> u64 {
    let writer = pieces.into_inner();
    let calls = writer.calls();
    heard.digest.add_bytes(writer.into_inner().as_slice());
    calls
}

// What a search answers, and how many pieces it wrote; all that it told, found and wrote is heard.
fn said<R: Abort + AllocGlobal>(rt: &R, asked: &Asked, heard: &mut Heard) -> Said {
    let mut sink = pieces(rt, asked);
    let (diagram, length) = (&asked.goal.diagram, asked.goal.length);
    let answer = search_watched(rt.alloc(), diagram, length, asked.nodes, &mut sink, heard);
    let said = match answer {
        Ok(games) => {
            heard.hear_games(&games);
            words(&"Found")
        }
        Err(fault) => words(&format_args!("{fault:?}")),
    };
    words(&format_args!("{} {}", said.as_str(), hear_pieces(sink, heard)))
}

// How many searches found games, came to their limit, met a shorter game, and could not write.
#[derive(Clone, Copy)]
struct Kinds {
    found: u32,
    budget: u32,
    shorter: u32,
    write: u32,
}

impl Kinds {
    fn count(&mut self, said: &str) {
        let kind = said.split(' ').next().unwrap_or("");
        if kind.starts_with("Found") {
            self.found = self.found.saturating_add(1);
        } else if kind.starts_with("Budget") {
            self.budget = self.budget.saturating_add(1);
        } else if kind.starts_with("Shorter") {
            self.shorter = self.shorter.saturating_add(1);
        } else if kind.starts_with("Write") {
            self.write = self.write.saturating_add(1);
        }
    }
}

// A problem by chance: where a game ends, at its length or some plies more.
pub(super) fn drawn_goal<R: Abort + AllocGlobal>(
    rt: &R,
    begun: &str,
    plies: u64,
    state: &mut u64,
) -> Goal {
    let walk = drawn_game(rt, begun, plies, state);
    let plies = walk.game.len().min(60) as u8;
    Goal {
        diagram: Diagram::of(&walk.end),
        length: Length::from_plies(plies.saturating_add(few_more(state))).expect(rt, "length"),
    }
}

// Searches for the games of a row.
fn check_begun<R: Abort + AllocGlobal>(rt: &R, row: &str, state: &mut u64, kinds: &mut Kinds) {
    let (drawn_so, wanted) = halves(rt, row, " => ");
    let begun = begun_in(rt, drawn_so);
    let plies = number(rt, field(drawn_so, 1));
    let mut batch = Batch::new();
    for nodes in [400u64, 2_000, 6_000, 12_000] {
        let asked = Asked {
            goal: drawn_goal(rt, begun, plies, state),
            nodes: limit_of(nodes, state),
            at: drawn(state, 8),
        };
        let said = said(rt, &asked, &mut batch.heard);
        kinds.count(said.as_str());
        batch.add(said.as_str());
    }
    assert_eq!(rt; batch.row().as_str(), wanted, "{drawn_so}");
}

// Which game begins, and how many plies by chance follow; what four searches answered, each with its pieces, and the
// digest of all that they told, found and wrote.
const SEARCHES: &str = "0 | 0 => Found 1 | Found 1 | Found 1 | Shorter(0) 0 | ddad473c5b58646d
0 | 1 => Shorter(1) 0 | Found 1 | Found 1 | Found 1 | 4468c073bf3abf43
0 | 2 => Shorter(2) 0 | Shorter(2) 0 | Found 1 | Shorter(2) 0 | 4b3c338fa69593b3
0 | 3 => Found 1 | Found 1 | Found 1 | Found 1 | 8d9e4da31f08a3c5
0 | 4 => Found 1 | Shorter(4) 0 | Shorter(4) 0 | Found 1 | a9247cda103668a7
0 | 5 => Shorter(4) 0 | Found 1 | Shorter(5) 0 | Found 1 | 357a4b74c992e386
0 | 6 => Budget 0 | Shorter(6) 0 | Shorter(6) 0 | Found 1 | 40d03f8cdda8bc1c
0 | 7 => Shorter(6) 0 | Shorter(6) 0 | Write 2 | Found 1 | bc861ababb52094f
0 | 8 => Shorter(7) 0 | Budget 0 | Shorter(8) 0 | Found 3 | a16db7092e642b89
1 | 0 => Shorter(8) 0 | Found 1 | Shorter(8) 0 | Found 1 | 9edace2d987f338d
1 | 1 => Budget 0 | Found 1 | Found 1 | Found 1 | f9f94bed1a2c32e0
1 | 2 => Shorter(10) 0 | Budget 0 | Write 2 | Found 1 | f1377e5af0fe19e6
1 | 3 => Budget 0 | Budget 1 | Write 1 | Budget 3 | 67ce418e2961a449
1 | 4 => Budget 0 | Budget 0 | Write 2 | Write 4 | bfbd90e13fd34a38
1 | 5 => Budget 1 | Budget 0 | Write 1 | Budget 1 | d8ba2c11e03360df
1 | 6 => Budget 2 | Write 3 | Budget 3 | Budget 6 | 74674a684cc548fc
1 | 7 => Budget 0 | Write 2 | Budget 2 | Write 8 | fc43434028452ece
1 | 8 => Budget 1 | Budget 0 | Budget 4 | Budget 6 | b6ff903e8f503f26
2 | 0 => Shorter(6) 0 | Found 1 | Found 1 | Found 1 | 4fddd68a8a09ffc9
2 | 1 => Shorter(6) 0 | Shorter(7) 0 | Found 1 | Shorter(6) 0 | 1fe19903b58fadbd
2 | 2 => Shorter(8) 0 | Shorter(7) 0 | Budget 0 | Shorter(7) 0 | 08623a6d6bb9ac0b
2 | 3 => Shorter(8) 0 | Shorter(8) 0 | Shorter(9) 0 | Write 2 | ff7db806fe333ad4
2 | 4 => Budget 0 | Budget 0 | Budget 2 | Shorter(9) 0 | 5508bc130a2d389f
2 | 5 => Budget 0 | Budget 0 | Budget 2 | Shorter(10) 0 | 71eaeb5184073674
2 | 6 => Budget 0 | Shorter(12) 0 | Shorter(11) 0 | Shorter(12) 0 | c4a45fd4d95793f7
2 | 7 => Budget 0 | Budget 0 | Shorter(13) 0 | Shorter(11) 0 | 39b35fe0aa529355
2 | 8 => Budget 0 | Budget 0 | Budget 2 | Budget 0 | aac21c1dab594eb1
3 | 0 => Shorter(8) 0 | Found 1 | Shorter(8) 0 | Found 1 | 562218724b875119
3 | 1 => Budget 0 | Shorter(8) 0 | Shorter(9) 0 | Shorter(9) 0 | 1778269e6d54f823
3 | 2 => Shorter(10) 0 | Shorter(10) 0 | Budget 1 | Shorter(10) 0 | 4fa292f64a936e6b
3 | 3 => Shorter(10) 0 | Shorter(11) 0 | Shorter(11) 0 | Shorter(10) 0 | f3bc5a6e763ccbc6
3 | 4 => Budget 0 | Budget 0 | Budget 1 | Write 3 | 09332f7ba214374b
3 | 5 => Budget 0 | Budget 0 | Budget 2 | Shorter(11) 0 | 0c1d853686f9cab9
3 | 6 => Shorter(13) 0 | Shorter(11) 0 | Shorter(12) 0 | Budget 0 | ea1383f3533c23fd
3 | 7 => Budget 0 | Budget 0 | Budget 2 | Write 1 | 6f81eeba41d3fdf5
3 | 8 => Budget 0 | Write 1 | Shorter(14) 1 | Shorter(15) 0 | ce58ba49beea19ce
4 | 0 => Write 1 | Shorter(4) 0 | Found 1 | Write 1 | a4d4fd33a79c9e11
4 | 1 => Shorter(5) 0 | Write 1 | Found 1 | Shorter(5) 0 | 3847655087f59a56
4 | 2 => Shorter(6) 0 | Budget 0 | Budget 0 | Shorter(6) 0 | 4435392fb28c1978
4 | 3 => Shorter(7) 0 | Budget 0 | Found 1 | Found 2 | 5a71612c56013951
4 | 4 => Budget 0 | Budget 0 | Write 2 | Budget 4 | 778ea20bcb330e43
4 | 5 => Budget 0 | Budget 0 | Budget 1 | Shorter(8) 0 | 7788485af3defc85
4 | 6 => Budget 0 | Shorter(10) 0 | Shorter(9) 0 | Shorter(10) 0 | 56a3651730f40232
4 | 7 => Budget 0 | Budget 0 | Budget 2 | Write 1 | 85b8e199bcc6cf91
4 | 8 => Shorter(12) 0 | Shorter(12) 0 | Shorter(12) 2 | Write 3 | 4ce1321343a6b1c0
5 | 0 => Found 1 | Shorter(6) 0 | Found 1 | Found 1 | 788f051b06a3ac74
5 | 1 => Found 1 | Shorter(6) 0 | Shorter(6) 0 | Shorter(6) 0 | 6c289c50f2c38732
5 | 2 => Budget 0 | Shorter(8) 0 | Shorter(8) 0 | Shorter(7) 0 | 10a58b009f196170
5 | 3 => Shorter(9) 0 | Shorter(9) 0 | Found 1 | Shorter(8) 0 | 690e47faa58cb9ce
5 | 4 => Budget 0 | Shorter(9) 0 | Found 2 | Write 5 | 5b2f9361e006958b
5 | 5 => Budget 0 | Budget 0 | Budget 2 | Write 8 | 854bff9b5561b9be
5 | 6 => Budget 0 | Budget 1 | Write 3 | Budget 0 | e0c464368fea36d5
5 | 7 => Budget 0 | Budget 1 | Shorter(9) 0 | Budget 0 | 8f81b43bf74db693
5 | 8 => Budget 0 | Budget 0 | Write 3 | Shorter(12) 1 | de09474c414750e5
6 | 0 => Found 1 | Found 1 | Shorter(5) 0 | Shorter(5) 0 | dd18fe9e78a8508b
6 | 1 => Budget 0 | Write 1 | Budget 2 | Shorter(6) 0 | 7ca254e0eff74b27
6 | 2 => Budget 0 | Shorter(7) 0 | Write 1 | Found 1 | e2fcbc87e2295ab6
6 | 3 => Budget 0 | Budget 0 | Budget 0 | Shorter(8) 0 | 839e576530aae9aa
6 | 4 => Budget 0 | Budget 0 | Write 2 | Budget 1 | 2a825a95232877b4
6 | 5 => Budget 0 | Shorter(10) 2 | Budget 0 | Write 2 | 014d13b9460484fa
6 | 6 => Shorter(11) 0 | Budget 0 | Budget 2 | Write 2 | 9240e393949d8883
6 | 7 => Budget 0 | Budget 0 | Budget 0 | Budget 5 | 9ce75854d4d9dba7
6 | 8 => Shorter(13) 0 | Shorter(13) 0 | Budget 2 | Shorter(13) 0 | 860d76b492adfd1e";

#[test]
fn searches_are_those_from_node_to_node(rt: HostRuntime) {
    let mut state = 1;
    let mut kinds = Kinds {
        found: 0,
        budget: 0,
        shorter: 0,
        write: 0,
    };
    for row in SEARCHES.lines() {
        check_begun(&rt, row, &mut state, &mut kinds);
    }
    assert!(rt; kinds.found > 9, "{}", kinds.found);
    assert!(rt; kinds.budget > 9, "{}", kinds.budget);
    assert!(rt; kinds.shorter > 2, "{}", kinds.shorter);
    assert!(rt; kinds.write > 9, "{}", kinds.write);
}
