//! Led searches: what they answer and tell without the cut by journeys, and that those with it find the same games.

use super::*;
use pg_fen::{Diagram, Length};

// Games that lead, and limits.
#[derive(Drop)]
struct Asked {
    diagram: Diagram,
    length: Length,
    games: Games,
    nodes: u64,
    foreign: Option<u8>,
}

// How many foreign moves the games have at most of which each was met.
fn most(foreign: Option<u8>) -> Said {
    match foreign {
        Some(most) => words(&format_args!("told {most}")),
        None => words(&"none"),
    }
}

// What a led search without the cut by journeys answers; all that it told and found is heard.
fn said<R: Abort + AllocGlobal>(rt: &R, asked: &Asked, heard: &mut Heard) -> Said {
    let limits = LedLimits {
        max_nodes: asked.nodes,
        foreign: asked.foreign,
    };
    let (diagram, length, games) = (&asked.diagram, asked.length, &asked.games);
    let alloc = rt.alloc();
    match search_led_without_journeys(alloc, diagram, length, games, limits, heard) {
        Ok(Led::Found(game)) => {
            heard.hear_game(game.as_slice());
            words(&"Found")
        }
        Ok(Led::NotFound { foreign, nodes, .. }) => words(&format_args!(
            "{} {nodes}",
            most(foreign).as_str()
        )),
        Err(fault) => words(&format_args!("{fault:?}")),
    }
}

// Adds a game with two moves of a side in the other order, where that is a game to the same diagram.
fn add_swapped<R: Abort + AllocGlobal>(rt: &R, asked: &mut Asked, game: &[Move], at: usize) {
    let mut other: Vec<Move> = Vec::new(rt.alloc());
    for i in 0..game.len() {
        let from = if i == at {
            at.saturating_add(2)
        } else if i == at.saturating_add(2) {
            at
        } else {
            i
        };
        other
            .push(*game.get(from).expect(rt, "a move"))
            .expect(rt, "memory");
    }
    if let Some(end) = end_of(other.as_slice()) {
        if asked.diagram.matches(&end) && !asked.games.contains(other.as_slice()) {
            asked.games.add(other.as_slice()).expect(rt, "a game");
        }
    }
}

// No limit of foreign moves, or one up to two.
fn foreign_by_chance(state: &mut u64) -> Option<u8> {
    match drawn(state, 4) {
        0 => None,
        1 => Some(0),
        2 => Some(1),
        _ => Some(2),
    }
}

// A game by chance leads, and some games with two of its moves in the other order; at its length, or some plies more.
fn drawn_list<R: Abort + AllocGlobal>(
    rt: &R,
    begun: &str,
    plies: u64,
    nodes: u64,
    state: &mut u64,
) -> Asked {
    let walk = drawn_game(rt, begun, plies, state);
    let plies = walk.game.len().min(60) as u8;
    let mut asked = Asked {
        diagram: Diagram::of(&walk.end),
        length: Length::from_plies(plies.saturating_add(few_more(state))).expect(rt, "length"),
        games: Games::new(rt.alloc()),
        nodes: limit_of(nodes, state),
        foreign: foreign_by_chance(state),
    };
    asked.games.add(walk.game.as_slice()).expect(rt, "a game");
    for at in 2..walk.game.len() {
        if drawn(state, 2) == 0 {
            add_swapped(rt, &mut asked, walk.game.as_slice(), at.saturating_sub(2));
        }
    }
    asked
}

// A game in which eight men of either side leave their squares.
const PAWNS: &str = "1. a3 a6 2. b3 b6 3. c3 c6 4. d3 d6 5. e3 e6 6. f3 f6 7. g3 g6 8. h3 h6";

// Adds a game in which `men` men of either side leave their squares, wherever it ends.
fn add_crowd<R: Abort + AllocGlobal>(rt: &R, asked: &mut Asked, men: usize) {
    let pawns = games_of(rt, PAWNS);
    let game = pawns.game(0).expect(rt, PAWNS);
    let moves = game.get(..men.saturating_mul(2)).expect(rt, PAWNS);
    if !asked.games.contains(moves) {
        asked.games.add(moves).expect(rt, "a game");
    }
}

// How many searches found a game, met all games with up to some number of foreign moves, met not even those with none,
// and failed.
#[derive(Clone, Copy)]
struct Kinds {
    found: u32,
    told: u32,
    none: u32,
    failed: u32,
}

impl Kinds {
    fn none() -> Kinds {
        Kinds {
            found: 0,
            told: 0,
            none: 0,
            failed: 0,
        }
    }

    fn count(&mut self, said: &str) {
        if said.starts_with("Found") {
            self.found = self.found.saturating_add(1);
        } else if said.starts_with("none") {
            self.none = self.none.saturating_add(1);
        } else if said.starts_with("told") {
            self.told = self.told.saturating_add(1);
        } else {
            self.failed = self.failed.saturating_add(1);
        }
    }

    fn check(&self, rt: &impl Abort) {
        assert!(rt; self.found > 9, "{}", self.found);
        assert!(rt; self.told > 9, "{}", self.told);
        assert!(rt; self.none > 9, "{}", self.none);
        assert!(rt; self.failed == 0, "{}", self.failed);
    }
}

// Led searches for the games of a row.
fn check_begun<R: Abort + AllocGlobal>(rt: &R, row: &str, state: &mut u64, kinds: &mut Kinds) {
    let (drawn_so, wanted) = halves(rt, row, " => ");
    let begun = begun_in(rt, drawn_so);
    let plies = number(rt, field(drawn_so, 1));
    let mut batch = Batch::new();
    for nodes in [60u64, 400, 2_000, 6_000] {
        let asked = drawn_list(rt, begun, plies, nodes, state);
        let said = said(rt, &asked, &mut batch.heard);
        kinds.count(said.as_str());
        batch.add(said.as_str());
    }
    assert_eq!(rt; batch.row().as_str(), wanted, "{drawn_so}");
}

// Which game begins, and how many plies by chance follow; what four searches answered, and the digest of all that they
// told and found.
const LISTS: &str = "0 | 0 => told 0 0 | told 0 0 | told 0 0 | told 0 0 | cbf29ce484222325
0 | 1 => told 0 21 | told 0 0 | told 0 0 | told 0 0 | d9465f186c0993e0
0 | 2 => none 60 | told 1 86 | told 0 21 | told 1 86 | 7c0af75f162481a6
0 | 3 => Found | Found | Found | Found | bc4fd170dbffca85
0 | 4 => Found | Found | told 1 221 | Found | fc9999b662a731f6
0 | 5 => Found | Found | Found | Found | c34b4835b624dea1
0 | 6 => none 60 | Found | Found | Found | fd8060dff828d19e
0 | 7 => none 16 | Found | Found | Found | db97d709ba33634a
0 | 8 => none 60 | Found | Found | Found | 0078090f2ad40fdf
0 | 9 => none 60 | none 263 | Found | Found | e2a0a13c944ce43f
0 | 10 => none 60 | Found | Found | Found | 87d9af6684a25705
0 | 11 => Found | Found | none 1722 | Found | 04681c5cf024bb14
0 | 12 => none 49 | none 7 | Found | Found | 3028a7641651a9ed
1 | 0 => told 0 44 | told 1 188 | told 1 188 | Found | c713c255bd6d4359
1 | 1 => Found | none 42 | Found | told 1 324 | 1f8f7dc53ab514c2
1 | 2 => none 26 | Found | Found | Found | 2b49f88e2dd648b9
1 | 3 => Found | Found | Found | Found | 3498dc0b1257fd61
1 | 4 => Found | Found | Found | Found | a597a5786ba8257b
1 | 5 => none 60 | none 367 | Found | Found | 67add1ba40248a9f
1 | 6 => none 60 | Found | Found | Found | 392f96b2bad41815
1 | 7 => none 33 | Found | Found | Found | 216d0be31712de5a
1 | 8 => Found | none 38 | Found | Found | ac0eeb4afe9b3d45
1 | 9 => none 60 | Found | Found | Found | 53a63525ec716bdf
1 | 10 => none 60 | Found | Found | none 6000 | 7475f6edefcf8535
1 | 11 => none 13 | none 35 | none 1409 | none 30 | 788af5c7f5e589cf
1 | 12 => none 16 | none 400 | Found | Found | c099f28297014e1f
2 | 0 => none 25 | Found | Found | Found | ebb19d11a47d0b8a
2 | 1 => none 11 | Found | Found | Found | f190da9d52145189
2 | 2 => none 29 | Found | Found | Found | a1c9de930a75d2b0
2 | 3 => none 60 | none 123 | Found | Found | 7a16738222866bb1
2 | 4 => none 37 | Found | Found | Found | 2cc580765c5d5a2f
2 | 5 => none 49 | none 400 | Found | Found | 1c095ac8f48f56be
2 | 6 => none 31 | none 104 | Found | Found | 4be884523498f0bd
2 | 7 => none 28 | none 400 | Found | Found | 7a66ccd24c412dd6
2 | 8 => Found | none 400 | Found | none 265 | abbb01a48e73d04c
2 | 9 => Found | Found | Found | Found | 036345029a973b0c
2 | 10 => Found | Found | Found | Found | fb9f3458139b8389
2 | 11 => none 30 | Found | Found | none 6000 | aecd9b7d9480e70c
2 | 12 => Found | none 24 | none 1229 | Found | 2cf39d0af75b43ee
3 | 0 => none 60 | Found | Found | Found | 7c83ed803ca1649f
3 | 1 => none 60 | Found | Found | Found | 7ab330a85908fa9f
3 | 2 => none 55 | Found | Found | Found | 90d97d0cfb967db3
3 | 3 => none 60 | Found | Found | Found | 5aaba478396e447c
3 | 4 => none 60 | none 400 | Found | Found | 5ac17af521afd62a
3 | 5 => Found | Found | Found | Found | f35010c2e1246c8b
3 | 6 => none 60 | Found | none 625 | Found | d86e0b04ee30cbd7
3 | 7 => none 60 | none 268 | Found | Found | dfbf2cd58ec1e12f
3 | 8 => none 60 | none 91 | Found | Found | 909bf4ce541f9488
3 | 9 => none 60 | Found | Found | Found | ff006ce70654ec39
3 | 10 => none 7 | Found | Found | Found | 52a0f14950971f3f
3 | 11 => none 1 | none 305 | Found | Found | c945a25e01259552
3 | 12 => none 6 | Found | none 2000 | none 6000 | 22068a52c0663abd
4 | 0 => none 12 | Found | told 1 172 | Found | c79fa78f5897ee4a
4 | 1 => Found | none 3 | Found | Found | 579765a2c26aab54
4 | 2 => none 60 | Found | none 91 | Found | 5eff6367421809d7
4 | 3 => none 18 | Found | Found | Found | 8b55a574b9be2cf9
4 | 4 => none 56 | Found | Found | Found | 3a09b9a7641a2602
4 | 5 => none 60 | Found | Found | Found | 5654760957f5c4d7
4 | 6 => none 1 | Found | Found | Found | 34277b455be5ef41
4 | 7 => Found | none 400 | Found | Found | 7d37856be79ec50d
4 | 8 => none 60 | Found | Found | Found | 3c8b7682ca5137d2
4 | 9 => Found | none 141 | Found | Found | 473aebbe977a5fae
4 | 10 => none 11 | Found | Found | none 15 | b69f59a352651f10
4 | 11 => none 60 | Found | Found | Found | 8d0b76a50e0d7bba
4 | 12 => none 60 | Found | none 520 | none 744 | 75c52e41cfacc481
5 | 0 => none 8 | Found | told 0 37 | told 0 37 | a83f00c2eb6379c8
5 | 1 => Found | Found | Found | Found | 22b8b52dfb07f4af
5 | 2 => none 60 | told 0 86 | none 312 | Found | 7b183a1152e82828
5 | 3 => none 60 | none 28 | Found | Found | 99e052409409d7e9
5 | 4 => none 60 | Found | Found | Found | 50beea9d2ff17a34
5 | 5 => none 59 | Found | Found | Found | ddc74e6607638247
5 | 6 => none 60 | none 90 | Found | Found | 09ef1b65ae57b75c
5 | 7 => none 57 | Found | Found | Found | 7dcb1879da6f8139
5 | 8 => none 30 | Found | Found | Found | 22462600573725c6
5 | 9 => Found | Found | none 911 | Found | 38e09ffe40c945e5
5 | 10 => none 60 | none 357 | none 585 | Found | 68e54acf1c3725d5
5 | 11 => none 26 | none 78 | none 17 | none 6000 | 90eebd4e623fcdf6
5 | 12 => none 14 | none 400 | none 2000 | Found | c27dbb695e092197
6 | 0 => none 60 | Found | Found | Found | 9e1c5938eed24ad2
6 | 1 => none 5 | Found | Found | Found | 871a3c9652c7a1d9
6 | 2 => Found | Found | Found | told 0 106 | f16c40f7d6ee1680
6 | 3 => none 60 | none 136 | Found | Found | 626a74769d855c31
6 | 4 => none 60 | Found | Found | Found | 52452da7ec4e7f5d
6 | 5 => none 16 | none 235 | Found | Found | d1c4d37c81f06b13
6 | 6 => none 30 | Found | Found | Found | 485fd3e83190d65f
6 | 7 => none 60 | Found | Found | Found | 2949ab6c940becf5
6 | 8 => none 43 | Found | Found | Found | f938840bd81484cb
6 | 9 => none 60 | none 400 | Found | Found | f2d74a8977b4a357
6 | 10 => none 48 | none 240 | none 630 | Found | 34471f9b917e66ad
6 | 11 => none 9 | Found | none 1697 | Found | 29103e4b8ba4130c
6 | 12 => none 10 | Found | Found | Found | 36d72d1f54b5fa1a";

#[test]
fn led_searches_are_those_from_node_to_node(rt: HostRuntime) {
    let mut state = 1;
    let mut kinds = Kinds::none();
    for row in LISTS.lines() {
        check_begun(&rt, row, &mut state, &mut kinds);
    }
    kinds.check(&rt);
}

// The same with a game besides in which five to eight men of either side leave their squares: six are tried one by
// one, seven and more are not.
fn check_crowds<R: Abort + AllocGlobal>(rt: &R, row: &str, state: &mut u64, kinds: &mut Kinds) {
    let (drawn_so, wanted) = halves(rt, row, " => ");
    let begun = begun_in(rt, drawn_so);
    let plies = number(rt, field(drawn_so, 1));
    let mut batch = Batch::new();
    for men in 5..9usize {
        let mut asked = drawn_list(rt, begun, plies, 1_000, state);
        add_crowd(rt, &mut asked, men);
        let said = said(rt, &asked, &mut batch.heard);
        kinds.count(said.as_str());
        batch.add(said.as_str());
    }
    assert_eq!(rt; batch.row().as_str(), wanted, "{drawn_so}");
}

// As above, of four searches with such a game each.
const CROWDS: &str = "0 | 0 => told 0 0 | told 0 0 | told 0 0 | told 0 0 | cbf29ce484222325
0 | 1 => told 0 0 | told 0 0 | told 0 0 | told 1 74 | 2908c0486aaa5e1c
0 | 2 => told 0 21 | told 0 21 | told 0 21 | told 0 21 | 1979f4bd7e2f6094
0 | 3 => told 1 112 | none 52 | Found | Found | e5119d5edf69d4b7
0 | 4 => Found | Found | Found | told 0 65 | 9bc7fcb21c81363f
0 | 5 => Found | Found | Found | told 0 50 | fbe6a11a2afa4044
0 | 6 => Found | Found | Found | Found | 6ea859c33adf6da7
1 | 0 => told 1 215 | told 0 69 | told 1 227 | told 1 231 | fd7cf295f02e1bd8
1 | 1 => Found | told 1 258 | Found | Found | 33c23fc3efc3f5d2
1 | 2 => told 0 229 | none 1000 | none 1000 | Found | 4ec6b3f217852c66
1 | 3 => Found | none 45 | Found | Found | ed4ec27da8c9d57e
1 | 4 => Found | Found | Found | Found | 90f5670356a57464
1 | 5 => Found | none 1000 | none 60 | none 1000 | 2761e32d2e2e99e3
1 | 6 => Found | Found | none 128 | none 41 | 17a57f34fee7c20e
2 | 0 => Found | Found | none 38 | Found | 5eab7e2845d8b15b
2 | 1 => Found | Found | Found | none 170 | 6b71347a3dcd28d3
2 | 2 => Found | Found | Found | none 444 | 26935c9598cd9914
2 | 3 => Found | Found | Found | Found | dd61db1a5b78a383
2 | 4 => Found | Found | Found | Found | 5e619b531168c289
2 | 5 => Found | none 523 | Found | Found | df287ae54ab49cba
2 | 6 => Found | Found | Found | Found | 1a965c612f923800
3 | 0 => Found | Found | Found | Found | f40fa92fc95b6eab
3 | 1 => Found | Found | Found | Found | 32d87f35bd6711fa
3 | 2 => Found | Found | Found | Found | 769a7181974975ea
3 | 3 => none 137 | Found | Found | Found | 01987a9c6f5e52ea
3 | 4 => Found | Found | Found | Found | 2529eb374013a7e6
3 | 5 => none 1000 | Found | Found | Found | c2817007c219d075
3 | 6 => Found | none 1000 | Found | none 1000 | 9f899342fd78c0db
4 | 0 => Found | Found | Found | told 0 83 | 4f530b82313876c6
4 | 1 => Found | Found | Found | none 50 | 089563b695f0cd9e
4 | 2 => Found | Found | Found | Found | 9cd4bf47df645c03
4 | 3 => Found | Found | Found | Found | f4a144a03f684f41
4 | 4 => none 16 | Found | Found | none 922 | 6842a67c1a65b0c3
4 | 5 => Found | Found | Found | Found | b180390e3e422489
4 | 6 => none 1000 | none 1000 | Found | none 676 | ba65e79e39b9724f
5 | 0 => Found | told 0 60 | told 1 178 | Found | 4bf08a27db17de36
5 | 1 => Found | Found | told 2 597 | told 1 362 | 41db6480925496f1
5 | 2 => none 37 | Found | told 0 929 | Found | 0602d51800dd32f5
5 | 3 => Found | Found | none 87 | none 180 | 3aa54fa0ec52d084
5 | 4 => none 697 | Found | none 1000 | none 1000 | c239b42432ec3f48
5 | 5 => Found | Found | Found | none 1000 | 9c2ce54d78dd473c
5 | 6 => Found | none 1000 | Found | none 94 | 9455c27e2edb6dfb
6 | 0 => Found | Found | none 0 | Found | 846e0a0e553507c3
6 | 1 => Found | Found | Found | Found | 1e3ab423902f3b13
6 | 2 => Found | Found | Found | Found | 8b275cab5024cb1f
6 | 3 => Found | Found | Found | Found | 8809c0c0bb43922b
6 | 4 => Found | Found | Found | none 1000 | 662194b3003e1cab
6 | 5 => Found | none 852 | Found | none 171 | 8d304853928b174e
6 | 6 => none 679 | none 450 | none 1000 | Found | 685b2a4b76d2946e";

#[test]
fn led_searches_of_many_men_are_those_from_node_to_node(rt: HostRuntime) {
    let mut state = 2;
    let mut kinds = Kinds::none();
    for row in CROWDS.lines() {
        check_crowds(&rt, row, &mut state, &mut kinds);
    }
    kinds.check(&rt);
}

// The game that a led search finds, as a digest, or that it went through all games that it was to go through; none
// where its nodes came to their end before.
fn ended(answer: Result<Led, LedFault>, nodes: u64) -> Option<Said> {
    match answer {
        Ok(Led::Found(game)) => {
            let mut heard = Heard::new();
            heard.hear_game(game.as_slice());
            Some(words(&format_args!("Found {:016x}", heard.digest.value())))
        }
        Ok(Led::NotFound { nodes: visited, .. }) if visited < nodes => { Some(words(&"none")) }
        Ok(_) => None,
        Err(fault) => Some(words(&fault)),
    }
}

// A search with the cut by journeys comes to what one without it does, where that comes to its end; whether it does.
fn check_journeys<R: Abort + AllocGlobal>(rt: &R, asked: &Asked) -> bool {
    let limits = LedLimits {
        max_nodes: asked.nodes,
        foreign: asked.foreign,
    };
    let (diagram, length, games) = (&asked.diagram, asked.length, &asked.games);
    let mut watch = Heard::new();
    let answer = search_led_without_journeys(
        rt.alloc(),
        diagram,
        length,
        games,
        limits,
        &mut watch,
    );
    let Some(wanted) = ended(answer, asked.nodes) else {
        return false;
    };
    let answer = search_led(rt.alloc(), diagram, length, games, limits, &mut watch);
    let said = ended(answer, asked.nodes).expect(rt, wanted.as_str());
    assert_eq!(rt; said.as_str(), wanted.as_str());
    true
}

#[test]
fn led_searches_by_journeys_come_to_the_same(rt: HostRuntime) {
    let mut state = 3;
    let mut count = 0u32;
    for begun in BEGUN.split('\n') {
        for plies in 0..9 {
            let asked = drawn_list(&rt, begun, plies, 2_000, &mut state);
            count = count.saturating_add(u32::from(check_journeys(&rt, &asked)));
        }
    }
    assert!(rt; count > 29, "{count}");
}
