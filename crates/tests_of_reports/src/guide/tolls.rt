//! What is said of cuts by tariffs along a line.

use super::*;
use crate::shared::{add, boxed, four_bounds, tariff_of};
use pg_checker::{Problem, open};
use pg_tolls::{Tariff, Tolls};

// Nf3 and e5, where all first moves but Nf3 are cut by the two tariffs of the file, or by one of them.
const BOTH: &str = "2 rnbqkbnr/pppp1ppp/8/4p3/8/5N2/PPPPPPPP/RNBQKB1R 1.0 | \
    0204 01 0206*2 01 0207 0206*16";

// A line of moves and what is said of it, where both tariffs are told, and where the first one is.
const LINES: &str = "2 | - => at the start: 1 of 20 moves leads on; cut 19 by tolls; 1 game below$\
    the certificate is right$
2 | Na3 => at the start: 1 of 20 moves leads on; cut 19 by tolls; 1 game below$\
    after 1. Na3: excluded: white and black together need 3 plies and have 1 (tolls)$the certificate is right$
2 | e4 e5 => at the start: 1 of 20 moves leads on; cut 19 by tolls; 1 game below$\
    after 1. e4: excluded: the pawn on e2 of the diagram has left its square (tolls); the line goes on$\
    the certificate is right$
1 | - => at the start: 1 of 20 moves leads on; cut 18 by tolls, 1 by other bounds; 1 game below$\
    the certificate is right$
1 | Nh3 => at the start: 1 of 20 moves leads on; cut 18 by tolls, 1 by other bounds; 1 game below$\
    after 1. Nh3: cut by bound 7, which is not seen to exclude$the certificate is right$";

// The four bounds, and one by each of the tariffs.
fn with_tolls<R: Abort + AllocGlobal>(
    rt: &R,
    problem: &Problem,
    tariffs: &[Tariff],
) -> Vec<Box<dyn Bound>> {
    let mut bounds = four_bounds(rt);
    let mut code = Tolls::FIRST_CODE;
    for tariff in tariffs {
        let tolls = Tolls::new(rt.alloc(), &problem.diagram, tariff, code);
        add(rt, &mut bounds, boxed(rt, tolls.expect(rt, "memory")));
        code = code.saturating_add(1);
    }
    bounds
}

// What is said along the line of a row.
fn check_line<R: Abort + AllocGlobal>(rt: &R, row: &str) {
    let row = lines_of(rt, row);
    let (asked, wanted) = halves(rt, row.as_str(), " => ");
    let bytes = certificate(rt, field(BOTH, 0), field(BOTH, 1));
    let mut source = FromRead::new(bytes.as_slice());
    let mut opened = open(&mut source).expect(rt, "a problem");
    let tariffs = [tariff_of(rt, "16 16"), tariff_of(rt, "14 12 We4=-9")];
    let bounds = with_tolls(rt, &opened.problem(), &tariffs);
    let count = field(asked, 0).parse::<usize>().expect(rt, asked);
    let mut out = ToWrite::new(Vec::new(rt.alloc()));
    let answer = why(
        rt.alloc(),
        &mut opened,
        field(asked, 1),
        tariffs.get(..count).expect(rt, asked),
        &bounds,
        &mut source,
        &mut out,
        MANY,
        MOST_NAMED,
    );
    assert_eq!(rt; told(&answer).as_str(), "()", "{asked}");
    let text = out.into_inner();
    assert_eq!(rt; text_of(rt, text.as_slice()), wanted, "{asked}");
}

#[test]
fn lines_by_tolls(rt: HostRuntime) {
    for row in LINES.lines() {
        check_line(&rt, row);
    }
}
