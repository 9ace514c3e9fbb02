//! What a page says of cuts by tariffs.

use super::*;
use crate::shared::{add, boxed, four_bounds, tariff_of};
use pg_checker::open;
use pg_tolls::Tolls;

// Nf3 and e5, where all first moves but Nf3 are cut by the one tariff of the file.
const CERTIFICATE: &str =
    "2 rnbqkbnr/pppp1ppp/8/4p3/8/5N2/PPPPPPPP/RNBQKB1R 1.0 | 0204 01 0206*2 01 0206*17";

const SAID: &str = "$BQNa3:6white and black together need 3 plies and have 1 (tolls)$BSNc3:6~1$
$) 1 of 20 moves leads on; cut 19 by tolls; 1 game below$
$LTd3:6the pawn on d2 of the diagram has left its square (tolls)$
data-tariffs=\"1\"></div>$";

// The page has these lines.
#[test]
fn cuts_by_tolls_are_told(rt: HostRuntime) {
    let bytes = certificate(&rt, field(CERTIFICATE, 0), field(CERTIFICATE, 1));
    let mut source = FromRead::new(bytes.as_slice());
    let mut opened = open(&mut source).expect(&rt, "a problem");
    let tariffs = [tariff_of(&rt, "16 16")];
    let tolls = Tolls::new(
        rt.alloc(),
        &opened.problem().diagram,
        &tariffs[0],
        Tolls::FIRST_CODE,
    );
    let mut bounds = four_bounds(&rt);
    add(&rt, &mut bounds, boxed(&rt, tolls.expect(&rt, "memory")));
    let mut out = ToWrite::new(Vec::new(rt.alloc()));
    let answer = page(
        rt.alloc(),
        &mut opened,
        &Caption {
            title: "",
            author: "",
        },
        9,
        &tariffs,
        &bounds,
        &mut source,
        &mut out,
        MANY,
        MOST_NAMED,
    );
    assert_eq!(rt; told(&answer).as_str(), "()");
    let text = out.into_inner();
    let text = text_of(&rt, text.as_slice());
    for row in SAID.lines() {
        let lines = lines_of(&rt, row);
        assert!(rt; text.contains(lines.as_str()), "{row}");
    }
}
