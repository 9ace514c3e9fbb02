//! The lines of the trees, and what stands around them.

use super::*;

// Of e4 in one ply, whole and not told; cut where the diagram is out of reach, and where castling is of use; of e4 e5,
// where a node with one ply left is the last one that is told, and where the moves below it are; and the array in no
// ply.
const TREES: &str = "after-e4 | 0.5 | 9 | 2 after-e4 0.5 | 01 => \
    /0$,$;no expanded node$/1$($BQNa3,$BSNc3,$GVNf3,$GXNh3,$IQa3,$IYa4,$JRb3,$JZb4,$KSc3,$Kac4,$LTd3,$Lbd4,$MUe3,$\
    Mce4*$NVf3,$Ndf4,$OWg3,$Oeg4,$PXh3,$Pfh4,$) 1 of 20 moves ends on the diagram$;1 expanded node$
after-e4 | 0.5 | 0 | 2 after-e4 0.5 | 01 => \
    /0$,$;no expanded node$/1$.$=*1 expanded, with 1 game below$;1 expanded node$
after-e4-e5 | 0.5 | 9 | 2 after-e4-e5 0.5 | 0204 => \
    /0$,$;no expanded node$/1$:4black needs 1 move and has 0 (travel)$;no expanded node$
rnbqk1nr/ppppppbp/6p1/8/8/5NP1/PPPPPPBP/RNBQ1RK1 | 0.5 | 9 | 2 rnbqk1nr/ppppppbp/6p1/8/8/5NP1/PPPPPPBP/RNBQ1RK1 0.5 | \
    0204 => /0$,$;no expanded node$/1$:4white needs 4 moves and has 1 (travel, castling king side)$;no expanded node$
rnbqkbnr/pppppppp/8/8/8/2N2N2/PPPPPPPP/R1BQKB1R | 0.5 | 9 | 2 rnbqkbnr/pppppppp/8/8/8/2N2N2/PPPPPPPP/R1BQKB1R 0.5 | \
    0205 | journeys => /0$,$;no expanded node$/1$:5white has 1 move left and needs 2 (journeys)$;no expanded node$
two-orders | 0.5 | 0 | 1 two-orders 0.5 | 05 => /0$,$;no expanded node$/1$.$=0:4$;1 expanded node$
array | 0.0 | 9 | 1 array 0.0 |  => /0$*$;no expanded node$";

// The lines of the trees of a page.
fn trees_of<'a>(rt: &impl Abort, page: &'a str) -> &'a str {
    let (_, behind) = halves(rt, page, "<pre id=\"trees\" hidden>");
    let (trees, _) = halves(rt, behind, "</pre>");
    trees
}

// A page has these lines.
fn check_trees<R: Abort + AllocGlobal>(rt: &R, row: &str) {
    let row = lines_of(rt, row);
    let (asked, lines) = halves(rt, row.as_str(), " => ");
    let page = page_of(rt, asked, bytes_of(rt, asked).as_slice(), "()");
    assert_eq!(rt;
        trees_of(rt, text_of(rt, page.as_slice())),
        lines,
        "{asked}"
    );
}

#[test]
fn trees_are_told_depth_first(rt: HostRuntime) {
    for row in TREES.lines() {
        check_trees(&rt, row);
    }
}

// What a page says of its problem, its verdict and its games.
const HEADS: &str =
    "after-e4 | 0.5 | 9 | 2 after-e4 0.5 | 01 => <title>A proof game in 0.5 moves</title>
after-e4 | 0.5 | 9 | 2 after-e4 0.5 | 01 => <h1>A proof game in 0.5 moves</h1>
after-e4 | 0.5 | 9 | 2 after-e4 0.5 | 01 | four | A title => <title>A title</title>
after-e4 | 0.5 | 9 | 2 after-e4 0.5 | 01 | four | A title | Nobody => <h1>A title by Nobody</h1>
after-e4 | 0.5 | 9 | 2 after-e4 0.5 | 01 | four |  | Nobody => <title>A proof game in 0.5 moves by Nobody</title>
after-e4 | 0.5 | 9 | 2 after-e4 0.5 | 01 | four | </title><script>\"&' | </h1> => \
    <title>&lt;/title&gt;&lt;script&gt;&quot;&amp;' by &lt;/h1&gt;</title>
after-e4 | 0.5 | 9 | 2 after-e4 0.5 | 01 | four | Задача ♘ | Ł. Ö. => <h1>Задача ♘ by Ł. Ö.</h1>
after-e4 | 0.5 | 9 | 2 after-e4 0.5 | 01 => <figcaption>(16+16)<br><code>rnbqkbnr/pppppppp/8/8/4P3/8/PPPP1PPP/RNBQKBNR</code>
rnbqkbnr/pppppppp/8/8/8/2N2N2/PPPPPPPP/R1BQKB1R | 0.5 | 9 | 2 rnbqkbnr/pppppppp/8/8/8/2N2N2/PPPPPPPP/R1BQKB1R 0.5 | \
    0205 | journeys => (16+16)
recaptured | 2.0 | 9 | 1 recaptured 2.0 | 01*9766 => <figcaption>(15+15)<br>
after-e4 | 0.5 | 9 | 2 after-e4 0.5 | 01 => \
    <body data-diagram=\"rnbqkbnr/pppppppp/8/8/4P3/8/PPPP1PPP/RNBQKBNR\" data-length=\"0.5\" data-plies=\"1\">
after-e4 | 0.5 | 9 | 2 after-e4 0.5 | 01 => <use class=\"w\" href=\"#mP\" x=\"4\" y=\"4\" width=\"1\" height=\"1\"/>
after-e4 | 0.5 | 9 | 2 after-e4 0.5 | 01 => <use class=\"b\" href=\"#mK\" x=\"4\" y=\"0\" width=\"1\" height=\"1\"/>
after-e4 | 0.5 | 9 | 2 after-e4 0.5 | 01 => \
    <strong>Sound.</strong> Just one game of 0.5 moves from the initial array ends on
after-e4 | 0.5 | 9 | 2 after-e4 0.5 | 01 => a certificate of 1 records with 0 named nodes
after-e4 | 0.5 | 9 | 2 after-e4 0.5 | 01 => <li><span data-moves=\"Mce4 \">1. e4</span></li>
after-e4-e5 | 0.5 | 9 | 2 after-e4-e5 0.5 | 0204 => \
    <strong>No game.</strong> No game of 0.5 moves from the initial array ends on
two-orders | 1.5 | 9 | 1 two-orders 1.5 | 01*443 => \
    <strong>Cooked.</strong> 2 games of 1.5 moves from the initial array end on
two-orders | 1.5 | 9 | 1 two-orders 1.5 | 01*443 => <li><span data-moves=\"LTd3 0se6 MUe3 \">1. d3 e6 2. e3</span></li>
after-e4 | 0.5 | 9 | 2 after-e4 0.5 | 01 => data-start=\"at the start\" data-after=\"after \"
after-e4 | 0.5 | 9 | 2 after-e4 0.5 | 01 => data-excluded=\"excluded: \"
after-e4 | 0.5 | 9 | 2 after-e4 0.5 | 01 => Who wants to be sure runs <code>pg answer CERT</code>.
rnbqkbnr/pppppppp/8/8/8/2N2N2/PPPPPPPP/R1BQKB1R | 0.5 | 9 | 2 rnbqkbnr/pppppppp/8/8/8/2N2N2/PPPPPPPP/R1BQKB1R 0.5 | \
    0205 | journeys => data-length=\"0.5\" data-plies=\"1\">
rnbqkbnr/pppppppp/8/8/8/2N2N2/PPPPPPPP/R1BQKB1R | 0.5 | 9 | 2 rnbqkbnr/pppppppp/8/8/8/2N2N2/PPPPPPPP/R1BQKB1R 0.5 | \
    0205 | journeys => Who wants to be sure runs <code>pg answer CERT</code>.
after-e4 | 0.5 | 9 | 2 after-e4 0.5 | 01 => data-untold=\"expanded, with no game below\" data-tariffs=\"0\"></div>
array | 0.0 | 9 | 1 array 0.0 |  => <li><span data-moves=\"\">-</span></li>";

// A page says this.
fn check_head<R: Abort + AllocGlobal>(rt: &R, row: &str) {
    let (asked, words) = halves(rt, row, " => ");
    let page = page_of(rt, asked, bytes_of(rt, asked).as_slice(), "()");
    assert!(rt; text_of(rt, page.as_slice()).contains(words), "{row}");
}

#[test]
fn what_stands_above_the_trees(rt: HostRuntime) {
    for row in HEADS.lines() {
        check_head(&rt, row);
    }
}
