//! Whether the sources of a price list fit its targets, where rows of distances are at hand: one source
//! against sixteen targets at once.
ghost use Rattle.std.specs.Prelude.{◌≡◌, ℕ, ◌<◌, ◌≤◌, ◌↔◌, IsTrue, length};
ghost use Rattle.pg_captures.specs.Counting.{any_man};
ghost use Rattle.pg_captures.specs.PriceLists.{IsPriced};
ghost use Rattle.pg_travel.specs.inner.PriceTests.{AllFit};
ghost use Rattle.pg_travel.specs.inner.DistanceRows.{AreSixteen, ArePaged, SourceFits, MenFit, SourcesFit};

use crate::castling::counted;
use crate::numbers::number_before;
use crate::rows::{Rows, fits};
use pg_board::{Board, Color, Kind, Man, Square};
use pg_position::Wing;

// Sixteen prices from one on, and zeros after the last.
fn sixteen(prices: &[u8], first: usize) -> [u8; 16]
    requires { first ≤ 64 }
    ensures { AreSixteen prices.now first result }
{
    let mut all = [0; 16];
    let from = first.min(prices.len());
    let to = (from + 16).min(prices.len());
    let some = &prices[from..to];
    all[..some.len()].copy_from_slice(some);
    all
}

// Whether a source, a man from a square at a price, fits every target.
#[inline(always)]
fn source_fits(rows: &Rows, man: Man, origin: Square, price: u8, v: &[[u8; 16]]) -> bool
    requires { ArePaged rows.now man.color v.now }
    ensures { IsTrue result ↔ SourceFits rows.now man.color man.kind origin price v.now }
{
    // A fact for the proof: the square is on the board.
    origin.index();
    for page in 0..v.len() {
        if !fits(
            v[page],
            price,
            rows.on_page(man.color, man.kind, origin, page),
        ) {
            return false;
        }
    }
    true
}

// Whether each such man fits every target.
#[inline(always)]
fn men_fit(
    rows: &Rows,
    board: &Board,
    man: Man,
    way: Option<Wing>,
    u: &[u8],
    v: &[[u8; 16]],
) -> bool
    requires paged { ArePaged rows.now man.color v.now }
    requires priced { IsPriced u.now man.color any_man board.now }
    ensures { IsTrue result ↔ MenFit rows.now board.now way u.now v.now man }
{
    let own = board.squares_of_color(man.color);
    let mut men = board.squares_of(man);
    while let Some(s) = men.pop_first() {
        let origin = counted(man.color, way, s);
        let price = u[number_before(own, s) as usize];
        if !source_fits(rows, man, origin, price, v) {
            return false;
        }
    }
    true
}

// Whether each man of the colour fits every target.
#[inline(always)]
fn sources_fit(
    rows: &Rows,
    board: &Board,
    color: Color,
    way: Option<Wing>,
    u: &[u8],
    v: &[[u8; 16]],
) -> bool
    requires paged { ArePaged rows.now color v.now }
    requires priced { IsPriced u.now color any_man board.now }
    ensures { IsTrue result ↔ SourcesFit color (MenFit rows.now board.now way u.now v.now) }
{
    men_fit(rows, board, Man::new(color, Kind::Pawn), way, u, v)
        && men_fit(rows, board, Man::new(color, Kind::Knight), way, u, v)
        && men_fit(rows, board, Man::new(color, Kind::Bishop), way, u, v)
        && men_fit(rows, board, Man::new(color, Kind::Rook), way, u, v)
        && men_fit(rows, board, Man::new(color, Kind::Queen), way, u, v)
        && men_fit(rows, board, Man::new(color, Kind::King), way, u, v)
}

// Whether every target fits every source, where there are at most sixteen targets.
fn few_fit(rows: &Rows, board: &Board, color: Color, way: Option<Wing>, u: &[u8], v: &[u8]) -> bool
    requires few { length v.now ≤ 16 }
    requires priced { IsPriced u.now color any_man board.now × IsPriced v.now color any_man rows.now }
    ensures { IsTrue result ↔ AllFit board.now rows.now color way u.now v.now }
{
    let one = [sixteen(v, 0)];
    sources_fit(rows, board, color, way, u, &one)
}

// The same for any number of targets.
fn many_fit(rows: &Rows, board: &Board, color: Color, way: Option<Wing>, u: &[u8], v: &[u8]) -> bool
    requires priced { IsPriced u.now color any_man board.now × IsPriced v.now color any_man rows.now }
    ensures { IsTrue result ↔ AllFit board.now rows.now color way u.now v.now }
{
    let four = [
        sixteen(v, 0),
        sixteen(v, 16),
        sixteen(v, 32),
        sixteen(v, 48),
    ];
    sources_fit(rows, board, color, way, u, &four)
}

// Whether every target fits every source.
pub(crate) fn fit_by(
    rows: &Rows,
    board: &Board,
    color: Color,
    way: Option<Wing>,
    u: &[u8],
    v: &[u8],
) -> bool
    requires { IsPriced u.now color any_man board.now × IsPriced v.now color any_man rows.now }
    ensures { IsTrue result ↔ AllFit board.now rows.now color way u.now v.now }
{
    if v.len() <= 16 {
        few_fit(rows, board, color, way, u, v)
    } else {
        many_fit(rows, board, color, way, u, v)
    }
}
