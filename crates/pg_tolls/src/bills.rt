//! What the men of a colour cost one by one: each man's least, and what he costs beyond it at each column.
ghost use Rattle.std.specs.Prelude.{◌≡◌, ◌≤◌, ◌<◌, ℕ, Some, None, cond, ltb, nat_eq, min, get_or, set};
ghost use Rattle.pg_board.specs.Men.{kind_eq};
ghost use Rattle.pg_board.specs.declared.man.Kind.TheVariants.{King};
ghost use Rattle.pg_position.specs.declared.state.State.{State};
ghost use Rattle.pg_journeys.specs.inner.Sides.{kind_at, square_at};
ghost use Rattle.pg_tolls.specs.inner.Bills.{AreReduced, IsPassing, AreColumnsOf, IsPartyOf};
ghost use Rattle.pg_tolls.specs.inner.Bills.{cost_of_man, IsLineOf, IsBillOf, IsSparedAt, AreSpared, HasSpared};
ghost use Rattle.pg_tolls.specs.inner.Values.{least_of};

use crate::half::{Half, charges};
use crate::rows::{Row, above, greater, lesser, narrowed, with_none};
use pg_board::{Kind, Square};
use pg_journeys::{Men, counted};
use pg_position::{Position, Wing, ahead, king_home, rook_home};

// The pawn of a colour who has just passed a free square, and what it costs him to be captured there; 65535 and any
// square for none.
#[derive(Clone, Copy)]
pub(crate) struct Passing {
    pub(crate) square: Square,
    pub(crate) cost: u16,
}

// Which columns are for what, by 65535 and 0: to become a man of the diagram; to be captured, or none; and none.
#[derive(Clone, Copy)]
pub(crate) struct Columns {
    pub(crate) goals: Row,
    pub(crate) behind: Row,
    pub(crate) past: Row,
}

// A colour's men in a position, how many marks each of their walks may have, and where they may end.
#[derive(Clone, Copy)]
pub(crate) struct Party {
    pub(crate) men: Men,
    pub(crate) marks: u8,
    pub(crate) passing: Passing,
    pub(crate) columns: Columns,
}

// What a man costs at least, and what he costs beyond that at each column.
#[derive(Clone, Copy)]
pub(crate) struct Line {
    pub(crate) least: u16,
    pub(crate) costs: [u8; 16],
}

// The same of each man, of as many as its size says.
#[derive(Clone, Copy)]
pub(crate) struct Bill {
    pub(crate) size: usize,
    pub(crate) leasts: Row,
    pub(crate) rows: [[u8; 16]; 16],
}

// No pawn has just passed a free square.
fn nobody() -> Passing
    ensures { result.cost ≡ 65535 }
{
    Passing {
        square: Square::at(0),
        cost: u16::MAX,
    }
}

// The pawn who has just passed this square, if it is free and he is of the colour.
fn passing_at(half: &Half, position: &Position, marks: u8, passed: Square) -> Passing
    requires { position.now.passed ≡ Some passed }
    ensures { IsPassing half.now position.now marks result }
{
    if position.side() == half.color {
        return nobody();
    }
    if !half.free.contains(passed) {
        return nobody();
    }
    let there = usize::from(passed.index());
    Passing {
        square: ahead(half.color, 1, passed),
        cost: u16::from(half.lost[there]) + 128 * u16::from(marks),
    }
}

// The pawn who has just passed a free square.
pub(crate) fn passing_of(half: &Half, position: &Position, marks: u8) -> Passing
    ensures { IsPassing half.now position.now marks result }
{
    match position.passed() {
        None => nobody(),
        Some(passed) => passing_at(half, position, marks, passed),
    }
}

// A row of one number before a column, and of another one from it on.
fn split(column: usize, before: u16, behind: u16) -> Row
    ensures { (e : ℕ) → e < 16 → get_or result e 0 ≡ cond (ltb e column) before behind }
{
    let mut row = [behind; 16];
    for e in 0..column.min(16) {
        row[e] = before;
    }
    row
}

// The columns for `goals` men of the diagram, and `men` men.
pub(crate) fn columns_of(goals: usize, men: usize) -> Columns
    ensures { AreColumnsOf result goals men }
{
    Columns {
        goals: split(goals, u16::MAX, 0),
        behind: split(goals, 0, u16::MAX),
        past: split(men, 0, u16::MAX),
    }
}

// What it costs a man of a party to be captured, where by the table he pays this. A king never is.
#[inline(always)]
fn fall(party: &Party, i: usize, by_table: u16) -> u16
    requires few { party.now.men.count ≤ 16 }
    requires man { i < party.now.men.count }
    ensures value { result ≡ cond (kind_eq (kind_at party.now.men i) King) 65535
        (cond (nat_eq (square_at party.now.men i) party.now.passing.square)
        (min by_table party.now.passing.cost) by_table) }
    ensures fits { by_table ≤ 65535 }
{
    if party.men.kinds[i] == Kind::King {
        return u16::MAX;
    }
    if party.men.squares[i] == party.passing.square {
        return by_table.min(party.passing.cost);
    }
    by_table
}

// A row with this number for each column past the men of the diagram, and none past the men.
#[inline(always)]
fn with_falls(row: &Row, fall: u16, columns: &Columns) -> Row
    ensures { (g n : ℕ) → AreColumnsOf columns.now g n → (e : ℕ) → e < 16 →
        get_or result e 0 ≡ cond (ltb e n) (cond (ltb e g) (get_or row.now e 0) fall) 65535 }
{
    let goals = lesser(row, &columns.goals);
    let falls = lesser(&[fall; 16], &columns.behind);
    let all = greater(&goals, &falls);
    greater(&all, &columns.past)
}

// What a man of a party costs at each column: to become each man of the diagram, and then to be captured.
#[inline(always)]
fn row(half: &Half, party: &Party, way: Option<Wing>, i: usize) -> Row
    requires few { party.now.men.count ≤ 16 }
    requires man { i < party.now.men.count }
    ensures costs { (p : State) → IsPartyOf half.now p party.now → (e : ℕ) → e < party.now.men.count →
        get_or result e 0 ≡ cost_of_man half.now p party.now way i e }
    ensures past { (p : State) → IsPartyOf half.now p party.now → (e : ℕ) → party.now.men.count ≤ e → e < 16 →
        get_or result e 0 ≡ 65535 }
{
    let square = counted(half.color, way, party.men.squares[i]);
    let row = charges(half, party.marks, party.men.kinds[i], square);
    let fall = fall(party, i, row[15]);
    with_falls(&row, fall, &party.columns)
}

// The least of a row; 65535 for none.
#[inline(always)]
fn least(row: &Row) -> u16
    ensures { result ≡ least_of (λ e. get_or row.now e 0) 16 }
{
    let mut least = u16::MAX;
    for e in 0..16usize {
        least = least.min(row[e]);
    }
    least
}

// The costs of a row beyond the least, at most 254; 255 for none.
#[inline(always)]
fn row_beyond(row: &Row, least: u16) -> [u8; 16]
    ensures { AreReduced row.now least result 16 }
{
    let above = above(row, least);
    let costs = lesser(&above, &[254; 16]);
    let all = with_none(&costs, row);
    narrowed(&all)
}

// What a man of a party costs in a way.
fn line_of(half: &Half, party: &Party, way: Option<Wing>, i: usize) -> Line
    requires few { party.now.men.count ≤ 16 }
    requires man { i < party.now.men.count }
    ensures { (p : State) → IsPartyOf half.now p party.now →
        IsLineOf half.now p party.now way i result.least result.costs }
{
    let row = row(half, party, way, i);
    let own = least(&row);
    Line {
        least: own,
        costs: row_beyond(&row, own),
    }
}

// The bill of a castling, and by how much, at most, it spares each man of what he costs where none castles.
#[derive(Clone, Copy)]
pub(crate) struct Castled {
    pub(crate) bill: Bill,
    pub(crate) spared: Row,
}

impl Bill {
    // Writes what a man costs.
    #[inline(always)]
    fn enter(&mut self, i: usize, line: &Line)
        requires { i < 16 }
        ensures leasts { self.new.leasts ≡ set self.old.leasts i line.now.least }
        ensures rows { self.new.rows ≡ set self.old.rows i line.now.costs }
        ensures size { self.new.size ≡ self.old.size }
    {
        self.leasts[i] = line.least;
        self.rows[i] = line.costs;
    }
}

// 65535 for 255, which stands for no cost, and else nothing. Here and where it is called are sums and differences
// alone: these vectorize.
#[inline(always)]
fn none(cost: u8) -> u16
    ensures { result ≡ cond (ltb cost 255) 0 65535 }
{
    u16::from(cost.saturating_sub(254)) * u16::MAX
}

// The same for 65535, which tells no cost.
#[inline(always)]
fn untold(cost: u16) -> u16
    ensures { result ≡ cond (ltb cost 65535) 0 65535 }
{
    cost.saturating_sub(65534) * u16::MAX
}

// By how much a man costs less at a column than by his plain costs, where he goes there; 65535 where he does not by
// those, or where that is not told.
#[inline(always)]
fn spared_at(least: u16, cost: u8, castled_least: u16, castled: u8) -> u16
    ensures { IsSparedAt least cost castled_least castled result }
{
    let plain = least
        .saturating_add(u16::from(cost))
        .saturating_add(none(cost));
    let other = castled_least.saturating_add(u16::from(castled));
    let spared = plain.saturating_sub(other).saturating_add(untold(plain));
    spared.saturating_sub(none(castled))
}

// By how much he costs less at most.
fn spared(least: u16, costs: &[u8; 16], castled: &Line) -> u16
    ensures { AreSpared least costs.now castled.now.least castled.now.costs result }
{
    let mut most = 0u16;
    for e in 0..16usize {
        most = most.max(spared_at(least, costs[e], castled.least, castled.costs[e]));
    }
    most
}

// What the men of a party cost where none castles.
pub(crate) fn bill_of(half: &Half, party: &Party) -> Bill
    requires { party.now.men.count ≤ 16 }
    ensures { (p : State) → IsPartyOf half.now p party.now → IsBillOf half.now p party.now None result }
{
    let mut bill = Bill {
        size: party.men.count,
        leasts: [0; 16],
        rows: [[255; 16]; 16],
    };
    for i in 0..party.men.count {
        let line = line_of(half, party, None, i);
        bill.enter(i, &line);
    }
    bill
}

// The same where they castle: the king and the rook cost what they do on their castled squares.
pub(crate) fn castled_of(half: &Half, party: &Party, plain: &Bill, wing: Wing) -> Castled
    requires { party.now.men.count ≤ 16 }
    ensures bill { (p : State) → IsPartyOf half.now p party.now → IsBillOf half.now p party.now None plain.now →
        IsBillOf half.now p party.now (Some wing) result.bill }
    ensures spared { (i : ℕ) → i < party.now.men.count → HasSpared plain.now result i }
{
    let king = king_home(half.color);
    let rook = rook_home(half.color, wing);
    let mut castled = Castled {
        bill: *plain,
        spared: [0; 16],
    };
    for i in 0..party.men.count {
        let square = party.men.squares[i];
        if square == king || square == rook {
            let line = line_of(half, party, Some(wing), i);
            castled.spared[i] = spared(plain.leasts[i], &plain.rows[i], &line);
            castled.bill.enter(i, &line);
        }
    }
    castled
}
