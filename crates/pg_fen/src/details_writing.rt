//! Writing the five fields behind the placement, each after a space.
ghost use Rattle.std.specs.Prelude.{◌≡◌, ◌+◌, ◌++◌, ◌<◌, ◌≤◌, ◌^◌, length};
ghost use Rattle.std.specs.Fmt.{decimal};
ghost use Rattle.pg_fen.specs.PositionWriting.{side_text, right_text, right_letters, rights_text, passed_text, spaced};
ghost use Rattle.pg_fen.specs.PositionWriting.{details_text};

use crate::details::Details;
use crate::text::{digits, put};
use arrayvec::ArrayString;
use pg_board::{Color, Square};
use pg_position::Rights;

fn put_side<const CAP: usize>(text: &mut ArrayString<CAP>, side: Color)
    requires room { length text.old.bytes + 2 ≤ CAP }
    ensures text { text.new.bytes ≡ text.old.bytes ++ spaced (side_text side) }
    ensures short { length text.new.bytes ≤ length text.old.bytes + 2 }
{
    put(text, b' ');
    match side {
        Color::White => put(text, b'w'),
        Color::Black => put(text, b'b'),
    }
}

fn put_right<const CAP: usize>(text: &mut ArrayString<CAP>, held: bool, letter: u8)
    requires ascii { letter < 128 }
    requires room { length text.old.bytes < CAP }
    ensures text { text.new.bytes ≡ text.old.bytes ++ right_text held letter }
    ensures short { length text.new.bytes ≤ length text.old.bytes + 1 }
{
    if held {
        put(text, letter);
    }
}

// The letters of the rights, in their order.
fn put_letters<const CAP: usize>(text: &mut ArrayString<CAP>, rights: &Rights)
    requires room { length text.old.bytes + 4 ≤ CAP }
    ensures text { text.new.bytes ≡ text.old.bytes ++ right_letters rights.now }
    ensures short { length text.new.bytes ≤ length text.old.bytes + 4 }
{
    put_right(text, rights.white_king, b'K');
    put_right(text, rights.white_queen, b'Q');
    put_right(text, rights.black_king, b'k');
    put_right(text, rights.black_queen, b'q');
}

fn put_rights<const CAP: usize>(text: &mut ArrayString<CAP>, rights: &Rights)
    requires room { length text.old.bytes + 5 ≤ CAP }
    ensures text { text.new.bytes ≡ text.old.bytes ++ spaced (rights_text rights.now) }
    ensures short { length text.new.bytes ≤ length text.old.bytes + 5 }
{
    put(text, b' ');
    let any = (rights.white_king || rights.white_queen)
        || (rights.black_king || rights.black_queen);
    if any {
        put_letters(text, rights);
    } else {
        put(text, b'-');
    }
}

fn put_passed<const CAP: usize>(text: &mut ArrayString<CAP>, passed: Option<Square>)
    requires room { length text.old.bytes + 3 ≤ CAP }
    ensures text { text.new.bytes ≡ text.old.bytes ++ spaced (passed_text passed) }
    ensures short { length text.new.bytes ≤ length text.old.bytes + 3 }
{
    put(text, b' ');
    match passed {
        Some(square) => {
            put(text, b'a' + square.index() % 8);
            put(text, b'1' + square.index() / 8);
        }
        None => put(text, b'-'),
    }
}

// The digits of a number, of which there are at most five.
#[tactic(auto, using(crate::proofs::Decimals::decimal_short))]
fn number_text(n: u16) -> ArrayString<20>
    ensures text { result.bytes ≡ decimal n }
    ensures short { length result.bytes ≤ 5 }
{
    digits(n as usize)
}

fn put_count<const CAP: usize>(text: &mut ArrayString<CAP>, n: u16)
    requires room { length text.old.bytes + 6 ≤ CAP }
    ensures text { text.new.bytes ≡ text.old.bytes ++ spaced (decimal n) }
    ensures short { length text.new.bytes ≤ length text.old.bytes + 6 }
{
    put(text, b' ');
    text.push_str(number_text(n).as_str());
}

/// Appends the five fields behind the placement, each after a space: 22 bytes at most.
pub fn put_details<const CAP: usize>(text: &mut ArrayString<CAP>, details: &Details)
    requires room { length text.old.bytes + 22 ≤ CAP }
    ensures { text.new.bytes ≡ text.old.bytes ++ details_text details.now }
{
    put_side(text, details.side);
    put_rights(text, &details.rights);
    put_passed(text, details.passed);
    put_count(text, details.half);
    put_count(text, details.full);
}
