//! The text of what is said of a move.
ghost use Rattle.std.specs.Prelude.{◌≡◌, ◌++◌, ◌+◌, ◌≤◌, length};
ghost use Rattle.pg_san.specs.Spelling.{IsOfBoard, file_text, rank_text, square_text, letter_text, cross_text};
ghost use Rattle.pg_san.specs.Spelling.{promotion_text, castling_text, written_file, core_text, form_text, IsWritable};
ghost use Rattle.pg_san.specs.Spelling.{IsFormWritable};

use crate::cores::Core;
use crate::said::Form;
use arrayvec::ArrayString;
use pg_board::{Kind, Square};
use pg_fen::text::put;
use pg_position::Wing;

fn put_letter(text: &mut ArrayString<8>, kind: Kind)
    requires room { length text.old.bytes + length (letter_text kind) ≤ 8 }
    ensures { text.new.bytes ≡ text.old.bytes ++ letter_text kind }
{
    match kind {
        Kind::Pawn => {}
        Kind::Knight => put(text, b'N'),
        Kind::Bishop => put(text, b'B'),
        Kind::Rook => put(text, b'R'),
        Kind::Queen => put(text, b'Q'),
        Kind::King => put(text, b'K'),
    }
}

fn put_file(text: &mut ArrayString<8>, file: Option<u8>)
    requires small { IsOfBoard file }
    requires room { length text.old.bytes + length (file_text file) ≤ 8 }
    ensures { text.new.bytes ≡ text.old.bytes ++ file_text file }
{
    if let Some(file) = file {
        put(text, b'a' + (file - 1));
    }
}

fn put_rank(text: &mut ArrayString<8>, rank: Option<u8>)
    requires small { IsOfBoard rank }
    requires room { length text.old.bytes + length (rank_text rank) ≤ 8 }
    ensures { text.new.bytes ≡ text.old.bytes ++ rank_text rank }
{
    if let Some(rank) = rank {
        put(text, b'0' + rank);
    }
}

fn put_square(text: &mut ArrayString<8>, square: Square)
    requires { length text.old.bytes + 2 ≤ 8 }
    ensures { text.new.bytes ≡ text.old.bytes ++ square_text square }
{
    put_file(text, Some(square.file()));
    put_rank(text, Some(square.rank()));
}

fn put_cross(text: &mut ArrayString<8>, takes: bool)
    requires { length text.old.bytes + length (cross_text takes) ≤ 8 }
    ensures { text.new.bytes ≡ text.old.bytes ++ cross_text takes }
{
    if takes {
        put(text, b'x');
    }
}

fn put_promotion(text: &mut ArrayString<8>, promotion: Option<Kind>)
    requires { length text.old.bytes + length (promotion_text promotion) ≤ 8 }
    ensures { text.new.bytes ≡ text.old.bytes ++ promotion_text promotion }
{
    if let Some(kind) = promotion {
        put(text, b'=');
        put_letter(text, kind);
    }
}

fn written_file(kind: Kind, takes: bool, file: Option<u8>) -> Option<u8>
    ensures { result ≡ written_file kind takes file }
{
    match kind {
        Kind::Pawn => { if takes { file } else { None } }
        _ => file,
    }
}

fn write_core(kind: Kind, core: &Core, sign: &str) -> ArrayString<8>
    requires { IsWritable kind core.now sign.now }
    ensures { result.bytes ≡ core_text kind core.now ++ sign.now }
{
    let mut text = ArrayString::new();
    put_letter(&mut text, kind);
    put_file(&mut text, written_file(kind, core.takes, core.file));
    put_rank(&mut text, core.rank);
    put_cross(&mut text, core.takes);
    put_square(&mut text, core.target);
    put_promotion(&mut text, core.promotion);
    text.push_str(sign);
    text
}

fn write_castling(wing: Wing, sign: &str) -> ArrayString<8>
    requires { length sign.now ≤ 1 }
    ensures { result.bytes ≡ castling_text wing ++ sign.now }
{
    let mut text = ArrayString::new();
    match wing {
        Wing::KingSide => text.push_str("O-O"),
        Wing::QueenSide => text.push_str("O-O-O"),
    }
    text.push_str(sign);
    text
}

/// The text of what is said of a move of a man of this kind, and the sign behind it.
pub fn write_form(kind: Kind, form: &Form, sign: &str) -> ArrayString<8>
    requires { IsFormWritable kind form.now sign.now }
    ensures { result.bytes ≡ form_text kind form.now ++ sign.now }
{
    match form {
        Form::Castles(wing) => write_castling(*wing, sign),
        Form::Moves(core) => write_core(kind, core, sign),
    }
}
