//! Texts that are read as a move, or refused.

use super::*;
use pg_san::{SanFault, read};

// The move of a text such as `e2e4`, or the fault that is shown by this text.
fn wanted_of(rt: &impl Abort, wanted: &str) -> Result<Move, SanFault> {
    match wanted {
        "not a move" => Err(SanFault::Shape),
        "no such legal move" => Err(SanFault::NoSuchMove),
        "ambiguous move" => Err(SanFault::Ambiguous),
        text => Ok(move_of(rt, text)),
    }
}

// That each row's text is read in its position as the move, or refused.
fn check(rt: &impl Abort, table: &str) {
    for row in table.lines() {
        let (start, text, wanted) = cells(rt, row);
        let found = read(&position(rt, start), text);
        check_row(rt, row, found == wanted_of(rt, wanted));
    }
}

const KNIGHTS: &str = "rnbqkbnr/pppppppp/8/8/8/8/PPPPPPPP/RNBQKBNR w KQkq - 0 1 | Sf3 => g1f3
rnbqkbnr/pppppppp/8/8/8/8/PPPPPPPP/RNBQKBNR w KQkq - 0 1 | Ng1f3 => g1f3
rnbqkbnr/pppppppp/8/8/8/8/PPPPPPPP/RNBQKBNR w KQkq - 0 1 | Nf3+ => g1f3
rnbqkbnr/pppppppp/8/8/8/8/PPPPPPPP/RNBQKBNR w KQkq - 0 1 | g1f3 => g1f3
rnbqkbnr/pppppppp/8/8/8/8/PPPPPPPP/RNBQKBNR w KQkq - 0 1 | Sg1-f3 => g1f3
rnbqkbnr/pppppppp/8/8/8/8/PPPPPPPP/RNBQKBNR w KQkq - 0 1 | Nf3 => g1f3
rnbqkbnr/pppppppp/8/8/8/8/PPPPPPPP/RNBQKBNR w KQkq - 0 1 | N1f3 => g1f3
rnbqkbnr/pppppppp/8/8/8/8/PPPPPPPP/RNBQKBNR w KQkq - 0 1 | Ngf3 => g1f3
rnbqkbnr/pppppppp/8/8/8/8/PPPPPPPP/RNBQKBNR w KQkq - 0 1 | g1-f3 => g1f3
rnbqkbnr/pppppppp/8/8/8/8/PPPPPPPP/RNBQKBNR w KQkq - 0 1 | Nf3++ => g1f3
rnbqkbnr/pppppppp/8/8/8/8/PPPPPPPP/RNBQKBNR w KQkq - 0 1 | Nf3# => g1f3
rnbqkbnr/pppppppp/8/8/8/8/PPPPPPPP/RNBQKBNR w KQkq - 0 1 | Nf3! => g1f3
rnbqkbnr/pppppppp/8/8/8/8/PPPPPPPP/RNBQKBNR w KQkq - 0 1 | Nf3?? => g1f3
rnbqkbnr/pppppppp/8/8/8/8/PPPPPPPP/RNBQKBNR w KQkq - 0 1 | Nf3+!? => g1f3";

#[test]
fn reads_a_knight(rt: HostRuntime) {
    check(&rt, KNIGHTS);
}

const PAWNS: &str = "rnbqkbnr/pppppppp/8/8/8/8/PPPPPPPP/RNBQKBNR w KQkq - 0 1 | e4 => e2e4
rnbqkbnr/pppppppp/8/8/8/8/PPPPPPPP/RNBQKBNR w KQkq - 0 1 | ee4 => e2e4
rnbqkbnr/pppppppp/8/8/8/8/PPPPPPPP/RNBQKBNR w KQkq - 0 1 | e2e4 => e2e4
rnbqkbnr/pppppppp/8/8/8/8/PPPPPPPP/RNBQKBNR w KQkq - 0 1 | e2-e4 => e2e4
rnbqkbnr/pppppppp/8/8/8/8/PPPPPPPP/RNBQKBNR w KQkq - 0 1 | e4!? => e2e4
8/4P3/8/8/8/8/k7/4K3 w - - 0 1 | e8Q => e7e8q
8/4P3/8/8/8/8/k7/4K3 w - - 0 1 | e7e8q => e7e8q
8/4P3/8/8/8/8/k7/4K3 w - - 0 1 | e8=Q => e7e8q
8/4P3/8/8/8/8/k7/4K3 w - - 0 1 | e8=q => e7e8q
8/4P3/8/8/8/8/k7/4K3 w - - 0 1 | ee8q => e7e8q
8/4P3/8/8/8/8/k7/4K3 w - - 0 1 | e7-e8=Q+ => e7e8q
8/4P3/8/8/8/8/k7/4K3 w - - 0 1 | e8S => e7e8n
8/4P3/8/8/8/8/k7/4K3 w - - 0 1 | e8=N => e7e8n
8/4P3/8/8/8/8/k7/4K3 w - - 0 1 | e8n => e7e8n
8/4P3/8/8/8/8/k7/4K3 w - - 0 1 | e8s => e7e8n
8/4P3/8/8/8/8/k7/4K3 w - - 0 1 | e8b => e7e8b
8/4P3/8/8/8/8/k7/4K3 w - - 0 1 | e8=B => e7e8b
8/4P3/8/8/8/8/k7/4K3 w - - 0 1 | e8r => e7e8r
8/4P3/8/8/8/8/k7/4K3 w - - 0 1 | e7e8=R => e7e8r
8/4P3/8/8/8/8/k7/4K3 w - - 0 1 | e8 => no such legal move
8/4P3/8/8/8/8/k7/4K3 w - - 0 1 | e7e8 => no such legal move
8/4P3/8/8/8/8/k7/4K3 w - - 0 1 | exe8=Q => no such legal move";

#[test]
fn reads_pawns(rt: HostRuntime) {
    check(&rt, PAWNS);
}

const CAPTURES: &str = "4k3/8/8/3pP3/8/8/8/4K3 w - d6 0 1 | exd6 => e5d6
4k3/8/8/3pP3/8/8/8/4K3 w - d6 0 1 | ed6 => e5d6
4k3/8/8/3pP3/8/8/8/4K3 w - d6 0 1 | exd6ep => e5d6
4k3/8/8/3pP3/8/8/8/4K3 w - d6 0 1 | exd6e.p. => e5d6
4k3/8/8/3pP3/8/8/8/4K3 w - d6 0 1 | e5d6ep => e5d6
4k3/8/8/3pP3/8/8/8/4K3 w - d6 0 1 | ed6e.p.+! => e5d6
4k3/8/8/3pP3/8/8/8/4K3 w - d6 0 1 | e5xd6 => e5d6
4k3/8/8/3pP3/8/8/8/4K3 w - d6 0 1 | d6 => no such legal move
4k3/8/8/3pP3/8/8/8/4K3 w - d6 0 1 | e6ep => no such legal move
4k3/8/8/3pP3/8/8/8/4K3 w - d6 0 1 | exd6=Q => no such legal move
4k3/8/8/3pP3/8/8/8/4K3 w - d6 0 1 | exd5 => no such legal move
4k3/8/8/3p4/4P3/8/8/4K3 w - - 0 1 | exd5 => e4d5
4k3/8/8/3p4/4P3/8/8/4K3 w - - 0 1 | ed5 => e4d5
4k3/8/8/3p4/4P3/8/8/4K3 w - - 0 1 | e4xd5 => e4d5
4k3/8/8/3p4/4P3/8/8/4K3 w - - 0 1 | e4-d5 => e4d5
4k3/8/8/3p4/4P3/8/8/4K3 w - - 0 1 | exd5ep => no such legal move
4k3/8/8/3p4/4P3/8/8/4K3 w - - 0 1 | d5 => no such legal move
4k3/8/8/3p4/4P3/8/8/4K3 w - - 0 1 | exe5 => no such legal move
4k3/8/8/3p4/4P3/8/8/4K3 w - - 0 1 | exd5e.p. => no such legal move";

#[test]
fn reads_captures(rt: HostRuntime) {
    check(&rt, CAPTURES);
}

const CASTLINGS: &str = "4k3/8/8/8/8/8/8/R3K2R w KQ - 0 1 | 0-0 => e1g1
4k3/8/8/8/8/8/8/R3K2R w KQ - 0 1 | O-O => e1g1
4k3/8/8/8/8/8/8/R3K2R w KQ - 0 1 | Kg1 => e1g1
4k3/8/8/8/8/8/8/R3K2R w KQ - 0 1 | e1g1 => e1g1
4k3/8/8/8/8/8/8/R3K2R w KQ - 0 1 | 0-0+ => e1g1
4k3/8/8/8/8/8/8/R3K2R w KQ - 0 1 | Ke1-g1 => e1g1
4k3/8/8/8/8/8/8/R3K2R w KQ - 0 1 | 0-0-0 => e1c1
4k3/8/8/8/8/8/8/R3K2R w KQ - 0 1 | O-O-O => e1c1
4k3/8/8/8/8/8/8/R3K2R w KQ - 0 1 | Kc1 => e1c1
4k3/8/8/8/8/8/8/R3K2R w KQ - 0 1 | e1c1 => e1c1
4k3/8/8/8/8/8/8/R3K2R w KQ - 0 1 | Kxg1 => no such legal move
4k3/8/8/8/8/8/8/R3K2R w KQ - 0 1 | O-Oep => no such legal move
4k3/8/8/8/8/8/8/R3K2R w - - 0 1 | O-O => no such legal move
4k3/8/8/8/8/8/8/R3K2R w - - 0 1 | 0-0-0 => no such legal move
4k3/8/8/8/8/8/8/R3K2R w - - 0 1 | Kg1 => no such legal move";

#[test]
fn reads_castling(rt: HostRuntime) {
    check(&rt, CASTLINGS);
}

const REFUSED: &str = "rnbqkbnr/pppppppp/8/8/8/8/PPPPPPPP/RNBQKBNR w KQkq - 0 1 |  => not a move
rnbqkbnr/pppppppp/8/8/8/8/PPPPPPPP/RNBQKBNR w KQkq - 0 1 | * => not a move
rnbqkbnr/pppppppp/8/8/8/8/PPPPPPPP/RNBQKBNR w KQkq - 0 1 | 1-0 => not a move
rnbqkbnr/pppppppp/8/8/8/8/PPPPPPPP/RNBQKBNR w KQkq - 0 1 | Nf3!!! => not a move
rnbqkbnr/pppppppp/8/8/8/8/PPPPPPPP/RNBQKBNR w KQkq - 0 1 | Nf3!+ => not a move
rnbqkbnr/pppppppp/8/8/8/8/PPPPPPPP/RNBQKBNR w KQkq - 0 1 | Nf3+++ => not a move
rnbqkbnr/pppppppp/8/8/8/8/PPPPPPPP/RNBQKBNR w KQkq - 0 1 | e9 => not a move
rnbqkbnr/pppppppp/8/8/8/8/PPPPPPPP/RNBQKBNR w KQkq - 0 1 | i4 => not a move
rnbqkbnr/pppppppp/8/8/8/8/PPPPPPPP/RNBQKBNR w KQkq - 0 1 | O-O- => not a move
rnbqkbnr/pppppppp/8/8/8/8/PPPPPPPP/RNBQKBNR w KQkq - 0 1 | o-o => not a move
rnbqkbnr/pppppppp/8/8/8/8/PPPPPPPP/RNBQKBNR w KQkq - 0 1 | 0-O => not a move
rnbqkbnr/pppppppp/8/8/8/8/PPPPPPPP/RNBQKBNR w KQkq - 0 1 | Pe4 => not a move
rnbqkbnr/pppppppp/8/8/8/8/PPPPPPPP/RNBQKBNR w KQkq - 0 1 | e4=K => not a move
rnbqkbnr/pppppppp/8/8/8/8/PPPPPPPP/RNBQKBNR w KQkq - 0 1 | N => not a move
rnbqkbnr/pppppppp/8/8/8/8/PPPPPPPP/RNBQKBNR w KQkq - 0 1 | xe4 => not a move
rnbqkbnr/pppppppp/8/8/8/8/PPPPPPPP/RNBQKBNR w KQkq - 0 1 | 1e4 => not a move
rnbqkbnr/pppppppp/8/8/8/8/PPPPPPPP/RNBQKBNR w KQkq - 0 1 | e-e4 => not a move
rnbqkbnr/pppppppp/8/8/8/8/PPPPPPPP/RNBQKBNR w KQkq - 0 1 | e4  => not a move
rnbqkbnr/pppppppp/8/8/8/8/PPPPPPPP/RNBQKBNR w KQkq - 0 1 |  e4 => not a move
rnbqkbnr/pppppppp/8/8/8/8/PPPPPPPP/RNBQKBNR w KQkq - 0 1 | e2e4= => not a move
rnbqkbnr/pppppppp/8/8/8/8/PPPPPPPP/RNBQKBNR w KQkq - 0 1 | Ne4=Q => not a move
rnbqkbnr/pppppppp/8/8/8/8/PPPPPPPP/RNBQKBNR w KQkq - 0 1 | é4 => not a move
rnbqkbnr/pppppppp/8/8/8/8/PPPPPPPP/RNBQKBNR w KQkq - 0 1 | -- => not a move
rnbqkbnr/pppppppp/8/8/8/8/PPPPPPPP/RNBQKBNR w KQkq - 0 1 | e4e.p => not a move
rnbqkbnr/pppppppp/8/8/8/8/PPPPPPPP/RNBQKBNR w KQkq - 0 1 | e4 ep => not a move
rnbqkbnr/pppppppp/8/8/8/8/PPPPPPPP/RNBQKBNR w KQkq - 0 1 | e5 => no such legal move
rnbqkbnr/pppppppp/8/8/8/8/PPPPPPPP/RNBQKBNR w KQkq - 0 1 | Nd2 => no such legal move
rnbqkbnr/pppppppp/8/8/8/8/PPPPPPPP/RNBQKBNR w KQkq - 0 1 | Nxf3 => no such legal move
rnbqkbnr/pppppppp/8/8/8/8/PPPPPPPP/RNBQKBNR w KQkq - 0 1 | Nf3e.p. => no such legal move
rnbqkbnr/pppppppp/8/8/8/8/PPPPPPPP/RNBQKBNR w KQkq - 0 1 | e4ep => no such legal move
rnbqkbnr/pppppppp/8/8/8/8/PPPPPPPP/RNBQKBNR w KQkq - 0 1 | O-O => no such legal move
rnbqkbnr/pppppppp/8/8/8/8/PPPPPPPP/RNBQKBNR w KQkq - 0 1 | e7e5 => no such legal move
rnbqkbnr/pppppppp/8/8/8/8/PPPPPPPP/RNBQKBNR w KQkq - 0 1 | e4=Q => no such legal move
rnbqkbnr/pppppppp/8/8/8/8/PPPPPPPP/RNBQKBNR w KQkq - 0 1 | exd3 => no such legal move
4k3/8/8/8/1b6/2N5/8/4K1N1 w - - 0 1 | Ne2 => g1e2
4k3/8/8/8/1b6/2N5/8/4K1N1 w - - 0 1 | Nge2 => g1e2
4k3/8/8/8/1b6/2N5/8/4K1N1 w - - 0 1 | Nce2 => no such legal move
4k3/8/8/8/8/2N5/8/4K1N1 w - - 0 1 | Ne2 => ambiguous move
4k3/8/8/8/8/2N5/8/4K1N1 w - - 0 1 | Se2+ => ambiguous move";

#[test]
fn refuses(rt: HostRuntime) {
    check(&rt, REFUSED);
}

#[test]
fn names_faults(rt: HostRuntime) {
    check_shown(&rt, &SanFault::Shape, "not a move");
    check_shown(&rt, &SanFault::NoSuchMove, "no such legal move");
    check_shown(&rt, &SanFault::Ambiguous, "ambiguous move");
}
