//! Certificates that stand there already.

use super::*;
use pg_certificate::FromRead;
use pg_moves::Unwatched;

const LIMITS: Limits = Limits {
    max_nodes: 1000,
    enough: Enough::OneSearch,
};

const ORDERS: &str = "orders rnbqkbnr/pppp1ppp/4p3/8/8/3PP3/PPP2PPP/RNBQKBNR 1.5";

const LONGER: &str = "longer rnbqkbnr/pppp1ppp/4p3/8/8/3PP3/PPP2PPP/RNBQKBNR 2.0";

// The certificate that judging a problem leaves.
fn certificate<R: Abort + AllocGlobal>(rt: &R, line: &str) -> Vec<u8> {
    let mut scratch = Cursor::new(Vec::new(rt.alloc()));
    ruled(rt, line, LIMITS, &mut scratch, &mut Unwatched);
    scratch.into_inner()
}

// What bytes prove of a problem: the row, or why they prove nothing.
fn check_standing<R: Abort + AllocGlobal>(rt: &R, line: &str, bytes: &[u8], wanted: &str) {
    let entry = entry_of(rt, line);
    let bounds = five_bounds(rt);
    let mut source = FromRead::new(bytes);
    let found = match recheck(rt.alloc(), &entry, bounds.as_slice(), &mut source, 1000) {
        Ok(ruling) => row_of(rt, &entry, &ruling, Old::Absent),
        Err(fault) => format!(in rt.alloc(); "{fault}").expect(rt, "memory"),
    };
    assert_eq!(rt; found.as_str(), wanted);
}

#[test]
fn standing_certificates(rt: HostRuntime) {
    let bytes = certificate(&rt, ORDERS);
    check_standing(
        &rt,
        ORDERS,
        bytes.as_slice(),
        "orders|1.5|cooked|-|certificate, 63 records|2 games: 1. d3 e6 2. e3; 1. e3 e6 2. d3; they part at move 1 of \
        White, with the same moves in another order\n",
    );
    check_standing(
        &rt,
        LONGER,
        bytes.as_slice(),
        "certificate for another length",
    );
    check_standing(
        &rt,
        ORDERS,
        bytes.as_slice().get(..60).unwrap_or(b""),
        "truncated certificate",
    );
    check_standing(&rt, ORDERS, b"", "truncated certificate");
}

// What a row tells of a certificate that stood there and did not settle the problem.
fn check_told<R: Abort + AllocGlobal>(rt: &R, old: Old, wanted: &str) {
    let entry = entry_of(rt, ORDERS);
    let row = row_of(rt, &entry, &time_is_over(), old);
    assert_eq!(rt; row.as_str(), wanted);
}

#[test]
fn refused_certificates_are_told(rt: HostRuntime) {
    check_told(
        &rt,
        Old::Absent,
        "orders|1.5|not settled|-|certificate, time is over|0 games met; limit reached\n",
    );
    check_told(
        &rt,
        Old::Refused,
        "orders|1.5|not settled|-|certificate, time is over, old certificate refused|0 games met; limit reached\n",
    );
    check_told(
        &rt,
        Old::OfAnother,
        "orders|1.5|not settled|-|certificate, time is over, certificate of another problem kept|\
0 games met; limit reached\n",
    );
}
