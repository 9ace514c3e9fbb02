//! Legal moves, one a line.

use super::*;

const LISTS: &str =
    "moves | endgame => () => e3$e4$g3+$g4$Rb1$Rb2$Rb3$Ra4$Rc4$Rd4$Re4$Rxf4+$Ka4$Ka6$
moves | mated => ()
moves |  => Position(Fields): wrong number of fields
moves | 4k3/8/8/8/8/8/8/4K3 => Position(Fields): wrong number of fields
moves | 4k3/8/8/8/8/8/8/4K3 x - - 0 1 => Position(Side): bad side to move
moves | 4k3/8/8/8/8/8/8/4R1K1 w - - 0 1 => \
    Position(Invalid(Check)): impossible position: the side that is not to move is in check";

#[test]
fn moves_of_positions(rt: HostRuntime) {
    check_table(&rt, LISTS);
}

// Each write fails in turn, 28 of them: what was written before it stands, and no write follows. A position
// without a legal move takes none.
#[test]
fn writes_of_moves_that_fail(rt: HostRuntime) {
    let list = "moves | endgame => () => e3$e4$g3+$g4$Rb1$Rb2$Rb3$Ra4$Rc4$Rd4$Re4$Rxf4+$Ka4$Ka6$";
    check_row_writes(&rt, list, 28);
    check_row_writes(&rt, "moves | mated => ()", 0);
}
