//! Pages, byte for byte and push for push. Their lines are those of the form that went from record to record, each with
//! the position that it stands at, but for reasons that are told by their place. No clause says which nodes have a line,
//! what a line says, and in what pieces it goes out.

use super::*;
use crate::shared::{diagram_of, length_of, words};
use pg_certificate::Refused;
use pg_report::search;
use pg_trial::Digest;

// Problems by their names: a diagram, a length, and the certificate's version and records. Where no records stand a
// search makes it.
const PROBLEMS: &str = "knights | rnbqkb1r/ppp2ppp/8/8/8/8/PPPPPPPP/RNBQKB1R | 4.0 | 2
queen-recaptured | rnQ1kbnr/pp1ppppp/8/2p5/2P5/2q5/PP1PPPPP/RNB1KBNR | 3.5 | 2
cooked | rnbqkbnr/p1pppppp/8/8/8/3QP3/PPP2PPP/RNB1K1NR | 3.5 | 2
knight-promoted | r1bqnNnr/pppkpp1p/7R/3p4/8/8/PPPPPPP1/RNBQKBN1 | 5.5 | 2
bishop-promoted | Rnb1kbnr/p1p1pppp/8/3p4/8/8/1PPPPP2/RNBQ1KNR | 5.5 | 2
knights-promoted | 1nbqkbnr/p1ppppp1/1N6/8/8/6n1/1PPPPP1P/RNBQKBN1 | 6.0 | 2
king-walk | rnbq1bnr/ppppp1p1/8/8/2k4p/2NPP3/PPP2PPP/RNBQ1RK1 | 6.5 | 2
castled | rnbqkbnr/pppppp1p/6p1/8/4P3/5N2/PPPP1PPP/RNBQ1RK1 | 3.5 | 2
castled-in-three-orders | rnbqk1nr/ppppppbp/6p1/8/8/5NP1/PPPPPPBP/RNBQ1RK1 | 3.5 | 2
en-passant | rnbqkbnr/1pp1pppp/p2P4/8/8/8/PPPP1PPP/RNBQKBNR | 2.5 | 2
queen-promoted | rnq2bQr/pppkp1pp/3p4/8/8/8/PPP1PPPP/RNBQKBNR | 4.5 | 2
no-game | rnbqkbnr/pppppppp/8/8/8/8/PPPPPPPP/RNBQKB1R | 3.5 | 2
many-games | rnbqkbnr/3ppppp/ppp5/8/8/PPP5/3PPPPP/RNBQKBNR | 3.0 | 2
open-game | r1bqkb1r/pppp1ppp/2n2n2/4p3/2B1P3/2N2N2/PPPP1PPP/R1BQK2R | 3.5 | 2
fools-mate | fools-mate | 2.0 | 2
shut-in | shut-in | 2.5 | 2
shut-in-of-old | shut-in | 2.5 | 1
fools-mate-of-old | fools-mate | 2.0 | 1
castled-of-old | rnbqk1nr/ppppppbp/6p1/8/8/5NP1/PPPPPPBP/RNBQ1RK1 | 3.5 | 1
many-games-of-old | rnbqkbnr/3ppppp/ppp5/8/8/PPP5/3PPPPP/RNBQKBNR | 3.0 | 1
all-expanded | recaptured | 2.0 | 1 | 01*9766
all-named | two-orders | 1.5 | 2 | 05*443
all-expanded-but-the-last | rnbqkbnr/pppppppp/8/8/8/3P4/PPPP1PPP/RNBQKBNR | 2.0 | 1 | 01*443 0203";

// A name and how many nodes are told at most; what is answered, how many bytes the page has, their digest, and the
// pushes.
const PAGES: &str = "knights | 0 => () 25531 05fd97672bf66aa8 533
knights | 1 => () 26208 c15d28d838b1b667 1082
knights | 10 => () 27593 9cb3cb474aaac700 1873
knights | 100 => () 54807 ac99a3f933f8408b 12551
knights | 1000 => () 78650 544fc59a3d54a286 25365
knights | 20000 => () 613114 536ccbd82900039f 166481
queen-recaptured | 0 => () 25700 4c8fdf201357a9dc 579
queen-recaptured | 1 => () 26355 7aa2721454857275 1106
queen-recaptured | 10 => () 29297 c7a9a660a3f29987 2591
queen-recaptured | 100 => () 36908 3576540300067528 6014
queen-recaptured | 1000 => () 126752 ceeb3d2d521c986c 31706
cooked | 0 => () 25624 f60438337297095b 530
cooked | 1 => () 26203 89caa6d3dae34b9a 976
cooked | 10 => () 28633 60bb8a2d91f7404f 2232
cooked | 100 => () 44408 0afb207ec060bb4a 8762
cooked | 1000 => () 240080 f7b249b5bcabd730 73079
knight-promoted | 0 => () 26087 32e3e8e463f8812e 912
knight-promoted | 1 => () 26885 12ca7cbc1bc95786 1579
knight-promoted | 10 => () 30274 9e0636d4c7b4886b 3629
knight-promoted | 100 => () 42060 72cb31d784fb2306 7637
bishop-promoted | 0 => () 25926 d51d8bcede19744a 953
bishop-promoted | 1 => () 26714 ab0f81afc9a0466d 1607
bishop-promoted | 10 => () 29994 a0103a94209f4b63 3380
bishop-promoted | 100 => () 55821 997725968fb14c27 13522
bishop-promoted | 1000 => () 89060 21fa840fe8423743 26082
knights-promoted | 0 => () 26160 90672780ff184bc1 1068
knights-promoted | 1 => () 26972 d5d34f613376737b 1747
knights-promoted | 10 => () 31362 a9e635afb5298221 4667
knights-promoted | 100 => () 40405 690e66deba637e5e 8184
king-walk | 0 => () 26046 58b572840760ada1 812
king-walk | 1 => () 26892 d4391a58bb5ce69d 1530
king-walk | 10 => () 28766 cd71dfb582f5e75e 2493
king-walk | 100 => () 54189 25117a2390c97dbc 15000
king-walk | 1000 => () 86493 b3f93e9b0a7a3ed5 28491
castled | 0 => () 25709 0e7337326e363c4f 583
castled | 1 => () 26387 653d6065bedd8500 1132
castled | 10 => () 27728 64792cde552f2ef3 2033
castled | 100 => () 44396 7f513ee39678d008 9087
castled | 1000 => () 78982 0b02dd8c6b73009e 23664
castled | 20000 => () 341415 06a7dc7dbb56383f 99784
castled-in-three-orders | 0 => () 26036 6697bf211cad48e3 719
castled-in-three-orders | 1 => () 26741 44ed013d5b7c96a2 1267
castled-in-three-orders | 10 => () 29304 3e652dfc9b395ad4 2710
castled-in-three-orders | 100 => () 32407 12073005611c7347 4174
castled-in-three-orders | 1000 => () 56338 1d208db8d3f0d45f 12203
en-passant | 0 => () 25836 4599a5e4956780a6 596
en-passant | 1 => () 26490 e12692eeb2ec1749 1123
en-passant | 10 => () 29781 0c06ce0fefe0d373 2857
en-passant | 1000 => () 57747 d1181601d8e768fd 11035
queen-promoted | 0 => () 25862 2bc881069fc8f9f6 792
queen-promoted | 1 => () 26724 55fe6890a4a4ff0c 1524
queen-promoted | 10 => () 29796 df550ad7c3194f67 3329
queen-promoted | 100 => () 36676 5db70a94d275c37e 5991
no-game | 0 => () 25443 90e70df6466f18c5 423
no-game | 1 => () 26122 6d947941941406b5 973
no-game | 10 => () 27596 5253341c0d98329f 1845
no-game | 100 => () 53394 238423a4ad46848c 12631
no-game | 1000 => () 214499 e95f568eca11b0d8 70372
many-games | 0 => () 29002 977759ca6c0a9ba2 1686
many-games | 1 => () 29617 97e6021398ce7ca1 2105
many-games | 10 => () 30836 fc5d8b527b11620b 2726
many-games | 100 => () 47823 ffa855690ef0b672 10392
many-games | 1000 => () 194343 0981bb37848b6d88 69768
open-game | 0 => () 33913 24af4a73274a6131 3298
open-game | 1 => () 34638 3f884dd6e43b7dac 3829
open-game | 10 => () 36027 a73f83811c05c7d7 4600
open-game | 100 => () 62667 9f652272b689d913 13365
open-game | 1000 => () 88083 936a1365f02ce049 25845
open-game | 20000 => () 670623 c5bfa1e75a2de99b 186741
fools-mate | 0 => () 25673 7b15248dd0f34222 533
fools-mate | 1 => () 26301 f0df6b8de52b4781 1005
fools-mate | 10 => () 27732 1e44cd3e1348140b 1895
fools-mate | 100 => () 38923 6383ef4df1ec83d3 5279
shut-in | 0 => () 25516 687169df67e3fda1 496
shut-in | 1 => () 26115 bdd332aa94de5f82 968
shut-in | 10 => () 28545 8f0d601ec8baf2b4 2324
shut-in | 100 => () 36077 a858a8d5e7a79e08 5562
shut-in-of-old | 0 => () 25516 687169df67e3fda1 496
shut-in-of-old | 1 => () 26115 bdd332aa94de5f82 968
shut-in-of-old | 10 => () 28545 8f0d601ec8baf2b4 2324
shut-in-of-old | 100 => () 36077 a858a8d5e7a79e08 5562
fools-mate-of-old | 0 => () 25673 7b15248dd0f34222 533
fools-mate-of-old | 1 => () 26301 f0df6b8de52b4781 1005
fools-mate-of-old | 10 => () 27732 1e44cd3e1348140b 1895
fools-mate-of-old | 100 => () 38923 6383ef4df1ec83d3 5279
castled-of-old | 0 => Answer(Check(UnknownRecord(6))): unknown record byte 6 0 cbf29ce484222325 0
many-games-of-old | 0 => () 29002 977759ca6c0a9ba2 1686
many-games-of-old | 1 => () 29617 97e6021398ce7ca1 2105
many-games-of-old | 10 => () 30836 fc5d8b527b11620b 2726
many-games-of-old | 100 => () 47823 ffa855690ef0b672 10392
many-games-of-old | 1000 => () 194343 0981bb37848b6d88 69768
all-expanded | 0 => () 25409 804a0bf2f6c542fb 418
all-expanded | 100 => () 29813 fd6085a830f3ab0c 2953
all-expanded | 1000 => () 146796 6653e633fedbb04d 63090
all-expanded | 20000 => () 2147597 e83620098f5f5430 802543
all-named | 0 => () 25557 a3c3ff821f365bd4 443
all-named | 1 => () 25845 8b6c28c47d3b08c4 560
all-named | 100 => () 32413 c1021c3f84b6f616 3392
all-named | 1000 => () 124337 1d7dd284d3d9c702 38528
all-expanded-but-the-last | 0 => () 25478 006927f31e835ea3 478
all-expanded-but-the-last | 1 => () 25478 006927f31e835ea3 478
all-expanded-but-the-last | 21 => () 25478 006927f31e835ea3 478
all-expanded-but-the-last | 22 => () 25642 0e5a0637a43a20d5 558";

// Keeps what is pushed, and counts the pushes, those of no bytes too.
#[derive(Drop)]
struct Pushes {
    bytes: Vec<u8>,
    count: u64,
    failed: bool,
}

impl Sink for Pushes {
    ghost use Rattle.std.specs.Prelude.{None};

    ghost held = { λ _. None };

    ghost has_failed = { λ s. s.failed };

    fn push(&mut self, bytes: &[u8]) -> Result<(), Refused> {
        if self.failed || self.bytes.extend_from_slice(bytes).is_err() {
            self.failed = true;
            return Err(Refused);
        }
        self.count = self.count.saturating_add(1);
        Ok(())
    }

    fn failed(&self) -> bool {
        self.failed
    }
}

// The certificate that a search makes for a problem, with the digit of its version.
fn searched<R: Abort + AllocGlobal>(rt: &R, problem: &str) -> Vec<u8> {
    let diagram = diagram_of(rt, field(problem, 1));
    let length = length_of(rt, field(problem, 2));
    let mut sink = ToWrite::new(Vec::new(rt.alloc()));
    let answer = search(rt.alloc(), &diagram, length, MANY, &mut sink);
    assert!(rt; answer.is_ok(), "{problem}");
    let mut bytes = sink.into_inner();
    if let Some(version) = bytes.get_mut(3) {
        *version = field(problem, 3).bytes().next().unwrap_or(0);
    }
    bytes
}

// The certificate of a problem.
fn certificate_of<R: Abort + AllocGlobal>(rt: &R, problem: &str) -> Vec<u8> {
    let records = field(problem, 4);
    if records.is_empty() {
        return searched(rt, problem);
    }
    let (diagram, length, version) = (field(problem, 1), field(problem, 2), field(problem, 3));
    let header = words(&format_args!("{version} {diagram} {length}"));
    certificate(rt, header.as_str(), records)
}

// What is answered where `nodes` nodes are told at most, how many bytes the page has, their digest, and in how many
// pushes they go out.
fn shown<R: Abort + AllocGlobal>(rt: &R, problem: &str, nodes: &str, bytes: &[u8]) -> Said {
    let (diagram, length) = (field(problem, 1), field(problem, 2));
    let asked = words(&format_args!("{diagram} | {length} | {nodes}"));
    let mut out = Pushes {
        bytes: Vec::new(rt.alloc()),
        count: 0,
        failed: false,
    };
    let said = show_bytes(rt, asked.as_str(), bytes, &mut out);
    let state = Digest::of(out.bytes.as_slice()).value();
    words(&format_args!("{said} {} {state:016x} {}", out.bytes.len(), out.count))
}

// The pages of a problem are those that are wanted.
fn check_problem<R: Abort + AllocGlobal>(rt: &R, problem: &str) {
    let bytes = certificate_of(rt, problem);
    for row in PAGES.lines() {
        let (asked, wanted) = halves(rt, row, " => ");
        if field(asked, 0) == field(problem, 0) {
            let said = shown(rt, problem, field(asked, 1), bytes.as_slice());
            assert_eq!(rt; said.as_str(), wanted, "{asked}");
        }
    }
}

#[test]
fn the_pages_are_those_of_a_walk_from_record_to_record(rt: HostRuntime) {
    for problem in PROBLEMS.lines() {
        check_problem(&rt, problem);
    }
}
