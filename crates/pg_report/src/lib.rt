//! What the program does with what it is asked: a check of a certificate and its report, the report of the games that a
//! certificate proves, what is said at once of a diagram, and the status of each fault; and names of the crates below.
#![tactic(auto)]

mod answering;
mod expecting;
mod fault;
mod lengths;
mod run;
mod showing;
mod sides;
mod statuses;
mod within;

pub use answering::run_answer;
pub use fault::{AnswerRunFault, RunFault, ShowFault};
pub use lengths::shortest;
pub use run::{run_check, run_listed};
pub use showing::run_show;
pub use statuses::{
    answer_status, count_status, moves_status, search_status, show_status, status, upgrade_status,
    verdict_status,
};

// Names of the crates below: the program takes most of these from here, and others from where they stand.
pub use pg_captures::{Bound, Captures, Promotions};
pub use pg_certificate::{FromRead, Refused, Sink, Source, ToWrite, WriteFault};
pub use pg_checker::{AnswerFault, Fault, OpenFault, Opened, Problem, ProblemFault, check, open};
pub use pg_fen::{Diagram, FenFault, Length, LengthFault};
pub use pg_moves::{CountFault, CountProgress, Unwatched};
pub use pg_pawns::PawnFiles;
pub use pg_san::{Games, GamesFault};
pub use pg_searcher::{SearchFault, SearchProgress, search, search_watched};
pub use pg_texts::{
    CountRunFault, MovesFault, UpgradeFault, Verdict, run_count, run_count_watched, run_moves,
    upgrade, write_board, write_movetext, write_report,
};
pub use pg_travel::Travel;
