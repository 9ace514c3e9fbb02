//! The checker of certificates: what a certificate proves, and the walk that reads one.
#![tactic(auto)]

mod answering;
mod certify;
mod chess_laws;
mod fault;
mod finds;
mod halt;
mod laws;
mod listed;
mod machine;
mod nearness;
mod node;
mod opening;
mod problem;
mod spot;
mod table;
mod walk;
mod watch;

pub use answering::{answer, answer_opened, answer_watched};
pub use certify::{Answer, Proved, check, check_watched};
pub use chess_laws::{
    accepted_is_exact, accepted_where_it_fits, exact_has_a_certificate, moves_come_in_order,
    records_are_read_as_spelled, refused_at_the_first_cause, rules_are_those_of_chess,
    what_refusals_prove,
};
pub use fault::{AnswerFault, Fault, ListFault, OpenFault, ProblemFault};
pub use listed::check_listed;
pub use nearness::{leads_to, skip_to_solution};
pub use opening::{Opened, open, problem_of};
pub use problem::Problem;
pub use spot::Spot;
pub use watch::CheckWatch;
