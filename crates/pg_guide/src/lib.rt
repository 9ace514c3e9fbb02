//! What a certificate says of a line of moves, in words. No clause speaks of the words; that `why` answers Ok means
//! that the certificate proves some games the exact answer to its problem.
#![tactic(auto)]

mod along;
mod explaining;
mod fault;
mod found;
mod writing;

pub use explaining::why;
pub use fault::WhyFault;
