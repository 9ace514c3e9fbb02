//! What other crates are tried with, for tests alone. Readers and writers of std: of one byte a call, failing at a
//! call, endless, taking nothing, counting; of these nothing is proved but what std asks of each reader and writer. Two
//! bounds: by the numbers of men, and one that never excludes. Certificates, byte by byte; texts that spell bytes; and
//! a digest for rows.
#![tactic(auto)]

mod certificates;
mod counted;
mod digest;
mod endless;
mod fails_at;
mod men;
mod never;
mod one_byte;
mod spelled;
mod takes_nothing;

pub use certificates::{OPEN_GAME, TWO_ORDERS, certificate, named_expansions};
pub use counted::Counted;
pub use digest::Digest;
pub use endless::Endless;
pub use fails_at::FailsAt;
pub use men::Men;
pub use never::Never;
pub use one_byte::OneByte;
pub use spelled::append_spelled;
pub use takes_nothing::TakesNothing;
