//! Two databases side by side: the merge of both, its changes, and what a run over both returns.
#![tactic(auto)]

mod change;
mod difference;
mod digests;
mod first_fault;
mod merge;
mod outcome;
mod pass;
mod readings;
mod run_fault;

pub use change::{AtPath, name_of, path_of};
pub use difference::{letters, said_of};
pub use digests::{Digests, changed_side, digest_of};
pub use first_fault::settled;
pub use merge::{Merge, start_cursor};
pub use outcome::Outcome;
pub use pass::{clear, close_both, read_to_end};
pub use readings::{Readings, readings_of};
pub use run_fault::RunFault;
