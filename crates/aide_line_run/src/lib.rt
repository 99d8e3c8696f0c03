//! Two databases, compared with the help of a trusted pair: what accounts for each change.
#![tactic(auto)]

mod change;
mod change_lines;
mod in_order;
mod line_counts;
mod list;
mod opening;
mod pair_fault;
mod run;
mod settle;
mod trusted;
mod walk;
mod write;

pub use list::LeftOutList;
pub use pair_fault::PairFault;
pub use run::{TrustedPair, run_lines};
pub use write::Tasks;
