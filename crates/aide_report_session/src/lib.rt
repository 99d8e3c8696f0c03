//! A session that writes the report: its arguments, its configuration and its two databases, over any site.
#![tactic(auto)]

mod databases;
mod machine;
mod program;
mod silent;

pub use machine::{run_paged, start};
pub use program::{session, session_on};
