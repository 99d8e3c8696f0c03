//! A session that writes lines of JSON: its arguments, its list, its configuration and its two pairs of databases, over
//! any sites.
#![tactic(auto)]

mod as_line;
mod given_list;
mod line_databases;
mod lines_program;
mod machine;

pub use lines_program::lines_session_on;
pub use machine::{run_lines_paged, start_lines};
