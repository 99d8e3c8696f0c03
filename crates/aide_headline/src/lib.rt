//! The headline: what a comparison of two databases promises, and what the whole program does, for
//! the report and for lines of JSON.
#![tactic(auto)]

mod comparison;
mod lines_program;
mod program;

pub use comparison::compare_databases;
pub use lines_program::run_lines_program;
pub use program::run_program;
