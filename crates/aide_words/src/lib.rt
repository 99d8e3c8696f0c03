//! The arguments of a command line, and the job that they ask for.
#![tactic(auto)]

mod job;
mod line_job;
mod words;

pub use job::{Job, WordsFault, read_words};
pub use line_job::{LineJob, read_line_words};
pub use words::{Memory, Word, Words};
