//! Two databases compared: the report, byte by byte, and the status of a run.
#![tactic(auto)]

mod change_writer;
mod comparison;
mod count;
mod databases;
mod details;
mod entries;
mod finding;
mod flush;
mod pass;
mod plan;
mod report;
mod sections;

pub use aide_merge::{Outcome, RunFault};
pub use aide_text::{MemorySink, Sink, WriteSink, emit, emit_path};
pub use comparison::run;
