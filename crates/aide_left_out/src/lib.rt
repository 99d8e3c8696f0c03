//! Which changes a list leaves out.
#![tactic(auto)]

mod change;
mod entry;
mod name;
mod writers;

pub use change::{Measures, left_out};
