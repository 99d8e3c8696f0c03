//! What is said about a line of a database: the kinds of lines, columns, and entries.
#![tactic(auto)]

mod column;
mod columns;
mod delta;
mod device_fault;
mod entry;
mod fault_kind;
mod held_entry;
mod line;
mod shape;
mod spec_line;
mod view;

pub use columns::Columns;
pub use delta::{attrs_delta_of, cmp_names, delta_of};
pub use device_fault::DeviceFault;
pub use entry::{entry_fault, follows};
pub use fault_kind::DbFaultKind;
pub use held_entry::HeldEntry;
pub use line::{LineKind, kind_of};
pub use spec_line::read_columns;
pub use view::View;
