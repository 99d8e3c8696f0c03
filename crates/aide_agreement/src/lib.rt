//! What two databases have at a path, and what accounts for a change: the old entry, or one of a trusted machine.
#![tactic(auto)]

mod account;
mod agreement;
mod change;
mod sets;
mod trusted;

pub use account::{SameAs, same_as};
pub use agreement::agree;
pub use change::{Change, kind_word, type_at};
