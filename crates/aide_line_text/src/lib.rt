//! The lines of JSON about two databases and about a configuration.
#![tactic(auto)]

mod account;
mod attribute;
mod counts;
mod ends;
mod entry;
mod frame;
mod members;
mod names;
mod settings;
mod side;
mod skipped;

pub use account::{Account, account_as};
pub use counts::LineCounts;
pub use entry::{Remark, put_entry_line};
pub use frame::{Read, ReadFour, ReadPair, put_closing_line, put_opening_line};
pub use settings::put_settings_line;
