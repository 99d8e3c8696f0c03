//! The attributes of entries: sets, groups and expressions, what changed between two entries, and its summary string.
#![tactic(auto)]

mod attr;
mod byte;
mod delta;
mod expression;
mod file_type;
mod form;
mod groups;
mod known;
mod level;
mod name;
mod name_map;
mod report;
mod set;
mod summary_string;

pub use attr::Attr;
pub use byte::is_blank;
pub use delta::{Delta, Ignore};
pub use expression::ExprFault;
pub use file_type::FileType;
pub use form::Form;
pub use groups::{GroupFault, Groups};
pub use known::Known;
pub use level::Level;
pub use name::{is_group_name, is_word};
pub use name_map::{NameMap, NameMapFault};
pub use report::{reported, shown};
pub use set::AttrSet;
pub use summary_string::{Alone, summary, summary_one};
