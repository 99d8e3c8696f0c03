//! The fields of a line: where they are, and what numbers, times, digests, link names and paths they are.
#![tactic(auto)]

mod base64_tables;
mod blanks;
mod decoded;
mod fields;
mod number;
mod path;
mod runs;
mod span;
mod spanned_line;
mod spans;
mod symbols;
mod time_digits;
mod value;

pub use base64_tables::Base64Tables;
pub use decoded::Decoded;
pub use fields::next_field;
pub use number::{is_bits, is_mode, is_number, read_bits, read_mode, read_number};
pub use path::cmp_paths;
pub use span::Span;
pub use spanned_line::SpannedLine;
pub use spans::Spans;
pub use value::{
    differ, has_value, is_digest, is_nought, is_time, read_digest, read_link, read_time, read_type,
    written_digest,
};
