//! The parts of JSON (RFC 8259) that a line of changes has: strings of streams, numbers, and members of objects.
#![tactic(auto)]

mod base16;
mod characters;
mod comma;
mod escaped;
mod member;
mod number;
mod plain;
mod spelling;
mod string;
mod utf8;

pub use comma::put_comma;
pub use member::{
    put_count_member, put_digest_member, put_integer_member, put_literal_member, put_name,
    put_text_member, put_word_member,
};
pub use number::put_count;
pub use string::put_quoted;
pub use utf8::is_utf8;
