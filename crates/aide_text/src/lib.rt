//! The texts of a report and their writers: the parts of a report that do not read a database.
#![tactic(auto)]

mod columns;
mod counts;
mod decoded;
mod digest;
mod emitting;
mod feed;
mod feeding;
mod lines;
mod memory_sink;
mod overview;
mod pen;
mod piece;
mod plain;
mod ready;
mod section;
mod sink;
mod slices;
mod titles;
mod value;

pub use counts::Counts;
pub use decoded::DecodedFeed;
pub use digest::put_digest;
pub use emitting::emit;
pub use feed::{Feed, Printed};
pub use feeding::put_feed;
pub use lines::{put_side_by_side, put_texts_side_by_side};
pub use memory_sink::MemorySink;
pub use overview::put_overview;
pub use pen::{Pen, emit_path, put, put_newline, put_number, put_path, put_path_end};
pub use plain::{put_encoded_path_end, put_encoded_path_line};
pub use ready::Ready;
pub use section::{Contents, Section};
pub use sink::{Sink, WriteSink};
pub use slices::SliceFeed;
pub use titles::{put_path_line, put_section_head, put_titled};
pub use value::{ValueText, digest_text, kind_text, mode_text, number_text};
