//! The limits of a database.

use aide_db::Limits;

/// The most bytes of a line of a database, without its newline.
pub(crate) const LONGEST: u32 = 1_048_576;

/// The limits of a database: its longest line, and at most 2^40 bytes in all.
pub const LIMITS: Limits = Limits {
    line: LONGEST,
    bytes: 1_099_511_627_776,
};
