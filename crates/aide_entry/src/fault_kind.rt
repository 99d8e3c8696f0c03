//! Why a database is refused.
ghost use Rattle.std.specs.Prelude.{◌≡◌};
ghost use Rattle.aide_entry.specs.Fault.{column_of_kind, code_of_kind, words_of_kind};

/// Why a database is refused.
#[derive(Clone, Copy, Debug, PartialEq, Eq)]
pub enum DbFaultKind {
    /// A line has more bytes than the limit. Lines after the end line do not count.
    LineTooLong,
    /// Another line, or the end of the text, comes before `@@begin_db`.
    NoBegin,
    /// After `@@begin_db`, a line begins with `@@` and is neither the first `@@db_spec` nor `@@end_db`.
    BadDirective,
    /// `@@db_spec` names no column, more than 64 columns, a known column twice, or no column `name`.
    BadSpec,
    /// An entry or `@@end_db` comes before `@@db_spec`.
    NoSpec,
    /// An entry has more or fewer fields than there are columns.
    FieldCount,
    /// The path of an entry does not begin with `/`.
    BadName,
    /// The path of an entry does not come after the path of the entry before it.
    OutOfOrder,
    /// The field of this column, counted from 1, is not a number: decimal and from -2^63 to 2^64 - 1, octal and below
    /// 2^32 in the column `perm`, and not below 0 in the column `attr`.
    BadNumber { column: u32 },
    /// The field of this column, counted from 1, is not a time: a decimal number from -2^63 to 2^64 - 1, or base64
    /// (RFC 4648 section 4) of one.
    BadTime { column: u32 },
    /// The field of this column, counted from 1, is not a digest: base64 (RFC 4648 section 4) of as many bytes as such
    /// a digest has, or `0`.
    BadDigest { column: u32 },
    /// The text ends before `@@end_db`.
    NoEnd,
    /// There was not enough memory for the line.
    Memory,
    /// The device failed.
    Read,
    /// The text goes on after the byte limit.
    TooManyBytes,
}

impl DbFaultKind {
    /// Returns the code of the kind. If a line has more than one fault, the one with the least code is reported.
    /// Of the faults of fields it is the one of the first column.
    pub fn code(self) -> u8
        ensures { result ≡ code_of_kind self }
    {
        match self {
            DbFaultKind::LineTooLong => 1,
            DbFaultKind::NoBegin => 2,
            DbFaultKind::BadDirective => 3,
            DbFaultKind::BadSpec => 4,
            DbFaultKind::NoSpec => 5,
            DbFaultKind::FieldCount => 6,
            DbFaultKind::BadName => 7,
            DbFaultKind::OutOfOrder => 8,
            DbFaultKind::BadNumber { column: _ } => 9,
            DbFaultKind::BadTime { column: _ } => 10,
            DbFaultKind::BadDigest { column: _ } => 11,
            DbFaultKind::NoEnd => 12,
            DbFaultKind::Memory => 13,
            DbFaultKind::Read => 14,
            DbFaultKind::TooManyBytes => 15,
        }
    }

    /// Returns the number of the column that the fault is about, if it is about one.
    pub fn column(self) -> Option<u32>
        ensures { result ≡ column_of_kind self }
    {
        match self {
            DbFaultKind::BadNumber { column } => Some(column),
            DbFaultKind::BadTime { column } => Some(column),
            DbFaultKind::BadDigest { column } => Some(column),
            _ => None,
        }
    }

    /// Returns the words that say what is wrong. If the fault is about a column, its number follows the words.
    #[tactic(auto, unfolding(crate::specs::Fault::words_of_kind))]
    pub fn words(self) -> &'static [u8]
        ensures { result.now ≡ words_of_kind self }
    {
        match self {
            DbFaultKind::LineTooLong => b"line too long",
            DbFaultKind::NoBegin => b"no @@begin_db",
            DbFaultKind::BadDirective => b"unexpected directive",
            DbFaultKind::BadSpec => b"bad @@db_spec",
            DbFaultKind::NoSpec => b"no @@db_spec",
            DbFaultKind::FieldCount => b"wrong number of fields",
            DbFaultKind::BadName => b"bad name",
            DbFaultKind::OutOfOrder => b"entry out of path order",
            DbFaultKind::BadNumber { column: _ } => b"bad number in column",
            DbFaultKind::BadTime { column: _ } => b"bad time in column",
            DbFaultKind::BadDigest { column: _ } => b"bad digest in column",
            DbFaultKind::NoEnd => b"no @@end_db",
            DbFaultKind::Memory => b"out of memory",
            DbFaultKind::Read => b"read failed",
            DbFaultKind::TooManyBytes => b"too many bytes",
        }
    }
}
