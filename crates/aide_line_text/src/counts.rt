//! What the last line counts.

/// The numbers of the last line.
#[derive(Clone, Copy)]
pub struct LineCounts {
    /// All entries of the new database.
    pub total: u64,
    /// The entries that only the new database has.
    pub added: u64,
    /// The entries that only the old database has.
    pub removed: u64,
    /// The entries of both databases that are reported as changed.
    pub changed: u64,
    /// The lines of entries that agree with the old ones.
    pub same_as_old: u64,
    /// The lines of entries for which a trusted machine accounts.
    pub same_as_trusted: u64,
    /// The lines of entries that a list leaves out.
    pub left_out: u64,
    /// The lines of entries for which nothing accounts.
    pub others: u64,
}
