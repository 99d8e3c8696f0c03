//! Two databases, and their report at the level of the summary.

/// A configuration that names the databases `/old` and `/new`.
pub(super) const CONFIG: &[u8] =
    b"database_in=file:/old\ndatabase_new=file:/new\nreport_level=summary\n";

/// Between these two, `/a` and `/d` were added, `/b` was removed, and `/c` has changed.
pub(super) const OLD: &[u8] = b"@@begin_db\n@@db_spec name size\n/b 5\n/c 10\n@@end_db\n";

pub(super) const NEW: &[u8] = b"@@begin_db\n@@db_spec name size\n/a 5\n/c 7\n/d 1\n@@end_db\n";

/// A new database without an end.
pub(super) const CUT: &[u8] = b"@@begin_db\n@@db_spec name size\n/a 5\n";

/// What a comparison of the first two writes.
pub(super) const REPORT: &[u8] = b"AIDE found differences between the two databases.

Summary:
  Total number of entries: 3
  Added entries:           2
  Removed entries:         1
  Changed entries:         1
";
