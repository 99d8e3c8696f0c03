//! Command lines, configurations and databases.

/// A session: its arguments before the last one, which are separated by blanks, its last argument, and its files.
pub(crate) struct Row {
    pub(crate) name: &'static str,
    pub(crate) words: &'static str,
    pub(crate) last: &'static str,
    pub(crate) conf: &'static [u8],
    pub(crate) old: &'static [u8],
    pub(crate) new: &'static [u8],
}

pub(crate) const CONF: &[u8] = b"database_in=file:/old\ndatabase_new=file:/new\n";

const OLD: &[u8] =
    b"@@begin_db\n@@db_spec name attr perm size\n/b 36 40755 4096\n/c 36 100644 10\n@@end_db\n";

const NEW: &[u8] =
    b"@@begin_db\n@@db_spec name attr perm size\n/a 36 100644 5\n/c 36 100600 7\n@@end_db\n";

/// A comment that is longer than what is read of a configuration at one time.
const LONG: &[u8] = &[b'#'; 20_000];

const DEFINITIONS: &[u8] = b"@@define DIR file:
@@define OLD_DATABASE @@{DIR}/old
@@define NEW_DATABASE @@{DIR}/new
@@ifdef DIR
Base = p+s
Mine = Base+u+g
Yours = Mine-u
Theirs = Yours+sha256
Ours = Theirs-Mine
@@define FORCED Theirs
@@else
nonsense
@@endif
database_in=@@{OLD_DATABASE}
database_new=@@{NEW_DATABASE}
report_force_attrs=@@{FORCED}
report_ignore_added_attrs=Ours
@@undef FORCED
";

const SKIPPING: &[u8] = b"@@begin_db\n@@db_spec name foo perm bar\n/a 1 100644 2\n@@end_db\n";

const UNORDERED: &[u8] = b"@@begin_db\n@@db_spec name size\n/b 1\n/a 1\n@@end_db\n";

/// The modes of `/a` and `/b` have changed.
pub(crate) const MODES_OLD: &[u8] =
    b"@@begin_db\n@@db_spec name perm uid gid\n/a 40755 0 0\n/b 40755 0 0\n@@end_db\n";

pub(crate) const MODES_NEW: &[u8] =
    b"@@begin_db\n@@db_spec name perm uid gid\n/a 40700 0 0\n/b 40777 0 0\n@@end_db\n";

/// The trusted machine got the new mode of `/a`, and not that of `/b`.
pub(crate) const TRUSTED_OLD: &[u8] =
    b"@@begin_db\n@@db_spec name perm uid gid\n/a 40755 0 0\n/b 40755 0 0\n@@end_db\n";

const TRUSTED_NEW: &[u8] =
    b"@@begin_db\n@@db_spec name perm uid gid\n/a 40700 0 0\n/b 40755 0 0\n/c 40755 0 0\n@@end_db\n";

pub(crate) const ROWS: [Row; 10] = [
    Row {
        name: "a report of all parts",
        words: "aide -E -c",
        last: "/conf",
        conf: CONF,
        old: OLD,
        new: NEW,
    },
    Row {
        name: "definitions, compared",
        words: "aide --compare --config /conf --before first=p --after",
        last: "report_level=added_removed_entries",
        conf: DEFINITIONS,
        old: OLD,
        new: NEW,
    },
    Row {
        name: "definitions, compared in one list",
        words: "aide -E -c /conf -A",
        last: "report_grouped=no\nreport_level=list_entries\nlast = Mine+Yours",
        conf: DEFINITIONS,
        old: OLD,
        new: NEW,
    },
    Row {
        name: "definitions, checked",
        words: "aide -D -c /conf -B",
        last: "@@define FIRST p\nfirst = @@{FIRST}",
        conf: DEFINITIONS,
        old: b"",
        new: b"",
    },
    Row {
        name: "a long configuration",
        words: "aide -E -c /conf -A",
        last: "database_in=file:/old\ndatabase_new=file:/old\nreport_level=minimal",
        conf: LONG,
        old: OLD,
        new: NEW,
    },
    Row {
        name: "columns that are skipped",
        words: "aide -E -c /conf -A",
        last: "report_level=summary",
        conf: CONF,
        old: SKIPPING,
        new: SKIPPING,
    },
    Row {
        name: "a database out of path order",
        words: "aide -E -c",
        last: "/conf",
        conf: CONF,
        old: OLD,
        new: UNORDERED,
    },
    Row {
        name: "a database that is not there",
        words: "aide -E -c /conf -A",
        last: "database_in=file:/none",
        conf: CONF,
        old: OLD,
        new: NEW,
    },
    Row {
        name: "a configuration with a fault",
        words: "aide -E -c /conf -A",
        last: "group = nothing",
        conf: CONF,
        old: OLD,
        new: NEW,
    },
    Row {
        name: "a command line with a fault",
        words: "aide -E -D -c",
        last: "/conf",
        conf: CONF,
        old: OLD,
        new: NEW,
    },
];

/// A session that writes lines, whose arguments may name a trusted pair: its arguments before the last one, and the
/// last one.
pub(crate) struct LinesRow {
    pub(crate) name: &'static str,
    pub(crate) words: &'static str,
    pub(crate) last: &'static str,
    pub(crate) trusted_new: &'static [u8],
}

// A trusted pair that stood still.
const STILL_PAIR: &str =
    "aide_lines -E -c /conf --trusted-old /trusted_new --trusted-new /trusted_new --without";

pub(crate) const LINES_ROWS: [LinesRow; 7] = [
    LinesRow {
        name: "lines beside a trusted pair",
        words: "aide_lines -E -c /conf --trusted-old /trusted_old --trusted-new",
        last: "/trusted_new",
        trusted_new: TRUSTED_NEW,
    },
    LinesRow {
        name: "a list beside a trusted pair",
        words: STILL_PAIR,
        last: "/?",
        trusted_new: TRUSTED_NEW,
    },
    LinesRow {
        name: "a list with a fault",
        words: STILL_PAIR,
        last: "a",
        trusted_new: TRUSTED_NEW,
    },
    LinesRow {
        name: "a trusted database out of path order",
        words: "aide_lines -E -c /conf --trusted-old /trusted_old --trusted-new",
        last: "/trusted_new",
        trusted_new: UNORDERED,
    },
    LinesRow {
        name: "a trusted database that is not there",
        words: "aide_lines -E -c /conf --trusted-new /trusted_new --trusted-old",
        last: "/none",
        trusted_new: TRUSTED_NEW,
    },
    LinesRow {
        name: "a trusted pair in part",
        words: "aide_lines -E -c /conf --trusted-old",
        last: "/trusted_old",
        trusted_new: TRUSTED_NEW,
    },
    LinesRow {
        name: "lines without a trusted pair",
        words: "aide_lines -E -c",
        last: "/conf",
        trusted_new: TRUSTED_NEW,
    },
];
