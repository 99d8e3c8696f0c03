//! The options of a configuration, by their names.

ghost use Rattle.std.specs.Prelude.{◌≡◌};
ghost use Rattle.aide_conf.specs.Effect.{main_option, is_accepted, is_older, option_named};

use crate::options::{AttrList, Switch};

/// One of the two databases.
#[derive(Clone, Copy)]
pub(crate) enum Side {
    Old,
    New,
}

/// The kind of an option: which value it has, and what it is for.
#[derive(Clone, Copy)]
pub(crate) enum OptionKind {
    Url(Side),
    Level,
    Flag(Switch),
    Attributes(AttrList),
    ReportUrl,
    ReportFormat,
    /// An option of AIDE that sets nothing here.
    Accepted,
    /// A name that AIDE no longer has.
    Older,
}

/// Returns the option of a name, if the value of this option is read.
#[tactic(auto, unfolding(crate::specs::Effect::main_option))]
fn main_option(name: &[u8]) -> Option<OptionKind>
    ensures { result ≡ main_option name.now }
{
    if name == b"database_in".as_slice() || name == b"database".as_slice() {
        Some(OptionKind::Url(Side::Old))
    } else if name == b"database_new".as_slice() {
        Some(OptionKind::Url(Side::New))
    } else if name == b"report_level".as_slice() {
        Some(OptionKind::Level)
    } else if name == b"report_url".as_slice() {
        Some(OptionKind::ReportUrl)
    } else if name == b"report_format".as_slice() {
        Some(OptionKind::ReportFormat)
    } else if let Some(switch) = Switch::named(name) {
        Some(OptionKind::Flag(switch))
    } else if let Some(list) = AttrList::named(name) {
        Some(OptionKind::Attributes(list))
    } else {
        None
    }
}

/// The names of AIDE's options that set nothing here.
const ACCEPTED_NAMES: [&[u8]; 17] = [
    b"database_out",
    b"database_gzip",
    b"gzip_dbout",
    b"database_attrs",
    b"database_add_metadata",
    b"log_level",
    b"verbose",
    b"config_version",
    b"config_check_warn_unrestricted_rules",
    b"root_prefix",
    b"num_workers",
    b"acl_no_symlink_follow",
    b"warn_dead_symlinks",
    b"report_append",
    b"report_detailed_init",
    b"report_ignore_e2fsattrs",
    b"syslog_format",
];

/// Returns whether this is the name of an option of AIDE that sets nothing here.
fn is_accepted(name: &[u8]) -> bool
    ensures { result ≡ is_accepted name.now }
{
    ACCEPTED_NAMES.contains(&name)
}

/// The names of options that AIDE no longer has.
const OLDER_NAMES: [&[u8]; 4] = [
    b"ignore_list",
    b"report_attributes",
    b"grouped",
    b"summarize_changes",
];

/// Returns whether this is the name of an option that AIDE no longer has.
fn is_older(name: &[u8]) -> bool
    ensures { result ≡ is_older name.now }
{
    OLDER_NAMES.contains(&name)
}

/// Returns the option of a name. Any other name is that of a group.
#[tactic(auto, unfolding(crate::specs::Effect::option_named))]
pub(crate) fn option_named(name: &[u8]) -> Option<OptionKind>
    ensures { result ≡ option_named name.now }
{
    match main_option(name) {
        Some(kind) => Some(kind),
        None => {
            if is_accepted(name) {
                Some(OptionKind::Accepted)
            } else if is_older(name) {
                Some(OptionKind::Older)
            } else {
                None
            }
        }
    }
}
