//! A list that says what is left out, in addition to the pairs of databases.
ghost use Rattle.std.specs.Prelude.{◌≡◌};
ghost use Rattle.aide_merge.specs.code.ChangeView.{change_of};
ghost use Rattle.aide_line_run.specs.Listed.{left_by};
ghost use Rattle.aide_line_run.specs.ListView.{list_read, measures_at};

use crate::change::entries_of;
use aide_agreement::Change;
use aide_attr::Attr;
use aide_db::Reel;
use aide_left_out::{Measures, left_out};
use aide_merge::Merge;
use aide_patterns::Exclusions;

/// A list that says what is left out.
#[derive(Clone, Copy)]
pub struct LeftOutList<'a> {
    /// Its rules.
    pub rules: &'a Exclusions<'a>,
    /// The SHA-256 of its text.
    pub digest: &'a [u8; 32],
}

/// Returns which databases have the column of capabilities, as far as they were read.
fn measures_of<R: Reel>(merge: &Merge<R>) -> Measures
    ensures { result ≡ measures_at merge.now }
{
    let (of_old, of_new) = merge.have_column(Attr::Caps);
    Measures { of_old, of_new }
}

/// Returns the line of a list that leaves a change of two databases out. A path with escapes is decoded into the room.
pub(crate) fn line_of<R: Reel>(
    list: LeftOutList<'_>,
    merge: &Merge<R>,
    change: Change<'_>,
    room: &mut [u8; 3839],
) -> Option<u64>
    ensures { result ≡ left_by (list_read list.entry) (measures_at merge.now)
        (change_of change.entry) }
{
    let (old, new) = entries_of(change);
    left_out(list.rules, measures_of(merge), old, new, room)
}
