//! What the databases have at the path of a change.
ghost use Rattle.std.specs.Prelude.{◌≡◌};
ghost use Rattle.std.specs.Ordering.{is_eq, is_lt};
ghost use Rattle.aide_agreement.specs.Found.{found};
ghost use Rattle.aide_fields.specs.Path.{path_cmp};
ghost use Rattle.aide_entry.specs.View.{entry_in};
ghost use Rattle.aide_left_out.specs.LeftOut.{path_of};
ghost use Rattle.aide_merge.specs.code.ChangeView.{change_of};

use aide_agreement::Change;
use aide_db::{View, cmp_names};
use std::cmp::Ordering;

/// Returns the entries of a change, the old one first.
pub(crate) fn entries_of<'a>(change: Change<'a>) -> (Option<View<'a>>, Option<View<'a>>)
    ensures entries { (found result.0, found result.1) ≡ (change_of change.entry).1 }
    ensures path { path_of result.0 result.1 ≡ (change_of change.entry).0 }
{
    match change {
        Change::Added(new) => (None, Some(new)),
        Change::Removed(old) => (Some(old), None),
        Change::Common(old, new) => (Some(old), Some(new)),
    }
}

/// Returns an entry with the path of a change.
fn view_of<'a>(change: Change<'a>) -> View<'a>
    ensures { (entry_in result).0 ≡ (change_of change.entry).0 }
{
    match change {
        Change::Added(new) => new,
        Change::Removed(old) => old,
        Change::Common(old, _) => old,
    }
}

/// Returns whether the path of a trusted change comes before that of another change.
pub(crate) fn is_before(trusted: Change<'_>, change: Change<'_>) -> bool
    ensures { result ≡ is_lt (path_cmp (change_of trusted.entry).0 (change_of change.entry).0) }
{
    match cmp_names(&view_of(trusted), &view_of(change)) {
        Ordering::Less => true,
        Ordering::Equal => false,
        Ordering::Greater => false,
    }
}

/// Returns whether two changes are at one path.
pub(crate) fn is_at(trusted: Change<'_>, change: Change<'_>) -> bool
    ensures { result ≡ is_eq (path_cmp (change_of trusted.entry).0 (change_of change.entry).0) }
{
    match cmp_names(&view_of(trusted), &view_of(change)) {
        Ordering::Less => false,
        Ordering::Equal => true,
        Ordering::Greater => false,
    }
}
