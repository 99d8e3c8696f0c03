//! What accounts for a change.
ghost use Rattle.std.specs.Prelude.{◌≡◌, Some};
ghost use Rattle.aide_agreement.specs.Found.{found};
ghost use Rattle.aide_agreement.specs.Happened.{RightsCameToo};
ghost use Rattle.aide_entry.specs.View.{entry_in};
ghost use Rattle.aide_agreement.specs.Account.{IsUnaccounted, came_too, is_as_old, is_as_trusted};
ghost use Rattle.aide_agreement.specs.Account.{same_as};
ghost use Rattle.aide_agreement.specs.declared.account.SameAs.TheVariants.{Trusted};

use crate::agreement::agree;
use crate::trusted::{changed_too, keep_rights};
use aide_entry::View;

/// What accounts for a change.
#[derive(Clone, Copy, PartialEq, Eq)]
pub enum SameAs {
    /// The new entry agrees with the old one.
    Old,
    /// The same happened on a trusted machine, and its own old entry does not account for it.
    Trusted,
}

/// Returns whether both entries are there and agree.
fn is_as_old(old: Option<View<'_>>, new: Option<View<'_>>) -> bool
    ensures { result ≡ is_as_old (found old.entry, found new.entry) }
{
    match (old, new) {
        (Some(old), Some(new)) => agree(&old, &new),
        _ => false,
    }
}

/// Returns whether a new entry came as the one that agrees with it came on a trusted machine.
fn came_too(
    old: Option<View<'_>>,
    new: &View<'_>,
    before: Option<View<'_>>,
    there: &View<'_>,
) -> bool
    ensures { result ≡ came_too (found old.entry) (entry_in new.now).1
        (found before.entry) (entry_in there.now).1 }
{
    match (old, before) {
        (None, None) => true,
        (Some(old), None) => keep_rights(&old, new),
        (Some(old), Some(before)) => {
            !agree(&before, there) && changed_too(&old, new, &before, there)
        }
        (None, Some(_)) => false,
    }
}

/// Returns whether the same happened at the path of a trusted machine.
fn is_as_trusted(
    old: Option<View<'_>>,
    new: Option<View<'_>>,
    before: Option<View<'_>>,
    there: Option<View<'_>>,
) -> bool
    ensures { result ≡ is_as_trusted (found old.entry, found new.entry)
        (found before.entry, found there.entry) }
{
    match (new, there) {
        (Some(new), Some(there)) => agree(&new, &there) && came_too(old, &new, before, &there),
        (None, None) => is_as_old(old, before),
        _ => false,
    }
}

/// Returns what accounts for a change, by what four databases have at its path: the old entry if it agrees with the new
/// one, otherwise a trusted machine on which the same happened. A trusted pair accounts for nothing at a path where it
/// has no change of its own, or one for which its old entry accounts, and for no right that is new here but by the same
/// step there.
pub fn same_as(
    old: Option<View<'_>>,
    new: Option<View<'_>>,
    trusted_old: Option<View<'_>>,
    trusted_new: Option<View<'_>>,
) -> Option<SameAs>
    ensures account { result ≡ same_as (found old.entry, found new.entry)
        (found trusted_old.entry, found trusted_new.entry) }
    ensures trusted { result ≡ Some Trusted →
        IsUnaccounted (found trusted_old.entry, found trusted_new.entry) }
    ensures rights { result ≡ Some Trusted → RightsCameToo (found old.entry, found new.entry)
        (found trusted_old.entry, found trusted_new.entry) }
{
    if is_as_old(old, new) {
        return Some(SameAs::Old);
    }
    if is_as_trusted(old, new, trusted_old, trusted_new) {
        return Some(SameAs::Trusted);
    }
    None
}
