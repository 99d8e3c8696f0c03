//! Whether two entries agree.
ghost use Rattle.std.specs.Prelude.{◌≡◌, ◌&&◌, not};
ghost use Rattle.std.specs.List.{list_any};
ghost use Rattle.aide_attr.specs.Attr.{all_attrs};
ghost use Rattle.aide_attr.specs.Difference.{sides_of};
ghost use Rattle.aide_attr.specs.Set.{has};
ghost use Rattle.aide_attr.specs.declared.attr.Attr.TheVariants.{Lname};
ghost use Rattle.aide_entry.specs.View.{entry_in};
ghost use Rattle.aide_agreement.specs.Agreement.{agree, are_same_by, has_target, have_targets};
ghost use Rattle.aide_agreement.specs.Agreement.{is_shared, says_rights, shares_content, strays};
ghost use Rattle.aide_agreement.specs.Own.{is_directory};

use crate::sets::{alone, changed, digests, own, same, strong};
use aide_attr::{Attr, AttrSet, Delta, FileType};
use aide_entry::{View, delta_of};

pub(crate) fn is_directory(kind: FileType) -> bool
    ensures { result ≡ is_directory kind }
{
    match kind {
        FileType::Directory => true,
        _ => false,
    }
}

/// Returns whether two entries differ in more than what each machine has of its own, and digests that one lacks.
fn stray(delta: &Delta, directories: bool) -> bool
    ensures { result ≡ list_any (strays directories (sides_of delta.now)) all_attrs }
{
    let missing = alone(delta).minus(digests());
    let rest = changed(delta).union(missing).minus(own(directories));
    !rest.is_empty()
}

/// Returns whether two entries have the same digest of at least 256 bits.
fn share_digest(delta: &Delta) -> bool
    ensures { result ≡ list_any (is_shared (sides_of delta.now)) all_attrs }
{
    let shared = same(delta).common(strong());
    !shared.is_empty()
}

/// Returns whether an entry has the name of a link's target.
fn has_target(view: &View<'_>) -> bool
    ensures { result ≡ has_target ((entry_in view.now).1 Lname) }
{
    match view.link() {
        Some(Some(_)) => true,
        Some(None) => false,
        None => false,
    }
}

/// Returns whether two entries have the names of links' targets.
pub(crate) fn have_targets(first: &View<'_>, second: &View<'_>) -> bool
    ensures { result ≡ have_targets (entry_in first.now).1 (entry_in second.now).1 }
{
    has_target(first) && has_target(second)
}

/// Returns whether two entries of this type have the same content: files a digest, links a target. No entry says which
/// device a device is, or what is of a type that Linux does not have.
pub(crate) fn share_content(kind: FileType, delta: &Delta, targets: bool) -> bool
    ensures { result ≡ shares_content kind (sides_of delta.now) targets }
{
    match kind {
        FileType::File => share_digest(delta),
        FileType::Link => targets,
        FileType::Char => false,
        FileType::Block => false,
        FileType::Other(_) => false,
        _ => true,
    }
}

/// Returns whether an entry with these attributes says who may do what with its file.
pub(crate) fn say_rights(attrs: AttrSet) -> bool
    ensures { result ≡ says_rights (has attrs) }
{
    attrs.has(Attr::Perm) && attrs.has(Attr::Uid) && attrs.has(Attr::Gid)
}

/// Returns whether two entries have the same content, and the same of all that is no machine's own.
fn are_same(delta: &Delta, targets: bool) -> bool
    ensures { result ≡ are_same_by delta.now.old_type (sides_of delta.now) targets }
{
    match delta.old_type {
        None => false,
        Some(kind) => share_content(kind, delta, targets) && !stray(delta, is_directory(kind)),
    }
}

/// Returns whether two entries agree: they have permissions, an owner, a group and one type and, but for what each
/// machine has of its own, the same attributes with the same values. Digests that only one of them has do not matter,
/// but regular files share a digest of at least 256 bits. Links have a target. Devices never agree.
pub fn agree(first: &View<'_>, second: &View<'_>) -> bool
    ensures { result ≡ agree (entry_in first.now).1 (entry_in second.now).1 }
{
    let delta = delta_of(first, second);
    let targets = have_targets(first, second);
    say_rights(delta.old) && are_same(&delta, targets)
}
