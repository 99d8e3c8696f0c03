//! Whether what changed here changed on a trusted machine too.
ghost use Rattle.std.specs.Prelude.{◌≡◌, ◌&&◌, ◌||◌, not};
ghost use Rattle.std.specs.List.{list_any};
ghost use Rattle.aide_attr.specs.Attr.{all_attrs};
ghost use Rattle.aide_attr.specs.Difference.{sides_of};
ghost use Rattle.aide_attr.specs.Set.{has, is_attr};
ghost use Rattle.aide_attr.specs.declared.attr.Attr.{Attr};
ghost use Rattle.aide_attr.specs.declared.attr.Attr.TheVariants.{Lname};
ghost use Rattle.aide_entry.specs.View.{entry_in};
ghost use Rattle.aide_agreement.specs.Trusted.{brings_right, changed_by, changed_too, content_too};
ghost use Rattle.aide_agreement.specs.Trusted.{differs_in_content, has_other_content};
ghost use Rattle.aide_agreement.specs.Trusted.{has_same_content, keeps_rights, links_too};
ghost use Rattle.aide_agreement.specs.Trusted.{moves_right};

use crate::agreement::{have_targets, is_directory, say_rights, share_content};
use crate::sets::{affected, changed, content, rights};
use aide_attr::{Attr, AttrSet, Delta, FileType};
use aide_entry::{View, delta_of};

/// Returns the rights in which two entries differ, or which only one of them has.
fn moved_rights(delta: &Delta) -> AttrSet
    ensures { (attr : Attr) → has result attr ≡ moves_right (sides_of delta.now) attr }
{
    rights().common(affected(delta))
}

/// Returns whether no right changed between two entries.
pub(crate) fn keep_rights(old: &View<'_>, new: &View<'_>) -> bool
    ensures { result ≡ keeps_rights (entry_in old.now).1 (entry_in new.now).1 }
{
    let moved = moved_rights(&delta_of(old, new));
    moved.is_empty()
}

/// Returns whether a right changed here that was another one on the trusted machine before.
fn bring_rights(here: &Delta, before: &Delta) -> bool
    ensures { result ≡ list_any (brings_right (sides_of here.now) (sides_of before.now)) all_attrs }
{
    let brought = moved_rights(here).common(affected(before));
    !brought.is_empty()
}

/// Returns whether the link count, if it changed here, was the same on the trusted machine before, or is surely another
/// one there.
fn links_too(here: &Delta, before: &Delta, there: &Delta) -> bool
    ensures { result ≡ links_too (sides_of here.now) (sides_of before.now) (sides_of there.now) }
{
    !affected(here).has(Attr::Linkcount)
        || !affected(before).has(Attr::Linkcount)
        || changed(there).has(Attr::Linkcount)
}

/// Returns what says of the content of two entries that it is not the same.
fn differing(delta: &Delta, directories: bool) -> AttrSet
    ensures { (attr : Attr) → has result attr
        ≡ differs_in_content directories (sides_of delta.now) attr }
{
    changed(delta).common(content(directories))
}

/// Returns whether two entries, the second one of this type, surely have the same content.
fn have_same_content(kind: FileType, delta: &Delta, targets: bool) -> bool
    ensures { result ≡ has_same_content kind (sides_of delta.now) targets }
{
    let apart = differing(delta, is_directory(kind));
    share_content(kind, delta, targets) && apart.is_empty()
}

/// Returns these attributes, but for the target of a link unless both entries have one.
fn with_targets(attrs: AttrSet, targets: bool) -> AttrSet
    ensures { (attr : Attr) → has result attr
        ≡ (has attrs attr && (targets || not (is_attr attr Lname))) }
{
    if targets {
        attrs
    } else {
        attrs.minus(AttrSet::of(Attr::Lname))
    }
}

/// Returns whether two entries, the second one of this type, surely have different contents. A target that one of them
/// does not have may be any.
fn have_other_content(kind: FileType, delta: &Delta, targets: bool) -> bool
    ensures { result ≡ has_other_content kind (sides_of delta.now) targets }
{
    let shown = with_targets(differing(delta, is_directory(kind)), targets);
    !shown.is_empty()
}

/// Returns whether the content is surely the same here, or surely another one on the trusted machine.
fn content_too(here: &Delta, there: &Delta, here_targets: bool, there_targets: bool) -> bool
    ensures { result ≡ content_too here.now.new_type (sides_of here.now) (sides_of there.now)
        here_targets there_targets }
{
    match here.new_type {
        None => false,
        Some(kind) => {
            have_same_content(kind, here, here_targets)
                || have_other_content(kind, there, there_targets)
        }
    }
}

/// Returns whether what changed here changed on a trusted machine too, by how the entries differ.
fn changed_by(
    here: &Delta,
    before: &Delta,
    there: &Delta,
    here_targets: bool,
    there_targets: bool,
) -> bool
    ensures { result ≡ changed_by (sides_of here.now) (sides_of before.now) (sides_of there.now)
        here_targets there_targets }
{
    say_rights(here.old)
        && !bring_rights(here, before)
        && links_too(here, before, there)
        && content_too(here, there, here_targets, there_targets)
}

/// Returns whether what changed here, from an old entry to a new one, changed on a trusted machine too, where the entry
/// before became one that agrees with the new one.
pub(crate) fn changed_too(
    old: &View<'_>,
    new: &View<'_>,
    before: &View<'_>,
    there: &View<'_>,
) -> bool
    ensures { result ≡ changed_too (entry_in old.now).1 (entry_in new.now).1
        (entry_in before.now).1 (entry_in there.now).1 }
{
    let here = delta_of(old, new);
    let apart = delta_of(old, before);
    let beyond = delta_of(before, there);
    let here_targets = have_targets(old, new);
    let there_targets = have_targets(before, there);
    changed_by(&here, &apart, &beyond, here_targets, there_targets)
}
