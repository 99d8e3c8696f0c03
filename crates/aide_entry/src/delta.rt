//! Compares two entries.
ghost use Rattle.std.specs.Prelude.{◌≡◌, is_some, true, false, None};
ghost use Rattle.std.specs.List.{list_any};
ghost use Rattle.std.specs.declared.cmp.Ordering.TheVariants.{Equal};
ghost use Rattle.aide_fields.specs.Path.{path_cmp};
ghost use Rattle.aide_fields.specs.Values.{value_of, is_field};
ghost use Rattle.aide_entry.specs.View.{entry_in};
ghost use Rattle.aide_fields.specs.Attributes.{number_order, is_different, sides_between};
ghost use Rattle.aide_attr.specs.Set.{has, is_attr};
ghost use Rattle.aide_attr.specs.Difference.{sides_of};
ghost use Rattle.aide_attr.specs.declared.attr.Attr.{Attr};

use crate::view::{View, ViewWithBits, with_if};
use aide_attr::{Attr, AttrSet, Delta, Form};
use aide_fields::{cmp_paths, differ, has_value};
use std::cmp::Ordering;

/// Compares the decoded paths of two entries in path order: component by component, each by its bytes. A path comes
/// before those that go on after it.
pub fn cmp_names(x: &View<'_>, y: &View<'_>) -> Ordering
    ensures { result ≡ path_cmp (entry_in x.now).0 (entry_in y.now).0 }
{
    let (left, _) = x.name();
    let (right, _) = y.name();
    cmp_paths(left, right)
}

/// How two entries differ at an attribute: whether each has it, and whether both have it with different values.
#[derive(Clone, Copy)]
struct Contrast {
    in_old: bool,
    in_new: bool,
    differs: bool,
}

/// Returns how two entries differ at an attribute of this form, if both have a field for it.
fn contrast_of(form: Form, old: &[u8], new: &[u8]) -> Contrast
    requires old { is_field form old.now ≡ true }
    requires new { is_field form new.now ≡ true }
    ensures in_old { result.in_old ≡ is_some (value_of form old.now) }
    ensures in_new { result.in_new ≡ is_some (value_of form new.now) }
    ensures differs { result.differs
        ≡ is_different (value_of form old.now) (value_of form new.now) }
{
    let in_old = has_value(form, old);
    if old == new {
        return Contrast {
            in_old,
            in_new: in_old,
            differs: false,
        };
    }
    Contrast {
        in_old,
        in_new: has_value(form, new),
        differs: differ(form, old, new),
    }
}

/// Returns how two entries differ at an attribute.
fn contrast_at(old: &ViewWithBits<'_, '_>, new: &ViewWithBits<'_, '_>, attr: Attr) -> Contrast
    ensures in_old { result.in_old ≡ is_some ((entry_in old.now.view.now).1 attr) }
    ensures in_new { result.in_new ≡ is_some ((entry_in new.now.view.now).1 attr) }
    ensures differs { result.differs ≡ is_different ((entry_in old.now.view.now).1 attr)
        ((entry_in new.now.view.now).1 attr) }
{
    match (old.field(attr), new.field(attr)) {
        (None, None) => Contrast {
            in_old: false,
            in_new: false,
            differs: false,
        },
        (Some(before), None) => Contrast {
            in_old: has_value(attr.form(), before),
            in_new: false,
            differs: false,
        },
        (None, Some(after)) => Contrast {
            in_old: false,
            in_new: has_value(attr.form(), after),
            differs: false,
        },
        (Some(before), Some(after)) => contrast_of(attr.form(), before, after),
    }
}

/// The attributes that two entries have, and those that both have with different values.
#[derive(Clone, Copy)]
struct Contrasts {
    in_old: AttrSet,
    in_new: AttrSet,
    differs: AttrSet,
}

/// Returns the set of these attributes.
fn set_of(attrs: &[Attr]) -> AttrSet
    ensures { (attr : Attr) → has result attr ≡ list_any (is_attr attr) attrs.now }
{
    match attrs.split_first() {
        None => AttrSet::empty(),
        Some((first, rest)) => AttrSet::of(*first).union(set_of(rest)),
    }
}

/// Returns whether each of these attributes is among others.
fn are_among(attrs: &[Attr], others: &[Attr]) -> bool
    ensures { result ≡ true → (attr : Attr) → list_any (is_attr attr) others.now ≡ false
        → list_any (is_attr attr) attrs.now ≡ false }
{
    set_of(attrs).minus(set_of(others)).is_empty()
}

/// Returns attributes among which is every one that either entry has. If the columns are not the same, one of the
/// databases often has all columns of the other one and a few more.
fn attrs_of<'x>(old: &'x View<'_>, new: &'x View<'_>) -> &'x [Attr]
    ensures old { (attr : Attr) → list_any (is_attr attr) result.now ≡ false
        → (entry_in old.now).1 attr ≡ None }
    ensures new { (attr : Attr) → list_any (is_attr attr) result.now ≡ false
        → (entry_in new.now).1 attr ≡ None }
{
    let old_attrs = old.columns.attrs();
    let new_attrs = new.columns.attrs();
    if old.columns.same(new.columns) {
        old_attrs
    } else if are_among(old_attrs, new_attrs) {
        new_attrs
    } else if are_among(new_attrs, old_attrs) {
        old_attrs
    } else {
        &Attr::ALL
    }
}

/// Finds the attributes that two entries have and those that differ, in one walk over the attributes with a column.
fn contrasts_between(old: &View<'_>, new: &View<'_>) -> Contrasts
    ensures in_old { (attr : Attr) → has result.in_old attr ≡ is_some ((entry_in old.now).1 attr) }
    ensures in_new { (attr : Attr) → has result.in_new attr ≡ is_some ((entry_in new.now).1 attr) }
    ensures differs { (attr : Attr) → has result.differs attr
        ≡ is_different ((entry_in old.now).1 attr) ((entry_in new.now).1 attr) }
{
    let old_read = old.with_bits();
    let new_read = new.with_bits();
    let mut in_old = AttrSet::empty();
    let mut in_new = AttrSet::empty();
    let mut differs = AttrSet::empty();
    let mut rest = attrs_of(old, new);
    'attrs: while let Some((attr, more)) = rest.split_first() {
        let contrast = contrast_at(&old_read, &new_read, *attr);
        in_old = with_if(in_old, *attr, contrast.in_old);
        in_new = with_if(in_new, *attr, contrast.in_new);
        differs = with_if(differs, *attr, contrast.differs);
        rest = more;
    }
    Contrasts {
        in_old,
        in_new,
        differs,
    }
}

/// Compares the new number with the old one. Returns `Equal` if either is missing.
fn order(old: Option<i128>, new: Option<i128>) -> Ordering
    ensures { result ≡ number_order old new }
{
    match old {
        None => Ordering::Equal,
        Some(before) => match new {
            None => Ordering::Equal,
            Some(after) => after.cmp(&before),
        },
    }
}

/// Returns the attributes of two entries of one path, and those with different values. The sizes and the types are not
/// read: they count as missing.
pub fn attrs_delta_of(old: &View<'_>, new: &View<'_>) -> Delta
    ensures in_old { (attr : Attr) → (sides_of result).in_old attr
        ≡ (sides_between (entry_in old.now).1 (entry_in new.now).1).in_old attr }
    ensures in_new { (attr : Attr) → (sides_of result).in_new attr
        ≡ (sides_between (entry_in old.now).1 (entry_in new.now).1).in_new attr }
    ensures differs { (attr : Attr) → (sides_of result).differs attr
        ≡ (sides_between (entry_in old.now).1 (entry_in new.now).1).differs attr }
    ensures size { result.size ≡ Equal }
    ensures types { (result.old_type ≡ None) × (result.new_type ≡ None) }
{
    let contrasts = contrasts_between(old, new);
    Delta {
        old: contrasts.in_old,
        new: contrasts.in_new,
        changed: contrasts.differs,
        size: Ordering::Equal,
        old_type: None,
        new_type: None,
    }
}

/// Returns how two entries of one path differ: the attributes of each entry, the attributes with different values, the
/// order of the sizes, and the types. Values are compared by what they mean, and not as they are written.
pub fn delta_of(old: &View<'_>, new: &View<'_>) -> Delta
    ensures in_old { (attr : Attr) → (sides_of result).in_old attr
        ≡ (sides_between (entry_in old.now).1 (entry_in new.now).1).in_old attr }
    ensures in_new { (attr : Attr) → (sides_of result).in_new attr
        ≡ (sides_between (entry_in old.now).1 (entry_in new.now).1).in_new attr }
    ensures differs { (attr : Attr) → (sides_of result).differs attr
        ≡ (sides_between (entry_in old.now).1 (entry_in new.now).1).differs attr }
    ensures size { (sides_of result).size ≡ (sides_between (entry_in old.now).1
        (entry_in new.now).1).size }
    ensures old_type { (sides_of result).old_type ≡ (sides_between (entry_in old.now).1
        (entry_in new.now).1).old_type }
    ensures new_type { (sides_of result).new_type ≡ (sides_between (entry_in old.now).1
        (entry_in new.now).1).new_type }
{
    let sets = contrasts_between(old, new);
    Delta {
        old: sets.in_old,
        new: sets.in_new,
        changed: sets.differs,
        size: order(old.number(Attr::Size), new.number(Attr::Size)),
        old_type: old.kind(),
        new_type: new.kind(),
    }
}
