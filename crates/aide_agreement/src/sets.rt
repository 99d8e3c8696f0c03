//! Sets of attributes by which entries are compared.
ghost use Rattle.std.specs.Prelude.{◌≡◌, ◌||◌, ◌&&◌};
ghost use Rattle.std.specs.List.{list_any};
ghost use Rattle.aide_attr.specs.Difference.{is_affected, is_changed, is_same, sides_of};
ghost use Rattle.aide_attr.specs.Set.{has, is_attr};
ghost use Rattle.aide_agreement.specs.Own.{is_content, is_digest, is_own, is_right, is_strong};
ghost use Rattle.aide_agreement.specs.Agreement.{is_alone};

use aide_attr::{Attr, AttrSet, Delta};

/// The attributes that each machine has of its own.
const OWN: [Attr; 5] = [
    Attr::Atime,
    Attr::Mtime,
    Attr::Ctime,
    Attr::Inode,
    Attr::Bcount,
];

/// What each machine has of its own in a directory too.
const OF_DIRECTORIES: [Attr; 1] = [Attr::Size];

/// The digests of at least 256 bits.
const STRONG: [Attr; 8] = [
    Attr::Sha256,
    Attr::Sha512,
    Attr::Whirlpool,
    Attr::Stribog256,
    Attr::Stribog512,
    Attr::Sha512Of256,
    Attr::Sha3Of256,
    Attr::Sha3Of512,
];

/// The digests of fewer bits, and those whose length the column does not say.
const WEAK: [Attr; 8] = [
    Attr::Md5,
    Attr::Sha1,
    Attr::Rmd160,
    Attr::Tiger,
    Attr::Crc32,
    Attr::Crc32b,
    Attr::Haval,
    Attr::Gost,
];

/// Who may do what with a file, and what it is.
const RIGHTS: [Attr; 9] = [
    Attr::Ftype,
    Attr::Perm,
    Attr::Uid,
    Attr::Gid,
    Attr::Acl,
    Attr::Xattrs,
    Attr::Selinux,
    Attr::E2fsattrs,
    Attr::Caps,
];

/// What says what a content is, beside its digests.
const OF_CONTENT: [Attr; 3] = [Attr::Ftype, Attr::Size, Attr::Lname];

/// Returns the set of these attributes.
fn set_of(attrs: &[Attr]) -> AttrSet
    ensures { (attr : Attr) → has result attr ≡ list_any (is_attr attr) attrs.now }
{
    match attrs.split_first() {
        None => AttrSet::empty(),
        Some((first, rest)) => AttrSet::of(*first).union(set_of(rest)),
    }
}

/// Returns the attributes that each machine has of its own.
pub(crate) fn own(directories: bool) -> AttrSet
    ensures { (attr : Attr) → has result attr ≡ is_own directories attr }
{
    let own = set_of(&OWN);
    if directories {
        own.union(set_of(&OF_DIRECTORIES))
    } else {
        own
    }
}

/// Returns the digests of at least 256 bits.
pub(crate) fn strong() -> AttrSet
    ensures { (attr : Attr) → has result attr ≡ is_strong attr }
{
    set_of(&STRONG)
}

/// Returns all digests.
pub(crate) fn digests() -> AttrSet
    ensures { (attr : Attr) → has result attr ≡ is_digest attr }
{
    set_of(&STRONG).union(set_of(&WEAK))
}

/// Returns the attributes that say who may do what with a file, and what it is.
pub(crate) fn rights() -> AttrSet
    ensures { (attr : Attr) → has result attr ≡ is_right attr }
{
    set_of(&RIGHTS)
}

/// Returns the attributes that say what the content is.
pub(crate) fn content(directories: bool) -> AttrSet
    ensures { (attr : Attr) → has result attr ≡ is_content directories attr }
{
    digests().union(set_of(&OF_CONTENT)).minus(own(directories))
}

/// Returns the attributes that both entries have, with different values.
pub(crate) fn changed(delta: &Delta) -> AttrSet
    ensures { (attr : Attr) → has result attr ≡ is_changed (sides_of delta.now) attr }
{
    delta.changed.common(delta.old).common(delta.new)
}

/// Returns the attributes that only one of the entries has.
pub(crate) fn alone(delta: &Delta) -> AttrSet
    ensures { (attr : Attr) → has result attr ≡ is_alone (sides_of delta.now) attr }
{
    let added = delta.new.minus(delta.old);
    let removed = delta.old.minus(delta.new);
    added.union(removed)
}

/// Returns the attributes that two entries do not have alike: with different values, or only one of them.
pub(crate) fn affected(delta: &Delta) -> AttrSet
    ensures { (attr : Attr) → has result attr ≡ is_affected (sides_of delta.now) attr }
{
    changed(delta).union(alone(delta))
}

/// Returns the attributes that both entries have, with the same value.
pub(crate) fn same(delta: &Delta) -> AttrSet
    ensures { (attr : Attr) → has result attr ≡ is_same (sides_of delta.now) attr }
{
    delta.old.common(delta.new).minus(changed(delta))
}
