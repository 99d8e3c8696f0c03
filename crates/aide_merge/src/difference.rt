//! How two entries of one path differ, and what a report says about that.
ghost use Rattle.std.specs.Prelude.{◌≡◌, ◌&&◌, is_some, IfSome};
ghost use Rattle.aide_attr.specs.Difference.{is_shown};
ghost use Rattle.aide_attr.specs.Set.{has};
ghost use Rattle.aide_attr.specs.Summary.{summary_letters};
ghost use Rattle.aide_attr.specs.declared.attr.Attr.{Attr};
ghost use Rattle.aide_fields.specs.Attributes.{sides_between};
ghost use Rattle.aide_entry.specs.View.{entry_in};
ghost use Rattle.aide_merge.specs.code.ChangeView.{change_of};
ghost use Rattle.aide_merge.specs.Changed.{differ_by};
ghost use Rattle.aide_merge.specs.Changes.{is_changed};
ghost use Rattle.aide_merge.specs.Said.{shows_at, shows_alone, letters_of, all_listed, is_in};

use aide_agreement::Change;
use aide_attr::{Alone, AttrSet, Ignore, Level, reported, shown, summary, summary_one};
use aide_conf::Options;
use aide_db::{View, attrs_delta_of, delta_of};

/// Whether the details of an entry are shown that only one side has.
fn shows_alone(level: Level) -> bool
    ensures { result ≡ shows_alone level }
{
    match level {
        Level::AddedRemovedEntries => true,
        _ => false,
    }
}

fn alone_in(view: &View<'_>, level: Level) -> AttrSet
    ensures { (attr : Attr)
        → has result attr ≡ (shows_alone level && is_some ((entry_in view.now).1 attr)) }
{
    if shows_alone(level) {
        view.attrs()
    } else {
        AttrSet::empty()
    }
}

/// What a report says about two entries of one path: the attributes that their details show, and whether they differ.
fn said_between(old: &View<'_>, new: &View<'_>, options: &Options) -> (AttrSet, bool)
    ensures shown { (attr : Attr) → has result.0 attr
        ≡ is_shown (sides_between (entry_in old.now).1 (entry_in new.now).1)
        options.now.ignore options.now.level attr }
    ensures differ { result.1 ≡ differ_by options.now.ignore (entry_in old.now).1
        (entry_in new.now).1 }
{
    let delta = attrs_delta_of(old, new);
    let reported = reported(&delta, &options.ignore);
    let shown = shown(&delta, &options.ignore, options.level);
    (shown, !reported.is_empty())
}

/// What a report says about a change: the attributes that its details show, and whether it is a changed entry.
pub fn said_of(change: Change<'_>, options: &Options) -> (AttrSet, bool)
    ensures shown { (attr : Attr)
        → has result.0 attr ≡ shows_at options.now (change_of change.entry).1 attr }
    ensures changed { result.1 ≡ is_changed (differ_by options.now.ignore)
        (change_of change.entry) }
{
    match change {
        Change::Added(new) => (alone_in(&new, options.level), false),
        Change::Removed(old) => (alone_in(&old, options.level), false),
        Change::Common(old, new) => said_between(&old, &new, options),
    }
}

/// The summary string of two entries of one path, if they differ.
fn letters_between(old: &View<'_>, new: &View<'_>, ignore: &Ignore) -> Option<[u8; 18]>
    ensures differ { is_some result
        ≡ differ_by ignore.now (entry_in old.now).1 (entry_in new.now).1 }
    ensures letters { IfSome result (λ letters. letters ≡ summary_letters
        (sides_between (entry_in old.now).1 (entry_in new.now).1) ignore.now) }
{
    let delta = delta_of(old, new);
    let reported = reported(&delta, ignore);
    if reported.is_empty() {
        None
    } else {
        Some(summary(&delta, ignore))
    }
}

/// The summary string of a change, if it is an added, removed or changed entry.
pub fn letters(change: Change<'_>, options: &Options) -> Option<[u8; 18]>
    ensures listed { is_some result
        ≡ is_in options.now all_listed (change_of change.entry) }
    ensures letters { IfSome result (λ letters. letters
        ≡ letters_of options.now.ignore (change_of change.entry).1) }
{
    match change {
        Change::Added(new) => Some(summary_one(new.kind(), Alone::Added)),
        Change::Removed(old) => Some(summary_one(old.kind(), Alone::Removed)),
        Change::Common(old, new) => letters_between(&old, &new, &options.ignore),
    }
}
