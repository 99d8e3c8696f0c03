//! Configurations and groups, whose allocations fail by a plan, and changes that no entry has.
use crate::desks::DeskPlan;
use crate::numbers::Numbers;
use crate::printing::{print_bytes, print_set};
use aide_attr::{Attr, AttrSet, Delta, FileType, Groups, Ignore, Level, reported, shown, summary};
use aide_conf::{ConfFault, Need, Settings};
use aide_line_text::put_settings_line;
use aide_text::{MemorySink, Pen};
use std::alloc::{Allocator, Global};
use std::cmp::Ordering;
use std::io::{self, Write};

/// The three texts of a configuration, and whether both databases have to be named.
#[derive(Clone, Copy)]
struct Configuration<'a> {
    need: Need,
    before: &'a [u8],
    file: &'a [u8],
    after: &'a [u8],
}

/// What a configuration gives. It has no contract, so that the many facts about `Settings::read` are no part of the
/// proofs of its callers.
fn read<A: Allocator + Copy>(
    alloc: A,
    texts: &Configuration<'_>,
) -> Result<Settings<A>, ConfFault> {
    Settings::read(alloc, texts.before, texts.file, texts.after, texts.need)
}

/// Prints the line about settings, and the databases that a comparison reads.
fn print_settings<O: Write, A: Allocator + Copy>(
    out: &mut O,
    alloc: Global,
    settings: &Settings<A>,
) -> io::Result<()> {
    let mut sink = MemorySink::new(alloc);
    let mut pen = Pen::new();
    let old_path = settings.old_path().map(|path| path.as_bytes());
    let new_path = settings.new_path().map(|path| path.as_bytes());
    put_settings_line(&mut sink, &mut pen, &settings.options(), old_path, new_path);
    print_bytes(out, alloc, "settings", sink.bytes())?;
    match settings.task() {
        Some(task) => writeln!(out, "task {} {}", task.old_path, task.new_path),
        None => writeln!(out, "task none"),
    }
}

/// Reads a configuration, and prints its settings or its fault.
fn print_answer<O: Write, A: Allocator + Copy>(
    out: &mut O,
    alloc: Global,
    tried: A,
    texts: &Configuration<'_>,
) -> io::Result<()> {
    match read(tried, texts) {
        Ok(settings) => print_settings(out, alloc, &settings),
        Err(fault) => {
            let (text, line, kind) = (fault.text, fault.line, fault.kind);
            writeln!(out, "fault {kind:?} {} {text}:{line}: {kind}", kind.code())
        }
    }
}

/// Reads a configuration twice with the same allocator.
pub(crate) fn play_settings<O: Write>(
    out: &mut O,
    alloc: Global,
    numbers: &mut Numbers<'_>,
) -> io::Result<()> {
    let refusing = DeskPlan::take(numbers).allocator(alloc);
    let texts = Configuration {
        need: if numbers.flag() {
            Need::Compare
        } else {
            Need::Check
        },
        before: numbers.text(),
        file: numbers.text(),
        after: numbers.text(),
    };
    print_answer(out, alloc, &refusing, &texts)?;
    writeln!(out, "refused {}", refusing.has_refused())?;
    print_answer(out, alloc, &refusing, &texts)
}

/// Prints the set of an expression, or its fault.
fn print_value<O: Write, A: Allocator + Copy>(
    out: &mut O,
    groups: &Groups<A>,
    expression: &[u8],
) -> io::Result<()> {
    match groups.eval(expression) {
        Ok(set) => print_set(out, "set", set),
        Err(fault) => writeln!(out, "fault {fault:?} {}", fault.code()),
    }
}

/// Gives a group a name, and prints the answer. An expression with a fault is the empty set.
fn define<O: Write, A: Allocator + Copy>(
    out: &mut O,
    groups: &mut Groups<A>,
    name: &[u8],
    expression: &[u8],
) -> io::Result<()> {
    let set = groups.eval(expression).unwrap_or(AttrSet::empty());
    match groups.define(name, set) {
        Ok(()) => writeln!(out, "defined"),
        Err(fault) => writeln!(out, "fault {fault:?} {}", fault.code()),
    }
}

/// Prints the group of a name.
fn print_group<O: Write, A: Allocator + Copy>(
    out: &mut O,
    groups: &Groups<A>,
    name: &[u8],
) -> io::Result<()> {
    match groups.look(name) {
        Some(set) => print_set(out, "set", set),
        None => writeln!(out, "none"),
    }
}

/// Makes the calls of groups that the numbers tell: 0 defines a name, 1 looks one up, and 2 evaluates.
pub(crate) fn play_groups<O: Write>(
    out: &mut O,
    alloc: Global,
    numbers: &mut Numbers<'_>,
) -> io::Result<()> {
    let refusing = DeskPlan::take(numbers).allocator(alloc);
    let mut groups = Groups::new(&refusing);
    for _ in 0..u64::MAX {
        match numbers.take() {
            0 => define(out, &mut groups, numbers.text(), numbers.text())?,
            1 => print_group(out, &groups, numbers.text())?,
            2 => print_value(out, &groups, numbers.text())?,
            _ => break,
        }
    }
    writeln!(out, "refused {}", refusing.has_refused())
}

/// The set of the next expression, of which one with a fault is the empty set.
fn set_of(groups: &Groups<Global>, numbers: &mut Numbers<'_>) -> AttrSet {
    groups.eval(numbers.text()).unwrap_or(AttrSet::empty())
}

/// Prints what is told of a change between two files, of which the new one is larger.
pub(crate) fn play_change<O: Write>(
    out: &mut O,
    alloc: Global,
    numbers: &mut Numbers<'_>,
) -> io::Result<()> {
    let groups = Groups::new(alloc);
    let delta = Delta {
        old: set_of(&groups, numbers),
        new: set_of(&groups, numbers),
        changed: set_of(&groups, numbers),
        size: Ordering::Greater,
        old_type: Some(FileType::File),
        new_type: Some(FileType::File),
    };
    let ignore = Ignore {
        added: set_of(&groups, numbers),
        removed: set_of(&groups, numbers),
        changed: set_of(&groups, numbers),
        force: set_of(&groups, numbers),
    };
    print_set(out, "reported", reported(&delta, &ignore))?;
    print_set(
        out,
        "shown",
        shown(&delta, &ignore, Level::ChangedAttributes),
    )?;
    print_bytes(out, alloc, "summary", &summary(&delta, &ignore))?;
    print_set(out, "of_size", AttrSet::of(Attr::Size))
}
