//! What is printed of a run.
use crate::journal::Journal;
use crate::writer::Taken;
use aide_attr::{Attr, AttrSet};
use aide_db::{Desk, Side};
use std::alloc::{Allocator, Global};
use std::io::{self, Write};

/// Prints bytes in base 16.
pub(crate) fn print_bytes<O: Write>(
    out: &mut O,
    alloc: Global,
    label: &str,
    bytes: &[u8],
) -> io::Result<()> {
    let digits = hex::encode(alloc, bytes)?;
    writeln!(out, "{label} {digits}")
}

/// Prints the numbers of the attributes of a set.
pub(crate) fn print_set<O: Write>(out: &mut O, label: &str, set: AttrSet) -> io::Result<()> {
    write!(out, "{label}")?;
    for attr in &Attr::ALL {
        if set.has(*attr) {
            write!(out, " {}", attr.index())?;
        }
    }
    writeln!(out)
}

/// Prints what a sink has taken.
pub(crate) fn print_taken<O: Write>(out: &mut O, alloc: Global, taken: &Taken) -> io::Result<()> {
    let Taken {
        bytes,
        flushes,
        flushed,
        stumbles,
        later,
    } = taken;
    print_bytes(out, alloc, "sent", bytes.as_slice())?;
    writeln!(out, "sink {flushes} {flushed} {stumbles} {later}")
}

/// Prints what a desk holds, the most that it ever held, and its room.
pub(crate) fn print_desk<O: Write, A: Allocator + Copy>(
    out: &mut O,
    label: &str,
    desk: &Desk<A>,
) -> io::Result<()> {
    let (held, peak, room) = (desk.held(), desk.peak(), desk.room());
    writeln!(out, "{label} {held} {peak} {room}")
}

/// Prints which side was read last, and how many bytes the last reel of each side has given.
pub(crate) fn print_journal<O: Write>(
    out: &mut O,
    label: &str,
    journal: &Journal,
) -> io::Result<()> {
    let (old, new) = (journal.given(Side::Old), journal.given(Side::New));
    writeln!(out, "{label} {:?} {old} {new}", journal.last())
}
