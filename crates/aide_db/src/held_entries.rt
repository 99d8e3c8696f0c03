//! What the desk holds when a line is judged.

use aide_entry::HeldEntry;

/// The entries of both sides, seen from the side whose line is judged.
#[derive(Clone, Copy)]
pub struct HeldEntries<'a> {
    /// The entry before the line.
    pub last: HeldEntry<'a>,
    /// The entry of the other database.
    pub other: HeldEntry<'a>,
}
