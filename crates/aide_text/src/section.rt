//! The table of the sections of entries. All code that depends on this table is here.
ghost use Rattle.std.specs.Prelude.{◌≡◌};
ghost use Rattle.aide_text.specs.Section.{contents_of, fits, grouped_of, is_asked, level_of};
ghost use Rattle.aide_text.specs.Section.{title_of};

use aide_attr::Level;

/// A section of the report that goes over the entries.
#[derive(Clone, Copy, PartialEq, Eq)]
pub enum Section {
    /// The list of the added entries.
    AddedEntries,
    /// The list of the removed entries.
    RemovedEntries,
    /// The list of the changed entries.
    ChangedEntries,
    /// One list of the added, removed and changed entries.
    AllEntries,
    /// The details of the entries that show an attribute.
    Details,
}

/// What a section has.
#[derive(Clone, Copy, PartialEq, Eq)]
pub enum Contents {
    /// A line for each entry of the kinds that are true here.
    Listed {
        added: bool,
        removed: bool,
        changed: bool,
    },
    /// The details of each entry that shows an attribute.
    Detailed,
}

/// A row of the table of sections.
#[derive(Clone, Copy)]
struct Row {
    title: &'static [u8],
    /// The first level whose reports have the section.
    level: Level,
    /// Whether lists have to be grouped, or must not be. `None` is for both.
    grouped: Option<bool>,
    contents: Contents,
}

impl Row {
    /// Makes a row from its parts.
    fn new(title: &'static [u8], level: Level, grouped: Option<bool>, contents: Contents) -> Row
        ensures title { result.title.now ≡ title.now }
        ensures level { result.level ≡ level }
        ensures grouped { result.grouped ≡ grouped }
        ensures contents { result.contents ≡ contents }
    {
        Row {
            title,
            level,
            grouped,
            contents,
        }
    }
}

/// A list of these kinds of entries.
fn listed(added: bool, removed: bool, changed: bool) -> Contents
    ensures { result ≡ Contents.Listed added removed changed }
{
    Contents::Listed {
        added,
        removed,
        changed,
    }
}

/// Returns whether the option `report_grouped` has the value that a section needs, if it needs one.
fn fits(wanted: Option<bool>, grouped: bool) -> bool
    ensures { result ≡ fits wanted grouped }
{
    match wanted {
        None => true,
        Some(wanted) => wanted == grouped,
    }
}

impl Section {
    /// Every section, in the order of the report.
    pub const ALL: [Section; 5] = [
        Section::AddedEntries,
        Section::RemovedEntries,
        Section::ChangedEntries,
        Section::AllEntries,
        Section::Details,
    ];

    #[tactic(auto, unfolding(crate::specs::Section::row_of, crate::specs::Section::row))]
    fn row(self) -> Row
        ensures title { result.title.now ≡ title_of self }
        ensures level { result.level ≡ level_of self }
        ensures grouped { result.grouped ≡ grouped_of self }
        ensures contents { result.contents ≡ contents_of self }
    {
        let list = Level::ListEntries;
        match self {
            Section::AddedEntries => {
                Row::new(
                    b"Added entries:",
                    list,
                    Some(true),
                    listed(true, false, false),
                )
            }
            Section::RemovedEntries => {
                Row::new(
                    b"Removed entries:",
                    list,
                    Some(true),
                    listed(false, true, false),
                )
            }
            Section::ChangedEntries => {
                Row::new(
                    b"Changed entries:",
                    list,
                    Some(true),
                    listed(false, false, true),
                )
            }
            Section::AllEntries => Row::new(
                b"Added, removed and changed entries:",
                list,
                Some(false),
                listed(true, true, true),
            ),
            Section::Details => Row::new(
                b"Detailed information about changes:",
                Level::ChangedAttributes,
                None,
                Contents::Detailed,
            ),
        }
    }

    /// Returns the title.
    pub(crate) fn title(self) -> &'static [u8]
        ensures { result.now ≡ title_of self }
    {
        self.row().title
    }

    /// Returns what the section has.
    pub fn contents(self) -> Contents
        ensures { result ≡ contents_of self }
    {
        self.row().contents
    }

    /// Returns whether a report of this level asks for the section, by whether its lists are grouped.
    pub fn is_asked(self, level: Level, grouped: bool) -> bool
        ensures { result ≡ is_asked level grouped self }
    {
        let row = self.row();
        level.reaches(row.level) && fits(row.grouped, grouped)
    }
}
