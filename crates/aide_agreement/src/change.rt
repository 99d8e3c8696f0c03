//! What an old and a new database have at one path.
ghost use Rattle.std.specs.Prelude.{◌≡◌};
ghost use Rattle.aide_agreement.specs.ChangeView.{found_in};
ghost use Rattle.aide_agreement.specs.Kind.{kind_word, type_at};

use aide_attr::FileType;
use aide_entry::View;

/// What changed at one path: only one side has an entry there, or the lines of both sides differ.
#[derive(Clone, Copy)]
pub enum Change<'a> {
    /// Only the new database has an entry there.
    Added(View<'a>),
    /// Only the old one has an entry there.
    Removed(View<'a>),
    /// Both have one, the old one first.
    Common(View<'a>, View<'a>),
}

/// Returns the word for what became of the path.
pub fn kind_word(change: Change<'_>) -> &'static [u8]
    ensures { result.now ≡ kind_word (found_in change.entry) }
{
    match change {
        Change::Added(_) => b"added",
        Change::Removed(_) => b"removed",
        Change::Common(_, _) => b"changed",
    }
}

/// Returns the type at the path: the new entry's if it has one, otherwise the old entry's.
pub fn type_at(change: Change<'_>) -> Option<FileType>
    ensures { result ≡ type_at (found_in change.entry) }
{
    match change {
        Change::Added(new) => new.kind(),
        Change::Removed(old) => old.kind(),
        Change::Common(old, new) => match new.kind() {
            None => old.kind(),
            Some(kind) => Some(kind),
        },
    }
}
