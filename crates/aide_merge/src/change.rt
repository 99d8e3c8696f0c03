//! What the databases have at the next path.
ghost use Rattle.std.specs.Prelude.{◌≡◌};
ghost use Rattle.aide_merge.specs.code.ChangeView.{change_of};
ghost use Rattle.aide_text.specs.DecodedRest.{decoded_rest};
ghost use Rattle.percent_encoding.specs.Percent.{percent_decode};

use aide_agreement::Change;
use aide_text::DecodedFeed;

/// What both sides have at the path that comes next.
#[derive(Clone, Copy)]
pub enum AtPath<'a> {
    /// The same line.
    Alike,
    /// Different lines, or a line on one side only.
    Differs(Change<'a>),
    /// No entry: both databases have ended.
    End,
}

/// The path of a change.
pub fn path_of<'a>(change: Change<'a>) -> DecodedFeed<'a>
    ensures { decoded_rest result ≡ (change_of change.entry).0 }
{
    let (_, path) = match change {
        Change::Added(view) => view.name(),
        Change::Removed(view) => view.name(),
        Change::Common(view, _) => view.name(),
    };
    DecodedFeed::of(path)
}

/// The path of a change as a text with escapes, as a database has it.
pub fn name_of<'a>(change: Change<'a>) -> &'a [u8]
    ensures { percent_decode result.now ≡ (change_of change.entry).0 }
{
    let (name, _) = match change {
        Change::Added(view) => view.name(),
        Change::Removed(view) => view.name(),
        Change::Common(view, _) => view.name(),
    };
    name
}
