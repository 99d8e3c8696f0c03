//! The kinds of lines.
ghost use Rattle.std.specs.Prelude.{◌≡◌};
ghost use Rattle.aide_entry.specs.Lines.{kind_of_field, kind_of};

use aide_fields::next_field;

/// The kind of a line, which its first field decides.
#[derive(Clone, Copy)]
pub enum LineKind {
    /// No field, or a first field that begins with `#`.
    Blank,
    /// `@@begin_db`.
    Begin,
    /// `@@db_spec`.
    Spec,
    /// `@@end_db`.
    End,
    /// Any other first field that begins with `@@`.
    Directive,
    /// Any other first field.
    Other,
}

#[tactic(auto, unfolding(crate::specs::Lines::kind_of_field))]
fn kind_of_field(field: &[u8]) -> LineKind
    ensures { result ≡ kind_of_field field.now }
{
    if field.starts_with(b"#") {
        LineKind::Blank
    } else if field == b"@@begin_db".as_slice() {
        LineKind::Begin
    } else if field == b"@@db_spec".as_slice() {
        LineKind::Spec
    } else if field == b"@@end_db".as_slice() {
        LineKind::End
    } else if field.starts_with(b"@@") {
        LineKind::Directive
    } else {
        LineKind::Other
    }
}

/// Returns the kind of a line.
#[tactic(auto, unfolding(crate::specs::Lines::kind_of))]
pub fn kind_of(line: &[u8]) -> LineKind
    ensures { result ≡ kind_of line.now }
{
    if let Some((first, _)) = line.split_first() {
        if *first == b'/' {
            return LineKind::Other;
        }
    }
    match next_field(line) {
        None => LineKind::Blank,
        Some((field, _)) => kind_of_field(field),
    }
}
