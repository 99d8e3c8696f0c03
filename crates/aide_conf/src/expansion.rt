//! The expansion of a text by the variables. However long the values are, no more bytes are kept
//! than the limit allows.

ghost use Rattle.std.specs.Prelude.{◌≡◌, ◌++◌, OnOk, IfOk, IfSome, IfNone};
ghost use Rattle.aide_conf.specs.code.Variables.{values_of, value_by};
ghost use Rattle.aide_conf.specs.code.Replacing.{IsFirstName, IsPlain};
ghost use Rattle.aide_conf.specs.code.Bounded.{HasTaken};
ghost use Rattle.aide_conf.specs.code.Expanded.{expanded_by, IsExpandedLine, IsExpandedValue};

use crate::bounded::{Bounded, without_last_blanks};
use crate::line::is_skipped;
use aide_attr::NameMap;
use bstr::ByteSlice;
use std::alloc::{AllocError, Allocator};

/// The most bytes of a line, without the blanks around it.
pub(crate) const LONGEST_LINE: usize = 65_536;

/// The most bytes of a path or of a variable's value.
pub(crate) const LONGEST_VALUE: usize = 4_096;

/// A line after its expansion, without the blanks around it.
#[derive(Drop)]
pub(crate) enum Expanded<A: Allocator> {
    /// The line is empty or a comment.
    Skipped,
    /// The line has more than 65,536 bytes.
    TooLong,
    Line(Vec<u8, A>),
}

/// The first name between `@@{` and `}`, and the text before and after it.
#[derive(Clone, Copy)]
struct Found<'a> {
    before: &'a [u8],
    name: &'a [u8],
    after: &'a [u8],
}

/// Finds the first name of a text.
fn next_name(text: &[u8]) -> Option<Found<'_>>
    ensures some { IfSome result (λ f. IsFirstName text.now f.before.now f.name.now f.after.now) }
    ensures none { IfNone result (IsPlain text.now) }
{
    let Some(open) = text.find(b"@@{") else {
        return None;
    };
    let rest = &text[open + 3..];
    match rest.find_byte(b'}') {
        Some(end) => Some(Found {
            before: &text[..open],
            name: &rest[..end],
            after: &rest[end + 1..],
        }),
        None => None,
    }
}

/// Takes the text before a name, and the name's value.
fn take_value<A: Allocator + Copy>(
    kept: &mut Bounded<A>,
    found: Found<'_>,
    variables: &NameMap<Vec<u8, A>, A>,
) -> Result<(), AllocError>
    ensures { OnOk result (HasTaken kept.old (found.entry.before.now
        ++ value_by (values_of variables.now) found.entry.name.now) kept.new) }
{
    kept.extend(found.before)?;
    if let Some(value) = variables.look(found.name) {
        kept.extend(value.as_slice())?;
    }
    Ok(())
}

/// Takes the expansion of a text.
fn take_expansion<A: Allocator + Copy>(
    kept: &mut Bounded<A>,
    text: &[u8],
    variables: &NameMap<Vec<u8, A>, A>,
) -> Result<(), AllocError>
    ensures { OnOk result (HasTaken kept.old (expanded_by variables.now text.now) kept.new) }
{
    let mut rest = text;
    'names: while !kept.over {
        let Some(found) = next_name(rest) else {
            kept.extend(rest)?;
            return Ok(());
        };
        take_value(kept, found, variables)?;
        rest = found.after;
    }
    Ok(())
}

/// Returns the expansion of a line, without the blanks around it.
pub(crate) fn expand_line<A: Allocator + Copy>(
    alloc: A,
    line: &[u8],
    variables: &NameMap<Vec<u8, A>, A>,
) -> Result<Expanded<A>, AllocError>
    ensures { IfOk result (λ e. IsExpandedLine (expanded_by variables.now line.now) e) }
{
    let mut kept = Bounded::new(alloc, LONGEST_LINE, true);
    take_expansion(&mut kept, line, variables)?;
    if is_skipped(kept.bytes.as_slice()) {
        return Ok(Expanded::Skipped);
    }
    if kept.over {
        return Ok(Expanded::TooLong);
    }
    let Bounded { bytes, .. } = kept;
    Ok(Expanded::Line(without_last_blanks(bytes)))
}

/// Returns the expansion of a variable's value, or nothing if it has more than 4,096 bytes.
pub(crate) fn expand_value<A: Allocator + Copy>(
    alloc: A,
    text: &[u8],
    variables: &NameMap<Vec<u8, A>, A>,
) -> Result<Option<Vec<u8, A>>, AllocError>
    ensures { IfOk result (λ v. IsExpandedValue (expanded_by variables.now text.now) v) }
{
    let mut kept = Bounded::new(alloc, LONGEST_VALUE, false);
    take_expansion(&mut kept, text, variables)?;
    if kept.over {
        return Ok(None);
    }
    let Bounded { bytes, .. } = kept;
    Ok(Some(bytes))
}
