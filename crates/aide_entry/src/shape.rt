//! What the fields of a column have to be.
ghost use Rattle.std.specs.Prelude.{◌≡◌, ◌≤◌, IfNone, IfSome, true, false, is_some};
ghost use Rattle.aide_attr.specs.Attr.{most_bytes};
ghost use Rattle.aide_entry.specs.Cause.{IsOfText};
ghost use Rattle.aide_entry.specs.code.Shapes.{shape_of_form, shape_of, has_shape};
ghost use Rattle.aide_entry.specs.code.Shapes.{IsShort, fault_of_shape};
ghost use Rattle.aide_fields.specs.Values.{time_of, IsTimeOrNothing};

use crate::column::Column;
use crate::fault_kind::DbFaultKind;
use aide_attr::Form;
use aide_fields::{Base64Tables, is_bits, is_digest, is_mode, is_nought, is_number, is_time};

/// What a field has to be. It is found once for a column, and looked up for each line.
#[derive(Clone, Copy)]
pub enum Shape {
    /// Anything.
    Free,
    /// Octal digits.
    Octal,
    /// A number that may have a minus sign.
    Signed,
    /// A number from 0 on: the bits of attributes.
    Unsigned,
    /// Seconds: a number, or base64 of the text of one.
    Seconds,
    /// Base64 of at least and at most these many bytes, or `0` for no value.
    Encoded(u8, u8),
}

/// Returns what a field of this form has to be.
fn shape_of_form(form: Form) -> Shape
    requires { most_bytes form ≤ 64 }
    ensures same { result ≡ shape_of_form form }
    ensures short { IsShort result }
{
    match form {
        Form::Kind => Shape::Octal,
        Form::Mode => Shape::Octal,
        Form::Number => Shape::Signed,
        Form::Time => Shape::Seconds,
        Form::Link => Shape::Free,
        Form::Digest(least, most) => Shape::Encoded(least, most),
        Form::Opaque => Shape::Free,
    }
}

/// Returns what the fields of a column have to be.
pub fn shape_of(column: Column) -> Shape
    ensures same { result ≡ shape_of column }
    ensures short { IsShort result }
{
    match column {
        Column::Name => Shape::Free,
        Column::Bits => Shape::Unsigned,
        Column::Of(attr) => shape_of_form(attr.form()),
        Column::Skipped => Shape::Free,
    }
}

/// Returns whether a field is of this shape. The field `0` is of every shape.
fn has_shape(tables: &Base64Tables, shape: Shape, field: &[u8]) -> bool
    requires { IsShort shape }
    ensures { result ≡ has_shape shape field.now }
{
    match shape {
        Shape::Free => true,
        Shape::Octal => is_mode(field),
        Shape::Signed => is_number(field),
        Shape::Unsigned => is_bits(field),
        Shape::Seconds => is_time(tables, field),
        Shape::Encoded(least, most) => { is_nought(field) || is_digest(tables, least, most, field) }
    }
}

/// Returns whether a field has seconds, given another field that has, or an empty one.
fn is_time_beside(tables: &Base64Tables, field: &[u8], time: &[u8]) -> bool
    requires { IsTimeOrNothing time.now }
    ensures { result ≡ is_some (time_of field.now) }
{
    if !time.is_empty() && field == time {
        return true;
    }
    is_time(tables, field)
}

/// Returns the last field of a line that was found to be a time, if this field is of its shape. An entry has two times
/// or more, which are often the same bytes. Then only one of them is decoded.
pub fn last_time<'a>(
    tables: &Base64Tables,
    shape: Shape,
    field: &'a [u8],
    time: &'a [u8],
) -> Option<&'a [u8]>
    requires short { IsShort shape }
    requires time { IsTimeOrNothing time.now }
    ensures none { IfNone result (has_shape shape field.now ≡ false) }
    ensures some { IfSome result (λ last. (has_shape shape field.now ≡ true)
        × IsTimeOrNothing last.now) }
{
    if let Shape::Seconds = shape {
        return if is_time_beside(tables, field, time) {
            Some(field)
        } else {
            None
        };
    }
    if has_shape(tables, shape, field) {
        Some(time)
    } else {
        None
    }
}

/// Returns the fault of a field that is not of its column's shape.
pub fn fault_of_shape(shape: Shape, number: u32) -> DbFaultKind
    ensures same { result ≡ fault_of_shape shape number }
    ensures of_text { IsOfText result }
{
    match shape {
        Shape::Seconds => DbFaultKind::BadTime { column: number },
        Shape::Encoded(_, _) => DbFaultKind::BadDigest { column: number },
        _ => DbFaultKind::BadNumber { column: number },
    }
}
