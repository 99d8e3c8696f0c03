//! Reads what a field means, by its form.
ghost use Rattle.std.specs.Prelude.{ℕ, true, false, not, ◌&&◌, ◌≡◌, ◌<◌, ◌≤◌, length, is_some};
ghost use Rattle.std.specs.Prelude.{nat_le, option_map, Option};
ghost use Rattle.std.specs.Option.{option_copied};
ghost use Rattle.std.specs.Str.{bytes_eq};
ghost use Rattle.base64.specs.Engines.{standard};
ghost use Rattle.base64.specs.GeneralPurpose.{encode_of};
ghost use Rattle.percent_encoding.specs.Iter.{decoded_bytes};
ghost use Rattle.aide_attr.specs.Attr.{most_bytes};
ghost use Rattle.aide_fields.specs.Numbers.{mode_of};
ghost use Rattle.aide_fields.specs.Values.{is_nought, type_of_bits, type_of_mode, begins_number};
ghost use Rattle.aide_fields.specs.Values.{time_of, digest_of, link_text};
ghost use Rattle.aide_fields.specs.Values.{link_of, value_of, is_field};
ghost use Rattle.aide_fields.specs.Attributes.{digest_in, is_different};
ghost use Rattle.aide_fields.specs.Lent.{IsDigest, lent_link, differs_by, same_number};
ghost use Rattle.aide_fields.specs.Lent.{same_mode, same_type, same_link_name};

use crate::base64_tables::Base64Tables;
use crate::decoded::Decoded;
use crate::number::{is_digit, is_mode, is_number, read_mode, read_number};
use crate::symbols::are_symbols;
use crate::time_digits::{are_ten, tells_ten};
use aide_attr::{FileType, Form};
use percent_encoding::percent_decode;

/// Returns whether a field is `0`, which says that there is no value.
pub fn is_nought(field: &[u8]) -> bool
    ensures { result ≡ is_nought field.now }
{
    field == b"0".as_slice()
}

fn type_of_bits(bits: u32) -> Option<FileType>
    requires { bits < 16 }
    ensures { result ≡ type_of_bits bits }
{
    match bits {
        0 => None,
        8 => Some(FileType::File),
        4 => Some(FileType::Directory),
        10 => Some(FileType::Link),
        2 => Some(FileType::Char),
        6 => Some(FileType::Block),
        1 => Some(FileType::Fifo),
        12 => Some(FileType::Socket),
        _ => Some(FileType::Other(bits as u8)),
    }
}

/// Reads the type of a file from a field with its mode.
pub fn read_type(field: &[u8]) -> Option<FileType>
    ensures { result ≡ type_of_mode (mode_of field.now) }
{
    let mode = read_mode(field)?;
    type_of_bits(mode / 4096 % 16)
}

fn begins_number(field: &[u8]) -> bool
    ensures { result ≡ begins_number field.now }
{
    match field.split_first() {
        None => false,
        Some((first, _)) => is_digit(10, *first) || *first == b'-',
    }
}

/// Reads seconds, written as a number or as base64 of the text of one.
#[tactic(auto, unfolding(crate::specs::Values::time_of))]
pub fn read_time(field: &[u8]) -> Option<i128>
    ensures { result ≡ time_of field.now }
{
    if begins_number(field) {
        return read_number(field);
    }
    if field.len() > 44 {
        return None;
    }
    let mut text = [0; 33];
    match Base64Tables::new().decode_short(field, &mut text) {
        Ok(len) => {
            let (front, _) = text.split_at(len);
            read_number(front)
        }
        Err(_) => None,
    }
}

/// Returns whether a field has seconds.
#[tactic(auto, unfolding(crate::specs::Values::time_of))]
pub fn is_time(tables: &Base64Tables, field: &[u8]) -> bool
    ensures { result ≡ is_some (time_of field.now) }
{
    if begins_number(field) {
        return is_number(field);
    }
    if are_ten(field) {
        return true;
    }
    if field.len() > 44 {
        return false;
    }
    let mut text = [0; 33];
    match tables.decode_short(field, &mut text) {
        Ok(len) => {
            let (front, _) = text.split_at(len);
            is_number(front)
        }
        Err(_) => false,
    }
}

/// Decodes a digest into the first bytes of a buffer. Returns how many bytes there are.
#[tactic(auto, unfolding(crate::specs::Values::digest_of))]
pub fn read_digest(
    tables: &Base64Tables,
    least: u8,
    most: u8,
    field: &[u8],
    buffer: &mut [u8; 64],
) -> Option<usize>
    requires { most ≤ 64 }
    ensures { IsDigest (digest_of least most field.now) result buffer.new }
{
    let len = tables.decode(field, buffer)?;
    if len >= least as usize && len <= most as usize {
        Some(len)
    } else {
        None
    }
}

/// Returns whether a number of bytes is between `least` and `most`, both included.
fn is_count(least: u8, most: u8, count: usize) -> bool
    ensures { result ≡ (nat_le least count && nat_le count most) }
{
    least as usize <= count && count <= most as usize
}

/// Returns whether a field is base64 of a number of bytes between `least` and `most`. Only its last group of four
/// symbols is decoded, since the groups before it cannot have padding.
pub fn is_digest(tables: &Base64Tables, least: u8, most: u8, field: &[u8]) -> bool
    ensures { result ≡ is_some (digest_of least most field.now) }
{
    let groups = field.len().saturating_sub(1) / 4;
    let (front, last) = field.split_at(4 * groups);
    if !are_symbols(front) {
        return false;
    }
    let mut buffer = [0; 33];
    match tables.decode_short(last, &mut buffer) {
        Ok(len) => is_count(least, most, 3 * groups + len),
        Err(_) => false,
    }
}

/// Returns the text of a digest in base64, if the field has a digest: the field itself, since a digest has no other
/// text.
pub fn written_digest<'a>(form: Form, field: &'a [u8]) -> Option<&'a [u8]>
    requires { is_field form field.now ≡ true }
    ensures { option_copied result
        ≡ option_map (encode_of standard) (digest_in (value_of form field.now)) }
{
    match form {
        Form::Digest(_, _) if is_nought(field) => None,
        Form::Digest(_, _) => Some(field),
        _ => None,
    }
}

fn link_text(field: &[u8]) -> &[u8]
    ensures { result.now ≡ link_text field.now }
{
    if field.starts_with(b"00") {
        let (_, text) = field.split_at(1);
        text
    } else {
        field
    }
}

/// Reads the name in a symbolic link: none, the empty name, or a text with escapes.
#[tactic(auto, unfolding(crate::specs::Values::link_of))]
pub fn read_link(field: &[u8]) -> Option<Decoded<'_>>
    ensures { lent_link result ≡ link_of field.now }
{
    if is_nought(field) {
        None
    } else if field == b"0-".as_slice() {
        Some(percent_decode(b""))
    } else {
        Some(percent_decode(link_text(field)))
    }
}

/// Returns whether a field of this form has a value. A number always has one, since the field was judged.
pub fn has_value(form: Form, field: &[u8]) -> bool
    requires { is_field form field.now ≡ true }
    ensures { result ≡ is_some (value_of form field.now) }
{
    match form {
        Form::Kind => read_type(field).is_some(),
        Form::Mode => true,
        Form::Number => true,
        Form::Time => true,
        Form::Link => true,
        Form::Digest(_, _) => !is_nought(field),
        Form::Opaque => !is_nought(field),
    }
}

// ---- whether two fields of one form have different values

fn numbers_differ(old: Option<i128>, new: Option<i128>) -> bool
    ensures { result ≡ differs_by same_number old new }
{
    match (old, new) {
        (Some(x), Some(y)) => x != y,
        _ => false,
    }
}

/// Returns whether two fields have different seconds, given that their bytes differ. Ten digits are never decoded:
/// equally many digits write the same number only if they are the same.
fn times_differ(old: &[u8], new: &[u8]) -> bool
    requires old { is_some (time_of old.now) ≡ true }
    requires new { is_some (time_of new.now) ≡ true }
    requires unlike { bytes_eq old.now new.now ≡ false }
    ensures { result ≡ differs_by same_number (time_of old.now) (time_of new.now) }
{
    if tells_ten(old) && tells_ten(new) {
        return true;
    }
    numbers_differ(read_time(old), read_time(new))
}

fn modes_differ(old: Option<u32>, new: Option<u32>) -> bool
    ensures { result ≡ differs_by same_mode old new }
{
    match (old, new) {
        (Some(x), Some(y)) => x % 4096 != y % 4096,
        _ => false,
    }
}

fn types_differ(old: Option<FileType>, new: Option<FileType>) -> bool
    ensures { result ≡ differs_by same_type old new }
{
    match (old, new) {
        (Some(x), Some(y)) => x != y,
        _ => false,
    }
}

/// Returns whether two texts with escapes mean the same bytes.
fn same_texts(old: Decoded<'_>, new: Decoded<'_>) -> bool
    ensures { result ≡ bytes_eq (decoded_bytes old.entry) (decoded_bytes new.entry) }
{
    let mut left = old;
    let mut right = new;
    'bytes: while let Some(a) = left.next() {
        let Some(b) = right.next() else {
            return false;
        };
        if a != b {
            return false;
        }
    }
    right.next().is_none()
}

fn links_differ(old: Option<Decoded<'_>>, new: Option<Decoded<'_>>) -> bool
    ensures { result ≡ differs_by same_link_name (Some (lent_link old.entry))
        (Some (lent_link new.entry)) }
{
    match (old, new) {
        (None, None) => false,
        (Some(x), Some(y)) => !same_texts(x, y),
        _ => true,
    }
}

/// Returns whether both fields have a value: neither of them is `0`.
fn are_there(old: &[u8], new: &[u8]) -> bool
    ensures { result ≡ (not (is_nought old.now) && not (is_nought new.now)) }
{
    !is_nought(old) && !is_nought(new)
}

/// Returns whether two fields of one form have different values, given that their bytes differ. Each digest has only
/// one base64 text, so two digests with different texts are not decoded.
pub fn differ(form: Form, old: &[u8], new: &[u8]) -> bool
    requires old { is_field form old.now ≡ true }
    requires new { is_field form new.now ≡ true }
    requires unlike { bytes_eq old.now new.now ≡ false }
    ensures { result ≡ is_different (value_of form old.now) (value_of form new.now) }
{
    match form {
        Form::Kind => types_differ(read_type(old), read_type(new)),
        Form::Mode => modes_differ(read_mode(old), read_mode(new)),
        Form::Number => numbers_differ(read_number(old), read_number(new)),
        Form::Time => times_differ(old, new),
        Form::Link => links_differ(read_link(old), read_link(new)),
        Form::Digest(_, _) => are_there(old, new),
        Form::Opaque => are_there(old, new),
    }
}
