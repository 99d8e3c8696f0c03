//! Directives: the text after `@@`.

ghost use Rattle.std.specs.Prelude.{◌≡◌, [], Some, unwrap_or};
ghost use Rattle.aide_conf.specs.Cutting.{is_blank, bytes_before, bytes_after};
ghost use Rattle.aide_conf.specs.Directive.{directive_by, read_directive, condition, negated};
ghost use Rattle.aide_conf.specs.code.Returned.{as_lists};
ghost use Rattle.aide_conf.specs.Effect.{is_omitted};

use crate::line::{after_first_word, first_word, strip};

/// A directive, with the bytes of its names and its text: slices here, lists in contracts.
pub(crate) enum Directive<Bytes> {
    /// A variable's name, and its value before expansion.
    Define(Bytes, Bytes),
    Undef(Bytes),
    IfDef(Bytes),
    IfNotDef(Bytes),
    /// An `@@if` whose condition is malformed.
    IfOther,
    Else,
    EndIf,
    /// A directive that this program leaves out, and whether its word begins with `if`. If so, it is
    /// refused in an unused part too.
    Omitted(bool),
    /// Any other directive, and whether its word begins with `if`.
    Unknown(bool),
}

/// Reads the directive after `@@`.
pub(crate) fn read_directive(bytes: &[u8]) -> Directive<&[u8]>
    ensures { as_lists result ≡ Some (read_directive bytes.now) }
{
    directive_by(first_word(bytes), strip(after_first_word(bytes)))
}

/// Returns the directive of a word and the rest of its line.
#[tactic(auto, unfolding(crate::specs::Directive::directive_by))]
fn directive_by<'a>(word_bytes: &'a [u8], rest: &'a [u8]) -> Directive<&'a [u8]>
    ensures { as_lists result ≡ Some (directive_by word_bytes.now rest.now) }
{
    if word_bytes == b"define".as_slice() {
        Directive::Define(first_word(rest), strip(after_first_word(rest)))
    } else if word_bytes == b"undef".as_slice() {
        Directive::Undef(rest)
    } else if word_bytes == b"ifdef".as_slice() {
        Directive::IfDef(rest)
    } else if word_bytes == b"ifndef".as_slice() {
        Directive::IfNotDef(rest)
    } else if word_bytes == b"if".as_slice() {
        condition(rest)
    } else if word_bytes == b"else".as_slice() {
        Directive::Else
    } else if word_bytes == b"endif".as_slice() {
        Directive::EndIf
    } else if is_omitted(word_bytes) {
        Directive::Omitted(word_bytes.starts_with(b"if".as_slice()))
    } else {
        Directive::Unknown(word_bytes.starts_with(b"if".as_slice()))
    }
}

/// Returns the directive of an `@@if` with this condition.
#[tactic(auto, unfolding(crate::specs::Directive::condition))]
fn condition(rest: &[u8]) -> Directive<&[u8]>
    ensures { as_lists result ≡ Some (condition rest.now) }
{
    let first = first_word(rest);
    if first == b"defined".as_slice() {
        Directive::IfDef(strip(after_first_word(rest)))
    } else if first == b"not".as_slice() {
        negated(strip(after_first_word(rest)))
    } else {
        Directive::IfOther
    }
}

/// Returns the directive of an `@@if` with this text after the `not` of its condition.
#[tactic(auto, unfolding(crate::specs::Directive::negated))]
fn negated(rest: &[u8]) -> Directive<&[u8]>
    ensures { as_lists result ≡ Some (negated rest.now) }
{
    if first_word(rest) == b"defined".as_slice() {
        Directive::IfNotDef(strip(after_first_word(rest)))
    } else {
        Directive::IfOther
    }
}

/// The words of the directives that this program leaves out.
const OMITTED_WORDS: [&[u8]; 4] = [b"include", b"x_include", b"ifhost", b"ifnhost"];

/// Returns whether a directive with this word is one that this program leaves out.
fn is_omitted(word: &[u8]) -> bool
    ensures { result ≡ is_omitted word.now }
{
    OMITTED_WORDS.contains(&word)
}
