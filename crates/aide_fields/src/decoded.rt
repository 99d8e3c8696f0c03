//! Texts with escapes.

use percent_encoding::PercentDecode;

/// Hands out the bytes of a text with escapes, one after another. An escape is `%` and the two hexadecimal digits of a
/// byte (RFC 3986 section 2.1). A `%` without them is itself.
pub type Decoded<'a> = PercentDecode<'a>;
