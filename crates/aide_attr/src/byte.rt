//! What single bytes of a configuration or a database are.

ghost use Rattle.std.specs.Prelude.{◌≡◌};
ghost use Rattle.aide_attr.specs.Byte.{is_blank, is_word_byte, is_name_byte};

/// Returns whether the byte is a space or a tab.
#[tactic(auto, unfolding(crate::specs::Byte::is_blank))]
pub fn is_blank(byte: u8) -> bool
    ensures { result ≡ is_blank byte }
{
    byte == b' ' || byte == b'\t'
}

/// Returns whether the byte is an ASCII letter, a digit or `_`.
#[tactic(auto, unfolding(crate::specs::Byte::is_word_byte))]
pub(crate) fn is_word_byte(byte: u8) -> bool
    ensures { result ≡ is_word_byte byte }
{
    (b'A' <= byte && byte <= b'Z')
        || (b'a' <= byte && byte <= b'z')
        || (b'0' <= byte && byte <= b'9')
        || byte == b'_'
}

/// Returns whether the byte may be in a name of an expression.
#[tactic(auto, unfolding(crate::specs::Byte::is_name_byte))]
pub(crate) fn is_name_byte(byte: u8) -> bool
    ensures { result ≡ is_name_byte byte }
{
    is_word_byte(byte) || byte == b'>'
}
