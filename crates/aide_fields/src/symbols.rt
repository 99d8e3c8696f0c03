//! Finds out whether bytes are symbols of base64.
ghost use Rattle.std.specs.Prelude.{◌≡◌};
ghost use Rattle.std.specs.List.{list_all};
ghost use Rattle.aide_fields.specs.code.Symbols.{is_within, is_symbol};

/// Returns whether a byte is between `low` and `high`, both included.
fn is_within(low: u8, high: u8, byte: u8) -> bool
    ensures { result ≡ is_within low high byte }
{
    low <= byte && byte <= high
}

/// Returns whether a byte is a symbol. There is no branch.
#[tactic(auto, unfolding(crate::specs::code::Symbols::is_symbol))]
fn is_symbol(byte: u8) -> bool
    ensures { result ≡ is_symbol byte }
{
    is_within(b'A', b'Z', byte)
        | is_within(b'a', b'z', byte)
        | is_within(b'0', b'9', byte)
        | (byte == b'+')
        | (byte == b'/')
}

/// Returns whether eight bytes are symbols. There is no branch for each of them.
fn are_eight_symbols(bytes: &[u8; 8]) -> bool
    ensures { result ≡ list_all is_symbol bytes.now }
{
    let [a, b, c, d, e, f, g, h] = *bytes;
    is_symbol(a)
        & is_symbol(b)
        & is_symbol(c)
        & is_symbol(d)
        & is_symbol(e)
        & is_symbol(f)
        & is_symbol(g)
        & is_symbol(h)
}

/// Returns whether each of a few bytes is a symbol.
fn few_symbols(bytes: &[u8]) -> bool
    ensures { result ≡ list_all is_symbol bytes.now }
{
    let mut rest = bytes;
    'bytes: while let Some((byte, more)) = rest.split_first() {
        if !is_symbol(*byte) {
            return false;
        }
        rest = more;
    }
    true
}

/// Returns whether each byte is a symbol. The bytes are checked eight at a time.
pub fn are_symbols(bytes: &[u8]) -> bool
    ensures { result ≡ list_all is_symbol bytes.now }
{
    let mut rest = bytes;
    'eights: while let Some((eight, more)) = rest.split_first_chunk::<8>() {
        if !are_eight_symbols(eight) {
            return false;
        }
        rest = more;
    }
    few_symbols(rest)
}
