//! The list of what is left out, which the arguments give.
ghost use Rattle.std.specs.Prelude.{◌≡◌};
ghost use Rattle.aide_line_session.specs.GivenList.{list_line, list_words, pattern_words};
ghost use Rattle.aide_site.specs.Put.{PutOn};
ghost use Rattle.sha2.specs.Sha256.{sha256};

use aide_patterns::{ListFault, ListFaultKind, PatternFault};
use aide_text::{Pen, Sink, put, put_number};
use sha2::{Digest, Sha256};

/// Returns the words for what a text lacks that is no pattern.
fn pattern_words(fault: PatternFault) -> &'static [u8]
    ensures { result.now ≡ pattern_words fault }
{
    match fault {
        PatternFault::NoPath => b"a path begins with /",
        PatternFault::DoubleStar => b"** is a component of its own",
        PatternFault::OpenEscape => b"a backslash is the last byte of a component",
        PatternFault::OpenClass => b"a class has no end",
        PatternFault::BadRange => b"a range ends before it begins",
    }
}

/// Returns the words for the fault of a list.
fn list_words(kind: ListFaultKind) -> &'static [u8]
    ensures { result.now ≡ list_words kind }
{
    match kind {
        ListFaultKind::InPattern(fault) => pattern_words(fault),
        ListFaultKind::BadReason => b"no reason for programs",
        ListFaultKind::TooMany => b"too many rules",
        ListFaultKind::Memory => b"out of memory",
    }
}

/// Puts the line for a fault of the list.
pub(crate) fn put_list_line<E: Sink>(err: &mut E, fault: ListFault)
    ensures { PutOn (list_line fault) E.Sink err.old err.new }
{
    let mut pen = Pen::new();
    put(err, &mut pen, b"aide: list:");
    put_number(err, &mut pen, fault.line);
    put(err, &mut pen, b": ");
    put(err, &mut pen, list_words(fault.kind));
    put(err, &mut pen, b"\n");
}

/// Returns the SHA-256 (FIPS 180-4) of the text of a list.
pub(crate) fn digest_of(text: &[u8]) -> [u8; 32]
    ensures { result ≡ sha256 text.now }
{
    let mut hash = Sha256::new();
    hash.update(text);
    hash.finalize()
}
