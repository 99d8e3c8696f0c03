//! The lines of a digest.
ghost use Rattle.std.specs.Prelude.{◌≡◌, codes};
ghost use Rattle.aide_text.specs.PenSheet.{on_sheet};
ghost use Rattle.aide_text.specs.Sheet.{Wrote};
ghost use Rattle.aide_text.specs.Layout.{alone};
ghost use Rattle.aide_text.specs.ValueText.{digest_text};

use crate::lines::put_alone;
use crate::pen::Pen;
use crate::sink::Sink;
use crate::value::digest_text;

/// Writes the SHA-256 (FIPS 180-4) of a database, in base 16 or in base 64 (RFC 4648 section 4).
pub fn put_digest<W: Sink>(out: &mut W, pen: &mut Pen, base16: bool, digest: &[u8; 32])
    ensures { Wrote (alone (codes "SHA256") (digest_text base16 digest.now))
        (on_sheet W.Sink out.old pen.old) (on_sheet W.Sink out.new pen.new) }
{
    let text = digest_text(base16, digest);
    put_alone(out, pen, b"SHA256", text.bytes());
}
