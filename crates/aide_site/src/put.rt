//! Standard error: what is put there, and that it is passed on. Failures change nothing.
ghost use Rattle.std.specs.Prelude.{◌≡◌, ◌≤◌, true};
ghost use Rattle.std.specs.Io.KnownBytes.{Keeps};
ghost use Rattle.aide_site.specs.Put.{HasNoFailure, PutOn};

use aide_text::{Pen, Sink, put};

/// Puts a line without holes on standard error.
pub(crate) fn put_fixed<E: Sink>(err: &mut E, line: &[u8])
    ensures { PutOn line.now E.Sink err.old err.new }
{
    put(err, &mut Pen::new(), line);
}

/// Passes on what was put on standard error.
pub fn pass_on<E: Sink>(err: &mut E)
    ensures kept { Keeps (E.delivered err.old) (E.delivered err.new) }
    ensures never_falls { E.failures err.old ≤ E.failures err.new }
    ensures flushed { HasNoFailure (E.failures err.old) (E.failures err.new)
        → E.is_flushed err.new ≡ true }
{
    if let Err(_) = err.flush() {}
}
