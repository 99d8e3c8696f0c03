//! Writes a whole text to a sink, or returns how many bytes were written before the sink failed.
ghost use Rattle.std.specs.Prelude.{◌≡◌, ◌<◌, ℕ, length, take, OnOk, IfErr};
ghost use Rattle.std.specs.Io.KnownBytes.{Appends};
ghost use Rattle.aide_text.specs.Failures.{CountsFault};

use crate::sink::Sink;

/// Writes all of these bytes. If the sink fails, the error is how many bytes were written: that many first bytes of the
/// text, and fewer than all.
// It is inlined where the pen's `put` is.
#[inline(always)]
pub fn emit<W: Sink>(out: &mut W, bytes: &[u8]) -> Result<(), u64>
    ensures ok { OnOk result (Appends (W.delivered out.old) (W.delivered out.new) bytes.now) }
    ensures fewer { IfErr result (λ n. n < length bytes.now) }
    ensures cut { IfErr result (λ n.
        Appends (W.delivered out.old) (W.delivered out.new) (take n bytes.now)) }
    ensures fault { CountsFault (W.failures out.old) (W.failures out.new) result }
    ensures flushes { W.flushes out.new ≡ W.flushes out.old }
{
    let mut at = 0;
    while at < bytes.len() {
        match out.write(&bytes[at..]) {
            Ok(count) => at += count,
            Err(_) => return Err(at as u64),
        }
    }
    Ok(())
}
