//! The end of what is written: one flush, if the writing came to its end.
ghost use Rattle.aide_report.specs.code.Flushes.{EndsFlushed};

use aide_entry::DeviceFault;
use aide_merge::RunFault;
use aide_text::{Pen, Sink};

/// Flushes what was written, unless the writing has ended with a fault. A failed flush is returned like a failed write.
pub(crate) fn flush_written<W: Sink, T: Copy>(
    out: &mut W,
    pen: &Pen,
    written: Result<T, RunFault>,
) -> Result<T, RunFault>
    ensures { EndsFlushed W.Sink out.old out.new pen.now.sent written result }
{
    let answer = match written {
        Ok(answer) => answer,
        Err(fault) => return Err(fault),
    };
    if let Err(DeviceFault) = out.flush() {
        return Err(RunFault::Write { written: pen.sent });
    }
    Ok(answer)
}
