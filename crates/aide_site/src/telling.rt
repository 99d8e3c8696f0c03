//! What a session says of an accepted configuration that is only checked.
ghost use Rattle.std.specs.Prelude.{OnOk, OnErr};
ghost use Rattle.aide_text.specs.Failures.{Rose};
ghost use Rattle.aide_site.specs.Closing.{IsTold, IsUntold};

use aide_conf::Settings;
use aide_text::Sink;

/// The output was not written.
#[derive(Clone, Copy)]
pub struct Unwritten;

/// What is said of an accepted configuration that is only checked.
pub trait Telling: Copy {
    ghost use Rattle.aide_site.specs.Says.{Says};

    /// The text that is written, if any.
    ghost says: { Says };

    /// Writes what there is to say, and flushes it.
    fn tell<W: Sink>(settings: &Settings, out: &mut W) -> Result<(), Unwritten>
        ensures told { OnOk result (IsTold says settings.now
            (W.delivered out.old) (W.delivered out.new)
            (W.is_flushed out.new) (W.flushes out.old) (W.flushes out.new)) }
        ensures untold { OnErr result (IsUntold says settings.now
            (W.delivered out.old) (W.delivered out.new) (W.flushes out.old) (W.flushes out.new)) }
        ensures rose { OnErr result (Rose (W.failures out.old) (W.failures out.new)) };
}
