//! Why a run with a trusted pair was given up.
use aide_merge::RunFault;

/// A fault of a run, and of which pair it is. A failed write is one of the compared pair.
#[derive(Clone, Copy, Debug, PartialEq, Eq)]
pub enum PairFault {
    /// A fault of the databases that are compared, or of what is written of them.
    Compared(RunFault),
    /// A fault of the trusted databases.
    Trusted(RunFault),
}
