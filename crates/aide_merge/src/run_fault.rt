//! Why a run was given up.
ghost use Rattle.std.specs.Prelude.{◌≡◌};
ghost use Rattle.aide_merge.specs.FaultStatus.{fault_code, fault_status};

use aide_db::{DbFault, DbFaultKind, Side};

/// Why a run was given up.
#[derive(Clone, Copy, Debug, PartialEq, Eq)]
pub enum RunFault {
    /// The database of this side could not be opened.
    Open(Side),
    /// The first fault of a database, or one of its device or of memory.
    Database(DbFault),
    /// The database of this side changed while it was read.
    Changed(Side),
    /// The report could not be written. So many bytes of it were written, or `u64::MAX` if there were more.
    Write { written: u64 },
}

impl RunFault {
    /// Returns the code of the fault, from 1.
    pub fn code(&self) -> u8
        ensures { result ≡ fault_code self.now }
    {
        match self {
            RunFault::Open(_) => 1,
            RunFault::Database(_) => 2,
            RunFault::Changed(_) => 3,
            RunFault::Write { written: _ } => 4,
        }
    }

    /// The exit status: 22 if memory ran out, 24 for a fault of a database's text or length, 18 for every other fault.
    pub fn status(&self) -> u8
        ensures { result ≡ fault_status self.now }
    {
        match self {
            RunFault::Database(fault) => match fault.kind {
                DbFaultKind::Read => 18,
                DbFaultKind::Memory => 22,
                _ => 24,
            },
            _ => 18,
        }
    }
}
