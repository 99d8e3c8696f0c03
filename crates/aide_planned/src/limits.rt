//! Limits on databases.
ghost use Rattle.std.specs.Prelude.{◌≤◌, ◌^◌};

use crate::numbers::Numbers;
use aide_db::Limits;

/// Limits that a run may have: a line has at least 14 bytes, and a database at most 2^60.
pub(crate) fn limits_within(limits: Limits) -> Limits
    ensures line { 14 ≤ result.line }
    ensures bytes { result.bytes ≤ 2 ^ 60 }
{
    Limits {
        line: limits.line.max(14),
        bytes: limits.bytes.min(1 << 60),
    }
}

/// The limits that the next two numbers tell.
pub(crate) fn limits_of(numbers: &mut Numbers<'_>) -> Limits {
    Limits {
        line: u32::try_from(numbers.take()).unwrap_or(u32::MAX),
        bytes: numbers.take(),
    }
}
