//! What takes the output of a run or of a session.
use crate::numbers::Numbers;
use crate::writer::WriterPlan;

/// A sink whose failures are planned.
#[derive(Clone, Copy)]
pub(crate) enum SinkPlan {
    /// Memory, of which this allocation is refused, counted from 0.
    Memory { refused: u64 },
    /// A writer.
    Writer(WriterPlan),
    /// A page before a writer.
    Page(WriterPlan),
}

impl SinkPlan {
    pub(crate) fn take(numbers: &mut Numbers<'_>) -> SinkPlan {
        match numbers.take() {
            0 => SinkPlan::Memory {
                refused: numbers.take(),
            },
            1 => SinkPlan::Writer(WriterPlan::take(numbers)),
            _ => SinkPlan::Page(WriterPlan::take(numbers)),
        }
    }

    /// Whatever is written is taken.
    pub(crate) fn without_failure() -> SinkPlan {
        SinkPlan::Writer(WriterPlan::without_failure())
    }
}
