//! What a report is written from.
use crate::finding::Finding;
use aide_conf::Task;
use aide_db::Limits;

/// What all passes of a report share: the task, the limits of the readings, and what was found before.
#[derive(Clone, Copy)]
pub(crate) struct Plan<'a> {
    pub(crate) task: &'a Task<'a>,
    pub(crate) limits: Limits,
    pub(crate) finding: &'a Finding,
}
