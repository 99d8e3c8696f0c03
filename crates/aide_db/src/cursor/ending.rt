//! The end of a database: the bytes after the end line, the fault of a text that ends too early, and the fault that a
//! cursor keeps.
ghost use Rattle.std.specs.Prelude.{ℕ, ◌≡◌, ◌+◌, List, true};
ghost use Rattle.aide_db.specs.Stage.{end_kind_at};
ghost use Rattle.aide_db.specs.Standing.{IsBehind};
ghost use Rattle.aide_db.specs.Answer.{Finishes};
ghost use Rattle.aide_db.specs.Told.{tells, bytes_of};
ghost use Rattle.aide_db.specs.CursorView.{to_use};
ghost use Rattle.aide_db.specs.Hashed.{HasHashed, IsHashedAt};
ghost use Rattle.aide_db.specs.Takes.{Takes};
ghost use Rattle.aide_entry.specs.Cause.{IsOfText};
ghost use Rattle.aide_db.specs.Failures.{after_answer};
ghost use Rattle.aide_db.specs.NextCall.{KeepsCursor};
ghost use Rattle.aide_db.specs.code.Keeping.{IsOutcomeOfEnd, KeepsBytes};

use super::Cursor;
use crate::drain::{Drained, drain};
use crate::fault::DbFault;
use crate::reel::Reel;
use crate::stage::{FaultAt, Stage};
use crate::step::Step;
use aide_entry::DbFaultKind;

impl<R: Reel> Cursor<R> {
    /// Takes the bytes after the end line.
    pub(super) fn finish(&mut self) -> Result<Step, DbFault>
        ensures cursor { KeepsCursor R.Reel self.old self.new }
        ensures takes { tells (R.to_come self.old.reel) ≡ true
            → Takes (to_use (bytes_of R.to_come) self.old) (to_use (bytes_of R.to_come) self.new)
            self.old.used self.new.used }
        ensures finishes { (text : List ℕ) → tells (R.to_come self.old.reel) ≡ true
            → IsBehind self.old.limits self.old.at_end self.old.used self.old.line
            (to_use (bytes_of R.to_come) self.old) text
            → Finishes self.new text result }
        ensures hashed { (text : List ℕ) → tells (R.to_come self.old.reel) ≡ true
            → IsBehind self.old.limits self.old.at_end self.old.used self.old.line
            (to_use (bytes_of R.to_come) self.old) text
            → HasHashed (bytes_of R.to_come) self.old text
            → IsHashedAt self.new.stage (bytes_of R.to_come) self.new text }
        ensures failures { R.failures self.new.reel
            ≡ after_answer result (R.failures self.old.reel) }
        ensures outcome { IsOutcomeOfEnd self.old self.new result }
    {
        if self.at_end {
            self.stage = Stage::Ended;
            return Ok(Step::End);
        }
        match drain(
            &mut self.chunks,
            self.limits,
            &mut self.used,
            &mut self.line,
        ) {
            Drained::All => {
                self.stage = Stage::Ended;
                Ok(Step::End)
            }
            Drained::TooMany => Err(self.fail(DbFaultKind::TooManyBytes)),
            Drained::Failed => Err(self.fail(DbFaultKind::Read)),
        }
    }

    /// Keeps a fault at the line after those that were read. Returns that fault.
    pub(super) fn fail(&mut self, kind: DbFaultKind) -> DbFault
        ensures stage { self.new.stage ≡ Stage.Failed
            (record { line = result.line; kind = result.kind }) }
        ensures own { result.side ≡ self.old.side }
        ensures bytes { KeepsBytes self.old self.new }
        ensures kind { result.kind ≡ kind }
        ensures columns { self.new.columns ≡ self.old.columns }
        ensures line { result.line ≡ self.old.line + 1 }
        ensures side { self.new.side ≡ self.old.side }
        ensures limits { self.new.limits ≡ self.old.limits }
    {
        let line = self.line + 1;
        self.stage = Stage::Failed(FaultAt { line, kind });
        DbFault {
            side: self.side,
            line,
            kind,
        }
    }
}

/// Returns the fault of a text that ends at this stage.
pub(super) fn end_kind(stage: Stage) -> DbFaultKind
    ensures same { result ≡ end_kind_at stage }
    ensures of_text { IsOfText result }
{
    match stage {
        Stage::Start => DbFaultKind::NoBegin,
        _ => DbFaultKind::NoEnd,
    }
}
