//! Callers of `session_on` and `lines_session_on` that take each promise out of its record.
ghost use Rattle.std.specs.Prelude.{◌≡◌, ◌≤◌, ◌⊎◌, true, None};
ghost use Rattle.aide_entry.specs.Count.{one_more};
ghost use Rattle.aide_text.specs.Failures.{Rose};
ghost use Rattle.aide_site.specs.Answer.{Answer, IsAnswerBy, Named};
ghost use Rattle.aide_site.specs.Closing.{ClosesBy, course_between};
ghost use Rattle.aide_site.specs.Ends.{Ends, HasFailed, Starved, Whole, sinks_between};
ghost use Rattle.aide_site.specs.Existence.{HasSessionAnswerBy, TellsNamed};
ghost use Rattle.aide_site.specs.Put.{HasNoFailure};
ghost use Rattle.aide_words.specs.LineJob.{line_job_of};
ghost use Rattle.aide_words.specs.Job.{job_of};

use aide_db::Desk;
use aide_line_session::lines_session_on;
use aide_report_session::session_on;
use aide_site::{Site, SiteWithDesk};
use aide_text::Sink;
use aide_words::Words;
use std::alloc::Global;

/// Runs a session that writes the report.
pub(super) fn report_on<S: Site, W: Sink, E: Sink>(
    alloc: Global,
    words: &Words,
    desk: &mut Desk<Global>,
    site: &mut S,
    out: &mut W,
    err: &mut E,
) -> u8
    ensures ends { (named : Named) (a : Answer)
        → IsAnswerBy None (S.file_at site.old) (job_of words.now) named a
        → Ends a named result
        (sinks_between W.delivered E.delivered E.failures out.old out.new err.old err.new)
        (HasFailed (S.is_reliable site.old) (S.failures site.old) (S.failures site.new))
        (Rose (W.failures out.old) (W.failures out.new)) }
    ensures exact { (named : Named) (a : Answer)
        → IsAnswerBy None (S.file_at site.old) (job_of words.now) named a
        → HasNoFailure (S.failures site.old) (S.failures site.new)
        → HasNoFailure (W.failures out.old) (W.failures out.new)
        → Whole a result
        (sinks_between W.delivered E.delivered E.failures out.old out.new err.old err.new)
        ⊎ Starved result
        (sinks_between W.delivered E.delivered E.failures out.old out.new err.old err.new) }
    ensures reliable { (named : Named) (a : Answer)
        → IsAnswerBy None (S.file_at site.old) (job_of words.now) named a
        → S.is_reliable site.old ≡ true → HasNoFailure (W.failures out.old) (W.failures out.new)
        → Whole a result
        (sinks_between W.delivered E.delivered E.failures out.old out.new err.old err.new)
        ⊎ Starved result
        (sinks_between W.delivered E.delivered E.failures out.old out.new err.old err.new) }
    ensures passed_on { HasNoFailure (E.failures err.old) (E.failures err.new)
        → E.is_flushed err.new ≡ true }
    ensures answered { TellsNamed (S.file_at site.old) (job_of words.now)
        → HasSessionAnswerBy None (S.file_at site.old) (job_of words.now) }
    ensures closes { ClosesBy None (S.file_at site.old) (S.is_reliable site.old) (job_of words.now) result
        (sinks_between W.delivered E.delivered E.failures out.old out.new err.old err.new)
        (course_between S.Sources W.Sink site.old site.new out.old out.new)
        (S.failures site.old) (S.failures site.new)
        (Rose (W.failures out.old) (W.failures out.new)) }
    ensures lookups { S.lookups site.new ≤ one_more (S.lookups site.old) }
{
    session_on(alloc, words, desk, site, out, err)
}

/// Runs a session that writes lines of JSON.
pub(super) fn lines_on<S: Site, W: Sink, E: Sink>(
    alloc: Global,
    words: &Words,
    compared: &mut SiteWithDesk<S>,
    trusted: &mut SiteWithDesk<S>,
    out: &mut W,
    err: &mut E,
) -> u8
    ensures unopened { line_job_of words.now ≡ None
        → S.openings compared.new.site ≡ S.openings compared.old.site }
    ensures still { line_job_of words.now ≡ None
        → compared.new.desk.peak ≡ compared.old.desk.peak }
    ensures trusted_unopened { line_job_of words.now ≡ None
        → S.openings trusted.new.site ≡ S.openings trusted.old.site }
    ensures trusted_still { line_job_of words.now ≡ None
        → trusted.new.desk.peak ≡ trusted.old.desk.peak }
{
    lines_session_on(alloc, words, compared, trusted, out, err)
}
