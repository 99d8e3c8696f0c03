//! What the whole program promises if it writes lines of JSON, in two clauses.
ghost use Rattle.std.specs.Prelude.{◌≡◌, ◌⊎◌, ℕ, List, Some, Result};
ghost use Rattle.aide_conf.specs.Settings.{Configured};
ghost use Rattle.aide_headline.specs.LineHeadline.{IsRightLineAnswer};
ghost use Rattle.aide_merge.specs.RightAnswer.{Report};
ghost use Rattle.aide_site.specs.Answer.{Named, asked_by, limits};
ghost use Rattle.aide_line_session.specs.AsksForLines.{AsksForLines};
ghost use Rattle.aide_line_session.specs.LineAnswer.{line_answer, lines_at_fault, trusted_of};
ghost use Rattle.aide_line_session.specs.LineEnds.{WholeLines};
ghost use Rattle.aide_site.specs.Ends.{Starved, sinks_between};
ghost use Rattle.aide_site.specs.Held.{IsPeakOf};
ghost use Rattle.aide_site.specs.Put.{HasNoFailure};
ghost use Rattle.aide_site.specs.Trusted.{trusted_at};
ghost use Rattle.aide_line_run.specs.Listed.{ListRead};
ghost use Rattle.aide_line_run.specs.declared.pair_fault.PairFault.{PairFault};
ghost use Rattle.aide_words.specs.LineJob.{LineJobText};

use aide_db::Sources;
use aide_line_session::lines_session_on;
use aide_site::{Site, SiteWithDesk};
use aide_text::Sink;
use aide_words::Words;
use std::alloc::Global;

/// Runs the whole program that writes lines of JSON on these sites and desks, by [`lines_session_on`].
///
/// All clauses begin with a comparison, a list without a fault (the empty text, if the arguments give none), and a text
/// at each of the four paths. If the arguments name no trusted pair, its paths are empty, and the empty database is at
/// both.
///
/// - If no device counts a failure, the program ends with the right answer over the four texts or out of memory. If
///   all four are sound, exactly the lines go out that the definitions assign to the four maps, to the rules of the
///   list and to the SHA-256 of its text. Otherwise the first fault is named, in the order old, new, trusted old,
///   trusted new, and a beginning of what comes before the last line has gone out (`answer`). No faulty line and no
///   line after it has a part in this beginning (`early` of `BeginsOverTexts`).
/// - Neither desk holds more than the longest line of each text of its pair and one more line as long as the longer
///   of these, unless it held more before (`bound`).
///
/// What is promised beyond this is in the contract of [`lines_session_on`].
pub fn run_lines_program<S: Site, W: Sink, E: Sink>(
    alloc: Global,
    words: &Words,
    compared: &mut SiteWithDesk<S>,
    trusted: &mut SiteWithDesk<S>,
    out: &mut W,
    err: &mut E,
) -> u8
    ensures answer { (job : LineJobText) (list : ListRead) (named : Named)
        (settings : Configured)
        (old new trusted_old trusted_new : List ℕ)
        → AsksForLines (S.file_at compared.old.site) (trusted_at (S.file_at trusted.old.site))
        words.now job list named settings old new trusted_old trusted_new
        → HasNoFailure (S.failures compared.old.site) (S.failures compared.new.site)
        → HasNoFailure (S.failures trusted.old.site) (S.failures trusted.new.site)
        → HasNoFailure (W.failures out.old) (W.failures out.new)
        → (right : Result Report PairFault)
        → IsRightLineAnswer limits list (asked_by settings.options named)
        (asked_by settings.options (trusted_of job)) old new trusted_old trusted_new right
        → WholeLines (line_answer (lines_at_fault list (asked_by settings.options named)
        (asked_by settings.options (trusted_of job))
        (Some old) (Some new) (Some trusted_old) (Some trusted_new))
        named (trusted_of job) right) result
        (sinks_between W.delivered E.delivered E.failures out.old out.new err.old err.new)
        ⊎ Starved result
        (sinks_between W.delivered E.delivered E.failures out.old out.new err.old err.new) }
    ensures bound { (job : LineJobText) (list : ListRead) (named : Named)
        (settings : Configured)
        (old new trusted_old trusted_new : List ℕ)
        → AsksForLines (S.file_at compared.old.site) (trusted_at (S.file_at trusted.old.site))
        words.now job list named settings old new trusted_old trusted_new
        → IsPeakOf old new compared.old.desk.peak compared.new.desk.peak
        × IsPeakOf trusted_old trusted_new trusted.old.desk.peak trusted.new.desk.peak }
{
    lines_session_on(alloc, words, compared, trusted, out, err)
}
