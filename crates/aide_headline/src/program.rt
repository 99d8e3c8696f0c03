//! What the whole program promises, in three clauses.
ghost use Rattle.std.specs.Prelude.{◌≡◌, ◌≤◌, ◌+◌, ◌⊎◌, ℕ, List, Result, max};
ghost use Rattle.aide_conf.specs.Settings.{Configured};
ghost use Rattle.aide_db.specs.Longest.{longest_line};
ghost use Rattle.aide_db.specs.declared.fault.DbFault.{DbFault};
ghost use Rattle.aide_merge.specs.RightAnswer.{Report};
ghost use Rattle.aide_report_specs.specs.Given.{GiveOneDigest};
ghost use Rattle.aide_report_specs.specs.Runs.{Runs};
ghost use Rattle.aide_site.specs.Answer.{Named, answer_of_run, asked_by, limits};
ghost use Rattle.aide_report_session.specs.Asks.{Asks};
ghost use Rattle.aide_site.specs.Ends.{Starved, Whole, sinks_between};
ghost use Rattle.aide_site.specs.Put.{HasNoFailure};

use aide_db::{Desk, Sources};
use aide_report_session::session_on;
use aide_site::Site;
use aide_text::Sink;
use aide_words::Words;
use std::alloc::Global;

/// Runs the whole program on this desk, by [`session_on`].
///
/// The first two clauses begin with arguments that ask for a comparison of two texts, by a configuration
/// that is accepted:
///
/// - If no device counts a failure, the program ends with the answer over these texts. That is the
///   report, the lines on standard error and the status; or no output, the line of the first fault
///   and the status 24. Or there is no output, and the status is 22.
/// - The desk holds no more than [`compare_databases`](crate::compare_databases) says.
/// - After a status of at most 7 all openings of a database gave bytes of one SHA-256, whatever each of
///   them gave.
pub fn run_program<S: Site, W: Sink, E: Sink>(
    alloc: Global,
    words: &Words,
    desk: &mut Desk<Global>,
    site: &mut S,
    out: &mut W,
    err: &mut E,
) -> u8
    ensures answer { (named : Named) (settings : Configured) (old new : List ℕ)
        → Asks (S.file_at site.old) words.now named settings old new
        → HasNoFailure (S.failures site.old) (S.failures site.new)
        → HasNoFailure (W.failures out.old) (W.failures out.new)
        → (right : Result Report DbFault)
        → Runs limits (asked_by settings.options named) old new right
        → Whole (answer_of_run right) result
        (sinks_between W.delivered E.delivered E.failures out.old out.new err.old err.new)
        ⊎ Starved result
        (sinks_between W.delivered E.delivered E.failures out.old out.new err.old err.new) }
    ensures bound { (named : Named) (settings : Configured) (old new : List ℕ)
        → Asks (S.file_at site.old) words.now named settings old new
        → desk.new.peak ≤ max desk.old.peak
        (longest_line limits old + longest_line limits new
        + max (longest_line limits old) (longest_line limits new)) }
    ensures agreed { result ≤ 7 → GiveOneDigest (S.bytes_at site.new)
        (S.openings site.old) (S.openings site.new) }
{
    session_on(alloc, words, desk, site, out, err)
}
