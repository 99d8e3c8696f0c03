//! The comparison that a command line asks for, which may name a trusted pair of databases.
ghost use Rattle.std.specs.Prelude.{◌≡◌, false, Some, None, IfOk, IsErrOf};
ghost use Rattle.aide_words.specs.LineJob.{line_command, line_job_of, line_job_text};
ghost use Rattle.aide_words.specs.LineJob.{long_rule, paired, text_of_line_job};
ghost use Rattle.aide_words.specs.LineJob.{with_compare, with_list, with_trusted};
ghost use Rattle.clap.specs.Words.{app_of, found_of, rows_of, rule_of};

use crate::job::{WordsFault, add_texts, matches, option, text};
use crate::words::{Word, Words};
use clap::{Arg, ArgAction, ArgMatches, Command};
use std::alloc::{AllocError, Global};

/// A comparison that the command line asks for.
#[derive(Drop)]
pub struct LineJob {
    /// The path of the configuration.
    pub config: Word,
    /// Lines of configuration to read before those of the file. Empty if none were given.
    pub before: Word,
    /// Lines of configuration to read after those of the file. Empty if none were given.
    pub after: Word,
    /// The path of the old database of the trusted pair. Empty if no pair was named.
    pub trusted_old: Word,
    /// The path of the new database of the trusted pair. Empty if no pair was named.
    pub trusted_new: Word,
    /// The text of a list of what is left out. Empty if none was given.
    pub without: Word,
}

/// Makes the option `--id`, which has no letter.
fn long_option<'a>(alloc: Global, id: &'a str) -> Arg<'a>
    ensures rule { rule_of result ≡ long_rule id.now }
    ensures local { result.global ≡ false }
{
    Arg::new(alloc, id).long(id).action(ArgAction::Set)
}

/// Adds the flag of a comparison, which has to be given.
fn add_compare<'a>(alloc: Global, command: Command<'a>) -> Result<Command<'a>, AllocError>
    ensures { IfOk result (λ c. app_of c ≡ with_compare (app_of command.entry)) }
{
    command.arg(option(alloc, "compare", 'E', ArgAction::SetTrue).required(true))
}

/// Adds the options that name the trusted pair.
fn add_trusted<'a>(alloc: Global, command: Command<'a>) -> Result<Command<'a>, AllocError>
    ensures { IfOk result (λ c. app_of c ≡ with_trusted (app_of command.entry)) }
{
    command
        .arg(long_option(alloc, "trusted-old"))?
        .arg(long_option(alloc, "trusted-new"))
}

/// Adds the option that gives a list of what is left out.
fn add_list<'a>(alloc: Global, command: Command<'a>) -> Result<Command<'a>, AllocError>
    ensures { IfOk result (λ c. app_of c ≡ with_list (app_of command.entry)) }
{
    command.arg(long_option(alloc, "without"))
}

/// Makes the command of a comparison.
fn command<'a>(alloc: Global) -> Result<Command<'a>, AllocError>
    ensures { IfOk result (λ c. app_of c ≡ line_command) }
{
    let command = add_compare(alloc, Command::new(alloc, "aide_lines"))?;
    let command = add_texts(alloc, command)?;
    let command = add_trusted(alloc, command)?;
    add_list(alloc, command)
}

/// Returns the job that the options ask for.
fn line_job_from(alloc: Global, found: &ArgMatches<'_>) -> Result<LineJob, WordsFault>
    ensures ok { IfOk result (λ job. paired (line_job_text (rows_of (found_of found.now)))
        ≡ Some (text_of_line_job job)) }
    ensures usage { IsErrOf result WordsFault.Usage
        → paired (line_job_text (rows_of (found_of found.now))) ≡ None }
{
    let trusted_old = text(found, "trusted-old");
    let trusted_new = text(found, "trusted-new");
    if trusted_old.is_empty() != trusted_new.is_empty() {
        return Err(WordsFault::Usage);
    }
    Ok(LineJob {
        config: Word::new(alloc, text(found, "config"))?,
        before: Word::new(alloc, text(found, "before"))?,
        after: Word::new(alloc, text(found, "after"))?,
        trusted_old: Word::new(alloc, trusted_old)?,
        trusted_new: Word::new(alloc, trusted_new)?,
        without: Word::new(alloc, text(found, "without"))?,
    })
}

/// Reads the arguments of a comparison. The first one is the program's name:
/// `aide_lines (-E | --compare) (-c | --config) FILE [-B | --before TEXT] [-A | --after TEXT]
/// [--trusted-old FILE --trusted-new FILE] [--without TEXT]`.
///
/// `-E` and FILE have to be given, and each option at most once. Of the trusted pair both databases
/// have to be named or neither; an empty text names none. Everything else is `Usage`, including a
/// request for help. Out of memory is `WordsFault::Memory`.
#[inline(never)]
pub fn read_line_words(alloc: Global, words: &Words) -> Result<LineJob, WordsFault>
    ensures ok { IfOk result (λ job. line_job_of words.now ≡ Some (text_of_line_job job)) }
    ensures usage { IsErrOf result WordsFault.Usage → line_job_of words.now ≡ None }
{
    let Ok(command) = command(alloc) else {
        return Err(WordsFault::Memory);
    };
    let found = matches(command, words.as_slice())?;
    line_job_from(alloc, &found)
}
