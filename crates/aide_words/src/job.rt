//! What a command line asks for.
ghost use Rattle.std.specs.Prelude.{◌≡◌, ◌≢◌, [], true, false, Some, None, IfOk, IsErrOf};
ghost use Rattle.aide_words.specs.Job.{aide_command, flag_of, option_rule, job_of, job_of_rows};
ghost use Rattle.aide_words.specs.Job.{code_of_refusal, text_of, text_of_job, with_flags};
ghost use Rattle.aide_words.specs.Job.{with_texts};
ghost use Rattle.clap.specs.Faults.{is_simple_and_free};
ghost use Rattle.clap.specs.Simple.{is_simple};
ghost use Rattle.clap.specs.Words.{app_of, fault_of, found_of, matches_of, rows_of, rule_of};

use crate::words::{Memory, Word, Words};
use clap::error::ErrorKind;
use clap::{Arg, ArgAction, ArgMatches, Command};
use std::alloc::{AllocError, Global};

/// What the command line asks the program to do.
#[derive(Drop)]
pub struct Job {
    /// Whether to compare the databases. Otherwise the configuration is only checked.
    pub compare: bool,
    /// The path of the configuration.
    pub config: Word,
    /// Lines of configuration to read before those of the file. Empty if none were given.
    pub before: Word,
    /// Lines of configuration to read after those of the file. Empty if none were given.
    pub after: Word,
}

/// Why a command line is refused.
#[derive(Clone, Copy, Debug, PartialEq, Eq)]
pub enum WordsFault {
    /// The arguments are not those of the command.
    Usage,
    /// Out of memory.
    Memory,
}

impl WordsFault {
    /// Returns the code of the reason, from 1.
    pub fn code(self) -> u8
        ensures { result ≡ code_of_refusal self }
    {
        match self {
            WordsFault::Usage => 1,
            WordsFault::Memory => 2,
        }
    }
}

impl From<Memory> for WordsFault {
    ghost use Rattle.std.specs.Prelude.{◌≡◌};
    ghost use Rattle.aide_words.specs.declared.job.WordsFault.TheVariants as fault;

    ghost from_gives = { λ _ e. e ≡ fault.Memory };

    fn from(_fault: Memory) -> WordsFault {
        WordsFault::Memory
    }
}

/// Makes the option `--id`, with a letter.
pub(crate) fn option<'a>(alloc: Global, id: &'a str, letter: char, action: ArgAction) -> Arg<'a>
    ensures rule { rule_of result ≡ option_rule id.now letter action }
    ensures local { result.global ≡ false }
{
    Arg::new(alloc, id).short(letter).long(id).action(action)
}

/// Adds the two flags, of which one says what to do.
fn add_flags<'a>(alloc: Global, command: Command<'a>) -> Result<Command<'a>, AllocError>
    ensures { IfOk result (λ c. app_of c ≡ with_flags (app_of command.entry)) }
{
    command
        .arg(option(alloc, "compare", 'E', ArgAction::SetTrue))?
        .arg(option(alloc, "config-check", 'D', ArgAction::SetTrue))
}

/// Adds the options that take a text.
pub(crate) fn add_texts<'a>(alloc: Global, command: Command<'a>) -> Result<Command<'a>, AllocError>
    ensures { IfOk result (λ c. app_of c ≡ with_texts (app_of command.entry)) }
{
    command
        .arg(option(alloc, "config", 'c', ArgAction::Set).required(true))?
        .arg(option(alloc, "before", 'B', ArgAction::Set))?
        .arg(option(alloc, "after", 'A', ArgAction::Set))
}

/// Makes the command `aide` with its options.
fn command<'a>(alloc: Global) -> Result<Command<'a>, AllocError>
    ensures { IfOk result (λ c. app_of c ≡ aide_command) }
{
    let command = add_flags(alloc, Command::new(alloc, "aide"))?;
    add_texts(alloc, command)
}

/// Matches the arguments against a command.
pub(crate) fn matches<'a>(
    command: Command<'a>,
    words: &'a [Word],
) -> Result<ArgMatches<'a>, WordsFault>
    requires simple { is_simple (app_of command) ≡ true }
    requires free { is_simple_and_free (app_of command) ≡ true }
    ensures ok { IfOk result (λ m. (fault_of (app_of command.entry) words.now ≡ [])
        × (rows_of (found_of m) ≡ matches_of (app_of command.entry) words.now)) }
    ensures usage { IsErrOf result WordsFault.Usage
        → fault_of (app_of command.entry) words.now ≢ [] }
{
    match command.try_get_matches_from(words) {
        Ok(matches) => Ok(matches),
        Err(error) => match error.kind() {
            ErrorKind::OutOfMemory => Err(WordsFault::Memory),
            _ => Err(WordsFault::Usage),
        },
    }
}

/// Returns whether a flag was given.
fn is_set(matches: &ArgMatches<'_>, id: &str) -> bool
    ensures { result ≡ flag_of id.now (rows_of (found_of matches.now)) }
{
    match matches.get_str(id) {
        Some(text) => text == "true",
        None => false,
    }
}

/// Returns the text of an option, or the empty text if the option was not given.
pub(crate) fn text<'a>(matches: &ArgMatches<'a>, id: &str) -> &'a str
    ensures { result.now ≡ text_of id.now (rows_of (found_of matches.now)) }
{
    matches.get_str(id).unwrap_or("")
}

/// Returns the job that the options ask for.
fn job_from(alloc: Global, found: &ArgMatches<'_>) -> Result<Job, WordsFault>
    ensures ok { IfOk result (λ job. job_of_rows (rows_of (found_of found.now))
        ≡ Some (text_of_job job)) }
    ensures usage { IsErrOf result WordsFault.Usage
        → job_of_rows (rows_of (found_of found.now)) ≡ None }
{
    let compare = is_set(found, "compare");
    let check = is_set(found, "config-check");
    if compare == check {
        return Err(WordsFault::Usage);
    }
    let Some(config) = found.get_str("config") else {
        return Err(WordsFault::Usage);
    };
    Ok(Job {
        compare,
        config: Word::new(alloc, config)?,
        before: Word::new(alloc, text(found, "before"))?,
        after: Word::new(alloc, text(found, "after"))?,
    })
}

/// Reads the arguments of a command line. The first one is the program's name:
/// `aide (-E | --compare | -D | --config-check) (-c | --config) FILE [-B | --before TEXT] [-A | --after TEXT]`.
///
/// FILE and exactly one of `-E` and `-D` have to be given, and each option at most once. Everything else
/// is `Usage`, including a request for help. Out of memory is `WordsFault::Memory`.
#[inline(never)]
pub fn read_words(alloc: Global, words: &Words) -> Result<Job, WordsFault>
    ensures ok { IfOk result (λ job. job_of words.now ≡ Some (text_of_job job)) }
    ensures usage { IsErrOf result WordsFault.Usage → job_of words.now ≡ None }
{
    let Ok(command) = command(alloc) else {
        return Err(WordsFault::Memory);
    };
    let found = matches(command, words.as_slice())?;
    job_from(alloc, &found)
}
