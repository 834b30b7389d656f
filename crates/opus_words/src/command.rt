//! The command that `clap` reads the words by.
ghost use Rattle.std.specs.Prelude.{◌≡◌, ◌≢◌, ◌⊎◌, IfErr, IfOk, map, string_bytes};
ghost use Rattle.clap.specs.Words.{app_of, found_of, kind_of, rows_of, with_rule};
ghost use Rattle.opus_words.specs.CommandLine.{command_app, job_rule, line_of, option_rule};
ghost use Rattle.opus_words.specs.CommandLine.{with_options};
ghost use Rattle.opus_words.specs.Words.{IsUsage, job_of_line, job_of_rows};

use crate::fault::{UsageKind, WordsFault};
use crate::option::Opt;
use clap::error::ErrorKind;
use clap::{Arg, ArgAction, ArgMatches, Command, Error};
use std::alloc::{AllocError, Global};

/// The id of the one positional argument.
pub(crate) const JOB: &str = "job";

/// The words as `clap` takes them: the program's name first.
pub(crate) fn line<'a>(alloc: Global, words: &'a [String]) -> Result<Vec<&'a str>, AllocError>
    ensures { IfOk result (λ line. map (λ s. s.now) line.items
        ≡ line_of (map string_bytes words.entry.now)) }
{
    let mut line = Vec::new(alloc);
    line.push("opuspack")?;
    for word in words {
        line.push(word.as_str())?;
    }
    Ok(line)
}

/// What `clap` finds in the line, or why it finds nothing.
pub(crate) fn parse<'a>(alloc: Global, line: &'a [&'a str]) -> Result<ArgMatches<'a>, WordsFault>
    ensures ok { IfOk result (λ m. job_of_line (map (λ s. s.now) line.entry.now)
        ≡ job_of_rows (rows_of (found_of m))) }
    ensures usage { IfErr result (λ fault.
        IsUsage fault (job_of_line (map (λ s. s.now) line.entry.now))) }
{
    let command = command(alloc)?;
    match command.try_get_matches_from(line) {
        Ok(matches) => Ok(matches),
        Err(error) => Err(refusal(&error)),
    }
}

fn refusal(error: &Error) -> WordsFault
    ensures { (result ≡ WordsFault.NoMemory) ⊎ ((result ≡ WordsFault.Usage UsageKind.Words)
        × (kind_of error.now ≢ ErrorKind.OutOfMemory)) }
{
    match error.kind() {
        ErrorKind::OutOfMemory => WordsFault::NoMemory,
        _ => WordsFault::Usage(UsageKind::Words),
    }
}

/// One required positional argument, and each option of the table with one value.
pub(crate) fn command<'a>(alloc: Global) -> Result<Command<'a>, AllocError>
    ensures { IfOk result (λ command. app_of command ≡ command_app) }
{
    let command = with_job(Command::new(alloc, "opuspack"), alloc)?;
    with_options(command, alloc, Opt::ALL.as_slice())
}

fn with_options<'a>(
    mut command: Command<'a>,
    alloc: Global,
    options: &[Opt],
) -> Result<Command<'a>, AllocError>
    ensures { IfOk result (λ more. app_of more ≡ with_options (app_of command.entry) options.now) }
{
    for opt in options {
        command = with_option(command, alloc, opt.name())?;
    }
    Ok(command)
}

fn with_job<'a>(command: Command<'a>, alloc: Global) -> Result<Command<'a>, AllocError>
    ensures { IfOk result (λ more. app_of more ≡ with_rule (app_of command.entry) job_rule) }
{
    command.arg(Arg::new(alloc, JOB).required(true).action(ArgAction::Set))
}

fn with_option<'a>(
    command: Command<'a>,
    alloc: Global,
    name: &'a str,
) -> Result<Command<'a>, AllocError>
    ensures { IfOk result (λ more. app_of more
        ≡ with_rule (app_of command.entry) (option_rule name.entry.now)) }
{
    command.arg(Arg::new(alloc, name).long(name).action(ArgAction::Set))
}
