//! The one simple command of the program, and what it makes of the words.
ghost use Rattle.std.specs.Prelude.{◌≡◌, IfOk};
ghost use Rattle.clap.specs.Words.{app_of, kind_of, with_rule};
ghost use Rattle.dem_words.specs.CommandLine.{command as command_of, flag_rule, option_rule, texts};
ghost use Rattle.dem_words.specs.Meaning.{Matches, fault_by};

use crate::order::WordFault;
use clap::error::ErrorKind;
use clap::{Arg, ArgAction, ArgMatches, Command, Error};
use std::alloc::{AllocError, Global};

/// What the command matches in the words. A request for help is refused as any other word that the command doesn't take.
pub(crate) fn parse<'a>(alloc: Global, words: &'a [String]) -> Result<ArgMatches<'a>, WordFault>
    ensures { Matches (texts words.entry.now) result }
{
    match command(alloc)?.try_get_matches_from(words) {
        Ok(matches) => Ok(matches),
        Err(error) => Err(fault_from(&error)),
    }
}

// The command: a mode, five options with one value each, and two flags.
fn command<'a>(alloc: Global) -> Result<Command<'a>, AllocError>
    ensures { IfOk result (λ c. app_of c ≡ command_of) }
{
    let mode = Arg::new(alloc, "mode").required(true);
    let dem = Command::new(alloc, "dem").arg(mode)?;
    let dem = with_option(alloc, dem, "drift")?;
    let dem = with_option(alloc, dem, "bin")?;
    let dem = with_option(alloc, dem, "turns")?;
    let dem = with_option(alloc, dem, "seed")?;
    let dem = with_option(alloc, dem, "count")?;
    let dem = with_flag(alloc, dem, "report")?;
    with_flag(alloc, dem, "split")
}

// The command with one more option of this name, with one value.
fn with_option<'a>(
    alloc: Global,
    command: Command<'a>,
    name: &'a str,
) -> Result<Command<'a>, AllocError>
    ensures { IfOk result (λ c. app_of c ≡ with_rule (app_of command.entry) (option_rule name.entry.now)) }
{
    command.arg(Arg::new(alloc, name).long(name))
}

// The command with one more flag of this name.
fn with_flag<'a>(
    alloc: Global,
    command: Command<'a>,
    name: &'a str,
) -> Result<Command<'a>, AllocError>
    ensures { IfOk result (λ c. app_of c ≡ with_rule (app_of command.entry) (flag_rule name.entry.now)) }
{
    let flag = Arg::new(alloc, name).long(name).action(ArgAction::SetTrue);
    command.arg(flag)
}

// Why the command refuses the words.
fn fault_from(error: &Error) -> WordFault
    ensures { result ≡ fault_by (kind_of error.now) }
{
    match error.kind() {
        ErrorKind::OutOfMemory => WordFault::OutOfMemory,
        _ => WordFault::Usage,
    }
}
