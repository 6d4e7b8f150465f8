// Words to the matches of `clap`.
ghost use Rattle.std.specs.Prelude.{◌≡◌, ◌⊎◌, IfOk, IfErr, OnOk, map, string_bytes, false, []};
ghost use Rattle.clap.specs.Words.{app_of, rule_of, fault_of, matches_of, rows_of};
ghost use Rattle.clap.specs.Values.{kind_of};
ghost use Rattle.clap.specs.Matches.{found_of};
ghost use Rattle.dyl_words.specs.Clap.{app, words_arg, option_arg, plain_app, with_options, no_kinds};

use crate::names::{CommandName, OptionName};
use clap::error::ErrorKind;
use clap::{Arg, ArgAction, ArgMatches, Command, Error};
use std::alloc::Global;

// All plain words.
fn words_argument<'a>(alloc: Global) -> Arg<'a>
    ensures rule { rule_of result ≡ words_arg }
    ensures local { result.global ≡ false }
{
    Arg::new(alloc, "words").action(ArgAction::Append)
}

// An option, of which each use is kept.
fn option_argument<'a>(alloc: Global, option: OptionName) -> Arg<'a>
    ensures rule { rule_of result ≡ option_arg option }
    ensures local { result.global ≡ false }
{
    let argument = Arg::new(alloc, option.word())
        .long(option.word())
        .action(ArgAction::Append);
    match option {
        OptionName::NoDuplicates | OptionName::One => {
            argument.num_args(0_usize).default_missing_value("yes")
        }
        _ => argument,
    }
}

// A command of this name that takes plain words alone.
fn plain_command<'a>(alloc: Global, name: &'a str) -> Result<Command<'a>, Error>
    ensures app { IfOk result (λ c. app_of c ≡ plain_app name.entry.now) }
    ensures memory { IfErr result (λ e. kind_of e ≡ ErrorKind.OutOfMemory) }
{
    let command = Command::new(alloc, name).disable_help_flag(true);
    Ok(command.arg(words_argument(alloc))?)
}

// A command with these options too.
fn with_options<'a>(
    alloc: Global,
    command: Command<'a>,
    options: &[OptionName],
) -> Result<Command<'a>, Error>
    ensures app { IfOk result (λ c. app_of c ≡ with_options options.now (app_of command.entry)) }
    ensures memory { IfErr result (λ e. kind_of e ≡ ErrorKind.OutOfMemory) }
{
    let mut command = command;
    for option in options {
        command = command.arg(option_argument(alloc, *option))?;
    }
    Ok(command)
}

// The matches of words, of which the first is the command.
pub(crate) fn matches_in<'a>(
    alloc: Global,
    command: CommandName,
    words: &'a [String],
) -> Result<ArgMatches<'a>, Error>
    ensures passes { OnOk result (fault_of (app command) (map string_bytes words.entry.now) ≡ []) }
    ensures rows { IfOk result (λ m. rows_of (found_of m) ≡ matches_of (app command) (map string_bytes words.entry.now)) }
    ensures fails { IfErr result (λ e. (kind_of e ≡ ErrorKind.OutOfMemory) ⊎ (no_kinds (fault_of (app command) (map string_bytes words.entry.now)) ≡ false)) }
{
    let plain = plain_command(alloc, command.word())?;
    let whole = with_options(alloc, plain, command.options())?;
    whole.try_get_matches_from(words)
}
