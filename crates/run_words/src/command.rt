//! Simple commands of `clap`: values by their places and options of one value, with no help, no
//! version and no subcommands.

ghost use Rattle.std.specs.Prelude.{◌≡◌, ◌≤◌, IfOk, IfSome, false, map, option_map, string_bytes};
ghost use Rattle.std.specs.Prelude.{true};
ghost use Rattle.clap.specs.Words.{app_of, first_of, found_of, is_simple_and_free};
ghost use Rattle.clap.specs.Words.{fault_of, kind_of, matches_of, FailsBy, rows_of, rule_of};
ghost use Rattle.run_words.specs.Commands.{◌taking◌, number_of, option_named, plain_app};
ghost use Rattle.run_words.specs.Commands.{positional, rows_in};

use clap::error::ErrorKind;
use clap::{Arg, ArgAction, ArgMatches, Command};
use std::alloc::Global;
use unit_rules::{Memory, number_in};

// The command of this name without values and options.
pub(crate) fn plain_command<'a>(alloc: Global, name: &'a str) -> Command<'a>
    ensures { app_of result ≡ plain_app name.entry.now }
{
    Command::new(alloc, name)
        .disable_help_flag(true)
        .disable_version_flag(true)
}

// The command with one more value, at the next place.
pub(crate) fn with_value<'a>(
    alloc: Global,
    command: Command<'a>,
    id: &'a str,
) -> Result<Command<'a>, Memory>
    ensures { IfOk result (λ c. app_of c ≡ (app_of command.entry taking positional id.entry.now)) }
{
    with_argument(command, value_by_place(alloc, id))
}

// The command with one more option `--ID VALUE`.
pub(crate) fn with_option<'a>(
    alloc: Global,
    command: Command<'a>,
    id: &'a str,
    required: bool,
) -> Result<Command<'a>, Memory>
    ensures { IfOk result (λ c. app_of c
        ≡ (app_of command.entry taking option_named required id.entry.now)) }
{
    with_argument(command, option_at(alloc, id, required))
}

// The command with one more argument.
fn with_argument<'a>(command: Command<'a>, argument: Arg<'a>) -> Result<Command<'a>, Memory>
    requires { argument.global ≡ false }
    ensures { IfOk result (λ c. app_of c ≡ (app_of command.entry taking rule_of argument.entry)) }
{
    command.arg(argument).map_err(|_| Memory)
}

// A value that has to be there, by its place.
fn value_by_place<'a>(alloc: Global, id: &'a str) -> Arg<'a>
    ensures rule { rule_of result ≡ positional id.entry.now }
    ensures own { result.global ≡ false }
{
    Arg::new(alloc, id).required(true).action(ArgAction::Set)
}

// An option `--ID VALUE`.
fn option_at<'a>(alloc: Global, id: &'a str, required: bool) -> Arg<'a>
    ensures rule { rule_of result ≡ option_named required id.entry.now }
    ensures own { result.global ≡ false }
{
    Arg::new(alloc, id)
        .long(id)
        .required(required)
        .action(ArgAction::Set)
}

// What the command reads of the words, the first of which stands for its name, or None where it
// doesn't take them.
pub(crate) fn matches_by<'a>(
    command: Command<'a>,
    words: &'a [String],
) -> Result<Option<ArgMatches<'a>>, Memory>
    requires { is_simple_and_free (app_of command) ≡ true }
    ensures { IfOk result (λ o. option_map (λ m. rows_of (found_of m)) o
        ≡ rows_in (app_of command.entry) (map string_bytes words.entry.now)) }
{
    match command.try_get_matches_from(words) {
        Ok(matches) => Ok(Some(matches)),
        Err(error) => {
            if error.kind() == ErrorKind::OutOfMemory {
                Err(Memory)
            } else {
                Ok(None)
            }
        }
    }
}

// The value of an argument.
pub(crate) fn value_of<'a>(matches: &ArgMatches<'a>, id: &str) -> Option<&'a str>
    ensures { option_map (λ s. s.now) result ≡ first_of id.now (rows_of (found_of matches.now)) }
{
    matches.get_str(id)
}

// The number from `low` to `high` that an argument's value is the numeral of.
pub(crate) fn number_of(matches: &ArgMatches, id: &str, low: u32, high: u32) -> Option<u32>
    ensures value { result ≡ number_of low high id.now (rows_of (found_of matches.now)) }
    ensures bounds { IfSome result (λ n. (low ≤ n) × (n ≤ high)) }
{
    number_in(low, high, value_of(matches, id)?.as_bytes())
}
