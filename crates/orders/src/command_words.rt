//! The words of commands, as `clap` reads them.

ghost use Rattle.std.specs.Prelude.{◌≡◌, ◌↔◌, true, false, option_map, IfOk, IsTrue};
ghost use Rattle.clap.specs.Words.{app_of, is_simple_and_free, kind_of, rule_of};
ghost use Rattle.orders.specs.Orders.{bare_command, file_command, track_command, report_command, run_command, refute_command, position, option, optional, texts_of};
ghost use Rattle.orders.specs.OrdersRead.{IsParseOf, given_read, value_read};
ghost use Rattle.orders.specs.Checks.{check_command, flag};

use clap::error::ErrorKind;
use clap::{Arg, ArgAction, ArgMatches, Command, Error};
use std::alloc::{AllocError, Global};

/// What the command of this name with FILE reads in the words, where it takes them.
pub fn parse_file<'a>(
    alloc: Global,
    name: &'a str,
    words: &'a [String],
) -> Result<Option<ArgMatches<'a>>, AllocError>
    ensures { IfOk result (IsParseOf (file_command name.entry.now) (texts_of words.entry.now)) }
{
    let command = file_command(alloc, name)?;
    parse(command, words)
}

/// What the command of this name with `--track` and this position reads in the words, where it takes them.
pub fn parse_track<'a>(
    alloc: Global,
    name: &'a str,
    over: &'a str,
    words: &'a [String],
) -> Result<Option<ArgMatches<'a>>, AllocError>
    ensures { IfOk result (IsParseOf (track_command name.entry.now over.entry.now) (texts_of words.entry.now)) }
{
    let command = track_command(alloc, name, over)?;
    parse(command, words)
}

/// What the command of this name with FILE and REPORT reads in the words, where it takes them.
pub fn parse_report<'a>(
    alloc: Global,
    name: &'a str,
    words: &'a [String],
) -> Result<Option<ArgMatches<'a>>, AllocError>
    ensures { IfOk result (IsParseOf (report_command name.entry.now) (texts_of words.entry.now)) }
{
    let command = report_command(alloc, name)?;
    parse(command, words)
}

/// What the command of this name with FILE and REPORT, `--steps` and perhaps `--regs` reads in the words, where it takes
/// them.
pub fn parse_run<'a>(
    alloc: Global,
    name: &'a str,
    words: &'a [String],
) -> Result<Option<ArgMatches<'a>>, AllocError>
    ensures { IfOk result (IsParseOf (run_command name.entry.now) (texts_of words.entry.now)) }
{
    let command = run_command(alloc, name)?;
    parse(command, words)
}

/// What the command of this name with FILE, `--track`, `--at` and `--row` reads in the words, where it takes them.
pub fn parse_refute<'a>(
    alloc: Global,
    name: &'a str,
    words: &'a [String],
) -> Result<Option<ArgMatches<'a>>, AllocError>
    ensures { IfOk result (IsParseOf (refute_command name.entry.now) (texts_of words.entry.now)) }
{
    let command = refute_command(alloc, name)?;
    parse(command, words)
}

/// What the command of a check reads in the words, where it takes them.
pub fn parse_check<'a>(
    alloc: Global,
    name: &'a str,
    words: &'a [String],
) -> Result<Option<ArgMatches<'a>>, AllocError>
    ensures { IfOk result (IsParseOf (check_command name.entry.now) (texts_of words.entry.now)) }
{
    let command = check_command(alloc, name)?;
    parse(command, words)
}

fn file_command<'a>(alloc: Global, name: &'a str) -> Result<Command<'a>, AllocError>
    ensures app { IfOk result (λ command. app_of command ≡ file_command name.entry.now) }
    ensures simple { IfOk result (λ command. is_simple_and_free (app_of command) ≡ true) }
{
    bare_command(alloc, name).arg(position(alloc, "file"))
}

fn track_command<'a>(alloc: Global, name: &'a str, over: &'a str) -> Result<Command<'a>, AllocError>
    ensures app { IfOk result (λ command. app_of command ≡ track_command name.entry.now over.entry.now) }
    ensures simple { IfOk result (λ command. is_simple_and_free (app_of command) ≡ true) }
{
    let command = bare_command(alloc, name).arg(position(alloc, over))?;
    command.arg(option(alloc, "track"))
}

fn report_command<'a>(alloc: Global, name: &'a str) -> Result<Command<'a>, AllocError>
    ensures app { IfOk result (λ command. app_of command ≡ report_command name.entry.now) }
    ensures simple { IfOk result (λ command. is_simple_and_free (app_of command) ≡ true) }
{
    let command = bare_command(alloc, name).arg(position(alloc, "file"))?;
    command.arg(position(alloc, "report"))
}

fn run_command<'a>(alloc: Global, name: &'a str) -> Result<Command<'a>, AllocError>
    ensures app { IfOk result (λ command. app_of command ≡ run_command name.entry.now) }
    ensures simple { IfOk result (λ command. is_simple_and_free (app_of command) ≡ true) }
{
    let command = report_command(alloc, name)?.arg(option(alloc, "steps"))?;
    command.arg(optional(alloc, "regs"))
}

fn refute_command<'a>(alloc: Global, name: &'a str) -> Result<Command<'a>, AllocError>
    ensures app { IfOk result (λ command. app_of command ≡ refute_command name.entry.now) }
    ensures simple { IfOk result (λ command. is_simple_and_free (app_of command) ≡ true) }
{
    let command = track_command(alloc, name, "file")?.arg(option(alloc, "at"))?;
    command.arg(option(alloc, "row"))
}

fn check_command<'a>(alloc: Global, name: &'a str) -> Result<Command<'a>, AllocError>
    ensures app { IfOk result (λ command. app_of command ≡ check_command name.entry.now) }
    ensures simple { IfOk result (λ command. is_simple_and_free (app_of command) ≡ true) }
{
    let command = file_command(alloc, name)?.arg(optional(alloc, "entry"))?;
    let command = command.arg(flag(alloc, "lines"))?;
    command.arg(flag(alloc, "why"))
}

fn bare_command<'a>(alloc: Global, name: &'a str) -> Command<'a>
    ensures { app_of result ≡ bare_command name.entry.now }
{
    Command::new(alloc, name)
        .no_binary_name(true)
        .disable_help_flag(true)
        .disable_version_flag(true)
}

fn position<'a>(alloc: Global, name: &'a str) -> Arg<'a>
    ensures rule { rule_of result ≡ position name.entry.now }
    ensures local { result.global ≡ false }
{
    Arg::new(alloc, name).required(true).action(ArgAction::Set)
}

fn option<'a>(alloc: Global, name: &'a str) -> Arg<'a>
    ensures rule { rule_of result ≡ option name.entry.now }
    ensures local { result.global ≡ false }
{
    Arg::new(alloc, name)
        .required(true)
        .action(ArgAction::Set)
        .long(name)
}

fn optional<'a>(alloc: Global, name: &'a str) -> Arg<'a>
    ensures rule { rule_of result ≡ optional name.entry.now }
    ensures local { result.global ≡ false }
{
    Arg::new(alloc, name).action(ArgAction::Set).long(name)
}

fn flag<'a>(alloc: Global, name: &'a str) -> Arg<'a>
    ensures rule { rule_of result ≡ flag name.entry.now }
    ensures local { result.global ≡ false }
{
    Arg::new(alloc, name).action(ArgAction::SetTrue).long(name)
}

// What the command reads in the words, where it takes them.
fn parse<'a>(
    command: Command<'a>,
    words: &'a [String],
) -> Result<Option<ArgMatches<'a>>, AllocError>
    requires { is_simple_and_free (app_of command) ≡ true }
    ensures { IfOk result (IsParseOf (app_of command.entry) (texts_of words.entry.now)) }
{
    match command.try_get_matches_from(words) {
        Ok(matches) => Ok(Some(matches)),
        Err(error) if is_memory(&error) => Err(AllocError),
        Err(_) => Ok(None),
    }
}

fn is_memory(error: &Error) -> bool
    ensures { IsTrue result ↔ (kind_of error.now ≡ ErrorKind.OutOfMemory) }
{
    matches!(error.kind(), ErrorKind::OutOfMemory)
}

/// The value of an argument, if it has one.
pub fn given_value<'a>(matches: &ArgMatches<'a>, name: &str) -> Option<&'a str>
    ensures { option_map (λ v. v.now) result ≡ given_read matches.now name.now }
{
    matches.get_str(name)
}

/// The value of an argument. A required one has some.
pub fn value_of<'a>(matches: &ArgMatches<'a>, name: &str) -> &'a str
    ensures { result.now ≡ value_read matches.now name.now }
{
    match given_value(matches, name) {
        Some(value) => value,
        None => "",
    }
}
