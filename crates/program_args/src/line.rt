//! The command line of a program, as clap takes it.
ghost use Rattle.std.specs.Prelude.{◌≡◌, false, IfErr, IfOk};
ghost use Rattle.clap.specs.Words.{app_of, kind_of, rule_of};
ghost use Rattle.program_args.specs.Line.{app_of_line, app_of_numbers, app_of_options, flag_rule};
ghost use Rattle.program_args.specs.Line.{rule_of_number, rule_of_text};
ghost use Rattle.program_args.specs.Faults.{IsMistake};

use crate::fault::ArgFault;
use clap::builder::ValueParser;
use clap::error::ErrorKind;
use clap::{Arg, ArgAction, Command, Error};
use otlp_ids::VERSION;
use std::alloc::Global;

/// An option with a number after it: `--NAME NUMBER`, or `--NAME=NUMBER`.
#[derive(Debug, Clone, Copy, PartialEq, Eq)]
pub struct NumberOption<'a> {
    /// Its name, without the two dashes.
    pub name: &'a str,
    /// What help writes for the number.
    pub value: &'a str,
    /// The least number that it takes.
    pub least: u64,
    /// The greatest number that it takes.
    pub most: u64,
    /// The number where the option is left out, from `least` to `most`.
    pub default: u64,
    /// What help says of it.
    pub help: &'a str,
}

/// An option with a text after it: `--NAME TEXT`, or `--NAME=TEXT`.
#[derive(Debug, Clone, Copy, PartialEq, Eq)]
pub struct TextOption<'a> {
    /// Its name, without the two dashes.
    pub name: &'a str,
    /// What help writes for the text.
    pub value: &'a str,
    /// Whether it may be there more than once.
    pub is_repeatable: bool,
    /// What help says of it.
    pub help: &'a str,
}

/// An option that is there or not: `--NAME`.
#[derive(Debug, Clone, Copy, PartialEq, Eq)]
pub struct FlagOption<'a> {
    /// Its name, without the two dashes.
    pub name: &'a str,
    /// What help says of it.
    pub help: &'a str,
}

/// The command line of a program, which also takes `--help` and `--version`. No two options have
/// one name, and none is named `help`, `version` or with no letter.
#[derive(Debug, Clone, Copy, PartialEq, Eq)]
pub struct CommandLine<'a> {
    /// What the program is called.
    pub program: &'a str,
    /// What it does, as help begins.
    pub about: &'a str,
    /// The options that take a number, in the order of help.
    pub numbers: &'a [NumberOption<'a>],
    /// The options that take a text, after these.
    pub texts: &'a [TextOption<'a>],
    /// The option that takes nothing, after these.
    pub flag: Option<FlagOption<'a>>,
}

impl CommandLine<'_> {
    /// A mistake with this cause, which no option has alone, and the way the program is used; or
    /// refused memory.
    pub fn mistake(&self, alloc: Global, cause: &str) -> ArgFault
        ensures { IsMistake result }
    {
        let Ok(mut command) = command(alloc, self) else {
            return ArgFault::OutOfMemory;
        };
        match command.error(ErrorKind::ValueValidation, cause) {
            Ok(error) => ArgFault::Mistake(error),
            Err(_) => ArgFault::OutOfMemory,
        }
    }
}

/// A command line, as clap takes it.
pub(crate) fn command<'a>(alloc: Global, line: &CommandLine<'a>) -> Result<Command<'a>, Error>
    ensures app { IfOk result (λ command. app_of command ≡ app_of_line line.now) }
    ensures memory { IfErr result (λ error. kind_of error ≡ ErrorKind.OutOfMemory) }
{
    let command = options_command(alloc, line)?;
    let Some(flag) = line.flag else {
        return Ok(command);
    };
    Ok(command.arg(flag_arg(alloc, &flag))?)
}

/// The same of the options that take a number or a text.
fn options_command<'a>(alloc: Global, line: &CommandLine<'a>) -> Result<Command<'a>, Error>
    ensures app { IfOk result (λ command. app_of command
        ≡ app_of_options line.now.program.now line.now.numbers.now line.now.texts.now) }
    ensures memory { IfErr result (λ error. kind_of error ≡ ErrorKind.OutOfMemory) }
{
    let mut command = numbers_command(alloc, line)?;
    for option in line.texts {
        command = command.arg(text_arg(alloc, option))?;
    }
    Ok(command)
}

/// The same of the options that take a number.
fn numbers_command<'a>(alloc: Global, line: &CommandLine<'a>) -> Result<Command<'a>, Error>
    ensures app { IfOk result (λ command.
        app_of command ≡ app_of_numbers line.now.program.now line.now.numbers.now) }
    ensures memory { IfErr result (λ error. kind_of error ≡ ErrorKind.OutOfMemory) }
{
    let named = Command::new(alloc, line.program)
        .about(line.about)
        .version(VERSION);
    let mut command = named.bin_name(line.program)?;
    for option in line.numbers {
        command = command.arg(number_arg(alloc, option))?;
    }
    Ok(command)
}

/// An option that takes a number, as clap takes it.
fn number_arg<'a>(alloc: Global, option: &NumberOption<'a>) -> Arg<'a>
    ensures rule { rule_of result ≡ rule_of_number option.now }
    ensures local { result.global ≡ false }
{
    Arg::new(alloc, option.name)
        .long(option.name)
        .value_name(option.value)
        .action(ArgAction::Set)
        .value_parser(ValueParser::unsigned(option.least, option.most))
        .help(option.help)
}

/// An option that takes a text, as clap takes it.
fn text_arg<'a>(alloc: Global, option: &TextOption<'a>) -> Arg<'a>
    ensures rule { rule_of result ≡ rule_of_text option.now }
    ensures local { result.global ≡ false }
{
    let action = if option.is_repeatable {
        ArgAction::Append
    } else {
        ArgAction::Set
    };
    Arg::new(alloc, option.name)
        .long(option.name)
        .value_name(option.value)
        .action(action)
        .help(option.help)
}

/// An option that takes nothing, as clap takes it.
fn flag_arg<'a>(alloc: Global, flag: &FlagOption<'a>) -> Arg<'a>
    ensures rule { rule_of result ≡ flag_rule flag.now.name.now }
    ensures local { result.global ≡ false }
{
    Arg::new(alloc, flag.name)
        .long(flag.name)
        .action(ArgAction::SetTrue)
        .help(flag.help)
}
