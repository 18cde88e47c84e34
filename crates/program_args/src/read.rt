//! What the words of a command line give its options.
ghost use Rattle.std.specs.Prelude.{◌≡◌, map, IfErr, IfOk, IfSome, IsTrue};
ghost use Rattle.std.specs.List.{All};
ghost use Rattle.clap.specs.Walk.{rows_of};
ghost use Rattle.clap.specs.Words.{FailsBy, found_of, matches_of, one_of};
ghost use Rattle.program_args.specs.Line.{app_of_line, has_own_names, has_sound_defaults};
ghost use Rattle.program_args.specs.Words.{AreWithin, IsCause, IsNumber, IsSetBy, IsTaken};
ghost use Rattle.program_args.specs.Words.{IsSetIn, IsValid, number_by, number_of_option};
ghost use Rattle.program_args.specs.Words.{each_texts, numbers_in, texts_by, texts_in, texts_of};
ghost use Rattle.program_args.specs.Words.{texts_of_option, word_faults};

use crate::fault::ArgFault;
use crate::line::{CommandLine, FlagOption, NumberOption, TextOption, command};
use clap::{ArgMatches, Error};
use std::alloc::{AllocError, Global};

/// What the words of a command line give its options.
#[derive(Debug, Drop)]
pub struct OptionValues {
    /// The number of each option that takes one, or its default, in the order of the options.
    pub numbers: Vec<u64>,
    /// The texts of each option that takes one, in the order of the options, and of each in the
    /// order of the words: none where it isn't there.
    pub texts: Vec<Vec<String>>,
    /// Whether the flag is there.
    pub is_set: bool,
}

impl CommandLine<'_> {
    /// Reads the words of a command line, of which the first is the program's name. Each option
    /// that isn't repeatable is there at most once.
    ///
    /// # Errors
    ///
    /// `Help` and `Version` where the words ask for them. `Mistake` where a word isn't known, an
    /// option is twice that isn't repeatable, or without what it takes, or a number is none or out
    /// of its range. `OutOfMemory` where memory was refused.
    pub fn read(&self, alloc: Global, words: &[String]) -> Result<OptionValues, ArgFault>
        requires names { IsTrue (has_own_names self.now) }
        requires defaults { IsTrue (has_sound_defaults self.now.numbers.now) }
        ensures taken { IfOk result (λ _. IsTaken (app_of_line self.now) words.now) }
        ensures numbers { IfOk result (λ found. found.numbers.items
            ≡ numbers_in (app_of_line self.now) self.now.numbers.now words.now) }
        ensures within { IfOk result (λ _.
            AreWithin (app_of_line self.now) self.now.numbers.now words.now) }
        ensures texts { IfOk result (λ found. each_texts found.texts.items
            ≡ texts_in (app_of_line self.now) self.now.texts.now words.now) }
        ensures flag { IfOk result (λ found. IfSome self.now.flag (λ flag.
            IsSetBy (app_of_line self.now) flag.name.now words.now found.is_set)) }
        ensures refused { IfErr result (IsCause (app_of_line self.now) words.now) }
    {
        let matches = find_options(alloc, self, words)?;
        let numbers = find_numbers(alloc, &matches, self.numbers)?;
        let texts = find_texts(alloc, &matches, self.texts)?;
        let is_set = find_flag(&matches, self.flag);
        Ok(OptionValues {
            numbers,
            texts,
            is_set,
        })
    }
}

/// What clap finds in the words.
fn find_options<'a>(
    alloc: Global,
    line: &CommandLine<'a>,
    words: &'a [String],
) -> Result<ArgMatches<'a>, Error>
    requires { IsTrue (has_own_names line.now) }
    ensures taken { FailsBy (word_faults (app_of_line line.now) words.entry.now) result }
    ensures rows { IfOk result (λ matches. rows_of (found_of matches)
        ≡ matches_of (app_of_line line.now) (texts_of words.entry.now)) }
    ensures valid { IfOk result (λ matches.
        All (IsValid (rows_of (found_of matches))) line.now.numbers.now) }
{
    command(alloc, line)?.try_get_matches_from(words)
}

/// The numbers of these options, or their defaults.
fn find_numbers(
    alloc: Global,
    matches: &ArgMatches<'_>,
    options: &[NumberOption<'_>],
) -> Result<Vec<u64>, AllocError>
    requires { All (IsValid (rows_of (found_of matches.now))) options.now }
    ensures { IfOk result (λ numbers.
        numbers.items ≡ map (number_by (rows_of (found_of matches.now))) options.now) }
{
    let mut numbers = Vec::new(alloc);
    for option in options {
        numbers.push(find_number(matches, option.name, option.default))?;
    }
    Ok(numbers)
}

/// The number of the option with this name, or its default.
fn find_number(matches: &ArgMatches<'_>, name: &str, default: u64) -> u64
    requires { IfSome (one_of name.now (rows_of (found_of matches.now))) IsNumber }
    ensures { result ≡ number_of_option name.now default (rows_of (found_of matches.now)) }
{
    matches.get_one::<u64>(name).unwrap_or(default)
}

/// The texts that these options were given.
fn find_texts(
    alloc: Global,
    matches: &ArgMatches<'_>,
    options: &[TextOption<'_>],
) -> Result<Vec<Vec<String>>, AllocError>
    ensures { IfOk result (λ texts. each_texts texts.items
        ≡ map (texts_by (rows_of (found_of matches.now))) options.now) }
{
    let mut texts = Vec::new(alloc);
    for option in options {
        texts.push(find_text(alloc, matches, option.name)?)?;
    }
    Ok(texts)
}

/// The texts that the option with this name was given.
fn find_text(alloc: Global, matches: &ArgMatches<'_>, name: &str) -> Result<Vec<String>, AllocError>
    ensures { IfOk result (λ texts. texts_of texts.items
        ≡ texts_of_option name.now (rows_of (found_of matches.now))) }
{
    match matches.get_raw(name) {
        Some(texts) => copy_texts(alloc, texts),
        None => Ok(Vec::new(alloc)),
    }
}

/// Copies of these texts.
fn copy_texts(alloc: Global, texts: &[&str]) -> Result<Vec<String>, AllocError>
    ensures { IfOk result (λ copies.
        texts_of copies.items ≡ map (λ text. text.now) texts.now) }
{
    let mut copies = Vec::new(alloc);
    for text in texts {
        copies.push(String::from_str(alloc, text)?)?;
    }
    Ok(copies)
}

/// Whether the flag is there.
fn find_flag(matches: &ArgMatches<'_>, flag: Option<FlagOption<'_>>) -> bool
    ensures { IfSome flag.entry (λ flag.
        IsSetIn (rows_of (found_of matches.now)) flag.name.now result) }
{
    match flag {
        Some(flag) => matches.get_flag(flag.name),
        None => false,
    }
}
