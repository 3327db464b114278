//! The words after a command's name: plain words, options with their values, and flags.
ghost use Rattle.std.specs.Prelude.{◌≡◌, ◌++◌, ◌∷◌, false, [], codes, nat_le, IfOk, IfErr, OnOk, map, option_map, string_bytes};
ghost use Rattle.std.specs.List.{list_all};
ghost use Rattle.clap.specs.Words.{app_of, rule_of, fault_of, matches_of, rows_of, found_of, HasKind};
ghost use Rattle.cg_command.specs.Words as spec;
ghost use Rattle.cg_command.specs.Words.{given_values, given_by, flag_given, flags_by, heard_option};
ghost use Rattle.cg_command.specs.Matches as rows;
ghost use Rattle.cg_command.specs.Matches.{words_app, asked_app, words_rule, named_rule, flag_rule, row_texts, row_times, arguments_in_rows, has_file};

use crate::numbers::is_file;
use clap::error::ErrorKind;
use clap::{Arg, ArgAction, ArgMatches, Command, Error};
use std::alloc::{AllocError, Global};

/// An option with a value, as in `--name=value`.
#[derive(Debug, Drop)]
pub struct Given<'a> {
    /// Its name, without the two hyphens.
    pub name: &'a str,
    /// Its value, which isn't empty and doesn't begin with a hyphen.
    pub value: &'a str,
}

/// The plain words in order, the options with their values, and the flags, of which each command reads its own.
#[derive(Debug, Drop)]
pub struct Arguments<'a> {
    pub words: Vec<&'a str>,
    pub options: Vec<Given<'a>>,
    /// The names of the flags that were given, without the two hyphens.
    pub flags: Vec<&'a str>,
}

/// Returns the plain words, the options and the flags of `words`, those after a command's name; None where they fit no command.
pub fn arguments_of<'a>(
    alloc: Global,
    words: &'a [String],
) -> Result<Option<Arguments<'a>>, AllocError>
    ensures { IfOk result
        (λ said. option_map spec.heard said ≡ spec.arguments_of (map string_bytes words.entry.now)) }
{
    match matches_of(alloc, words) {
        Ok(matches) => arguments_in(alloc, &matches),
        Err(error) => match error.kind() {
            ErrorKind::OutOfMemory => Err(AllocError),
            _ => Ok(None),
        },
    }
}

fn matches_of<'a>(alloc: Global, words: &'a [String]) -> Result<ArgMatches<'a>, Error>
    ensures ok { IfOk result
        (λ m. (fault_of words_app (map string_bytes words.entry.now) ≡ [])
        × (rows_of (found_of m) ≡ matches_of words_app (map string_bytes words.entry.now))) }
    ensures err { IfErr result
        (HasKind (fault_of words_app (map string_bytes words.entry.now))) }
{
    words_command(alloc)?.try_get_matches_from(words)
}

fn words_command<'a>(alloc: Global) -> Result<Command<'a>, AllocError>
    ensures { IfOk result (λ c. app_of c ≡ words_app) }
{
    command_with_options(alloc)?
        .arg(flag_named(alloc, "copies"))?
        .arg(flag_named(alloc, "share"))
}

/// Returns the command with its plain words and its options.
fn command_with_options<'a>(alloc: Global) -> Result<Command<'a>, AllocError>
    ensures { IfOk result (λ c. app_of c ≡ asked_app spec.options []) }
{
    numbered_command(alloc)?
        .arg(option_named(alloc, "moves"))?
        .arg(option_named(alloc, "mapping"))?
        .arg(option_named(alloc, "netlist"))
}

/// Returns the command with its plain words and its first two options, `--ii` and `--seed`.
fn numbered_command<'a>(alloc: Global) -> Result<Command<'a>, AllocError>
    ensures { IfOk result (λ c. app_of c ≡ asked_app (codes "ii" ∷ codes "seed" ∷ []) []) }
{
    Command::new(alloc, "cgra")
        .no_binary_name(true)
        .disable_help_flag(true)
        .arg(plain_words(alloc))?
        .arg(option_named(alloc, "ii"))?
        .arg(option_named(alloc, "seed"))
}

fn plain_words<'a>(alloc: Global) -> Arg<'a>
    ensures rule { rule_of result ≡ words_rule }
    ensures local { result.global ≡ false }
{
    Arg::new(alloc, "words").action(ArgAction::Append)
}

fn option_named<'a>(alloc: Global, name: &'a str) -> Arg<'a>
    ensures rule { rule_of result ≡ named_rule name.entry.now }
    ensures local { result.global ≡ false }
{
    Arg::new(alloc, name).long(name).action(ArgAction::Append)
}

/// Returns the flag `name`, an option with no value, of which each use is noted.
fn flag_named<'a>(alloc: Global, name: &'a str) -> Arg<'a>
    ensures rule { rule_of result ≡ flag_rule name.entry.now }
    ensures local { result.global ≡ false }
{
    Arg::new(alloc, name)
        .long(name)
        .action(ArgAction::Append)
        .num_args(0)
        .default_missing_value("true")
}

#[tactic(auto, unfolding(crate::specs::Matches::arguments_in_rows))]
fn arguments_in<'a>(
    alloc: Global,
    matches: &ArgMatches<'a>,
) -> Result<Option<Arguments<'a>>, AllocError>
    ensures { IfOk result
        (λ said. option_map spec.heard said ≡ arguments_in_rows (rows_of (found_of matches.now))) }
{
    if !are_given_once(matches) {
        return Ok(None);
    }
    let words = texts_of(alloc, matches, "words")?;
    let options = options_in(alloc, matches)?;
    let flags = flags_in(alloc, matches)?;
    Ok(judged(words, options, flags))
}

/// Checks whether each flag is given at most once in `matches`.
fn are_given_once(matches: &ArgMatches) -> bool
    ensures { result ≡ spec.are_given_once (λ name. row_times name (rows_of (found_of matches.now))) }
{
    times_in(matches, "copies") <= 1 && times_in(matches, "share") <= 1
}

/// Returns how many times the flag `name` is given in `matches`.
fn times_in(matches: &ArgMatches, name: &str) -> usize
    ensures { result ≡ row_times name.now (rows_of (found_of matches.now)) }
{
    match matches.get_strs(name) {
        Some(uses) => uses.len(),
        None => 0,
    }
}

/// Returns the options in `matches`, with their values.
fn options_in<'a>(alloc: Global, matches: &ArgMatches<'a>) -> Result<Vec<Given<'a>>, AllocError>
    ensures { IfOk result (λ options. map heard_option options.items
        ≡ given_by (λ name. row_texts name (rows_of (found_of matches.now))) spec.options) }
{
    let mut options = Vec::new(alloc);
    add_option(&mut options, matches, "ii")?;
    add_option(&mut options, matches, "seed")?;
    add_option(&mut options, matches, "moves")?;
    add_option(&mut options, matches, "mapping")?;
    add_option(&mut options, matches, "netlist")?;
    Ok(options)
}

/// Returns the names of the flags that are given in `matches`.
fn flags_in<'a>(alloc: Global, matches: &ArgMatches<'a>) -> Result<Vec<&'a str>, AllocError>
    ensures { IfOk result (λ names. map (λ name. name.now) names.items
        ≡ flags_by (λ name. row_times name (rows_of (found_of matches.now))) spec.flags) }
{
    let mut flags = Vec::new(alloc);
    add_flag(&mut flags, matches, "copies")?;
    add_flag(&mut flags, matches, "share")?;
    Ok(flags)
}

/// Adds the flag `name` to `flags` where it is given in `matches`.
fn add_flag<'a>(
    flags: &mut Vec<&'a str>,
    matches: &ArgMatches<'a>,
    name: &'a str,
) -> Result<(), AllocError>
    ensures { OnOk result (map (λ word. word.now) flags.new.items
        ≡ map (λ word. word.now) flags.old.items ++ flag_given name.entry.now (row_times name.entry.now (rows_of (found_of matches.now)))) }
{
    if times_in(matches, name) > 0 {
        flags.push(name)?;
    }
    Ok(())
}

/// Returns the arguments of `words`, `options` and `flags`; None where a word or a value can't name a file.
fn judged<'a>(
    words: Vec<&'a str>,
    options: Vec<Given<'a>>,
    flags: Vec<&'a str>,
) -> Option<Arguments<'a>>
    ensures { option_map spec.heard result
        ≡ rows.judged (map (λ word. word.now) words.entry.items) (map heard_option options.entry.items) (map (λ word. word.now) flags.entry.items) }
{
    if are_files(words.as_slice()) && have_files(options.as_slice()) {
        Some(Arguments {
            words,
            options,
            flags,
        })
    } else {
        None
    }
}

/// Adds the values of the option `name` in `matches` to `options`.
fn add_option<'a>(
    options: &mut Vec<Given<'a>>,
    matches: &ArgMatches<'a>,
    name: &'a str,
) -> Result<(), AllocError>
    ensures { OnOk result (map heard_option options.new.items
        ≡ map heard_option options.old.items ++ given_values name.entry.now (row_texts name.entry.now (rows_of (found_of matches.now)))) }
{
    match matches.get_strs(name) {
        Some(values) => add_values(options, name, values),
        None => Ok(()),
    }
}

fn add_values<'a>(
    options: &mut Vec<Given<'a>>,
    name: &'a str,
    values: &[&'a str],
) -> Result<(), AllocError>
    ensures { OnOk result (map heard_option options.new.items
        ≡ map heard_option options.old.items ++ given_values name.entry.now (map (λ value. value.now) values.now)) }
{
    for value in values {
        options.push(Given { name, value })?;
    }
    Ok(())
}

fn are_files(words: &[&str]) -> bool
    ensures { result ≡ list_all spec.is_file (map (λ word. word.now) words.now) }
{
    for word in words {
        if !is_file(word) {
            return false;
        }
    }
    true
}

fn have_files(options: &[Given]) -> bool
    ensures { result ≡ list_all has_file (map heard_option options.now) }
{
    for option in options {
        if !is_file(option.value) {
            return false;
        }
    }
    true
}

fn texts_of<'a>(
    alloc: Global,
    matches: &ArgMatches<'a>,
    id: &str,
) -> Result<Vec<&'a str>, AllocError>
    ensures { IfOk result (λ v. map (λ word. word.now) v.items
        ≡ row_texts id.now (rows_of (found_of matches.now))) }
{
    match matches.get_strs(id) {
        Some(texts) => Vec::from_slice(alloc, texts),
        None => Ok(Vec::new(alloc)),
    }
}
