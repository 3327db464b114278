//! Notes on words that fit no command.

use crate::commands::COMMANDS;
use crate::faults::Fault;
use crate::nearest::nearest_name;
use crate::reader::{Stop, read_words};
use crate::shown::push_shown;
use crate::usages::{USAGES, Usage, usage_of};
use cg_diagnostics::Aside;
use std::alloc::{AllocError, Global};

/// Notes the first fault of `words`, which fit no command, and the words that would fit.
pub fn note_words(
    alloc: Global,
    words: &[String],
    aside: &mut dyn Aside,
) -> Result<(), AllocError> {
    let Some((first, rest)) = words.split_first() else {
        note_commands(aside);
        return Ok(());
    };
    match first.as_str() {
        "--help" | "-h" | "--version" => {
            note_commands(aside);
            Ok(())
        }
        "help" => note_help(alloc, rest, aside),
        name => match usage_of(name) {
            Some(usage) => note_misuse(alloc, usage, rest, aside),
            None => note_unknown(alloc, name, aside),
        },
    }
}

/// Notes the help for which `words`, those after `help`, ask.
fn note_help(alloc: Global, words: &[String], aside: &mut dyn Aside) -> Result<(), AllocError> {
    let Some(name) = words.first() else {
        note_commands(aside);
        return Ok(());
    };
    match usage_of(name.as_str()) {
        Some(usage) => {
            note_command(usage, aside);
            Ok(())
        }
        None => note_unknown(alloc, name.as_str(), aside),
    }
}

/// Notes the first fault of `words`, those after the name of the command `usage`, and the lines of the command.
fn note_misuse(
    alloc: Global,
    usage: &'static Usage,
    words: &[String],
    aside: &mut dyn Aside,
) -> Result<(), AllocError> {
    match read_words(alloc, usage, words) {
        Ok(()) => {}
        Err(Stop::Wrong(fault)) => note_fault(alloc, usage.name, &fault, aside)?,
        Err(Stop::Memory) => return Err(AllocError),
    }
    note_command(usage, aside);
    Ok(())
}

/// Notes `fault`, which the words of the command `name` have.
fn note_fault(
    alloc: Global,
    name: &str,
    fault: &Fault<'_>,
    aside: &mut dyn Aside,
) -> Result<(), AllocError> {
    let text = format!(in alloc; "{name}: {fault}")?;
    note_text(alloc, text.as_str(), aside)
}

/// Notes that there is no command `name`, and the lines of all commands.
fn note_unknown(alloc: Global, name: &str, aside: &mut dyn Aside) -> Result<(), AllocError> {
    if name.is_empty() {
        aside.note("no command");
    } else {
        let text = no_command(alloc, name)?;
        note_text(alloc, text.as_str(), aside)?;
    }
    note_commands(aside);
    Ok(())
}

/// Returns the message that there is no command `name`, with the one that may be meant.
fn no_command(alloc: Global, name: &str) -> Result<String, AllocError> {
    match nearest_command(alloc, name)? {
        Some(nearest) => format!(in alloc; "no command {name}; did you mean {nearest}?"),
        None => format!(in alloc; "no command {name}"),
    }
}

/// Returns the name of the command that `name` may mean.
fn nearest_command(alloc: Global, name: &str) -> Result<Option<&'static str>, AllocError> {
    let names: Vec<&'static str> = USAGES.iter().map(|usage| usage.name).collect(alloc)?;
    nearest_name(alloc, name, names.as_slice())
}

/// Notes the lines of all commands.
fn note_commands(aside: &mut dyn Aside) {
    for line in COMMANDS.lines() {
        aside.note(line);
    }
}

/// Notes the lines of the command `usage`.
fn note_command(usage: &Usage, aside: &mut dyn Aside) {
    for line in COMMANDS.lines() {
        if line.split(' ').next() == Some(usage.name) {
            aside.note(line);
        }
    }
}

/// Notes `text` as one line: a control character in it, such as a line feed, is escaped as in a literal.
fn note_text(alloc: Global, text: &str, aside: &mut dyn Aside) -> Result<(), AllocError> {
    let line = escaped(alloc, text)?;
    aside.note(line.as_str());
    Ok(())
}

/// Returns `text` with its control characters escaped.
fn escaped(alloc: Global, text: &str) -> Result<String, AllocError> {
    let mut line = String::new(alloc);
    for character in text.chars() {
        push_shown(&mut line, character)?;
    }
    Ok(line)
}
