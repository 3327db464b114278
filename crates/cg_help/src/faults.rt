//! Faults of the words of a command.

use crate::numbers::Range;
use crate::usages::{SEEDS, TURNS, Usage};
use std::fmt;

/// A fault of the words after a command's name.
#[derive(Clone, Copy)]
pub(crate) enum Fault<'a> {
    /// The command `usage` has no option `word`, given with its hyphens; `nearest` is a similar option, if there is one.
    NoOption {
        usage: &'static Usage,
        word: &'a str,
        nearest: Option<&'static str>,
    },
    /// The option `name` is given twice.
    Twice {
        name: &'static str,
    },
    /// The option `name` has no value.
    NoValue {
        name: &'static str,
    },
    /// The option `name`, a flag, has a value.
    TakesNoValue {
        name: &'static str,
    },
    /// The value `value` of the option `name` begins with a hyphen.
    HyphenInValue {
        name: &'static str,
        value: &'a str,
    },
    /// The value `value` of the option `name` isn't a number of `range`.
    ValueOutOfRange {
        name: &'static str,
        range: Range,
        value: &'a str,
    },
    /// A plain word is empty.
    EmptyWord,
    /// The plain word `word`, which comes after `--`, begins with a hyphen.
    HyphenInFile {
        word: &'a str,
    },
    /// There are `count` plain words, which is the number of none of the command's forms, `forms`.
    NoForm {
        forms: &'static [&'static str],
        count: usize,
    },
    /// A word is missing, and `word`, which isn't a number, is at the place of `TURNS`.
    MissingTurns {
        word: &'a str,
    },
    /// The word `word` at `TURNS` isn't a number.
    NoTurns {
        word: &'a str,
    },
    /// The word `word` at `TURNS` is a number above the limit of turns.
    ManyTurns {
        word: &'a str,
    },
    /// The word `word` at `SEED` isn't a seed.
    NoSeed {
        word: &'a str,
    },
}

impl fmt::Display for Fault<'_> {
    fn fmt<W: fmt::Write>(&self, f: &mut fmt::Formatter<W>) -> fmt::Result {
        match *self {
            Fault::NoOption {
                usage,
                word,
                nearest,
            } => write_no_option(f, usage, word, nearest),
            Fault::Twice { name } => write_around(f, "--", name, " is given twice"),
            Fault::NoValue { name } => write_around(f, "--", name, " needs a value"),
            Fault::TakesNoValue { name } => write_around(f, "--", name, " takes no value"),
            Fault::HyphenInValue { name, value } => {
                write_around(f, "the value of --", name, " can't begin with -, got ")?;
                f.write_str(value)
            }
            Fault::ValueOutOfRange { name, range, value } => {
                f.write_str("--")?;
                write_outside(f, name, range, value)
            }
            Fault::EmptyWord => f.write_str("a word is empty"),
            Fault::HyphenInFile { word } => {
                f.write_str("a file's name can't begin with -, got ")?;
                f.write_str(word)
            }
            Fault::NoForm { forms, count } => write_no_form(f, forms, count),
            Fault::MissingTurns { word } => {
                write_around(f, "TURNS is missing, got ", word, " in its place")
            }
            Fault::NoTurns { word } => write_outside(f, "TURNS", TURNS, word),
            Fault::ManyTurns { word } => write_above(f, "TURNS", TURNS.most, word),
            Fault::NoSeed { word } => write_outside(f, "SEED", SEEDS, word),
        }
    }
}

/// Writes `word` to `f`, between `before` and `after`.
fn write_around<W: fmt::Write>(
    f: &mut fmt::Formatter<W>,
    before: &str,
    word: &str,
    after: &str,
) -> fmt::Result {
    f.write_str(before)?;
    f.write_str(word)?;
    f.write_str(after)
}

/// Writes to `f` that `name` is in `range`, but `word` is given.
fn write_outside<W: fmt::Write>(
    f: &mut fmt::Formatter<W>,
    name: &str,
    range: Range,
    word: &str,
) -> fmt::Result {
    write!(f, "{name} is {range}, got {word}")
}

/// Writes to `f` that `name` is at most `most`, but `word` is given.
fn write_above<W: fmt::Write>(
    f: &mut fmt::Formatter<W>,
    name: &str,
    most: u64,
    word: &str,
) -> fmt::Result {
    write!(f, "{name} is at most {most}, got {word}")
}

/// Writes to `f` that the command `usage` has no option `word`, and `nearest`, or all of its options.
fn write_no_option<W: fmt::Write>(
    f: &mut fmt::Formatter<W>,
    usage: &Usage,
    word: &str,
    nearest: Option<&str>,
) -> fmt::Result {
    write_around(f, "no option ", word, "; ")?;
    match nearest {
        Some(nearest) => write_around(f, "did you mean --", nearest, "?"),
        None => write_options(f, usage),
    }
}

/// Writes to `f` that `count` words are given, which is the number of none of `forms`.
fn write_no_form<W: fmt::Write>(
    f: &mut fmt::Formatter<W>,
    forms: &[&str],
    count: usize,
) -> fmt::Result {
    write_forms(f, forms)?;
    write_count(f, count)?;
    write_missing(f, forms, count)
}

/// Writes `forms` to `f`, with `or` between them.
fn write_forms<W: fmt::Write>(f: &mut fmt::Formatter<W>, forms: &[&str]) -> fmt::Result {
    for (index, form) in forms.iter().enumerate() {
        if index > 0 {
            f.write_str(" or ")?;
        }
        f.write_str(form)?;
    }
    Ok(())
}

/// Writes to `f` that `count` words are given.
fn write_count<W: fmt::Write>(f: &mut fmt::Formatter<W>, count: usize) -> fmt::Result {
    match count {
        1 => f.write_str(", got 1 word"),
        _ => write!(f, ", got {count} words"),
    }
}

/// Writes to `f` the last word of the form among `forms` with one word more than `count`, if there is one.
fn write_missing<W: fmt::Write>(
    f: &mut fmt::Formatter<W>,
    forms: &[&str],
    count: usize,
) -> fmt::Result {
    for form in forms {
        if form.split(' ').count() == count.saturating_add(1) {
            let last = form.split(' ').last().unwrap_or("");
            return write_around(f, ": ", last, " is missing");
        }
    }
    Ok(())
}

/// Writes to `f` the options that the command `usage` takes.
fn write_options<W: fmt::Write>(f: &mut fmt::Formatter<W>, usage: &Usage) -> fmt::Result {
    if usage.options.is_empty() {
        return write_around(f, "", usage.name, " takes none");
    }
    write_around(f, "", usage.name, " takes")?;
    for (index, choice) in usage.options.iter().enumerate() {
        let before = if index > 0 { ", --" } else { " --" };
        write_around(f, before, choice.name, "")?;
    }
    Ok(())
}
