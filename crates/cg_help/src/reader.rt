//! Reads the words of a command up to the first that is wrong.

use crate::faults::Fault;
use crate::nearest::nearest_name;
use crate::numbers::is_number;
use crate::usages::{Choice, SEEDS, TURNS, Takes, Usage};
use std::alloc::{AllocError, AllocFailed, Global};

/// Why the reading of words ended early.
#[derive(Clone, Copy)]
pub(crate) enum Stop<'a> {
    /// The words are wrong.
    Wrong(Fault<'a>),
    /// Memory ran out.
    Memory,
}

impl From<AllocError> for Stop<'_> {
    fn from(_error: AllocError) -> Self {
        Stop::Memory
    }
}

impl<T: Drop> From<AllocFailed<T>> for Stop<'_> {
    fn from(_error: AllocFailed<T>) -> Self {
        Stop::Memory
    }
}

/// What the next word may be.
#[derive(Clone, Copy)]
enum Next {
    /// An option or a plain word.
    Any,
    /// The value of this option.
    Value(&'static Choice),
    /// Only a plain word, since `--` came before it.
    Plain,
}

/// A reader of the words after a command's name.
#[derive(Drop)]
struct Reader<'a> {
    usage: &'static Usage,
    next: Next,
    /// The names of the given options.
    given: Vec<&'static str>,
    /// The plain words, in order.
    plain: Vec<&'a str>,
}

/// Reads `words`, those after the name of the command `usage`, up to the first fault.
pub(crate) fn read_words<'a>(
    alloc: Global,
    usage: &'static Usage,
    words: &'a [String],
) -> Result<(), Stop<'a>> {
    let mut reader = Reader {
        usage,
        next: Next::Any,
        given: Vec::new(alloc),
        plain: Vec::new(alloc),
    };
    for word in words {
        reader.read(alloc, word.as_str())?;
    }
    reader.finish()
}

impl<'a> Reader<'a> {
    /// Reads `word`.
    fn read(&mut self, alloc: Global, word: &'a str) -> Result<(), Stop<'a>> {
        match self.next {
            Next::Any => match word.strip_prefix("--") {
                Some("") => {
                    self.next = Next::Plain;
                    Ok(())
                }
                Some(option) => self.read_option(alloc, word, option),
                None => self.read_plain(alloc, word),
            },
            Next::Value(choice) => {
                self.next = Next::Any;
                read_value(choice, word)
            }
            Next::Plain => self.read_plain(alloc, word),
        }
    }

    /// Reads `word`, two hyphens followed by `option`.
    fn read_option(
        &mut self,
        alloc: Global,
        word: &'a str,
        option: &'a str,
    ) -> Result<(), Stop<'a>> {
        let (name, value) = match option.split_once('=') {
            Some((name, value)) => (name, Some(value)),
            None => (option, None),
        };
        let Some(choice) = self.usage.choice(name) else {
            return Err(no_option(alloc, self.usage, word, name));
        };
        if self.given.contains(&choice.name) {
            return Err(Stop::Wrong(Fault::Twice { name: choice.name }));
        }
        self.given.push(choice.name)?;
        match (choice.takes, value) {
            (_, Some(value)) => read_value(choice, value),
            (Takes::Nothing, None) => Ok(()),
            (_, None) => {
                self.next = Next::Value(choice);
                Ok(())
            }
        }
    }

    /// Reads `word`, a plain word.
    fn read_plain(&mut self, alloc: Global, word: &'a str) -> Result<(), Stop<'a>> {
        if word.is_empty() {
            return Err(Stop::Wrong(Fault::EmptyWord));
        }
        if let Some(name) = word.strip_prefix('-') {
            if let Some(fault) = self.negative(word, name) {
                return Err(Stop::Wrong(fault));
            }
            return Err(match self.next {
                Next::Plain => Stop::Wrong(Fault::HyphenInFile { word }),
                _ => no_option(alloc, self.usage, word, name),
            });
        }
        self.plain.push(word)?;
        Ok(())
    }

    /// Returns the fault of `word`, a hyphen followed by `rest`, if it is a negative number where a number is expected.
    fn negative(&self, word: &'a str, rest: &str) -> Option<Fault<'a>> {
        if !is_number(rest) {
            return None;
        }
        let index = self.plain.len();
        for form in self.usage.forms {
            match form.split(' ').nth(index) {
                Some("TURNS") => return Some(Fault::NoTurns { word }),
                Some("SEED") => return Some(Fault::NoSeed { word }),
                _ => {}
            }
        }
        None
    }

    /// Ends the words.
    fn finish(self) -> Result<(), Stop<'a>> {
        if let Next::Value(choice) = self.next {
            return Err(Stop::Wrong(Fault::NoValue { name: choice.name }));
        }
        match fault_in(self.usage, self.plain.as_slice()) {
            Some(fault) => Err(Stop::Wrong(fault)),
            None => Ok(()),
        }
    }
}

/// Returns that the command `usage` takes no option `word`, which is hyphens and `name`, or behind that a value.
fn no_option<'a>(alloc: Global, usage: &'static Usage, word: &'a str, name: &str) -> Stop<'a> {
    match nearest_option(alloc, usage, before_value(name)) {
        Ok(nearest) => Stop::Wrong(Fault::NoOption {
            usage,
            word: before_value(word),
            nearest,
        }),
        Err(error) => error.into(),
    }
}

/// Returns `word` without what follows its first `=`.
fn before_value(word: &str) -> &str {
    match word.split_once('=') {
        Some((option, _)) => option,
        None => word,
    }
}

/// Returns the option of the command `usage` that may be meant by `name`.
fn nearest_option(
    alloc: Global,
    usage: &Usage,
    name: &str,
) -> Result<Option<&'static str>, AllocError> {
    let names: Vec<&'static str> = usage
        .options
        .iter()
        .map(|choice| choice.name)
        .collect(alloc)?;
    nearest_name(alloc, name, names.as_slice())
}

/// Reads `value`, the value of the option `choice`.
fn read_value<'a>(choice: &'static Choice, value: &'a str) -> Result<(), Stop<'a>> {
    let name = choice.name;
    if let Takes::Nothing = choice.takes {
        return Err(Stop::Wrong(Fault::TakesNoValue { name }));
    }
    if value.is_empty() {
        return Err(Stop::Wrong(Fault::NoValue { name }));
    }
    if value.starts_with('-') {
        return Err(Stop::Wrong(Fault::HyphenInValue { name, value }));
    }
    match choice.takes {
        Takes::Number(range) if !range.has(value) => Err(Stop::Wrong(Fault::ValueOutOfRange {
            name,
            range,
            value,
        })),
        _ => Ok(()),
    }
}

/// Returns what is wrong with `words`, the plain words of the command `usage`, if something is.
fn fault_in<'a>(usage: &Usage, words: &[&'a str]) -> Option<Fault<'a>> {
    let forms = usage.forms;
    let count = words.len();
    match forms.iter().find(|form| form.split(' ').count() == count) {
        Some(form) => form
            .split(' ')
            .zip(words)
            .find_map(|(place, word)| fault_at(place, word)),
        None => match shifted(forms, words) {
            Some(word) => Some(Fault::MissingTurns { word }),
            None => Some(Fault::NoForm { forms, count }),
        },
    }
}

/// Returns the one of `words` that is at the place of `TURNS` but isn't a number, where one of `forms` has one word more.
fn shifted<'a>(forms: &[&str], words: &[&'a str]) -> Option<&'a str> {
    for form in forms {
        if form.split(' ').count() == words.len().saturating_add(1) {
            let index = form.split(' ').position(|place| place == "TURNS")?;
            let word = *words.get(index)?;
            return if is_number(word) { None } else { Some(word) };
        }
    }
    None
}

/// Returns what is wrong with `word` at the place `place` of a form, if something is.
fn fault_at<'a>(place: &str, word: &'a str) -> Option<Fault<'a>> {
    match place {
        "TURNS" if !is_number(word) => Some(Fault::NoTurns { word }),
        "TURNS" if !TURNS.has(word) => Some(Fault::ManyTurns { word }),
        "SEED" if !SEEDS.has(word) => Some(Fault::NoSeed { word }),
        _ => None,
    }
}
