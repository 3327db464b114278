//! Names in sentences.

use crate::words::{form_meant, key_meant, operation_meant};
use cg_help::{nearest_name, push_shown};
use cg_word::Op;
use std::alloc::{AllocError, Global};

/// The maximum number of characters of a name that are shown.
const MOST_SHOWN: usize = 40;

/// The maximum number of names that are listed if none is near.
const MOST_LISTED: usize = 8;

/// Returns `name` as a note shows it: its first characters, with control characters escaped as in a literal.
pub fn shown(alloc: Global, name: &str) -> Result<String, AllocError> {
    let mut text = String::new(alloc);
    for character in name.chars().take(MOST_SHOWN) {
        push_shown(&mut text, character)?;
    }
    if name.chars().count() > MOST_SHOWN {
        text.push_str("..")?;
    }
    Ok(text)
}

/// Returns the message that there is no key `key`, with the one of `keys` that may be meant: by the words of other
/// formats, else the nearest one, else all `keys`.
pub fn unknown_key(alloc: Global, key: &str, keys: &[&'static str]) -> Result<String, AllocError> {
    let near = key_near(alloc, key, keys)?;
    let key = shown(alloc, key)?;
    match near {
        Some(near) => key_with_near(alloc, key.as_str(), near),
        None => key_with_all(alloc, key.as_str(), keys),
    }
}

/// Returns the one of `keys` that may be meant by `key`.
fn key_near(
    alloc: Global,
    key: &str,
    keys: &[&'static str],
) -> Result<Option<&'static str>, AllocError> {
    match key_meant(alloc, key, keys)? {
        Some(meant) => Ok(Some(meant)),
        None => nearest_name(alloc, key, keys),
    }
}

/// Returns the message that there is no key `key`, and that the key `near` may be meant.
fn key_with_near(alloc: Global, key: &str, near: &str) -> Result<String, AllocError> {
    match near {
        "args" => format!(in alloc; "unknown key \"{key}\", did you mean \"args\", a list?"),
        _ => format!(in alloc; "unknown key \"{key}\", did you mean \"{near}\"?"),
    }
}

/// Returns the message that there is no key `key`, with all `keys`.
fn key_with_all(alloc: Global, key: &str, keys: &[&str]) -> Result<String, AllocError> {
    let all = list_of(alloc, keys)?;
    let all = all.as_str();
    format!(in alloc; "unknown key \"{key}\", the keys here are {all}")
}

/// Returns `names`, separated by commas.
fn list_of(alloc: Global, names: &[&str]) -> Result<String, AllocError> {
    let mut list = String::new(alloc);
    for (index, name) in names.iter().enumerate() {
        if index > 0 {
            list.push_str(", ")?;
        }
        list.push_str(name)?;
    }
    Ok(list)
}

/// Returns the message that there is no operation `name`, with the one that may be meant, or with how to write what it
/// means: by the words of other languages and tools, else the nearest name, else all names.
pub fn unknown_operation(alloc: Global, name: &str) -> Result<String, AllocError> {
    if let Some(form) = form_meant(alloc, name)? {
        return operation_with_form(alloc, name, form);
    }
    let names = operation_names(alloc)?;
    operation_not_among(alloc, name, names.as_slice())
}

/// Returns the message that there is no operation `name`, and `form`, which replaces it.
fn operation_with_form(alloc: Global, name: &str, form: &str) -> Result<String, AllocError> {
    let name = shown(alloc, name)?;
    let name = name.as_str();
    format!(in alloc; "no operation is called \"{name}\": {form}")
}

/// Returns the names of all operations.
fn operation_names(alloc: Global) -> Result<Vec<&'static str>, AllocError> {
    let mut names = Vec::new(alloc);
    for op in &Op::ALL {
        names.push(op.name())?;
    }
    Ok(names)
}

/// Returns the message that there is no operation `name` among `names`, with the one that may be meant, or with all.
fn operation_not_among(
    alloc: Global,
    name: &str,
    names: &[&'static str],
) -> Result<String, AllocError> {
    let near = operation_near(alloc, name, names)?;
    let name = shown(alloc, name)?;
    let name = name.as_str();
    match near {
        Some(near) => format!(in alloc;
            "no operation is called \"{name}\", did you mean \"{near}\"?"
        ),
        None => operation_with_all(alloc, name, names),
    }
}

/// Returns the message that there is no operation `name`, with all `names`.
fn operation_with_all(alloc: Global, name: &str, names: &[&str]) -> Result<String, AllocError> {
    let all = list_of(alloc, names)?;
    let all = all.as_str();
    format!(in alloc; "no operation is called \"{name}\", the operations are {all}")
}

/// Returns the one of `names`, those of all operations, that may be meant by `name`.
fn operation_near(
    alloc: Global,
    name: &str,
    names: &[&'static str],
) -> Result<Option<&'static str>, AllocError> {
    if let Some(meant) = operation_meant(alloc, name)? {
        return Ok(Some(meant));
    }
    match nearest_name(alloc, name, names)? {
        Some(near) => Ok(Some(near)),
        None => Ok(first_of(name, names)),
    }
}

/// Returns the first of `names`, of three letters or more, that `word` begins with, as `multiply` begins with `mul`.
fn first_of(word: &str, names: &[&'static str]) -> Option<&'static str> {
    for name in names {
        if name.len() >= 3 && word.starts_with(*name) {
            return Some(*name);
        }
    }
    None
}

/// Returns the message that no `noun` is called `name`, with the nearest of `names`, or the first ones if none is near.
pub fn no_name(
    alloc: Global,
    noun: &str,
    name: &str,
    names: &[&str],
) -> Result<String, AllocError> {
    let near = nearest_name(alloc, name, names)?;
    let name = shown(alloc, name)?;
    let name = name.as_str();
    match near {
        Some(near) => format!(in alloc; "no {noun} is called \"{name}\", did you mean \"{near}\"?"),
        None if names.is_empty() => format!(in alloc; "no {noun} is called \"{name}\""),
        None => name_with_first(alloc, noun, name, names),
    }
}

/// Returns the message that no `noun` is called `name`, with the first of `names`.
fn name_with_first(
    alloc: Global,
    noun: &str,
    name: &str,
    names: &[&str],
) -> Result<String, AllocError> {
    let first = first_shown(alloc, names)?;
    let first = first.as_str();
    format!(in alloc; "no {noun} is called \"{name}\", the {noun}s are {first}")
}

/// Returns the first of `names`, as notes show them, separated by commas, with two points at the end if there are more.
fn first_shown(alloc: Global, names: &[&str]) -> Result<String, AllocError> {
    let mut list = String::new(alloc);
    for (index, name) in names.iter().take(MOST_LISTED).enumerate() {
        if index > 0 {
            list.push_str(", ")?;
        }
        push_name(alloc, &mut list, name)?;
    }
    if names.len() > MOST_LISTED {
        list.push_str(" ..")?;
    }
    Ok(list)
}

/// Adds `name`, as notes show it, to `list`.
fn push_name(alloc: Global, list: &mut String, name: &str) -> Result<(), AllocError> {
    let name = shown(alloc, name)?;
    list.push_str(name.as_str())
}
