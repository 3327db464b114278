//! Faults of JSON files as wholes: their top-level keys, and items of their lists.

use crate::names::unknown_key;
use crate::shape::Kind;
use cg_json::json_value;
use cg_spans::{Finding, MOST_PARSED, Step, json_key_at, json_value_at};
use std::alloc::{AllocError, Global};

/// The maximum number of keys of a file that are looked at.
const MOST_KEYS: usize = 16;

/// The maximum number of bytes of a name that are shown.
const MOST_SHOWN: usize = 40;

/// The number of bytes of a text in which an item is sought first.
const FIRST_SOUGHT: usize = 1_000_000;

/// The properties of the files of a format.
struct Format {
    /// The name for its files.
    noun: &'static str,
    /// The values that `format` may have.
    names: &'static [&'static str],
    /// The required keys.
    needed: &'static [&'static str],
    /// All keys that a file may have.
    keys: &'static [&'static str],
    /// The keys, each with the kind of its value and the sentence that states this kind.
    heads: &'static [(&'static str, Kind, &'static str)],
}

/// Kernels and mappings.
static FORMATS: [Format; 2] = [
    Format {
        noun: "kernel",
        names: &["cgk1", "cgk2"],
        needed: &["format", "nodes"],
        keys: &["format", "nodes", "order"],
        heads: &[
            ("format", Kind::Text, "\"format\" must be \"cgk2\""),
            (
                "nodes",
                Kind::List,
                "\"nodes\" must be a list of nodes, in brackets",
            ),
            (
                "order",
                Kind::List,
                "\"order\" must be a list of order edges, in brackets",
            ),
        ],
    },
    Format {
        noun: "mapping",
        names: &["cgm1"],
        needed: &["format", "ii", "places", "routes"],
        keys: &["format", "ii", "places", "routes"],
        heads: &[
            ("format", Kind::Text, "\"format\" must be \"cgm1\""),
            (
                "ii",
                Kind::Interval,
                "\"ii\" must be a whole number up to 65535",
            ),
            (
                "places",
                Kind::List,
                "\"places\" must be a list of places, in brackets",
            ),
            (
                "routes",
                Kind::List,
                "\"routes\" must be a list of routes, in brackets",
            ),
        ],
    },
];

/// Returns what is wrong with `bytes` as a whole, a JSON text that should be a `noun`: a kernel or a mapping. `sentence`
/// is the general sentence on the fault.
pub fn find_in_file(
    alloc: Global,
    bytes: &[u8],
    noun: &str,
    sentence: &str,
) -> Result<Finding, AllocError> {
    let found = match FORMATS.iter().find(|format| format.noun == noun) {
        Some(format) => wrong_key(alloc, bytes, format)?,
        None => None,
    };
    match found {
        Some(finding) => Ok(finding),
        None => Ok(Finding::at_start(String::from_str(alloc, sentence)?)),
    }
}

/// Returns the finding with `sentence` on item `number` of `list` in the JSON text `bytes`.
pub fn find_item(
    alloc: Global,
    bytes: &[u8],
    list: &str,
    number: usize,
    sentence: &str,
) -> Result<Option<Finding>, AllocError> {
    match item_at(bytes, list, number) {
        Some(at) => finding_at(alloc, bytes, at, sentence),
        None => Ok(None),
    }
}

/// Returns the byte at which item `number` of `list` begins in the JSON text `bytes`. In a long text, only the first
/// part is searched if the item is found there, so that a second `list` far after it isn't seen.
fn item_at(bytes: &[u8], list: &str, number: usize) -> Option<usize> {
    let path = [Step::Key(list), Step::Item(number)];
    let first = bytes.get(..FIRST_SOUGHT).unwrap_or(bytes);
    match json_value_at(first, &path) {
        Some(at) => Some(at),
        None => json_value_at(bytes, &path),
    }
}

/// Returns the finding with `sentence` at byte `at` of `bytes`.
fn finding_at(
    alloc: Global,
    bytes: &[u8],
    at: usize,
    sentence: &str,
) -> Result<Option<Finding>, AllocError> {
    let text = String::from_str(alloc, sentence)?;
    Ok(Some(Finding::at(bytes, at, text)))
}

/// Returns the first thing that is wrong with the keys of `bytes`, a JSON text that should be of `format`.
fn wrong_key(alloc: Global, bytes: &[u8], format: &Format) -> Result<Option<Finding>, AllocError> {
    if let Some(finding) = other_format(alloc, bytes, format)? {
        return Ok(Some(finding));
    }
    if let Some(finding) = wrong_kind(alloc, bytes, format)? {
        return Ok(Some(finding));
    }
    other_key(alloc, bytes, format)
}

/// Returns the finding that `bytes` declare another format than `format`.
fn other_format(
    alloc: Global,
    bytes: &[u8],
    format: &Format,
) -> Result<Option<Finding>, AllocError> {
    let Some(at) = json_value_at(bytes, &[Step::Key("format")]) else {
        return Ok(None);
    };
    match text_at(bytes, at) {
        Some(name) if !format.names.contains(&name) => {
            let text = format_text(alloc, name, format)?;
            Ok(Some(Finding::at(bytes, at, text)))
        }
        _ => Ok(None),
    }
}

/// Returns the message that `name` isn't the name of `format`.
fn format_text(alloc: Global, name: &str, format: &Format) -> Result<String, AllocError> {
    let noun = format.noun;
    match FORMATS.iter().find(|other| other.names.contains(&name)) {
        Some(other) => {
            let is = other.noun;
            format!(in alloc; "this is a {is}, but a {noun} is expected")
        }
        None => {
            let last = format.names.last().copied().unwrap_or("");
            format!(in alloc; "\"{name}\" is not the format of a {noun}, which is \"{last}\"")
        }
    }
}

/// Returns the finding on the first key whose value is of the wrong kind in `bytes`, a JSON text that should be of
/// `format`.
fn wrong_kind(alloc: Global, bytes: &[u8], format: &Format) -> Result<Option<Finding>, AllocError> {
    if bytes.len() > MOST_PARSED {
        return Ok(None);
    }
    let Ok(value) = json_value(alloc, bytes) else {
        return Ok(None);
    };
    if !value.is_object() {
        let noun = format.noun;
        let text = format!(in alloc; "a {noun} must be an object, in braces")?;
        return Ok(Some(Finding::at_start(text)));
    }
    for (key, kind, sentence) in format.heads {
        if value.get(*key).is_some_and(|value| !kind.has(value)) {
            let at = json_value_at(bytes, &[Step::Key(key)]).unwrap_or(0);
            return finding_at(alloc, bytes, at, sentence);
        }
    }
    Ok(None)
}

/// Returns the finding on the first key of `bytes`, a JSON text, that isn't one of `format`, or else on the first one
/// that is missing.
fn other_key(alloc: Global, bytes: &[u8], format: &Format) -> Result<Option<Finding>, AllocError> {
    for number in 0..MOST_KEYS {
        let Some(at) = json_key_at(bytes, &[], number) else {
            return missing_key(alloc, bytes, format);
        };
        match text_at(bytes, at) {
            Some(key) if !format.keys.contains(&key) => {
                let text = unknown_key(alloc, key, format.keys)?;
                return Ok(Some(Finding::at(bytes, at, text)));
            }
            _ => {}
        }
    }
    Ok(None)
}

/// Returns the finding on the first key that `bytes`, a JSON text, lack to be of `format`.
fn missing_key(
    alloc: Global,
    bytes: &[u8],
    format: &Format,
) -> Result<Option<Finding>, AllocError> {
    for key in format.needed {
        if json_value_at(bytes, &[Step::Key(key)]).is_none() {
            let name = format.names.last().copied().unwrap_or("");
            let example = match *key {
                "format" => format!(in alloc; "\"format\":\"{name}\"")?,
                "ii" => String::from_str(alloc, "\"ii\":2")?,
                key => format!(in alloc; "\"{key}\":[]")?,
            };
            return Ok(Some(missing(alloc, key, example.as_str())?));
        }
    }
    Ok(None)
}

/// Returns the finding that the key `key` of a file, which `example` sets, is missing.
pub fn missing(alloc: Global, key: &str, example: &str) -> Result<Finding, AllocError> {
    let text = format!(in alloc; "the key \"{key}\" is missing, for example {example}")?;
    Ok(Finding::at_start(text))
}

/// Returns the text between the quotes that begin at byte `at`, if it is short and has no escapes.
fn text_at(bytes: &[u8], at: usize) -> Option<&str> {
    let inside = bytes.get(at..)?.strip_prefix(b"\"")?;
    let length = inside
        .iter()
        .take(MOST_SHOWN)
        .position(|byte| matches!(*byte, b'"' | b'\\' | b'\n'))?;
    if inside.get(length) != Some(&b'"') {
        return None;
    }
    std::str::from_utf8(inside.get(..length)?).ok()
}
