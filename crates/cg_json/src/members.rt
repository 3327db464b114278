//! Access to the parts of a JSON value, for readers of formats.
ghost use Rattle.std.specs.Prelude.{◌≡◌, map, option_map};
ghost use Rattle.std.specs.Option.{option_copied};
ghost use Rattle.serde_json.specs.View.{view};
ghost use Rattle.cg_json.specs.Members as spec;

use cg_reading::{ItemReader, Misfit, WRONG_SHAPE, has_other};
use serde_json::Value;
use std::alloc::Global;

/// Returns the text at `key`.
pub fn text_at<'a>(value: &'a Value, key: &str) -> Option<&'a str>
    ensures { option_copied result ≡ spec.text_at key.now (view value.now) }
{
    match value.get(key) {
        Some(found) => found.as_str(),
        None => None,
    }
}

/// Returns the items of the array at `key`.
pub fn items_at<'a>(value: &'a Value, key: &str) -> Option<&'a [Value]>
    ensures { option_map (λ items. map view items.now) result ≡ spec.items_at key.now (view value.now) }
{
    match value.get(key) {
        Some(found) => items_in(found),
        None => None,
    }
}

/// Returns the items of the array at `key`, or none where the key is missing.
pub fn items_or_none<'a>(value: &'a Value, key: &str) -> Option<&'a [Value]>
    ensures { option_map (λ items. map view items.now) result ≡ spec.items_or_none key.now (view value.now) }
{
    match value.get(key) {
        Some(found) => items_in(found),
        None => Some(&[]),
    }
}

fn items_in(value: &Value) -> Option<&[Value]>
    ensures { option_map (λ items. map view items.now) result ≡ spec.items_in (view value.now) }
{
    match value.as_array() {
        Some(items) => Some(items.as_slice()),
        None => None,
    }
}

/// Returns `value` as a word: a JSON integer from 0 to 4,294,967,295.
pub fn word_in(value: &Value) -> Option<u32>
    ensures { result ≡ spec.word_in (view value.now) }
{
    match value.as_u64() {
        Some(wide) => u32::try_from(wide).ok(),
        None => None,
    }
}

/// Returns the word at `key`, or `default` where the key is missing.
pub fn word_or(value: &Value, key: &str, default: u32) -> Option<u32>
    ensures { result ≡ spec.word_or key.now default (view value.now) }
{
    match value.get(key) {
        Some(found) => word_in(found),
        None => Some(default),
    }
}

/// Returns the word at `key`, which may be missing.
pub fn optional_word_at(value: &Value, key: &str) -> Option<Option<u32>>
    ensures { result ≡ spec.optional_word_at key.now (view value.now) }
{
    match value.get(key) {
        Some(found) => word_in(found).map(Some),
        None => Some(None),
    }
}

/// Reads words.
pub struct WordReader;

impl ItemReader for WordReader {
    ghost use Rattle.serde_json.specs.Data as json;
    ghost use Rattle.serde_json.specs.View.{view};
    ghost use Rattle.cg_json.specs.Members.{word_in};

    type Value = Value;

    type Item = u32;

    ghost Data = { json.Data };

    ghost data_of = { view };

    ghost item_in = { word_in };

    fn read(_alloc: Global, value: &Value) -> Result<u32, Misfit<()>> {
        word_in(value).ok_or(WRONG_SHAPE)
    }
}

/// Returns whether an object has a key that isn't one of `known`.
pub fn has_other_keys(value: &Value, known: &[&str]) -> bool
    ensures { result ≡ spec.has_other_keys (map (λ key. key.now) known.now) (view value.now) }
{
    match value.as_object() {
        Some(members) => has_other(members, known),
        None => false,
    }
}
