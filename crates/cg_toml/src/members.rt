//! Access to the parts of a TOML value, for readers of formats.
ghost use Rattle.std.specs.Prelude.{◌≡◌, map, option_map};
ghost use Rattle.std.specs.Option.{option_copied};
ghost use Rattle.toml.specs.View.{view, table_view};
ghost use Rattle.cg_toml.specs.Members as spec;

use cg_reading::has_other;
use toml::{Table, Value};

/// Returns the text at `key`.
pub fn text_at<'a>(value: &'a Value, key: &str) -> Option<&'a str>
    ensures { option_copied result ≡ spec.text_at key.now (view value.now) }
{
    match value.get(key) {
        Some(found) => found.as_str(),
        None => None,
    }
}

/// Returns the items of the array at `key`.
pub fn items_at<'a>(value: &'a Value, key: &str) -> Option<&'a [Value]>
    ensures { option_map (λ items. map view items.now) result ≡ spec.items_at key.now (view value.now) }
{
    match value.get(key) {
        Some(found) => items_in(found),
        None => None,
    }
}

/// Returns the items of the array at `key`, or none where the key is missing.
pub fn items_or_none<'a>(value: &'a Value, key: &str) -> Option<&'a [Value]>
    ensures { option_map (λ items. map view items.now) result ≡ spec.items_or_none key.now (view value.now) }
{
    match value.get(key) {
        Some(found) => items_in(found),
        None => Some(&[]),
    }
}

/// Returns the items of an array.
pub fn items_in(value: &Value) -> Option<&[Value]>
    ensures { option_map (λ items. map view items.now) result ≡ spec.items_in (view value.now) }
{
    match value.as_array() {
        Some(items) => Some(items.as_slice()),
        None => None,
    }
}

/// Returns the table at `key`.
pub fn members_at<'a>(value: &'a Value, key: &str) -> Option<&'a Table>
    ensures { option_map (λ members. table_view members.now) result ≡ spec.members_at key.now (view value.now) }
{
    match value.get(key) {
        Some(found) => found.as_table(),
        None => None,
    }
}

/// Returns `value` as a word: an integer from 0 to 4,294,967,295.
fn word_in(value: &Value) -> Option<u32>
    ensures { result ≡ spec.word_in (view value.now) }
{
    match value.as_integer() {
        Some(wide) => u32::try_from(wide).ok(),
        None => None,
    }
}

/// Returns the word at `key`.
pub fn word_at(value: &Value, key: &str) -> Option<u32>
    ensures { result ≡ spec.word_at key.now (view value.now) }
{
    match value.get(key) {
        Some(found) => word_in(found),
        None => None,
    }
}

/// Returns the word at `key`, or `default` where the key is missing.
pub fn word_or(value: &Value, key: &str, default: u32) -> Option<u32>
    ensures { result ≡ spec.word_or key.now default (view value.now) }
{
    match value.get(key) {
        Some(found) => word_in(found),
        None => Some(default),
    }
}

/// Returns the boolean at `key`, or `default` where the key is missing.
pub fn flag_or(value: &Value, key: &str, default: bool) -> Option<bool>
    ensures { result ≡ spec.flag_or key.now default (view value.now) }
{
    match value.get(key) {
        Some(found) => found.as_bool(),
        None => Some(default),
    }
}

/// Returns whether a table has a key that isn't one of `known`.
pub fn has_other_keys(value: &Value, known: &[&str]) -> bool
    ensures { result ≡ spec.has_other_keys (map (λ key. key.now) known.now) (view value.now) }
{
    match value.as_table() {
        Some(members) => has_other(members, known),
        None => false,
    }
}
