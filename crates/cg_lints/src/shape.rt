//! The keys of objects, and what they hold.

use crate::names::unknown_key;
use crate::slip::{At, Rule, Slips, Spot};
use cg_json::word_in;
use serde_json::Value;
use std::alloc::AllocError;

/// The greatest interval that a mapping may give.
const MOST_INTERVAL: u32 = 65_535;

/// The kind of the value of a key.
#[derive(Clone, Copy, PartialEq, Eq, Drop)]
pub enum Kind {
    /// A text.
    Text,
    /// A whole number of 32 bits.
    Number,
    /// A whole number of 32 bits that is a port: only values up to 15 are valid.
    Port,
    /// A whole number of 32 bits that is a distance: only values up to 255 are valid.
    Distance,
    /// A whole number of 32 bits that is a time: only values up to 65,534 are valid.
    Time,
    /// A whole number up to 65,535.
    Interval,
    /// A list.
    List,
    /// A list of whole numbers of 32 bits.
    Numbers,
    /// A list of texts.
    Texts,
}

impl Kind {
    /// Checks whether `value` is of this kind.
    pub(crate) fn has(self, value: &Value) -> bool {
        match self {
            Kind::Text => value.is_string(),
            Kind::Number | Kind::Port | Kind::Distance | Kind::Time => word_in(value).is_some(),
            Kind::Interval => word_in(value).is_some_and(|word| word <= MOST_INTERVAL),
            Kind::List => value.is_array(),
            Kind::Numbers => are_words(value),
            Kind::Texts => items_of(value).iter().all(|item| item.is_string()) && value.is_array(),
        }
    }

    /// Returns the words for a value of this kind.
    fn noun(self) -> &'static str {
        match self {
            Kind::Text => "a string",
            Kind::Number => "a whole number from 0 to 4294967295",
            Kind::Port => "a whole number from 0 to 15",
            Kind::Distance => "a whole number from 0 to 255",
            Kind::Time => "a whole number from 0 to 65534",
            Kind::Interval => "a whole number up to 65535",
            Kind::List => "a list",
            Kind::Numbers => "a list of whole numbers from 0 to 4294967295",
            Kind::Texts => "a list of strings",
        }
    }
}

/// The keys of the objects of a list.
#[derive(Clone, Copy, Drop)]
pub struct Shape {
    /// The key of the list.
    pub list: &'static str,
    /// The keys of an object, each with the kind of its value.
    pub fields: &'static [(&'static str, Kind)],
    /// The keys that are required.
    pub needed: &'static [&'static str],
}

/// An item of the list of a shape.
#[derive(Clone, Copy, Drop)]
pub struct Item<'a> {
    /// The shape.
    pub shape: &'a Shape,
    /// The number of the item in the list, from 0.
    pub number: usize,
    /// How sentences about the item begin.
    pub prefix: &'a str,
}

/// Returns the items of `value`; none if it isn't a list.
pub fn items_of(value: &Value) -> &[Value] {
    match value.as_array() {
        Some(items) => items.as_slice(),
        None => &[],
    }
}

/// Returns the items of the list at `key` of `value`; none if there is no list.
pub fn items_at<'a>(value: &'a Value, key: &str) -> &'a [Value] {
    match value.get(key) {
        Some(found) => items_of(found),
        None => &[],
    }
}

/// Checks whether `value` is a list of words.
pub fn are_words(value: &Value) -> bool {
    value.is_array() && items_of(value).iter().all(|item| word_in(item).is_some())
}

impl Item<'_> {
    /// Adds to `slips` the faults in the values of `value`, this item, and each key of it that isn't in the shape.
    pub fn note(self, slips: &mut Slips, value: &Value) -> Result<(), AllocError> {
        if !value.is_object() {
            return self.add(slips, Rule::WrongShape, Spot::Item, "must be an object");
        }
        self.note_fields(slips, value, self.shape.fields)?;
        self.note_keys(slips, value)
    }

    /// Adds to `slips` the faults of the values of `fields`, those of the shape, in `value`.
    fn note_fields(
        self,
        slips: &mut Slips,
        value: &Value,
        fields: &'static [(&'static str, Kind)],
    ) -> Result<(), AllocError> {
        for (name, kind) in fields {
            self.note_field(slips, value, name, *kind)?;
        }
        Ok(())
    }

    /// Adds to `slips` that `text`, which breaks `rule`, is wrong at `spot` of this item.
    fn add(self, slips: &mut Slips, rule: Rule, spot: Spot, text: &str) -> Result<(), AllocError> {
        let prefix = self.prefix;
        let text = format!(in slips.alloc; "{prefix}{text}")?;
        let at = At::Item {
            list: self.shape.list,
            item: self.number,
            spot,
        };
        slips.add(rule, at, text)
    }

    /// Adds to `slips` the faults of the value of `kind` at the key `name` of `value`.
    fn note_field(
        self,
        slips: &mut Slips,
        value: &Value,
        name: &'static str,
        kind: Kind,
    ) -> Result<(), AllocError> {
        match value.get(name) {
            None if self.shape.needed.contains(&name) => {
                let text = format!(in slips.alloc; "the key \"{name}\" is missing")?;
                self.add(slips, Rule::WrongShape, Spot::Item, text.as_str())
            }
            Some(found) if !kind.has(found) => {
                let noun = kind.noun();
                let text = format!(in slips.alloc; "\"{name}\" must be {noun}")?;
                self.add(slips, Rule::WrongShape, Spot::Key(name), text.as_str())
            }
            _ => Ok(()),
        }
    }

    /// Adds to `slips` each key of `value` that isn't in the shape.
    fn note_keys(self, slips: &mut Slips, value: &Value) -> Result<(), AllocError> {
        let Some(members) = value.as_object() else {
            return Ok(());
        };
        let alloc = slips.alloc;
        let names: Vec<&'static str> = self
            .shape
            .fields
            .iter()
            .map(|(name, _)| *name)
            .collect(alloc)?;
        for key in members.keys() {
            let key = key.as_str();
            if !names.contains(&key) {
                let text = unknown_key(alloc, key, names.as_slice())?;
                let spot = Spot::OtherKey(String::from_str(alloc, key)?);
                self.add(slips, Rule::UnknownKey, spot, text.as_str())?;
            }
        }
        Ok(())
    }
}
