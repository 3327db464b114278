//! What is wrong with a part: its keys and their values.

use crate::tiles::Here;
use cg_lints::{Rule, Slips, unknown_key};
use cg_model::{LONGEST_NAME, is_name};
use std::alloc::AllocError;
use toml::Value;

/// The keys that say what a part is.
const HEADS: [&str; 3] = ["wire", "reg", "unit"];

/// The keys of a wire or a register.
const NET_KEYS: [&str; 3] = ["wire", "reg", "from"];

/// The keys of a unit.
const UNIT_KEYS: [&str; 4] = ["unit", "ops", "latency", "ports"];

/// The keys of the file, which come before its tiles.
const FILE_KEYS: [&str; 7] = [
    "format", "name", "contexts", "memory", "grid", "torus", "hub",
];

/// The keys of a part of any kind.
const ALL_KEYS: [&str; 7] = ["wire", "reg", "unit", "from", "ops", "latency", "ports"];

impl Here<'_> {
    /// Adds to `slips` what is wrong with `value`, the part.
    pub(crate) fn note_part(self, slips: &mut Slips, value: &Value) -> Result<(), AllocError> {
        let heads = HEADS
            .iter()
            .filter(|head| value.get(**head).is_some())
            .count();
        match heads {
            0 => {
                self.note_keys(slips, value, &ALL_KEYS)?;
                let text = "a part must have one of the keys wire, reg and unit";
                self.add(slips, Rule::WrongShape, self.at, text)
            }
            1 if value.get("unit").is_some() => self.note_unit(slips, value),
            1 => self.note_net(slips, value),
            _ => self.note_heads(slips, value),
        }
    }

    /// Adds to `slips` what is wrong with `value`, a unit.
    fn note_unit(self, slips: &mut Slips, value: &Value) -> Result<(), AllocError> {
        self.note_name(slips, value, "unit")?;
        self.note_keys(slips, value, &UNIT_KEYS)?;
        self.note_ops(slips, value)?;
        self.note_latency(slips, value)?;
        self.note_ports(slips, value)
    }

    /// Adds to `slips` what is wrong with `value`, a wire or a register.
    fn note_net(self, slips: &mut Slips, value: &Value) -> Result<(), AllocError> {
        self.note_name(slips, value, "wire")?;
        self.note_name(slips, value, "reg")?;
        self.note_keys(slips, value, &NET_KEYS)?;
        self.note_from(slips, value)
    }

    /// Adds to `slips` that `value` has several of the keys wire, reg and unit, at the last of them.
    fn note_heads(self, slips: &mut Slips, value: &Value) -> Result<(), AllocError> {
        self.note_keys(slips, value, &ALL_KEYS)?;
        let mut last = self.at;
        for head in &HEADS {
            if value.get(*head).is_some() {
                last = last.max(self.place_of(head));
            }
        }
        let tile = self.tile;
        let text = format!(in slips.alloc;
            "a part must have only one of the keys wire, reg and unit: is a header [[tiles.{tile}]] missing before this one?"
        )?;
        self.add(slips, Rule::WrongShape, last, text.as_str())
    }

    /// Adds to `slips` each key of `value` that isn't one of `keys`.
    fn note_keys(
        self,
        slips: &mut Slips,
        value: &Value,
        keys: &[&'static str],
    ) -> Result<(), AllocError> {
        let Some(members) = value.as_table() else {
            return Ok(());
        };
        for (key, _) in members.iter() {
            let key = key.as_str();
            if !(&*keys).contains(&key) {
                self.note_key(slips, key, keys)?;
            }
        }
        Ok(())
    }

    /// Adds to `slips` that `key` isn't one of `keys`.
    fn note_key(
        self,
        slips: &mut Slips,
        key: &str,
        keys: &[&'static str],
    ) -> Result<(), AllocError> {
        let text = if FILE_KEYS.contains(&key) {
            format!(in slips.alloc;
                "\"{key}\" is a key of the file and must come before the tiles"
            )?
        } else {
            unknown_key(slips.alloc, key, keys)?
        };
        self.add(slips, Rule::UnknownKey, self.place_of(key), text.as_str())
    }

    /// Adds to `slips` what is wrong with the name that `value` has at `key`, if it has that key.
    fn note_name(self, slips: &mut Slips, value: &Value, key: &str) -> Result<(), AllocError> {
        let Some(found) = value.get(key) else {
            return Ok(());
        };
        match found.as_str() {
            None => {
                let text = format!(in slips.alloc; "\"{key}\" must be a string")?;
                self.add_shape(slips, key, text.as_str())
            }
            Some(name) if is_name(name, LONGEST_NAME) => Ok(()),
            Some(name) if name.len() > LONGEST_NAME => {
                let length = name.len();
                let text = format!(in slips.alloc;
                    "a name has at most {LONGEST_NAME} characters including the prefix of its cell, such as r0c0_, but this one alone has {length}"
                )?;
                self.add(slips, Rule::BadName, self.place_of(key), text.as_str())
            }
            Some(_) => {
                let text = "a name is a letter or _, followed by letters, digits or _";
                self.add(slips, Rule::BadName, self.place_of(key), text)
            }
        }
    }

    /// Adds to `slips` that the part lacks the key `key`.
    pub(crate) fn note_missing(self, slips: &mut Slips, key: &str) -> Result<(), AllocError> {
        let example = example_of(key);
        let text = format!(in slips.alloc; "the key \"{key}\" is missing, for example {example}")?;
        self.add(slips, Rule::WrongShape, self.at, text.as_str())
    }
}

/// Returns an example of a line that sets the key `key` of a part.
fn example_of(key: &str) -> &'static str {
    match key {
        "ops" => "ops = [\"add\", \"sub\"]",
        "latency" => "latency = 1",
        "ports" => "ports = [[\"x\", \"y\"], [\"x\"]], a list for each port",
        _ => "from = [\"x\", \"N.x\"]",
    }
}
