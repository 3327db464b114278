//! Names that a mapping uses, and arguments at which its routes end.

use crate::known::{Known, Noun};
use crate::places::{arg_of, noun_of, text_of};
use cg_lints::{At, Rule, Slips, Spot, items_at, no_name, shown};
use cg_model::Operand;
use serde_json::Value;
use std::alloc::{AllocError, Global};

/// A mapping whose names are being checked.
#[derive(Drop)]
pub(crate) struct Uses<'a> {
    /// The rules that it breaks.
    pub(crate) slips: Slips,
    /// The names that it may use.
    pub(crate) known: Known<'a>,
    /// The mapping's file.
    pub(crate) value: &'a Value,
}

impl Uses<'_> {
    /// Adds each unknown name, and each route that doesn't end at an edge.
    pub(crate) fn note(&mut self) -> Result<(), AllocError> {
        let value = self.value;
        for (number, place) in items_at(value, "places").iter().enumerate() {
            self.note_name(number, place, "node", Noun::Node)?;
            self.note_name(number, place, "unit", Noun::Unit)?;
        }
        for (number, route) in items_at(value, "routes").iter().enumerate() {
            self.note_end(number, route)?;
            self.note_path(number, route)?;
        }
        Ok(())
    }

    /// Adds that `text` is wrong at `spot` of item `number` of `list`, by an unknown name or argument.
    pub(crate) fn add(
        &mut self,
        list: &'static str,
        number: usize,
        spot: Spot,
        text: &str,
    ) -> Result<(), AllocError> {
        let noun = noun_of(list);
        let text = format!(in self.slips.alloc; "{noun} {number}: {text}")?;
        let at = At::Item {
            list,
            item: number,
            spot,
        };
        self.slips.add(Rule::UnknownName, at, text)
    }

    /// Adds a slip if the text at `key` of `place`, place `number`, isn't the name of a `noun`.
    fn note_name(
        &mut self,
        number: usize,
        place: &Value,
        key: &'static str,
        noun: Noun,
    ) -> Result<(), AllocError> {
        match text_of(place, key) {
            Some(name) if !self.known.has(noun, name) => {
                let text = self.unknown_name(noun, name)?;
                self.add("places", number, Spot::Key(key), text.as_str())
            }
            _ => Ok(()),
        }
    }

    /// Returns the message that no `noun` is called `name`, and which one may be meant, unless there are many slips or
    /// the mapping is of another kernel.
    pub(crate) fn unknown_name(&self, noun: Noun, name: &str) -> Result<String, AllocError> {
        let alloc = self.slips.alloc;
        if !self.slips.are_few() || (self.known.is_other && noun == Noun::Node) {
            return no_name(alloc, noun.word(), name, &[]);
        }
        if noun == Noun::Resource && self.known.has(Noun::Unit, name) {
            return format!(in alloc;
                "no resource is called \"{name}\": that is a unit, whose output is \"{name}_o\""
            );
        }
        let names = self.known.names(noun);
        match look_alike(names, name).or(flat_name(names, name)) {
            Some(meant) => meant_name(alloc, noun.word(), name, meant),
            None => no_name(alloc, noun.word(), name, names),
        }
    }

    /// Adds the faults of the end of `route`, route `number`.
    fn note_end(&mut self, number: usize, route: &Value) -> Result<(), AllocError> {
        let Some(to) = text_of(route, "to") else {
            return Ok(());
        };
        if !self.known.has(Noun::Node, to) {
            let text = self.unknown_name(Noun::Node, to)?;
            return self.add("routes", number, Spot::Key("to"), text.as_str());
        }
        match arg_of(route) {
            Some(arg) => self.note_arg(number, to, arg),
            None => Ok(()),
        }
    }

    /// Adds a slip if argument `arg` of the node `to` isn't an edge: route `number` ends there.
    fn note_arg(&mut self, number: usize, to: &str, arg: u32) -> Result<(), AllocError> {
        let operands = self.known.operands(to);
        let text = match operands.get(arg as usize) {
            Some(Operand::Edge { .. }) => return Ok(()),
            Some(Operand::Const(_)) => format!(in self.slips.alloc;
                "argument {arg} of \"{to}\" is a number and needs no route"
            )?,
            None => {
                let count = operands.len();
                format!(in self.slips.alloc;
                    "\"{to}\" has no argument {arg}: arguments are counted from 0, and it has {count}"
                )?
            }
        };
        self.add("routes", number, Spot::Key("arg"), text.as_str())
    }
}

/// Returns the message that no `noun` is called `name`, and that `meant` may be meant.
fn meant_name(alloc: Global, noun: &str, name: &str, meant: &str) -> Result<String, AllocError> {
    let name = shown(alloc, name)?;
    let name = name.as_str();
    format!(in alloc; "no {noun} is called \"{name}\", did you mean \"{meant}\"?")
}

/// Returns the first of `names` that looks like `name`.
fn look_alike<'a>(names: &[&'a str], name: &str) -> Option<&'a str> {
    for known in names {
        if known.len() == name.len() && alike(known.as_bytes(), name.as_bytes()) {
            return Some(*known);
        }
    }
    None
}

/// Checks whether each byte of `first` looks like the byte in its place in `second`.
fn alike(first: &[u8], second: &[u8]) -> bool {
    first
        .iter()
        .zip(second)
        .all(|(one, other)| seen_as(*one) == seen_as(*other))
}

/// Returns the byte that represents all bytes that look like `byte`: a digit for letters that look like it, a small
/// letter for a capital.
fn seen_as(byte: u8) -> u8 {
    match byte {
        b'O' | b'o' => b'0',
        b'L' | b'l' => b'1',
        _ => byte.to_ascii_lowercase(),
    }
}

/// Returns the first of `names` that is `name` with a cell before it, as `r0c0_alu` is for `alu`.
fn flat_name<'a>(names: &[&'a str], name: &str) -> Option<&'a str> {
    for known in names {
        if let Some(front) = known.strip_suffix(name) {
            if front.ends_with('_') {
                return Some(*known);
            }
        }
    }
    None
}
