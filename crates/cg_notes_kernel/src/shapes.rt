//! The shapes of nodes, arguments and order edges.

use cg_json::word_in;
use cg_lints::{At, Item, Kind, Rule, Shape, Slips, Spot, are_words, items_at, shown, unknown_key};
use serde_json::Value;
use std::alloc::{AllocError, Global};

/// The shape of a node.
const NODE: Shape = Shape {
    list: "nodes",
    fields: &[
        ("name", Kind::Text),
        ("op", Kind::Text),
        ("args", Kind::List),
        ("port", Kind::Port),
    ],
    needed: &["name", "op"],
};

/// The shape of an order edge.
const EDGE: Shape = Shape {
    list: "order",
    fields: &[
        ("from", Kind::Text),
        ("to", Kind::Text),
        ("distance", Kind::Distance),
    ],
    needed: &["from", "to"],
};

/// The keys of an argument that is an object.
const ARGUMENT_KEYS: [&str; 3] = ["from", "distance", "init"];

/// Adds to `slips` the faults in the shapes of the nodes and order edges of the kernel file `value`.
pub(crate) fn note_shapes(slips: &mut Slips, value: &Value) -> Result<(), AllocError> {
    for (number, node) in items_at(value, "nodes").iter().enumerate() {
        note_node(slips, number, node)?;
    }
    for (number, edge) in items_at(value, "order").iter().enumerate() {
        let prefix = format!(in slips.alloc; "order edge {number}: ")?;
        let item = Item {
            shape: &EDGE,
            number,
            prefix: prefix.as_str(),
        };
        item.note(slips, edge)?;
    }
    Ok(())
}

/// Returns the beginning of the sentences on node `number`, with `name` if it has a name.
pub(crate) fn node_prefix(
    alloc: Global,
    number: usize,
    name: Option<&str>,
) -> Result<String, AllocError> {
    match name {
        Some(name) => {
            let name = shown(alloc, name)?;
            let name = name.as_str();
            format!(in alloc; "node {number} \"{name}\": ")
        }
        None => format!(in alloc; "node {number}: "),
    }
}

/// Adds to `slips` the faults in the shape of `node`, node `number`.
fn note_node(slips: &mut Slips, number: usize, node: &Value) -> Result<(), AllocError> {
    let name = match node.get("name") {
        Some(name) => name.as_str(),
        None => None,
    };
    let prefix = node_prefix(slips.alloc, number, name)?;
    let item = Item {
        shape: &NODE,
        number,
        prefix: prefix.as_str(),
    };
    item.note(slips, node)?;
    for (place, argument) in items_at(node, "args").iter().enumerate() {
        let arg = Arg {
            node: number,
            prefix: prefix.as_str(),
            place,
        };
        arg.note(slips, argument)?;
    }
    Ok(())
}

/// An argument of a node.
#[derive(Clone, Copy, Drop)]
struct Arg<'a> {
    /// The number of the node.
    node: usize,
    /// The beginning of the sentences on the node.
    prefix: &'a str,
    /// The number of the argument, from 0.
    place: usize,
}

impl Arg<'_> {
    /// Adds to `slips` the faults in the shape of `argument`, this argument.
    fn note(self, slips: &mut Slips, argument: &Value) -> Result<(), AllocError> {
        if argument.is_object() {
            self.note_from(slips, argument)?;
            self.note_words(slips, argument)?;
            return self.note_other_keys(slips, argument);
        }
        if word_in(argument).is_some() {
            return Ok(());
        }
        let text = shape_text(slips.alloc, argument)?;
        self.add(
            slips,
            Rule::WrongShape,
            Spot::Element("args", self.place),
            text.as_str(),
        )
    }

    /// Adds to `slips` that `text`, which breaks `rule`, is wrong at `spot`.
    fn add(self, slips: &mut Slips, rule: Rule, spot: Spot, text: &str) -> Result<(), AllocError> {
        let Arg {
            node,
            prefix,
            place,
        } = self;
        let text = format!(in slips.alloc; "{prefix}argument {place}{text}")?;
        let at = At::Item {
            list: "nodes",
            item: node,
            spot,
        };
        slips.add(rule, at, text)
    }

    /// Adds to `slips` that the value of `key` must be `noun`.
    fn add_kind(self, slips: &mut Slips, key: &'static str, noun: &str) -> Result<(), AllocError> {
        let text = format!(in slips.alloc; ": \"{key}\" must be {noun}")?;
        let spot = Spot::ElementKey("args", self.place, key);
        self.add(slips, Rule::WrongShape, spot, text.as_str())
    }

    /// Adds to `slips` the fault of the source of `argument`, an object.
    fn note_from(self, slips: &mut Slips, argument: &Value) -> Result<(), AllocError> {
        match argument.get("from") {
            None => {
                let spot = Spot::Element("args", self.place);
                self.add(
                    slips,
                    Rule::WrongShape,
                    spot,
                    ": the key \"from\" is missing",
                )
            }
            Some(from) if !from.is_string() => self.add_kind(slips, "from", "a string"),
            Some(_) => Ok(()),
        }
    }

    /// Adds to `slips` the faults of the distance and the initial words of `argument`, an object.
    fn note_words(self, slips: &mut Slips, argument: &Value) -> Result<(), AllocError> {
        match argument.get("distance") {
            Some(distance) if word_in(distance).is_none() => {
                self.add_kind(slips, "distance", "a whole number from 0 to 4")?;
            }
            _ => {}
        }
        match argument.get("init") {
            Some(init) if !are_words(init) => self.add_kind(
                slips,
                "init",
                "a list of whole numbers from 0 to 4294967295",
            ),
            _ => Ok(()),
        }
    }

    /// Adds to `slips` each key of `argument`, an object, that isn't one of the format's.
    fn note_other_keys(self, slips: &mut Slips, argument: &Value) -> Result<(), AllocError> {
        let Some(members) = argument.as_object() else {
            return Ok(());
        };
        for key in members.keys() {
            let key = key.as_str();
            if !ARGUMENT_KEYS.contains(&key) {
                self.add_key(slips, key)?;
            }
        }
        Ok(())
    }

    /// Adds to `slips` that `key` isn't one of the format's.
    fn add_key(self, slips: &mut Slips, key: &str) -> Result<(), AllocError> {
        let alloc = slips.alloc;
        let said = unknown_key(alloc, key, &ARGUMENT_KEYS)?;
        let said = said.as_str();
        let text = format!(in alloc; ": {said}")?;
        let spot = Spot::ElementOtherKey("args", self.place, String::from_str(alloc, key)?);
        self.add(slips, Rule::UnknownKey, spot, text.as_str())
    }
}

/// Returns the message, after the number of the argument, that `argument` is neither a word nor an object.
fn shape_text(alloc: Global, argument: &Value) -> Result<String, AllocError> {
    if let Some(word) = negative(argument) {
        return format!(in alloc; ": numbers have no sign; write {word} for this one");
    }
    match argument.as_str() {
        Some(name) if name.parse::<u32>().is_ok() => {
            String::from_str(alloc, ": a number is written without quotes")
        }
        Some(name) => {
            let name = shown(alloc, name)?;
            let name = name.as_str();
            let (open, close) = ('{', '}');
            format!(in alloc; ": a node is given by an object, {open}\"from\":\"{name}\"{close}")
        }
        None => String::from_str(
            alloc,
            " must be a whole number from 0 to 4294967295, or an object with \"from\"",
        ),
    }
}

/// Returns the word that represents `value`, a negative number of 32 bits.
fn negative(value: &Value) -> Option<u32> {
    let number = value.as_i64()?;
    let size = u32::try_from(number.unsigned_abs()).ok()?;
    if number < 0 && size <= 0x8000_0000 {
        Some(size.wrapping_neg())
    } else {
        None
    }
}
