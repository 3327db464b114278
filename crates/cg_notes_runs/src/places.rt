//! The lines and columns of violations in the text of a mapping.

use crate::names::Mapped;
use cg_check::RulePlace;
use cg_json::{items_or_none, json_value, text_at, word_in};
use cg_spans::{Place, Step, json_value_at};
use serde_json::Value;
use std::alloc::Global;

/// The file of a mapping.
#[derive(Drop)]
pub(crate) struct MappingFile<'a> {
    /// Its bytes.
    bytes: &'a [u8],
    /// The JSON value that they denote.
    value: Value,
}

impl<'a> MappingFile<'a> {
    /// Returns the file with the bytes `bytes`; None if they are not a JSON text.
    pub(crate) fn read(alloc: Global, bytes: &'a [u8]) -> Option<MappingFile<'a>> {
        match json_value(alloc, bytes) {
            Ok(value) => Some(MappingFile { bytes, value }),
            Err(_) => None,
        }
    }

    /// Returns the line and column of the place of the node `name`.
    fn node_place(&self, name: &str) -> Option<Place> {
        let number = self
            .items("places")
            .iter()
            .position(|place| text_at(place, "node") == Some(name))?;
        self.place_at(&[Step::Key("places"), Step::Item(number)])
    }

    /// Returns the line and column of the route to argument `arg` of the node `name`.
    fn route_place(&self, name: &str, arg: u32) -> Option<Place> {
        let number = self.items("routes").iter().position(|route| text_at(route, "to") == Some(name)
            && has_argument(route, arg))?;
        self.place_at(&[Step::Key("routes"), Step::Item(number)])
    }

    /// Returns the items of the list at `key`; none if there is no list.
    fn items(&self, key: &str) -> &[Value] {
        items_or_none(&self.value, key).unwrap_or(&[])
    }

    /// Returns the line and column of the value to which `path` leads.
    fn place_at(&self, path: &[Step<'_>]) -> Option<Place> {
        let at = json_value_at(self.bytes, path)?;
        Some(Place::at(self.bytes, at))
    }
}

impl Mapped<'_> {
    /// Returns the line and column of the interval, the place or the route that violates a rule at `place`; for an order
    /// edge, of the place of its target. Returns None for a resource, on which several routes meet.
    pub(crate) fn place_of(self, place: RulePlace) -> Option<Place> {
        let file = self.file;
        match place {
            RulePlace::Mapping => file.place_at(&[Step::Key("ii")]),
            RulePlace::Node(node) => file.node_place(self.node_name(node)),
            RulePlace::Order(edge) => {
                let target = self.kernel.order().get(edge)?.to;
                file.node_place(self.node_name(target as usize))
            }
            RulePlace::Arg { node, arg } => file.route_place(self.node_name(node as usize), arg),
            RulePlace::Resource { .. } => None,
        }
    }
}

/// Checks whether `route` leads to argument `arg`.
fn has_argument(route: &Value, arg: u32) -> bool {
    match route.get("arg") {
        Some(found) => word_in(found) == Some(arg),
        None => false,
    }
}
