//! Resources on the paths of routes.

use crate::ends::Uses;
use crate::known::Noun;
use crate::places::{arg_of, text_of};
use cg_lints::{Spot, items_at, shown};
use cg_model::Operand;
use serde_json::Value;
use std::alloc::AllocError;

impl Uses<'_> {
    /// Adds the first unknown resource on the path of `route`, route `number`.
    pub(crate) fn note_path(&mut self, number: usize, route: &Value) -> Result<(), AllocError> {
        for (place, item) in items_at(route, "path").iter().enumerate() {
            match item.as_str() {
                Some(name) if !self.known.has(Noun::Resource, name) => {
                    let text = self.unknown_resource(route, place, name)?;
                    let spot = Spot::Element("path", place);
                    return self.add("routes", number, spot, text.as_str());
                }
                _ => {}
            }
        }
        Ok(())
    }

    /// Returns the message that no resource is called `name`, which is at `place` on the path of `route`, with what
    /// belongs there, or which name may be meant.
    fn unknown_resource(
        &self,
        route: &Value,
        place: usize,
        name: &str,
    ) -> Result<String, AllocError> {
        if self.slips.are_few() && (place > 0 || !self.known.has(Noun::Unit, name)) {
            if let Some(end) = self.end_at(route, place)? {
                let name = shown(self.slips.alloc, name)?;
                let name = name.as_str();
                let end = end.as_str();
                return format!(in self.slips.alloc; "no resource is called \"{name}\": {end}");
            }
        }
        self.unknown_name(Noun::Resource, name)
    }

    /// Returns the sentence on what belongs at `place` on the path of `route`, if that is its first or last place.
    fn end_at(&self, route: &Value, place: usize) -> Result<Option<String>, AllocError> {
        let (Some(to), Some(arg)) = (text_of(route, "to"), arg_of(route)) else {
            return Ok(None);
        };
        let Some(Operand::Edge { from, .. }) = self.known.operands(to).get(arg as usize) else {
            return Ok(None);
        };
        if place == 0 {
            return Ok(Some(self.first_of(self.known.node_at(*from as usize))?));
        }
        if place.saturating_add(1) == items_at(route, "path").len() {
            return Ok(Some(self.last_of(to, arg)?));
        }
        Ok(None)
    }

    /// Returns the sentence on what a path of a value of `node` begins with.
    fn first_of(&self, node: &str) -> Result<String, AllocError> {
        match self.unit_of(node) {
            Some(unit) => format!(in self.slips.alloc;
                "a path begins with {unit}_o, the out of the unit of {node}"
            ),
            None => format!(in self.slips.alloc;
                "a path begins with the out of the unit of {node}, whose name ends with _o"
            ),
        }
    }

    /// Returns the sentence on what a path to argument `arg` of the node `to` ends with.
    fn last_of(&self, to: &str, arg: u32) -> Result<String, AllocError> {
        let letter = match arg {
            0 => "a",
            1 => "b",
            _ => "c",
        };
        match self.unit_of(to) {
            Some(unit) => format!(in self.slips.alloc;
                "a path ends with {unit}_{letter}, the port of argument {arg} of {to}"
            ),
            None => format!(in self.slips.alloc;
                "a path ends with the port of argument {arg} of {to}, whose name ends with _{letter}"
            ),
        }
    }

    /// Returns the unit on which the mapping places the node `name`, if it is a known one.
    fn unit_of(&self, name: &str) -> Option<&str> {
        for place in items_at(self.value, "places") {
            if text_of(place, "node") == Some(name) {
                return match text_of(place, "unit") {
                    Some(unit) if self.known.has(Noun::Unit, unit) => Some(unit),
                    _ => None,
                };
            }
        }
        None
    }
}
