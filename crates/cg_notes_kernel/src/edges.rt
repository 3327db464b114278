//! The rules that order edges break.

use crate::nodes::Checked;
use cg_kernel::WrittenEdge;
use cg_lints::{At, Rule, Spot, shown};
use cg_model::MOST_ORDER_DISTANCE;
use cg_reading::number_in;
use std::alloc::AllocError;

impl Checked<'_> {
    /// Adds the faults of the order edges.
    pub(crate) fn note_edges(&mut self) -> Result<(), AllocError> {
        let written = self.written;
        for (number, edge) in written.order.as_slice().iter().enumerate() {
            self.note_end(number, "from", edge.from.as_str())?;
            self.note_end(number, "to", edge.to.as_str())?;
            self.note_distance_of(number, edge.distance)?;
            self.note_direction(number, edge)?;
        }
        Ok(())
    }

    /// Adds that `text`, which breaks `rule`, is wrong at the key `key` of order edge `number`.
    fn add_to_edge(
        &mut self,
        rule: Rule,
        number: usize,
        key: &'static str,
        text: &str,
    ) -> Result<(), AllocError> {
        let text = format!(in self.slips.alloc; "order edge {number}: {text}")?;
        let at = At::Item {
            list: "order",
            item: number,
            spot: Spot::Key(key),
        };
        self.slips.add(rule, at, text)
    }

    /// Adds a slip if `name`, the end at `key` of order edge `number`, isn't a node.
    fn note_end(&mut self, number: usize, key: &'static str, name: &str) -> Result<(), AllocError> {
        if number_in(self.numbers, name).is_some() {
            return Ok(());
        }
        let text = self.no_node(name)?;
        self.add_to_edge(Rule::UnknownNode, number, key, text.as_str())
    }

    /// Adds a slip if `distance`, that of order edge `number`, is too great.
    fn note_distance_of(&mut self, number: usize, distance: u32) -> Result<(), AllocError> {
        if distance <= MOST_ORDER_DISTANCE {
            return Ok(());
        }
        let text = format!(in self.slips.alloc;
            "a distance is at most 255, this one is {distance}"
        )?;
        self.add_to_edge(Rule::BadDistance, number, "distance", text.as_str())
    }

    /// Adds a slip if `edge`, order edge `number`, leads back within an iteration.
    fn note_direction(&mut self, number: usize, edge: &WrittenEdge) -> Result<(), AllocError> {
        let from = number_in(self.numbers, edge.from.as_str());
        let to = number_in(self.numbers, edge.to.as_str());
        match (from, to) {
            (Some(source), Some(target)) if edge.distance == 0 && source >= target => {
                let alloc = self.slips.alloc;
                let from = shown(alloc, edge.from.as_str())?;
                let to = shown(alloc, edge.to.as_str())?;
                let from = from.as_str();
                let to = to.as_str();
                let text = format!(in alloc;
                    "\"{from}\" doesn't come before \"{to}\": the edge needs a \"distance\" of at least 1"
                )?;
                self.add_to_edge(Rule::BackEdgeWithoutDistance, number, "from", text.as_str())
            }
            _ => Ok(()),
        }
    }
}
