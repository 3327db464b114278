//! Violations of L6 and L7: routes that meet on a resource in a slot.

use crate::names::Mapped;
use cg_check::{Rule, RulePlace, delay, edge_into, leaves};
use cg_model::Route;
use cg_spans::Place;
use std::alloc::{AllocError, Global};

/// A resource in a slot of a mapping, on which routes meet.
#[derive(Clone, Copy, Drop)]
pub(crate) struct Meeting<'a> {
    mapped: Mapped<'a>,
    /// The rule that is violated: L6 or L7.
    rule: Rule,
    resource: usize,
    slot: u64,
    ii: u64,
}

/// A value on a resource.
#[derive(Clone, Copy, Drop)]
struct Stay {
    /// The node whose result it is.
    source: u32,
    /// The cycle in which the result of turn 0 is there.
    time: u64,
    /// The resource that it comes from; None at the beginning of its route.
    from: Option<u32>,
    /// The node to which its route leads.
    node: u32,
    /// The argument of that node.
    arg: u32,
}

impl Stay {
    /// Checks whether `other` agrees in what `rule` compares: the value for L6, the previous resource for L7.
    fn is_alike(self, other: Stay, rule: Rule) -> bool {
        match rule {
            Rule::L6 => self.source == other.source && self.time == other.time,
            _ => self.from == other.from,
        }
    }

    /// Returns the turn of the value on its resource in `cycle`, at interval `ii`.
    fn turn_in(self, cycle: u64, ii: u64) -> u64 {
        match cycle.saturating_sub(self.time).checked_div(ii) {
            Some(turn) => turn,
            None => 0,
        }
    }
}

impl<'a> Meeting<'a> {
    /// Returns resource number `resource` in `slot` of `mapped`, where `rule` is violated.
    pub(crate) fn new(mapped: Mapped<'a>, rule: Rule, resource: usize, slot: usize) -> Meeting<'a> {
        Meeting {
            mapped,
            rule,
            resource,
            slot: slot as u64,
            ii: u64::from(mapped.mapping.ii()),
        }
    }

    /// Returns the note on which two values, or which two routes, meet there; None if no two meet.
    pub(crate) fn note(self, alloc: Global) -> Result<Option<String>, AllocError> {
        let Some(first) = self.first_stay(None) else {
            return Ok(None);
        };
        let Some(second) = self.first_stay(Some(first)) else {
            return Ok(None);
        };
        let note = match self.rule {
            Rule::L6 => self.values_note(alloc, first, second)?,
            _ => self.ways_note(alloc, first, second)?,
        };
        Ok(Some(note))
    }

    /// Returns the line and column of the first route that comes there.
    pub(crate) fn place(self) -> Option<Place> {
        let Stay { node, arg, .. } = self.first_stay(None)?;
        self.mapped.place_of(RulePlace::Arg { node, arg })
    }

    /// Returns the note that the values of `first` and `second` are there in one cycle.
    fn values_note(self, alloc: Global, first: Stay, second: Stay) -> Result<String, AllocError> {
        let name = self.mapped.resource_name(self.resource);
        let slot = self.slot;
        let cycle = first.time.max(second.time);
        let one = self.mapped.node_name(first.source as usize);
        let other = self.mapped.node_name(second.source as usize);
        let one_turn = first.turn_in(cycle, self.ii);
        let other_turn = second.turn_in(cycle, self.ii);
        let routes = self.routes_of(alloc, first, second)?;
        let routes = routes.as_str();
        format!(in alloc;
            "L6: {name} in slot {slot} holds {one} of turn {one_turn} and {other} of turn {other_turn}, {routes}"
        )
    }

    /// Returns the note that `first` and `second` come there from different resources.
    fn ways_note(self, alloc: Global, first: Stay, second: Stay) -> Result<String, AllocError> {
        let name = self.mapped.resource_name(self.resource);
        let slot = self.slot;
        let one = self.way_name(first);
        let other = self.way_name(second);
        let routes = self.routes_of(alloc, first, second)?;
        let routes = routes.as_str();
        format!(in alloc;
            "L7: {name} in slot {slot} takes its value from {one} and from {other}, {routes}"
        )
    }

    /// Returns the end of a note: the routes by which `first` and `second` come there, and what fixes the violation.
    fn routes_of(self, alloc: Global, first: Stay, second: Stay) -> Result<String, AllocError> {
        let one = self.route_name(alloc, first)?;
        let one = one.as_str();
        if first.node == second.node && first.arg == second.arg {
            let ii = self.ii;
            return format!(in alloc;
                "both on the way to {one}: after the interval, {ii} cycles, the value of the next turn comes there; other registers on the way, or a greater interval, fix it"
            );
        }
        let other = self.route_name(alloc, second)?;
        let other = other.as_str();
        format!(in alloc;
            "on the ways to {one} and {other}; another way or time for one of them fixes it"
        )
    }

    /// Returns the name of the route of `stay`: the argument to which it leads, and its line and column.
    fn route_name(self, alloc: Global, stay: Stay) -> Result<String, AllocError> {
        let Stay { node, arg, .. } = stay;
        let name = self.mapped.node_name(node as usize);
        match self.mapped.place_of(RulePlace::Arg { node, arg }) {
            Some(place) => format!(in alloc; "{name}.{arg} ({place})"),
            None => format!(in alloc; "{name}.{arg}"),
        }
    }

    /// Returns the name of the resource from which `stay` comes.
    fn way_name(self, stay: Stay) -> &'a str {
        match stay.from {
            Some(from) => self.mapped.resource_name(from as usize),
            None => "its unit",
        }
    }

    /// Returns the first value there; if `other` is given, the first that violates the rule together with it.
    fn first_stay(self, other: Option<Stay>) -> Option<Stay> {
        for route in self.mapped.mapping.routes() {
            if let Some(stay) = self.stay_on(route, other) {
                return Some(stay);
            }
        }
        None
    }

    /// Returns the first value there on `route`; if `other` is given, the first that violates the rule together with it.
    fn stay_on(self, route: &Route, other: Option<Stay>) -> Option<Stay> {
        let Mapped {
            arch,
            kernel,
            mapping,
            ..
        } = self.mapped;
        let edge = edge_into(kernel, route)?;
        let mut time = leaves(arch, mapping, edge.source);
        let mut from: Option<u32> = None;
        for resource in route.path.as_slice() {
            if from.is_some() {
                time = time.saturating_add(delay(arch, *resource));
            }
            let stay = Stay {
                source: edge.source,
                time,
                from,
                node: route.node,
                arg: route.arg,
            };
            if *resource as usize == self.resource && self.is_met(stay, other) {
                return Some(stay);
            }
            from = Some(*resource);
        }
        None
    }

    /// Checks whether `stay` is in the slot, and violates the rule together with `other`, if that is given.
    fn is_met(self, stay: Stay, other: Option<Stay>) -> bool {
        if stay.time.checked_rem(self.ii) != Some(self.slot) {
            return false;
        }
        match other {
            Some(other) => !stay.is_alike(other, self.rule),
            None => true,
        }
    }
}
