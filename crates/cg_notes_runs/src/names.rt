//! A mapping with its kernel and its architecture, and the names of their nodes, units and resources.

use crate::places::MappingFile;
use cg_arch::Arch;
use cg_model::{Kernel, Mapping, Node, Place, Unit};

/// A mapping of a kernel on an architecture, and its file.
#[derive(Clone, Copy, Drop)]
pub(crate) struct Mapped<'a> {
    pub(crate) arch: &'a Arch,
    pub(crate) kernel: &'a Kernel,
    pub(crate) mapping: &'a Mapping,
    pub(crate) file: &'a MappingFile<'a>,
}

impl<'a> Mapped<'a> {
    /// Returns node number `node`.
    pub(crate) fn node(self, node: usize) -> Option<&'a Node> {
        self.kernel.nodes().get(node)
    }

    /// Returns the name of node number `node`; empty if there is none.
    pub(crate) fn node_name(self, node: usize) -> &'a str {
        match self.node(node) {
            Some(node) => node.name.as_str(),
            None => "",
        }
    }

    /// Returns the place of node number `node`.
    pub(crate) fn place(self, node: usize) -> Option<Place> {
        self.mapping.places().get(node).copied()
    }

    /// Returns the cycle in which node number `node` begins in turn 0.
    pub(crate) fn time(self, node: usize) -> u64 {
        match self.place(node) {
            Some(place) => u64::from(place.time),
            None => 0,
        }
    }

    /// Returns the unit on which node number `node` is placed.
    pub(crate) fn unit(self, node: usize) -> Option<&'a Unit> {
        self.arch.units().get(self.place(node)?.unit as usize)
    }

    /// Returns the name of the unit on which node number `node` is placed; empty if there is none.
    pub(crate) fn unit_name(self, node: usize) -> &'a str {
        match self.unit(node) {
            Some(unit) => unit.name.as_str(),
            None => "",
        }
    }

    /// Returns the name of resource number `resource`; empty if there is none.
    pub(crate) fn resource_name(self, resource: usize) -> &'a str {
        match self.arch.resources().get(resource) {
            Some(resource) => resource.name.as_str(),
            None => "",
        }
    }

    /// Returns the numbers of the resources that drive resource number `resource`.
    pub(crate) fn drivers(self, resource: usize) -> &'a [u32] {
        match self.arch.resources().get(resource) {
            Some(resource) => resource.drivers.as_slice(),
            None => &[],
        }
    }
}
