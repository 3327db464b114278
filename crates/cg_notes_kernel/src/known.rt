//! The names that a mapping may use.

use cg_arch::Arch;
use cg_model::{Kernel, Operand};
use std::alloc::{AllocError, Global};

/// What a name in a mapping may name.
#[derive(Clone, Copy, PartialEq, Eq, Drop)]
pub(crate) enum Noun {
    Node,
    Unit,
    Resource,
}

impl Noun {
    /// Returns the word for it.
    pub(crate) fn word(self) -> &'static str {
        match self {
            Noun::Node => "node",
            Noun::Unit => "unit",
            Noun::Resource => "resource",
        }
    }
}

/// The names of a kernel's nodes and of an architecture's units and resources, each in byte order.
#[derive(Drop)]
pub(crate) struct Known<'a> {
    kernel: &'a Kernel,
    nodes: Vec<&'a str>,
    units: Vec<&'a str>,
    resources: Vec<&'a str>,
    /// Whether the mapping is of another kernel.
    pub(crate) is_other: bool,
}

impl<'a> Known<'a> {
    /// Returns the names of `kernel` and `arch`.
    pub(crate) fn new(
        alloc: Global,
        arch: &'a Arch,
        kernel: &'a Kernel,
    ) -> Result<Known<'a>, AllocError> {
        Ok(Known {
            kernel,
            nodes: node_names(alloc, kernel)?,
            units: unit_names(alloc, arch)?,
            resources: resource_names(alloc, arch)?,
            is_other: false,
        })
    }

    /// Returns the names of each `noun`.
    pub(crate) fn names(&self, noun: Noun) -> &[&'a str] {
        match noun {
            Noun::Node => self.nodes.as_slice(),
            Noun::Unit => self.units.as_slice(),
            Noun::Resource => self.resources.as_slice(),
        }
    }

    /// Checks whether a `noun` is called `name`.
    pub(crate) fn has(&self, noun: Noun, name: &str) -> bool {
        self.names(noun).binary_search(&name).is_ok()
    }

    /// Returns the name of node `number`; an empty name if there is none.
    pub(crate) fn node_at(&self, number: usize) -> &'a str {
        match self.kernel.nodes().get(number) {
            Some(node) => node.name.as_str(),
            None => "",
        }
    }

    /// Returns the operands of the node that is called `name`.
    pub(crate) fn operands(&self, name: &str) -> &'a [Operand] {
        match self
            .kernel
            .nodes()
            .iter()
            .find(|node| node.name.as_str() == name)
        {
            Some(node) => node.operands.as_slice(),
            None => &[],
        }
    }
}

/// Returns the names of the nodes of `kernel`, in byte order.
fn node_names(alloc: Global, kernel: &Kernel) -> Result<Vec<&str>, AllocError> {
    let mut names: Vec<&str> = Vec::new(alloc);
    for node in kernel.nodes() {
        names.push(node.name.as_str())?;
    }
    names.sort()?;
    Ok(names)
}

/// Returns the names of the units of `arch`, in byte order.
fn unit_names(alloc: Global, arch: &Arch) -> Result<Vec<&str>, AllocError> {
    let mut names: Vec<&str> = Vec::new(alloc);
    for unit in arch.units() {
        names.push(unit.name.as_str())?;
    }
    names.sort()?;
    Ok(names)
}

/// Returns the names of the resources of `arch`, in byte order.
fn resource_names(alloc: Global, arch: &Arch) -> Result<Vec<&str>, AllocError> {
    let mut names: Vec<&str> = Vec::new(alloc);
    for resource in arch.resources() {
        names.push(resource.name.as_str())?;
    }
    names.sort()?;
    Ok(names)
}
