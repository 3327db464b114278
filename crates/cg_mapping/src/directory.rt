//! The numbers of nodes, units and resources by their names.

use cg_arch::Arch;
use cg_model::{Kernel, Node, Operand, Resource, Unit};
use cg_reading::{Numbers, add_first, number_in};
use std::alloc::{AllocError, Global};
use std::marker::Model;

/// An item with a name of its own.
trait Called {
    ghost use Rattle.std.specs.Prelude.{◌≡◌, ℕ, List};

    // Its name.
    ghost own_name: { Self → List ℕ };

    /// Returns its name.
    fn name(&self) -> &str
        ensures { result.now ≡ own_name self.now };
}

impl Called for Node {
    ghost own_name = { λ n. n.name };

    fn name(&self) -> &str {
        self.name.as_str()
    }
}

impl Called for Unit {
    ghost own_name = { λ u. u.name };

    fn name(&self) -> &str {
        self.name.as_str()
    }
}

impl Called for Resource {
    ghost own_name = { λ r. r.name };

    fn name(&self) -> &str {
        self.name.as_str()
    }
}

ghost use Rattle.std.specs.Prelude.{Some, IfOk};
ghost use Rattle.cg_reading.specs.Numbers.{IsNumbering};

/// Returns the number of the first item of each name.
fn numbers_of<T: Called>(alloc: Global, items: &[T]) -> Result<Numbers, AllocError>
    ensures { IfOk result (λ numbers. IsNumbering numbers (λ item. Some (T.own_name item)) items.now) }
{
    let mut numbers = Numbers::new(alloc);
    for (number, item) in items.iter().enumerate() {
        add_first(alloc, &mut numbers, item.name(), number)?;
    }
    Ok(numbers)
}

/// An architecture and a kernel, with the numbers of their parts by name. Contracts see it as the architecture and the
/// kernel.
#[derive(Drop)]
pub struct Directory<'a> {
    arch: &'a Arch,
    kernel: &'a Kernel,
    nodes: Numbers,
    units: Numbers,
    resources: Numbers,
}

impl<'a> Model for Directory<'a> {
    ghost use Rattle.cg_mapping.specs.Names.{Pair};
    ghost use Rattle.cg_mapping.specs.Directory.{IsDirectory};

    ghost Value = { Pair };

    ghost view = { λ d. record { arch = d.arch.now; kernel = d.kernel.now } };

    ghost invariant = { λ d. IsDirectory d.arch.now d.kernel.now d.nodes d.units d.resources };
}

impl<'a> Directory<'a> {
    ghost use Rattle.std.specs.Prelude.{◌≡◌, IfOk, OnOk};
    ghost use Rattle.cg_model.specs.Kernel.{IsKernel};
    ghost use Rattle.cg_mapping.specs.Names as spec;

    /// Returns the directory of an architecture and a kernel.
    pub fn of(
        alloc: Global,
        arch: &'a Arch,
        kernel: &'a Kernel,
    ) -> Result<Directory<'a>, AllocError>
        ensures pair { IfOk result (λ d. d ≡ record { arch = arch.now; kernel = kernel.now }) }
        ensures valid { OnOk result (IsKernel kernel.now) }
    {
        let nodes = numbers_of(alloc, kernel.nodes())?;
        let units = numbers_of(alloc, arch.units())?;
        let resources = numbers_of(alloc, arch.resources())?;
        Ok(Directory {
            arch,
            kernel,
            nodes,
            units,
            resources,
        })
    }

    /// Returns the number of the node with the given name.
    #[tactic(auto, unfolding(crate::specs::Names::node_number))]
    pub fn node_number(&self, name: &str) -> Option<u32>
        ensures { result ≡ spec.node_number self.now.kernel name.now }
    {
        let nodes = self.kernel.nodes();
        match number_in(&self.nodes, name) {
            Some(number) => {
                prove!(number < nodes.len());
                Some(number as u32)
            }
            None => None,
        }
    }

    /// Returns the number of the unit with the given name.
    #[tactic(auto, unfolding(crate::specs::Names::unit_number))]
    pub fn unit_number(&self, name: &str) -> Option<u32>
        ensures { result ≡ spec.unit_number self.now.arch name.now }
    {
        let units = self.arch.units();
        match number_in(&self.units, name) {
            Some(number) => {
                prove!(number < units.len());
                Some(number as u32)
            }
            None => None,
        }
    }

    /// Returns the number of the resource with the given name.
    #[tactic(auto, unfolding(crate::specs::Names::resource_number))]
    pub fn resource_number(&self, name: &str) -> Option<u32>
        ensures { result ≡ spec.resource_number self.now.arch name.now }
    {
        let resources = self.arch.resources();
        match number_in(&self.resources, name) {
            Some(number) => {
                prove!(number < resources.len());
                Some(number as u32)
            }
            None => None,
        }
    }

    /// Returns whether the node has that operand, and the operand is an edge.
    #[tactic(auto, unfolding(crate::specs::Names::takes_edge))]
    pub fn takes_edge(&self, node: u32, arg: u32) -> bool
        ensures { result ≡ spec.takes_edge self.now.kernel node arg }
    {
        match self.kernel.nodes().get(node as usize) {
            Some(node) => match node.operands.as_slice().get(arg as usize) {
                Some(operand) => matches!(operand, Operand::Edge { .. }),
                None => false,
            },
            None => false,
        }
    }
}
