//! The description of a kernel in its file, before names and operations are looked up.

use cg_model::{Items, Name, Words};
use cg_reading::Named;

/// The format that a file names: only the second one has the guarded operations.
#[derive(Clone, Copy, Debug, PartialEq, Eq)]
pub enum Format {
    First,
    Second,
}

/// An argument. For an object it is recorded whether it has a key that the format doesn't have.
#[derive(Drop)]
pub enum WrittenArg {
    Number(u32),
    Source {
        from: Name,
        distance: u32,
        init: Words,
        other_keys: bool,
    },
}

/// A node as described in its file.
#[derive(Drop)]
pub struct WrittenNode {
    pub name: Name,
    pub op: Name,
    pub args: Items<WrittenArg>,
    pub port: Option<u32>,
    pub other_keys: bool,
}

impl Named for WrittenNode {
    ghost use Rattle.std.specs.Prelude.{Some};

    ghost own_name = { λ n. Some n.name };

    fn name(&self) -> Option<&str> {
        Some(self.name.as_str())
    }
}

/// An order edge as described in its file.
#[derive(Drop)]
pub struct WrittenEdge {
    pub from: Name,
    pub to: Name,
    pub distance: u32,
    pub other_keys: bool,
}

/// A kernel as described in its file.
#[derive(Drop)]
pub struct WrittenKernel {
    pub format: Format,
    pub nodes: Items<WrittenNode>,
    pub order: Items<WrittenEdge>,
    pub other_keys: bool,
}
