//! What is known at a place of the walk through a source.
ghost use Rattle.std.specs.Prelude.{◌≡◌, IfOk};
ghost use Rattle.cg_c_check.specs.Check.{beginning};
ghost use Rattle.cg_c_check.specs.States.{state_of};

use crate::names::Names;
use crate::ports::Ports;
use crate::program::Array;
use cg_c_syntax::Signedness;
use std::alloc::{AllocError, Global};

/// What is known at a place of the walk through a source.
#[derive(Drop)]
pub(crate) struct Checker<'s> {
    pub alloc: Global,
    pub names: Names<'s>,
    pub arrays: Vec<Array>,
    /// The first address behind the arrays.
    pub free: u32,
    /// How each word is read, by its number.
    pub words: Vec<Signedness>,
    pub inputs: Ports,
    pub outputs: Ports,
}

impl<'s> Checker<'s> {
    /// Returns what is known before a source.
    pub fn new(alloc: Global) -> Result<Self, AllocError>
        ensures { IfOk result (λ c. state_of c ≡ beginning) }
    {
        Ok(Checker {
            alloc,
            names: Names::new(alloc)?,
            arrays: Vec::new(alloc),
            free: 0,
            words: Vec::new(alloc),
            inputs: Ports::new(alloc),
            outputs: Ports::new(alloc),
        })
    }
}
