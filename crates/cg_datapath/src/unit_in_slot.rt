//! A unit in a slot.

use cg_config::{Contexts, UnitHead};
use std::marker::Model;

/// A unit in a slot of a configuration, borrowed. Contracts see it as its fields.
#[derive(Drop)]
pub(crate) struct UnitInSlot<'a, C: Contexts> {
    contexts: &'a C,
    unit: u32,
    slot: u32,
}

impl<'a, C: Contexts> Model for UnitInSlot<'a, C> {
    ghost use Rattle.cg_model.specs.Config as configs;
    ghost use Rattle.cg_model.specs.declared.config.UnitFields.{UnitFields};
    ghost use Rattle.cg_config.specs.Known.{HasUnit};

    ghost Value = { UnitFields };

    ghost view = { λ u. configs.fields (C.config u.contexts.now) u.unit u.slot };

    ghost invariant = { λ u. HasUnit (C.config u.contexts.now) u.unit u.slot };
}

impl<'a, C: Contexts> UnitInSlot<'a, C> {
    ghost use Rattle.std.specs.Prelude.{◌≡◌, ◌<◌};
    ghost use Rattle.cg_model.specs.Config as configs;
    ghost use Rattle.cg_model.specs.Canonical.{arity_of};
    ghost use Rattle.cg_config.specs.Known.{HasUnit};
    ghost use Rattle.cg_config.specs.Told.{head_of, told};

    /// Borrows unit number `unit` in `slot` of `contexts`.
    pub(crate) fn new(contexts: &'a C, unit: u32, slot: u32) -> UnitInSlot<'a, C>
        requires { HasUnit (C.config contexts.now) unit slot }
        ensures { result ≡ configs.fields (C.config contexts.now) unit slot }
    {
        UnitInSlot {
            contexts,
            unit,
            slot,
        }
    }

    /// Returns what the unit begins, without its arguments.
    pub(crate) fn head(&self) -> UnitHead
        ensures { result ≡ head_of self.now }
    {
        self.contexts.head(self.unit, self.slot)
    }

    /// Returns the initial word or immediate that argument number `place` of the unit's operation has in iteration
    /// `turn`, if any.
    pub(crate) fn told(&self, place: usize, turn: u32) -> Option<u32>
        requires { place < arity_of self.now.op }
        ensures { result ≡ told self.now place turn }
    {
        self.contexts.told(self.unit, self.slot, place, turn)
    }
}
