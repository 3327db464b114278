//! A configuration in the bytes of a bitstream.

use crate::context_view::ContextView;
use cg_arch::Arch;
use cg_bits::{BitsFault, Contexts, HEADER, UnitFields, check_bits, ii_in, stages_in};
use cg_config::UnitHead;
use std::marker::Model;

/// The configuration in borrowed bitstream bytes. Contracts see it as this configuration. It keeps the length of a slot
/// in bits, which every access to a field needs.
#[derive(Drop)]
pub struct ConfigView<'a> {
    arch: &'a Arch,
    bytes: &'a [u8],
    slot_bits: usize,
}

impl<'a> Model for ConfigView<'a> {
    ghost use Rattle.cg_model.specs.Config as configs;
    ghost use Rattle.cg_bits.specs.Answers.{config_of};
    ghost use Rattle.cg_view.specs.Held.{IsHeld};

    ghost Value = { configs.Config };

    ghost view = { λ v. config_of v.arch.now v.bytes.now };

    ghost invariant = { λ v. IsHeld v.arch.now v.bytes.now v.slot_bits };
}

impl<'a> ConfigView<'a> {
    ghost use Rattle.std.specs.Prelude.{◌≡◌, ◌<◌, Ok, IfOk};
    ghost use Rattle.cg_model.specs.Config as configs;
    ghost use Rattle.cg_model.specs.Canonical.{IsCanonical};
    ghost use Rattle.cg_bits.specs.Spelling.{AreBits};
    ghost use Rattle.cg_bits.specs.Answers.{answer_of};
    ghost use Rattle.cg_view.specs.Slot.{slot_of};

    /// Returns the configuration that `bytes` encode for `arch`, or why they are not valid: the fault of the lowest
    /// number, at its first place. It allocates no memory, and never answers `Memory`.
    pub fn of(arch: &'a Arch, bytes: &'a [u8]) -> Result<ConfigView<'a>, BitsFault>
        ensures answer { result ≡ answer_of arch.now bytes.now }
        ensures bits { IfOk result (λ view. AreBits arch.now view bytes.now) }
        // What the simulator requires of a configuration.
        ensures canonical { IfOk result (λ view. IsCanonical arch.now view) }
        ensures all { (C : configs.Config) → AreBits arch.now C bytes.now → result ≡ Ok C }
    {
        match check_bits(arch, bytes) {
            Ok(()) => Ok(ConfigView {
                arch,
                bytes,
                slot_bits: arch.slot_bits() as usize,
            }),
            Err(fault) => Err(fault),
        }
    }

    /// Returns the contents of slot number `slot`.
    pub fn context(&self, slot: u32) -> ContextView<'a>
        requires { slot < self.now.ii }
        ensures { result ≡ slot_of self.now slot }
    {
        let at = slot as usize * self.slot_bits;
        ContextView::new(self.arch, &self.bytes[HEADER..], at)
    }
}

impl<'a> Contexts for ConfigView<'a> {
    ghost config = { λ v. v };

    fn ii(&self) -> u32 {
        ii_in(self.bytes)
    }

    fn stages(&self) -> u32 {
        stages_in(self.bytes)
    }

    fn select(&self, resource: u32, slot: u32) -> u32 {
        self.context(slot).select(resource)
    }

    fn unit(&self, unit: u32, slot: u32) -> UnitFields {
        self.context(slot).unit(unit).fields()
    }

    fn head(&self, unit: u32, slot: u32) -> UnitHead {
        self.context(slot).unit(unit).head()
    }

    fn told(&self, unit: u32, slot: u32, place: usize, turn: u32) -> Option<u32> {
        self.context(slot).unit(unit).told(place, turn)
    }
}
