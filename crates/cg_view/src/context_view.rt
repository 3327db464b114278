//! The contents of one slot of a configuration.

use crate::unit_view::UnitView;
use cg_arch::Arch;
use cg_bits::number_at;
use std::marker::Model;

/// One slot of a configuration, borrowed. Contracts see it as its selects and fields.
#[derive(Drop)]
pub struct ContextView<'a> {
    arch: &'a Arch,
    body: &'a [u8],
    at: usize,
}

impl<'a> Model for ContextView<'a> {
    ghost use Rattle.cg_bits.specs.Numbers.{bits_of_bytes};
    ghost use Rattle.cg_view.specs.Slot as slots;
    ghost use Rattle.cg_view.specs.Held.{HoldsSlot};

    ghost Value = { slots.Slot };

    ghost view = { λ c. slots.slot_in c.arch.now (bits_of_bytes c.body.now) c.at };

    ghost invariant = { λ c. HoldsSlot c.arch.now c.body.now c.at };
}

impl<'a> ContextView<'a> {
    ghost use Rattle.std.specs.Prelude.{◌≡◌, ◌<◌, length, slice_index, slice_index_or};
    ghost use Rattle.cg_model.specs.Config.{off};
    ghost use Rattle.cg_bits.specs.Numbers.{bits_of_bytes};
    ghost use Rattle.cg_view.specs.Slot as slots;
    ghost use Rattle.cg_view.specs.Held.{HoldsSlot};

    /// Returns the slot of `arch` that begins at bit `at` of `body`.
    pub(crate) fn new(arch: &'a Arch, body: &'a [u8], at: usize) -> ContextView<'a>
        requires { HoldsSlot arch.now body.now at }
        ensures { result ≡ slots.slot_in arch.now (bits_of_bytes body.now) at }
    {
        ContextView { arch, body, at }
    }

    /// Returns the select of `resource`: 0 for none, else the position of a driver in the resource's list, counted from
    /// 1.
    pub fn select(&self, resource: u32) -> u32
        requires { resource < length self.now.selects }
        ensures { result ≡ slice_index self.now.selects resource }
    {
        let place = self.at + self.arch.select_at(resource) as usize;
        number_at(self.body, place, self.arch.select_bits(resource))
    }

    /// Returns the fields of unit number `unit`.
    pub fn unit(&self, unit: u32) -> UnitView<'a>
        requires { unit < length self.now.units }
        ensures { result ≡ slice_index_or self.now.units unit off }
    {
        let ports = self.arch.units()[unit as usize].ports.as_slice().len();
        UnitView::new(self.body, self.at + self.arch.unit_at(unit) as usize, ports)
    }
}
