//! All slots of a bitstream.
ghost use Rattle.std.specs.Prelude.{◌≡◌, max};
ghost use Rattle.cg_bits.specs.Checks.{AreSlots};

use crate::checking::{HEADER_BITS, UnitCheck, unit_fault};
use crate::field::number_at;
use crate::format::Format;
use crate::reading::op_of;
use cg_arch::Arch;

/// Returns the greater of two numbers.
fn greater(a: u32, b: u32) -> u32
    ensures { result ≡ max a b }
{
    if a < b { b } else { a }
}

/// The bits of all slots, after the header, for an architecture.
#[derive(Clone, Copy)]
pub(crate) struct Slots<'a> {
    /// The version.
    pub format: Format,
    /// The architecture.
    pub arch: &'a Arch,
    /// The bytes after the header.
    pub body: &'a [u8],
    /// The number of slots.
    pub ii: usize,
    /// The number of bits of a slot.
    pub len: usize,
    ghost fit: { AreSlots format arch.now body.now ii len },
}

impl Slots<'_> {
    ghost use Rattle.std.specs.Prelude.{◌≡◌, ◌+◌, ◌*◌, ◌<◌, ◌≤◌, ◌^◌, length};
    ghost use Rattle.cg_model.specs.Canonical.{stage_of, greatest_of};
    ghost use Rattle.cg_flat.specs.Slots.{select_bits};
    ghost use Rattle.cg_bits.specs.Numbers.{bits_of_bytes};
    ghost use Rattle.cg_bits.specs.Parts.{joined};
    ghost use Rattle.cg_bits.specs.Format.{unit_len};
    ghost use Rattle.cg_bits.specs.Reading.{select_place, unit_place};
    ghost use Rattle.cg_bits.specs.Faults.{first};
    ghost use Rattle.cg_bits.specs.Checks.{fields_there, select_faults, slot_faults, slot_stage, padding_faults};

    /// Returns where the select of `resource` in `slot` begins, in bits from the first slot.
    pub fn select_place(&self, resource: u32, slot: usize) -> usize
        requires resource { resource < length self.now.arch.now.resources }
        requires slot { slot < self.now.ii }
        ensures place { result ≡ select_place self.now.format self.now.arch.now resource slot }
        ensures inside { result + select_bits self.now.arch.now resource ≤ self.now.ii * self.now.len }
    {
        slot * self.len + self.arch.select_at(resource) as usize
    }

    /// Returns where the fields of `unit` in `slot` begin, in bits from the first slot.
    pub fn unit_place(&self, unit: u32, slot: usize) -> usize
        requires unit { unit < length self.now.arch.now.units }
        requires slot { slot < self.now.ii }
        ensures place { result ≡ unit_place self.now.format self.now.arch.now unit slot }
        ensures inside { result + unit_len self.now.format self.now.arch.now unit ≤ self.now.ii * self.now.len }
    {
        let narrower = 6 - self.format.op_bits as usize;
        slot * self.len + self.arch.unit_at(unit) as usize - unit as usize * narrower
    }

    /// Returns the first select in `slot` that is above the number of drivers.
    fn bad_select_in(&self, slot: usize) -> Option<usize>
        requires { slot < self.now.ii }
        ensures { result ≡ first (select_faults self.now.format self.now.arch.now (bits_of_bytes self.now.body.now) slot) }
    {
        for (r, resource) in self.arch.resources().iter().enumerate() {
            let place = self.select_place(r as u32, slot);
            let value = number_at(self.body, place, self.arch.select_bits(r as u32));
            if value as usize > resource.drivers.as_slice().len() {
                return Some(HEADER_BITS + place);
            }
        }
        None
    }

    /// Returns the first select that is above the number of drivers.
    pub fn bad_select(&self) -> Option<usize>
        ensures { result ≡ first (joined (select_faults self.now.format self.now.arch.now (bits_of_bytes self.now.body.now)) self.now.ii) }
    {
        for slot in 0..self.ii {
            if let Some(place) = self.bad_select_in(slot) {
                return Some(place);
            }
        }
        None
    }

    /// Returns the first bit in `slot` that the check `check` finds at fault.
    fn bad_unit_in(&self, check: UnitCheck, slot: usize) -> Option<usize>
        requires { slot < self.now.ii }
        ensures { result ≡ first (slot_faults self.now.format self.now.arch.now (bits_of_bytes self.now.body.now) check slot) }
    {
        for (x, unit) in self.arch.units().iter().enumerate() {
            let at = self.unit_place(x as u32, slot);
            if let Some(place) = unit_fault(check, self.format, unit, self.body, at) {
                return Some(place);
            }
        }
        None
    }

    /// Returns the first bit that the check `check` finds at fault.
    pub fn bad_unit(&self, check: UnitCheck) -> Option<usize>
        ensures { result ≡ first (joined (slot_faults self.now.format self.now.arch.now (bits_of_bytes self.now.body.now) check) self.now.ii) }
    {
        for slot in 0..self.ii {
            if let Some(place) = self.bad_unit_in(check, slot) {
                return Some(place);
            }
        }
        None
    }

    /// Returns the stage of `unit` in `slot`, 0 where it is off.
    fn stage(&self, unit: u32, slot: usize) -> u32
        requires unit { unit < length self.now.arch.now.units }
        requires slot { slot < self.now.ii }
        ensures { result ≡ stage_of (fields_there self.now.format self.now.arch.now (bits_of_bytes self.now.body.now) slot unit) }
    {
        let at = self.unit_place(unit, slot);
        match op_of(self.format, number_at(self.body, at, self.format.op_bits)) {
            Some(_) => number_at(self.body, at + self.format.op_bits as usize, 16),
            None => 0,
        }
    }

    /// Returns the greatest stage in `slot`, or 0.
    fn last_stage_in(&self, slot: usize) -> u32
        requires { slot < self.now.ii }
        ensures { result ≡ slot_stage self.now.format self.now.arch.now (bits_of_bytes self.now.body.now) slot }
    {
        let mut last = 0;
        for x in 0..self.arch.units().len() {
            last = greater(last, self.stage(x as u32, slot));
        }
        last
    }

    /// Returns the greatest stage, or 0.
    pub fn last_stage(&self) -> u32
        ensures { result ≡ greatest_of (slot_stage self.now.format self.now.arch.now (bits_of_bytes self.now.body.now)) self.now.ii }
    {
        let mut last = 0;
        for slot in 0..self.ii {
            last = greater(last, self.last_stage_in(slot));
        }
        last
    }

    /// Returns the first bit that is set after the slots, in the last byte.
    pub fn set_padding(&self) -> Option<usize>
        ensures { result ≡ first (padding_faults self.now.format self.now.arch.now self.now.body.now self.now.ii) }
    {
        let end = self.ii * self.len;
        let spare = (end + 7) / 8 * 8 - end;
        for i in 0..spare {
            if number_at(self.body, end + i, 1) == 1 {
                return Some(HEADER_BITS + (end + i));
            }
        }
        None
    }
}
