//! Reads configurations from bytes.
ghost use Rattle.std.specs.Prelude.{◌≡◌, ◌+◌, ◌*◌, ◌/◌, ◌<◌, ◌≤◌, map, length, Ok, IfOk};
ghost use Rattle.std.specs.List.{range_with_len};
ghost use Rattle.cg_model.specs.Answers.{Gives};
ghost use Rattle.cg_model.specs.Array.{IsArch};
ghost use Rattle.cg_arch.specs.Kept.{digest_of};
ghost use Rattle.cg_model.specs.Config as configs;
ghost use Rattle.cg_flat.specs.Slots.{select_bits};
ghost use Rattle.cg_bits.specs.Numbers.{number_at, bits_of_bytes};
ghost use Rattle.cg_bits.specs.Format.{cgb1, slot_len};
ghost use Rattle.cg_bits.specs.Ranges.{IsFormat};
ghost use Rattle.cg_bits.specs.Reading.{select_place, ii_in, config_at};
ghost use Rattle.cg_bits.specs.Spelling.{AreBits, AreFirstBits};
ghost use Rattle.cg_bits.specs.Answers.{answer_of, answer_in};
ghost use Rattle.cg_bits.specs.Checks.{fields_there};

use crate::all_slots::Slots;
use crate::check::check;
use crate::fault::{Bits1Fault, BitsFault};
use crate::field::number_at;
use crate::format::{CGB1, CGB2, Format};
use crate::header::{HEADER, ii_in, slot_len, stages_in};
use crate::reading::unit_at;
use cg_arch::Arch;
use cg_config::{Config, Row, UnitFields};
use std::alloc::{AllocError, Global};

/// Returns the selects of `slot`.
fn selects_row(alloc: Global, slots: &Slots<'_>, slot: usize) -> Result<Row<u32>, AllocError>
    requires { slot < slots.now.ii }
    ensures { IfOk result (λ row. row ≡ map (λ r. number_at (bits_of_bytes slots.now.body.now) (select_place slots.now.format slots.now.arch.now r slot) (select_bits slots.now.arch.now r)) (range_with_len 0 (length slots.now.arch.now.resources))) }
{
    let mut row = Vec::new(alloc);
    for r in 0..slots.arch.resources().len() {
        let place = slots.select_place(r as u32, slot);
        row.push(number_at(slots.body, place, slots.arch.select_bits(r as u32)))?;
    }
    Ok(Row::new(row))
}

/// Returns the fields of `slot`.
fn fields_row(alloc: Global, slots: &Slots<'_>, slot: usize) -> Result<Row<UnitFields>, AllocError>
    requires { slot < slots.now.ii }
    ensures { IfOk result (λ row. row ≡ map (fields_there slots.now.format slots.now.arch.now (bits_of_bytes slots.now.body.now) slot) (range_with_len 0 (length slots.now.arch.now.units))) }
{
    let mut row = Vec::new(alloc);
    for (x, unit) in slots.arch.units().iter().enumerate() {
        let at = slots.unit_place(x as u32, slot);
        let ports = unit.ports.as_slice().len();
        row.push(unit_at(slots.format, slots.body, at, ports))?;
    }
    Ok(Row::new(row))
}

/// Returns the selects of all slots.
fn selects_rows(alloc: Global, slots: &Slots<'_>) -> Result<Vec<Row<u32>>, AllocError>
    ensures { IfOk result (λ rows. rows.items ≡ map (λ slot. map (λ r. number_at (bits_of_bytes slots.now.body.now) (select_place slots.now.format slots.now.arch.now r slot) (select_bits slots.now.arch.now r)) (range_with_len 0 (length slots.now.arch.now.resources))) (range_with_len 0 slots.now.ii)) }
{
    let mut rows = Vec::new(alloc);
    for slot in 0..slots.ii {
        rows.push(selects_row(alloc, slots, slot)?)?;
    }
    Ok(rows)
}

/// Returns the fields of all slots.
fn fields_rows(alloc: Global, slots: &Slots<'_>) -> Result<Vec<Row<UnitFields>>, AllocError>
    ensures { IfOk result (λ rows. rows.items ≡ map (λ slot. map (fields_there slots.now.format slots.now.arch.now (bits_of_bytes slots.now.body.now) slot) (range_with_len 0 (length slots.now.arch.now.units))) (range_with_len 0 slots.now.ii)) }
{
    let mut rows = Vec::new(alloc);
    for slot in 0..slots.ii {
        rows.push(fields_row(alloc, slots, slot)?)?;
    }
    Ok(rows)
}

/// Returns the tables of `bytes`, which hold the header and all slots in `format`.
fn tables(alloc: Global, format: Format, arch: &Arch, bytes: &[u8]) -> Result<Config, AllocError>
    requires known { IsFormat format }
    requires header { 40 ≤ length bytes.now }
    requires whole { 40 + (ii_in bytes.now * slot_len format arch.now + 7) / 8 ≤ length bytes.now }
    ensures { IfOk result (λ config. config ≡ config_at format arch.now bytes.now) }
{
    let ii = ii_in(bytes);
    let slots = Slots {
        format,
        arch,
        body: &bytes[HEADER..],
        ii: ii as usize,
        len: slot_len(format, arch),
    };
    let selects = selects_rows(alloc, &slots)?;
    let units = fields_rows(alloc, &slots)?;
    Ok(Config::from_rows(ii, stages_in(bytes), selects, units))
}

/// Returns the configuration that `bytes` encode in `format` for `arch`, or why they encode none.
fn read(alloc: Global, format: Format, arch: &Arch, bytes: &[u8]) -> Result<Config, BitsFault>
    requires { IsFormat format }
    ensures answer { Gives BitsFault.Memory result (answer_in format arch.now bytes.now) }
    ensures valid { IsArch arch.now }
    ensures sized { length (digest_of arch.now) ≡ 32 }
{
    match check(format, arch, bytes) {
        Ok(()) => Ok(tables(alloc, format, arch, bytes)?),
        Err(fault) => Err(fault),
    }
}

/// Returns the configuration that `bytes` encode for `arch`, in tables, or why they encode none: the lowest fault at
/// its least place.
pub fn read_bits(alloc: Global, arch: &Arch, bytes: &[u8]) -> Result<Config, BitsFault>
    ensures answer { Gives BitsFault.Memory result (answer_of arch.now bytes.now) }
    ensures bits { IfOk result (λ config. AreBits arch.now config bytes.now) }
    ensures all { (C : configs.Config) → AreBits arch.now C bytes.now → Gives BitsFault.Memory result (Ok C) }
{
    read(alloc, CGB2, arch, bytes)
}

/// Returns the configuration that `bytes` encode in the first format for `arch`, in tables, or why they encode none:
/// the lowest fault at its least place.
pub fn read_bits_1(alloc: Global, arch: &Arch, bytes: &[u8]) -> Result<Config, Bits1Fault>
    ensures answer { Gives BitsFault.Memory result (answer_in cgb1 arch.now bytes.now) }
    ensures bits { IfOk result (λ config. AreFirstBits arch.now config bytes.now) }
    ensures all { (C : configs.Config) → AreFirstBits arch.now C bytes.now → Gives BitsFault.Memory result (Ok C) }
{
    read(alloc, CGB1, arch, bytes)
}
