//! The layout of the fields of a slot.
ghost use Rattle.std.specs.Prelude.{◌≡◌, ◌+◌, ◌*◌, ◌<◌, ◌≤◌, ◌^◌, IfOk, length};
ghost use Rattle.cg_model.specs.Array as arrays;
ghost use Rattle.cg_flat.specs.Slots as spec;

use crate::flat::Flat;
use cg_model::Words;
use std::alloc::{AllocError, Global};

/// Returns the width of a select among `drivers`, in bits: the least width with a value for each driver and one more.
pub fn select_bits(drivers: &[u32]) -> u32
    requires { length drivers.now < 2 ^ 32 }
    ensures small { result ≤ 32 }
    ensures value { result ≡ spec.width (length drivers.now) }
    ensures least { spec.IsWidth (length drivers.now) result }
{
    32 - (drivers.len() as u32).leading_zeros()
}

/// Returns where the select of each resource begins in a slot, in bits, and where the last select ends.
pub fn select_starts(alloc: Global, flat: &Flat) -> Result<Words, AllocError>
    requires { arrays.IsSmall flat.now }
    ensures starts { IfOk result (λ starts. starts ≡ spec.all_select_at flat.now) }
    ensures few { IfOk result (λ _. spec.select_at flat.now (length flat.now.resources) ≤ 131072) }
{
    let mut starts = Vec::new(alloc);
    let mut start = 0;
    for resource in flat.resources() {
        starts.push(start)?;
        start += select_bits(resource.drivers.as_slice());
    }
    starts.push(start)?;
    Ok(Words::new(starts))
}

/// Returns the number of bits of a unit's fields.
fn unit_bits(ports: &[u32]) -> u32
    requires { length ports.now ≤ 3 }
    ensures small { result ≤ 454 }
    ensures value { result ≡ 58 + length ports.now * 132 }
{
    58 + ports.len() as u32 * 132
}

/// Returns where the fields of each unit begin in a slot, in bits, and where the last ones end. The selects end at
/// `first`.
pub fn unit_starts(alloc: Global, flat: &Flat, first: u32) -> Result<Words, AllocError>
    requires valid { arrays.IsArch flat.now }
    requires first { first ≡ spec.select_at flat.now (length flat.now.resources) }
    requires few { first ≤ 131072 }
    ensures { IfOk result (λ starts. starts ≡ spec.all_unit_at flat.now) }
{
    let mut starts = Vec::new(alloc);
    let mut start = first;
    for unit in flat.units() {
        starts.push(start)?;
        start += unit_bits(unit.ports.as_slice());
    }
    starts.push(start)?;
    Ok(Words::new(starts))
}
