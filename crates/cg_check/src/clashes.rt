//! The first clash in a table of claims.
ghost use Rattle.std.specs.Prelude.{◌≡◌, ◌+◌, ◌*◌, ◌<◌, ◌≤◌, IfOk, length, replicate};
ghost use Rattle.cg_model.specs.Mapping.{positions};
ghost use Rattle.cg_check.specs.Claims as spec;
ghost use Rattle.cg_check.specs.Rules.{violated};

use crate::claims::claim_all;
use crate::rule::RulePlace;
use crate::stop::{Cell, Sharing};
use cg_arch::Arch;
use cg_model::{Kernel, Mapping};
use std::alloc::{AllocError, Global};

/// Returns `resource` in `slot`, if it has a clash there.
fn clash_at(table: &[Cell], ii: usize, resource: usize, slot: usize) -> Option<RulePlace>
    requires slot { slot < ii }
    requires table { resource * ii + ii ≤ length table.now }
    ensures { result ≡ spec.clash_at table.now ii resource slot }
{
    match table[resource * ii + slot] {
        Cell::Free | Cell::Held(_) => None,
        Cell::Clash => Some(RulePlace::Resource { resource, slot }),
    }
}

/// Returns `resource` in the least slot in which it has a clash.
fn clash_on(table: &[Cell], ii: usize, resource: usize) -> Option<RulePlace>
    requires { resource * ii + ii ≤ length table.now }
    ensures { result ≡ spec.clash_on table.now ii resource }
{
    for slot in 0..ii {
        let clash = clash_at(table, ii, resource, slot);
        if clash.is_some() {
            return clash;
        }
    }
    None
}

/// Returns the least resource that has a clash.
fn clash_in(table: &[Cell], ii: usize, resources: usize) -> Option<RulePlace>
    requires { length table.now ≡ resources * ii }
    ensures { result ≡ spec.clash_in table.now ii resources }
{
    for resource in 0..resources {
        let clash = clash_on(table, ii, resource);
        if clash.is_some() {
            return clash;
        }
    }
    None
}

/// Returns the cell of every resource in every slot of the interval, after the stops of all routes are claimed: that of
/// resource r in slot s at index r * interval + s. Values must share what `sharing` requires.
pub fn all_claims(
    alloc: Global,
    sharing: Sharing,
    arch: &Arch,
    kernel: &Kernel,
    mapping: &Mapping,
) -> Result<Vec<Cell>, AllocError>
    requires { 0 < mapping.now.ii }
    ensures value { IfOk result (λ table. table.items ≡ spec.claims sharing mapping.now.ii (replicate (length arch.now.resources * mapping.now.ii) Cell.Free) (positions arch.now kernel.now mapping.now)) }
    ensures long { IfOk result (λ table. length table.items ≡ length arch.now.resources * mapping.now.ii) }
{
    let cells = arch.resources().len() * mapping.ii() as usize;
    let mut table = vec![in alloc; Cell::Free; cells]?;
    claim_all(&mut table, sharing, arch, kernel, mapping);
    Ok(table)
}

/// Returns the least resource, and on it the least slot, where values meet that don't share what `sharing` requires.
pub(crate) fn first_clash(
    alloc: Global,
    sharing: Sharing,
    arch: &Arch,
    kernel: &Kernel,
    mapping: &Mapping,
) -> Result<Option<RulePlace>, AllocError>
    requires { 0 < mapping.now.ii }
    ensures { IfOk result (λ place. place ≡ violated (spec.rule_of sharing) arch.now kernel.now mapping.now) }
{
    let table = all_claims(alloc, sharing, arch, kernel, mapping)?;
    let resources = arch.resources().len();
    Ok(clash_in(&table, mapping.ii() as usize, resources))
}
