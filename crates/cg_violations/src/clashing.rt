//! The violations of L6 and L7: what routes that meet on a resource in a slot must share.
ghost use Rattle.std.specs.Prelude.{◌≡◌, ◌++◌, ◌+◌, ◌*◌, ◌<◌, ◌≤◌, length, OnOk};
ghost use Rattle.cg_list_laws.specs.Below.{lists_below};
ghost use Rattle.cg_check.specs.Claims.{alike, is_clash as is_clash_in, rule_of as rule_by};
ghost use Rattle.cg_violations.specs.Cells as cells;
ghost use Rattle.cg_violations.specs.Violations as spec;

use crate::mappings::Mapped;
use crate::placing::{is_interval, push_if};
use cg_check::{Cell, Rule, RulePlace, Sharing, Violation, all_claims};
use std::alloc::{AllocError, Global};

/// Returns whether `cell` has two values that don't share what they must.
fn is_clash(cell: Cell) -> bool
    ensures { result ≡ is_clash_in cell }
{
    match cell {
        Cell::Free | Cell::Held(_) => false,
        Cell::Clash => true,
    }
}

/// Returns the rule that requires values to share `sharing`.
fn rule_of(sharing: Sharing) -> Rule
    ensures { result ≡ rule_by sharing }
{
    match sharing {
        Sharing::Value => Rule::L6,
        Sharing::Way => Rule::L7,
    }
}

/// Adds `rule` to `found` for each slot in which `table`, which has `ii` cells per resource, has a clash on `resource`.
fn push_row(
    found: &mut Vec<Violation>,
    table: &[Cell],
    ii: usize,
    rule: Rule,
    resource: usize,
) -> Result<(), AllocError>
    requires { resource * ii + ii ≤ length table.now }
    ensures { OnOk result (found.new.items ≡ found.old.items ++ cells.row_violations table.now ii rule resource) }
{
    for slot in 0..ii {
        let clash = is_clash(table[resource * ii + slot]);
        push_if(found, clash, rule, RulePlace::Resource { resource, slot })?;
    }
    Ok(())
}

/// Adds `rule` to `found` for each clash of `table`, which has `ii` cells for each of `resources` resources.
fn push_table(
    found: &mut Vec<Violation>,
    table: &[Cell],
    ii: usize,
    rule: Rule,
    resources: usize,
) -> Result<(), AllocError>
    requires { length table.now ≡ resources * ii }
    ensures { OnOk result (found.new.items ≡ found.old.items ++ lists_below (cells.row_violations table.now ii rule) resources) }
{
    for resource in 0..resources {
        push_row(found, table, ii, rule, resource)?;
    }
    Ok(())
}

/// Adds to `found` the violations by `mapped` of the rule that requires values to share `sharing`, if L1 is kept.
pub(crate) fn push_clashes(
    alloc: Global,
    found: &mut Vec<Violation>,
    sharing: Sharing,
    mapped: Mapped,
) -> Result<(), AllocError>
    ensures { OnOk result (found.new.items ≡ found.old.items ++ spec.violations_by (rule_by sharing) mapped.entry.arch.now mapped.entry.kernel.now mapped.entry.mapping.now) }
{
    if !is_interval(mapped.arch, mapped.mapping) {
        return Ok(());
    }
    push_all(alloc, found, sharing, mapped)?;
    Ok(())
}

/// Adds the violations by `mapped` of the rule for `sharing` to `found`.
fn push_all(
    alloc: Global,
    found: &mut Vec<Violation>,
    sharing: Sharing,
    mapped: Mapped,
) -> Result<(), AllocError>
    requires { 0 < mapped.mapping.now.ii }
    ensures { OnOk result (found.new.items ≡ found.old.items ++ spec.clash_violations (alike sharing) (rule_by sharing) mapped.entry.arch.now mapped.entry.kernel.now mapped.entry.mapping.now) }
{
    let Mapped {
        arch,
        kernel,
        mapping,
    } = mapped;
    let table = all_claims(alloc, sharing, arch, kernel, mapping)?;
    let resources = arch.resources().len();
    push_table(
        found,
        &table,
        mapping.ii() as usize,
        rule_of(sharing),
        resources,
    )?;
    Ok(())
}
