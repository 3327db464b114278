//! Carries that are not assigned exactly once.
ghost use Rattle.std.specs.Prelude.{◌≡◌, ◌<◌, ℕ, ◌&&◌, ◌||◌, not, false, [], length, drop, IfOk, None, Some, map, nat_eq, slice_index_or, if◌then◌else◌, EachIndex};
ghost use Rattle.std.specs.List.{list_any};
ghost use Rattle.cg_loop_syntax.specs.Uses as spec;
ghost use Rattle.cg_loop_reader.specs.Numbered.{uses_of};
ghost use Rattle.cg_loop_reader.specs.Assigned.{is_behind, IsLastAssigned};

use crate::numbering::{NumberedUse, NumberedUses};
use cg_loop_syntax::Role;
use std::alloc::{AllocError, Global};

/// Returns whether `found` is an index after `index`.
fn is_behind(found: Option<usize>, index: usize) -> bool
    ensures { result ≡ is_behind found index }
{
    match found {
        Some(found) => index < found,
        None => false,
    }
}

/// Records that `used`, the use at `index`, may be the last assignment of its name.
fn note_last(last: &mut Vec<Option<usize>>, index: usize, used: NumberedUse)
    requires { used.name < length last.old.items }
    ensures length { length last.new.items ≡ length last.old.items }
    ensures last { (name : ℕ) → slice_index_or last.new.items name None
        ≡ (if spec.is_assign used.role && nat_eq used.name name then Some index else slice_index_or last.old.items name None) }
{
    if used.role == Role::Assign {
        last[used.name] = Some(index);
    }
}

/// Finds the last assignment of each name.
fn last_assigned(alloc: Global, numbered: &NumberedUses) -> Result<Vec<Option<usize>>, AllocError>
    ensures length { IfOk result (λ last. length last.items ≡ numbered.now.names) }
    ensures last { IfOk result (λ last. IsLastAssigned last.items numbered.now.uses.items) }
{
    let mut last = vec![in alloc; None; numbered.names]?;
    for (index, used) in numbered.uses.iter().enumerate() {
        note_last(&mut last, index, *used);
    }
    Ok(last)
}

/// Marks the name that `used` assigns, if any, as assigned.
fn assign(assigned: &mut Vec<bool>, used: NumberedUse)
    requires { used.name < length assigned.old.items }
    ensures length { length assigned.new.items ≡ length assigned.old.items }
    ensures assigned { (name : ℕ) → slice_index_or assigned.new.items name false ≡ (slice_index_or assigned.old.items name false || (spec.is_assign used.role && nat_eq used.name name)) }
{
    if used.role == Role::Assign {
        assigned[used.name] = true;
    }
}

/// Returns whether a use in the role `role` is at fault, where `before` and `behind` say whether its name is assigned
/// before and after it.
fn is_misassigned(role: Role, before: bool, behind: bool) -> bool
    ensures { result ≡ ((spec.is_carry (Some role) && not behind) || (spec.is_assign role && before)) }
{
    match role {
        Role::Carry => !behind,
        Role::Assign => before,
        _ => false,
    }
}

/// Finds the first carry that is not assigned after its declaration, or assignment of a carry that is assigned before.
pub(crate) fn first_misassigned(
    alloc: Global,
    numbered: &NumberedUses,
) -> Result<Option<usize>, AllocError>
    ensures { IfOk result (λ found. found ≡ spec.first_where spec.is_misassigned [] (uses_of numbered.now)) }
{
    let last = last_assigned(alloc, numbered)?;
    let mut assigned = vec![in alloc; false; numbered.names]?;
    for (index, used) in numbered.uses.iter().enumerate() {
        let behind = is_behind(last[used.name], index);
        if is_misassigned(used.role, assigned[used.name], behind) {
            return Ok(Some(used.place));
        }
        assign(&mut assigned, *used);
    }
    Ok(None)
}
