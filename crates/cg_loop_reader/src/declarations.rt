//! Names that are not declared, and names that are declared again.
ghost use Rattle.std.specs.Prelude.{◌≡◌, ◌<◌, ℕ, ◌&&◌, [], length, IfOk, None, Some, is_some, nat_eq, slice_index_or, if◌then◌else◌};
ghost use Rattle.std.specs.Option.{option_or};
ghost use Rattle.cg_loop_syntax.specs.Uses as spec;
ghost use Rattle.cg_loop_reader.specs.Numbered.{uses_of};

use crate::numbering::{NumberedUse, NumberedUses};
use cg_loop_syntax::Role;
use std::alloc::{AllocError, Global};

/// Returns whether `role` declares its name.
fn declares(role: Role) -> bool
    ensures { result ≡ spec.declares role }
{
    matches!(role, Role::Array { .. } | Role::Carry | Role::Bind)
}

/// Returns whether a name that is declared in the role `known` may be used in the role `role`.
fn may(role: Role, known: Option<Role>) -> bool
    ensures { result ≡ spec.may role known }
{
    match role {
        Role::Scalar => matches!(known, Some(Role::Carry | Role::Bind)),
        Role::Item => matches!(known, Some(Role::Array { .. })),
        Role::Assign => matches!(known, Some(Role::Carry)),
        _ => true,
    }
}

/// Returns whether `role` redeclares a name that is declared in the role `known`.
fn repeats(role: Role, known: Option<Role>) -> bool
    ensures { result ≡ (spec.declares role && is_some known) }
{
    declares(role) && known.is_some()
}

/// Records what `used` declares, if its name is not declared before.
fn declare(known: &mut Vec<Option<Role>>, used: NumberedUse)
    requires { used.name < length known.old.items }
    ensures length { length known.new.items ≡ length known.old.items }
    ensures known { (name : ℕ) → slice_index_or known.new.items name None
        ≡ option_or (slice_index_or known.old.items name None) (if spec.declares used.role && nat_eq used.name name then Some used.role else None) }
{
    if declares(used.role) && known[used.name].is_none() {
        known[used.name] = Some(used.role);
    }
}

/// Finds the first name that is not declared before, or is declared for another use.
pub(crate) fn first_unknown(
    alloc: Global,
    numbered: &NumberedUses,
) -> Result<Option<usize>, AllocError>
    ensures { IfOk result (λ found. found ≡ spec.first_where spec.is_unknown [] (uses_of numbered.now)) }
{
    let mut known = vec![in alloc; None; numbered.names]?;
    for used in &numbered.uses {
        if !may(used.role, known[used.name]) {
            return Ok(Some(used.place));
        }
        declare(&mut known, *used);
    }
    Ok(None)
}

/// Finds the first declaration of a name that is declared before.
pub(crate) fn first_repeated(
    alloc: Global,
    numbered: &NumberedUses,
) -> Result<Option<usize>, AllocError>
    ensures { IfOk result (λ found. found ≡ spec.first_where spec.is_repeated [] (uses_of numbered.now)) }
{
    let mut known = vec![in alloc; None; numbered.names]?;
    for used in &numbered.uses {
        if repeats(used.role, known[used.name]) {
            return Ok(Some(used.place));
        }
        declare(&mut known, *used);
    }
    Ok(None)
}
