//! All violations, rule by rule.
ghost use Rattle.std.specs.Prelude.{◌≡◌, IfOk};
ghost use Rattle.cg_model.specs.Mapping.{IsShaped};
ghost use Rattle.cg_violations.specs.Violations.{violations_of, AreAll};

use crate::clashing::push_clashes;
use crate::mappings::Mapped;
use crate::placing::{push_interval, push_order, push_routes, push_units};
use crate::sharing::push_shared;
use cg_arch::Arch;
use cg_check::{Sharing, Violation};
use cg_model::{Kernel, Mapping};
use std::alloc::{AllocError, Global};

/// Returns all violations of the rules by `mapped`, in the rules' order.
fn collected(alloc: Global, mapped: Mapped) -> Result<Vec<Violation>, AllocError>
    requires { IsShaped mapped.kernel.now mapped.mapping.now }
    ensures { IfOk result (λ found. found.items ≡ violations_of mapped.entry.arch.now mapped.entry.kernel.now mapped.entry.mapping.now) }
{
    let Mapped {
        arch,
        kernel,
        mapping,
    } = mapped;
    let mut found = Vec::new(alloc);
    push_interval(&mut found, arch, mapping)?;
    push_units(&mut found, arch, kernel, mapping)?;
    push_shared(alloc, &mut found, arch, kernel, mapping)?;
    push_order(&mut found, kernel, mapping)?;
    push_routes(&mut found, arch, kernel, mapping)?;
    push_clashes(alloc, &mut found, Sharing::Value, mapped)?;
    push_clashes(alloc, &mut found, Sharing::Way, mapped)?;
    Ok(found)
}

/// Returns all violations of the rules L1 to L7 by `mapping` on `arch`: rule by rule, and within a rule by place. If L1
/// is violated, the rules of slots (L3, L6 and L7) aren't checked. Time and memory are linear in the nodes, the lengths
/// of the routes, and the resources and units in all slots.
pub fn violations(
    alloc: Global,
    arch: &Arch,
    kernel: &Kernel,
    mapping: &Mapping,
) -> Result<Vec<Violation>, AllocError>
    requires shape { IsShaped kernel.now mapping.now }
    ensures exact { IfOk result (λ found. found.items ≡ violations_of arch.now kernel.now mapping.now) }
    ensures all { IfOk result (λ found. AreAll arch.now kernel.now mapping.now found.items) }
{
    let _valid_arch = arch.units();
    let _valid_kernel = kernel.nodes();
    let mapped = Mapped {
        arch,
        kernel,
        mapping,
    };
    let found = collected(alloc, mapped)?;
    Ok(found)
}
