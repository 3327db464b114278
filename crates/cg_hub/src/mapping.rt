//! The legal mapping.
ghost use Rattle.std.specs.Prelude.{◌≡◌, IfOk};
ghost use Rattle.cg_hub.specs.Hub.{HubEnough, hub_map};

use crate::schedule::Schedule;
use cg_arch::Arch;
use cg_check::LegalMapping;
use cg_model::Kernel;
use std::alloc::{AllocError, Global};

/// Returns the mapping over the hub, at the interval `ii`, at which the hub suffices.
pub fn hub_mapping<'a>(
    alloc: Global,
    arch: &'a Arch,
    kernel: &'a Kernel,
    ii: u32,
) -> Result<LegalMapping<'a>, AllocError>
    requires enough { HubEnough arch.now kernel.now ii }
    ensures { IfOk result (λ m. m ≡ record { arch = arch.now; kernel = kernel.now; mapping = hub_map arch.now kernel.now ii }) }
{
    arch.contexts();
    kernel.nodes();
    let schedule = Schedule::new(alloc, arch, kernel, ii)?;
    let mapping = schedule.into_mapping(alloc)?;
    Ok(LegalMapping::new(arch, kernel, mapping))
}
