//! The data kept with a valid architecture.
ghost use Rattle.std.specs.Prelude.{◌≡◌, IfOk};
ghost use Rattle.cg_model.specs.Array.{IsArch};
ghost use Rattle.cg_levelize.specs.Topological.{IsTopological};
ghost use Rattle.cg_arch.specs.Kept.{digest_of};

use crate::arch::Arch;
use cg_flat::{Flat, flat_text, select_starts, unit_starts};
use cg_model::Words;
use sha2::{Digest, Sha256};
use std::alloc::{AllocError, Global};

/// Returns the valid architecture of `flat`, with its digest, the order of evaluation `order`, and the positions of
/// selects and units in a slot.
pub fn keep(alloc: Global, flat: Flat, order: Words) -> Result<Arch, AllocError>
    requires valid { IsArch flat }
    requires order { IsTopological flat.resources order }
    ensures { IfOk result (λ arch. arch ≡ flat) }
{
    let digest = digest_of(alloc, &flat)?;
    let selects = select_starts(alloc, &flat)?;
    let first = selects.as_slice()[flat.resources().len()];
    let units = unit_starts(alloc, &flat, first)?;
    Ok(Arch::new(flat, digest, order, selects, units))
}

/// Returns the SHA-256 of an architecture's text.
#[tactic(auto, unfolding(crate::specs::Kept::digest_of))]
fn digest_of(alloc: Global, flat: &Flat) -> Result<[u8; 32], AllocError>
    ensures { IfOk result (λ digest. digest ≡ digest_of flat.now) }
{
    let text = flat_text(alloc, flat)?;
    Ok(Sha256::digest(text.as_slice()))
}
