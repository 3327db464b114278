//! `flat ARCH OUT`.
ghost use Rattle.std.specs.Prelude.{◌≡◌, ◌≤◌, IfOk};
ghost use Rattle.cg_model.specs.Limits.{most_links};
ghost use Rattle.cg_model.specs.Array.{links};
ghost use Rattle.cg_cause.specs.Allowed.{Allows};
ghost use Rattle.cg_effects.specs.Outcome.{file_of};
ghost use Rattle.cg_command_run.specs.Flat.{IsFlat, flat_report, flattened};

use cg_arch::{Arch, Resource, flat_text};
use cg_cause::Stop;
use cg_effects::{File, Outcome, Status};
use cg_inputs::arch_in;
use std::alloc::{AllocError, Global};

/// Returns the outcome of `flat`: the text of the architecture in `file`, to be written under the name `out`.
pub fn flat(alloc: Global, file: &File, out: &str) -> Result<Outcome, Stop>
    ensures { Allows (IsFlat (file_of file.now) out.now) result }
{
    let arch = arch_in(alloc, file)?;
    flattened(alloc, &arch, out)
}

/// Returns the outcome for `arch`: its text, to be written under `out`, and the report on it.
fn flattened(alloc: Global, arch: &Arch, out: &str) -> Result<Outcome, Stop>
    ensures { Allows (λ o. o ≡ flattened arch.now out.now) result }
{
    let report = flat_report(alloc, arch)?;
    let text = flat_text(alloc, arch)?;
    Ok(Outcome::with_file(alloc, Status::Done, report, out, text)?)
}

/// Returns the report on `arch`: the numbers of its resources, units and links, and the digest of its text.
fn flat_report(alloc: Global, arch: &Arch) -> Result<Vec<u8>, AllocError>
    ensures { IfOk result (λ v. v.items ≡ flat_report arch.now) }
{
    let resources = arch.resources().len();
    let units = arch.units().len();
    let links = count_links(arch.resources());
    let text = hex::encode(alloc, arch.digest())?;
    let digest = text.as_str();
    let report = format!(in alloc;
        "resources {resources}\nunits {units}\nlinks {links}\ndigest {digest}\n"
    )?;
    Ok(report.into_bytes())
}

/// Counts the links into `resources`, that is, their drivers.
#[tactic(auto, unfolding(cg_model::specs::Array::links))]
fn count_links(resources: &[Resource]) -> usize
    requires { links resources.now ≤ most_links }
    ensures { result ≡ links resources.now }
{
    let mut count = 0;
    for resource in resources {
        count += resource.drivers.as_slice().len();
    }
    count
}
