//! The files that are written where a mapping was found.
ghost use Rattle.std.specs.Prelude.{◌≡◌, IfOk, map};
ghost use Rattle.cg_effects.specs.Outcome.{file_of, outcome_of};
ghost use Rattle.cg_command_map.specs.Searches as spec;
ghost use Rattle.cg_command_map.specs.Searches.{IsWritten, map_writes, outputs_of};

use cg_check::LegalMapping;
use cg_command::MapperCall;
use cg_effects::{File, Outcome, Status};
use cg_emit::emit as emit_bits;
use cg_mapping::print_mapping;
use std::alloc::{AllocError, Global};

/// Returns the outcome of `call` for `mapping`, with the report `report`: its bits, and its text, where a file is named
/// for it.
pub(crate) fn written(
    alloc: Global,
    mapping: &LegalMapping<'_>,
    report: Vec<u8>,
    call: &MapperCall<&File, &str>,
) -> Result<Outcome, AllocError>
    ensures { IfOk result (λ o. IsWritten (outputs_of call.now) mapping.now report.items (outcome_of o)) }
{
    let bytes = emit_bits(alloc, mapping)?;
    Ok(Outcome {
        status: Status::Done,
        report,
        writes: map_writes(alloc, mapping, bytes, call)?,
    })
}

/// Returns the files that `call` writes for `mapping`, whose bits are `bytes`.
fn map_writes(
    alloc: Global,
    mapping: &LegalMapping<'_>,
    bytes: Vec<u8>,
    call: &MapperCall<&File, &str>,
) -> Result<Vec<File>, AllocError>
    ensures { IfOk result (λ v. map file_of v.items ≡ map_writes (outputs_of call.now) mapping.now bytes.items) }
{
    match call.mapping {
        None => Ok(vec![in alloc; file_named(alloc, call.out, bytes)?]?),
        Some(name) => {
            let text = mapping_text(alloc, mapping)?;
            Ok(vec![in alloc;
                file_named(alloc, call.out, bytes)?,
                file_named(alloc, name, text)?,
            ]?)
        }
    }
}

/// Returns a file with the name `name` and the contents `bytes`.
fn file_named(alloc: Global, name: &str, bytes: Vec<u8>) -> Result<File, AllocError>
    ensures { IfOk result (λ f. file_of f ≡ record { name = name.now; bytes = bytes.items }) }
{
    Ok(File {
        name: String::from_str(alloc, name)?,
        bytes,
    })
}

/// Returns the text of `mapping`.
fn mapping_text(alloc: Global, mapping: &LegalMapping<'_>) -> Result<Vec<u8>, AllocError>
    ensures { IfOk result (λ v. v.items ≡ spec.mapping_text mapping.now) }
{
    let arch = mapping.arch();
    let _valid_arch = arch.units();
    let kernel = mapping.kernel();
    let _valid_kernel = kernel.nodes();
    print_mapping(alloc, arch, kernel, mapping.mapping())
}
