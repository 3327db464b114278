//! Reads an architecture from bytes.
ghost use Rattle.std.specs.Prelude.{◌≡◌, ◌≢◌, IfOk, IfErr, IsErrOf, Ok, Err};
ghost use Rattle.toml.specs.View.{view};
ghost use Rattle.cg_model.specs.Array.{IsArch};
ghost use Rattle.cg_parts.specs.declared.parts.Parts.{Parts};
ghost use Rattle.cg_tiles.specs.Alike.{AnswersFor};
ghost use Rattle.cg_tiles.specs.Answer as spec;
ghost use Rattle.cg_grid.specs.Written as spelled;

use crate::counting::has_many_resources;
use crate::elements::parts_of;
use crate::lean::lean;
use crate::room::MakingFault;
use cg_arch::Arch;
use cg_grid::{TilesFault, WrittenArch, first_fault, written_of};
use cg_parts::{ArchFault, Parts, TooLargePlace};
use cg_reading::Misfit;
use cg_toml::{TomlFault, toml_table};
use cg_validate::validate;
use std::alloc::Global;
use toml::Value;

/// Returns the architecture that the tiles of a file define, or the lowest fault that applies, at its first place: M1
/// to M6, then A1 for a grid of more than 32 rows or columns, and then what `validate` says of the parts. Where links
/// without delay form loops (A6), any one of these may be reported.
pub fn read_arch(alloc: Global, bytes: &[u8]) -> Result<Arch, TilesFault>
    ensures answer { spec.IsAnswer bytes.now result }
    ensures valid { IfOk result IsArch }
    ensures no_memory { ¬ IsErrOf result (TilesFault.Parts ArchFault.Memory) }
{
    match parts_spelled(alloc, bytes) {
        Ok(parts) => match validate(alloc, &parts) {
            Ok(arch) => Ok(arch),
            Err(ArchFault::Memory) => Err(TilesFault::Memory),
            Err(fault) => Err(TilesFault::Parts(fault)),
        },
        Err(fault) => Err(fault),
    }
}

/// Returns parts that validate with the same result as the parts that `bytes` describe. Parts with too many resources
/// or links aren't made.
fn parts_spelled(alloc: Global, bytes: &[u8]) -> Result<Parts, TilesFault>
    ensures spelled { IfOk result (λ parts. (others : Parts) × (spec.parts_spelled bytes.now ≡ Ok others) × AnswersFor parts others) }
    ensures refused { IfErr result (λ fault. fault ≢ TilesFault.Memory → spec.IsRefused (spec.parts_spelled bytes.now) fault) }
{
    let written = written_spelled(alloc, bytes)?;
    judged(alloc, written)
}

/// Returns the description in `bytes`, and frees their TOML table.
#[tactic(auto, unfolding(crate::specs::Answer::parts_spelled))]
fn written_spelled(alloc: Global, bytes: &[u8]) -> Result<WrittenArch, TilesFault>
    ensures read { IfOk result (λ written. spec.parts_spelled bytes.now ≡ spec.judged written) }
    ensures refused { IfErr result (λ fault. fault ≢ TilesFault.Memory → spec.parts_spelled bytes.now ≡ Err fault) }
{
    match toml_table(alloc, bytes) {
        Ok(value) => written_in(alloc, &value),
        Err(TomlFault::NotToml) => Err(TilesFault::NotToml),
        Err(TomlFault::Memory) => Err(TilesFault::Memory),
    }
}

fn written_in(alloc: Global, value: &Value) -> Result<WrittenArch, TilesFault>
    ensures read { IfOk result (λ written. spec.parts_written (spelled.written_of (view value.now)) ≡ spec.judged written) }
    ensures refused { IfErr result (λ fault. fault ≢ TilesFault.Memory → spec.parts_written (spelled.written_of (view value.now)) ≡ Err fault) }
{
    match written_of(alloc, value) {
        Ok(written) => Ok(written),
        Err(Misfit::WrongShape(place)) => Err(TilesFault::WrongShape(place)),
        Err(Misfit::Memory) => Err(TilesFault::Memory),
    }
}

/// Returns parts that validate with the same result as those described; or the first of M3 to M6 that applies, or else
/// A1 for the grid, resources and links.
#[tactic(auto, unfolding(crate::specs::Answer::judged))]
fn judged(alloc: Global, written: WrittenArch) -> Result<Parts, TilesFault>
    ensures judged { IfOk result (λ parts. (others : Parts) × (spec.judged written ≡ Ok others) × AnswersFor parts others) }
    ensures refused { IfErr result (λ fault. fault ≢ TilesFault.Memory → spec.IsRefused (spec.judged written) fault) }
{
    if let Some(fault) = first_fault(&written) {
        return Err(fault);
    }
    if has_many_resources(&written) {
        return Err(too_large(TooLargePlace::Resources));
    }
    match parts_of(alloc, lean(alloc, written)?) {
        Ok(parts) => Ok(parts),
        Err(MakingFault::Memory) => Err(TilesFault::Memory),
        Err(MakingFault::TooManyLinks) => Err(too_large(TooLargePlace::Links)),
    }
}

fn too_large(place: TooLargePlace) -> TilesFault
    ensures { result ≡ TilesFault.Parts (ArchFault.TooLarge place) }
{
    TilesFault::Parts(ArchFault::TooLarge(place))
}
