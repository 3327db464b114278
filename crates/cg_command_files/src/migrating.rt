//! `migrate ARCH BITS OUT`.
ghost use Rattle.std.specs.Prelude.{◌≡◌, IfOk};
ghost use Rattle.cg_model.specs.Canonical.{IsCanonical};
ghost use Rattle.cg_cause.specs.Allowed.{Allows};
ghost use Rattle.cg_effects.specs.Outcome.{file_of};
ghost use Rattle.cg_bits.specs.Answers.{answer_in};
ghost use Rattle.cg_bits.specs.Format.{cgb1};
ghost use Rattle.cg_command_files.specs.Migrate.{IsMigrate, IsRewritten, MigrateBits, migrate_report};

use cg_arch::Arch;
use cg_bits::{BitsFault, Config, Contexts, read_bits_1, write_bits};
use cg_cause::{Cause, Stop};
use cg_effects::{File, Outcome, Status};
use cg_inputs::arch_in;
use std::alloc::{AllocError, Global};

/// Returns the outcome of `migrate`: the configuration in `file`, which is encoded in the first format for the
/// architecture in `arch`, to be written in the current format under the name `out`.
pub fn migrate(alloc: Global, arch: &File, file: &File, out: &str) -> Result<Outcome, Stop>
    ensures { Allows (IsMigrate (file_of arch.now) (file_of file.now) out.now) result }
{
    let array = arch_in(alloc, arch)?;
    migrated(alloc, &array, file, out)
}

/// Returns the outcome for `array`: the configuration of it in `file`, to be written under `out`.
fn migrated(alloc: Global, array: &Arch, file: &File, out: &str) -> Result<Outcome, Stop>
    ensures { Allows (λ o. MigrateBits array.now (file_of file.now).name out.now o
        (answer_in cgb1 array.now (file_of file.now).bytes)) result }
{
    match read_bits_1(alloc, array, file.bytes.as_slice()) {
        Ok(config) => rewritten(alloc, array, &config, out),
        Err(BitsFault::Memory) => Err(Stop::Memory),
        Err(fault) => Err(Stop::refused(alloc, file, Cause::FirstBits(fault))),
    }
}

/// Returns the outcome for `config`, a configuration of `array`: its bits, to be written under `out`, and the report on
/// them.
fn rewritten(alloc: Global, array: &Arch, config: &Config, out: &str) -> Result<Outcome, Stop>
    requires { IsCanonical array.now config.now }
    ensures { Allows (IsRewritten array.now config.now out.now) result }
{
    let bits = write_bits(alloc, array, config)?;
    let report = migrate_report(alloc, config, bits.as_slice())?;
    Ok(Outcome::with_file(alloc, Status::Done, report, out, bits)?)
}

/// Returns the report on `config` and its bits: its interval in cycles, its number of stages, and the number of bytes
/// of `bits`.
fn migrate_report(alloc: Global, config: &Config, bits: &[u8]) -> Result<Vec<u8>, AllocError>
    ensures { IfOk result (λ v. v.items ≡ migrate_report config.now bits.now) }
{
    let ii = config.ii();
    let stages = config.stages();
    let bytes = bits.len();
    let report = format!(in alloc; "ii {ii}\nstages {stages}\nbytes {bytes}\n")?;
    Ok(report.into_bytes())
}
