//! Checks whether bytes are a bitstream for an architecture.
ghost use Rattle.std.specs.Prelude.{◌≡◌, ℕ, ◌+◌, ◌*◌, ◌/◌, length, Ok, IfOk};
ghost use Rattle.cg_model.specs.Array.{IsArch};
ghost use Rattle.cg_model.specs.Config.{Config};
ghost use Rattle.cg_bits.specs.Spelling.{AreBits};
ghost use Rattle.cg_bits.specs.Answers.{faults_of, config_of, unless_fault};
ghost use Rattle.cg_bits.specs.Rising.{PlacesRise};
ghost use Rattle.cg_arch.specs.Kept.{digest_of};
ghost use Rattle.cg_bits.specs.Ranges.{IsFormat};
ghost use Rattle.cg_bits.specs.Numbers.{bits_of_bytes};
ghost use Rattle.cg_bits.specs.Format.{slot_len};
ghost use Rattle.cg_bits.specs.Faults.{faults};
ghost use Rattle.cg_bits.specs.Checks.{Checks, field_faults, end_faults};

use crate::all_slots::Slots;
use crate::checking::UnitCheck;
use crate::fault::BitsFault;
use crate::format::{CGB2, Format};
use crate::header::{HEADER, check_start, ii_in, size, slot_len, stages_in};
use crate::ports::repeated_port;
use cg_arch::Arch;

/// The place of the header's stages.
const STAGES_BIT: usize = 48;

/// Checks the selects and the fields of all units.
fn check_fields(slots: &Slots<'_>, stages: u32) -> Result<(), BitsFault>
    ensures { Checks result (field_faults slots.now.format slots.now.arch.now (bits_of_bytes slots.now.body.now) slots.now.ii stages) }
{
    if let Some(place) = slots.bad_select() {
        return Err(BitsFault::BadSelect(place));
    }
    if let Some(place) = slots.bad_unit(UnitCheck::Code) {
        return Err(BitsFault::BadOp(place));
    }
    if let Some(place) = slots.bad_unit(UnitCheck::Offer) {
        return Err(BitsFault::NotOffered(place));
    }
    if u64::from(stages) != 1 + u64::from(slots.last_stage()) {
        return Err(BitsFault::NotCanonical(STAGES_BIT));
    }
    if let Some(place) = slots.bad_unit(UnitCheck::Fields) {
        return Err(BitsFault::NotCanonical(place));
    }
    Ok(())
}

/// Checks what follows the slots in a file of `long` bytes, and the ports of outputs.
fn check_end(slots: &Slots<'_>, long: usize, size: usize) -> Result<(), BitsFault>
    requires { size ≡ 40 + (slots.now.ii * slot_len slots.now.format slots.now.arch.now + 7) / 8 }
    ensures { Checks result (end_faults slots.now.format slots.now.arch.now slots.now.body.now slots.now.ii long) }
{
    if let Some(place) = slots.set_padding() {
        return Err(BitsFault::BadPadding(place));
    }
    if long > size {
        return Err(BitsFault::Trailing(size));
    }
    if let Some(place) = repeated_port(slots) {
        return Err(BitsFault::RepeatedPort(place));
    }
    Ok(())
}

/// Returns the first fault of `bytes` as a bitstream of `format`.
pub(crate) fn check(format: Format, arch: &Arch, bytes: &[u8]) -> Result<(), BitsFault>
    requires { IsFormat format }
    ensures faults { Checks result (faults format arch.now (digest_of arch.now) bytes.now) }
    ensures valid { IsArch arch.now }
    ensures sized { length (digest_of arch.now) ≡ 32 }
{
    let len = slot_len(format, arch);
    let digest = arch.digest();
    check_start(format, arch, &digest, len, bytes)?;
    let ii = ii_in(bytes);
    let slots = Slots {
        format,
        arch,
        body: &bytes[HEADER..],
        ii: ii as usize,
        len,
    };
    check_fields(&slots, stages_in(bytes))?;
    check_end(&slots, bytes.len(), size(ii, len))
}

/// Checks whether `bytes` are a `CGB2` bitstream for `arch`; the error is the lowest fault at its least place. It
/// allocates no memory, and never returns `Memory`.
pub fn check_bits(arch: &Arch, bytes: &[u8]) -> Result<(), BitsFault>
    ensures answer { result ≡ unless_fault (faults_of arch.now bytes.now) tt }
    ensures valid { IsArch arch.now }
    // Where there is no fault, they are a bitstream of the configuration that is read.
    ensures bits { IfOk result (λ _. AreBits arch.now (config_of arch.now bytes.now) bytes.now) }
    // A bitstream of any configuration has no fault, and is read as that configuration.
    ensures all { (C : Config) → AreBits arch.now C bytes.now → (result ≡ Ok tt) × (config_of arch.now bytes.now ≡ C) }
    // The bits of each fault are listed in ascending order, so that the first of them is the least.
    ensures rising { PlacesRise arch.now bytes.now }
{
    check(CGB2, arch, bytes)
}
