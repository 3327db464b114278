//! Writes the bytes that encode a configuration.
ghost use Rattle.std.specs.Prelude.{◌≡◌, ℕ, ◌<◌, ◌≤◌, ◌^◌, ◌++◌, List, OnOk, IfOk, length, replicate, false};
ghost use Rattle.cg_model.specs.Array.{IsArch};
ghost use Rattle.cg_model.specs.Config.{select, fields};
ghost use Rattle.cg_arch.specs.Kept.{digest_of};
ghost use Rattle.cg_model.specs.Canonical.{IsCanonical};
ghost use Rattle.cg_flat.specs.Slots.{select_bits};
ghost use Rattle.cg_bits.specs.Numbers.{bits_of, bits_of_bytes};
ghost use Rattle.cg_bits.specs.Parts.{joined};
ghost use Rattle.cg_bits.specs.Format.{cgb2, code_of, ports};
ghost use Rattle.cg_bits.specs.Spelling.{arg_bits, unit_bits, slots, AreBits};
ghost use Rattle.cg_bits.specs.Ranges.{HasRanges, IsBytes};

use crate::writer::BitWriter;
use cg_arch::Arch;
use cg_config::{ArgFields, Config, Contexts, UnitFields};
use cg_word::Op;
use std::alloc::{AllocError, Global};

/// Returns the code of `op`, 0 for none.
fn code_of(op: Option<Op>) -> u32
    ensures { result ≡ code_of op }
{
    match op {
        Some(op) => op.code(),
        None => 0,
    }
}

fn push_arg(writer: &mut BitWriter, arg: &ArgFields) -> Result<(), AllocError>
    requires { arg.now.count < 8 }
    ensures { OnOk result (writer.new ≡ writer.old ++ arg_bits arg.now) }
{
    writer.push(u32::from(arg.fixed), 1)?;
    writer.push(arg.count, 3)?;
    for word in &arg.init {
        writer.push(*word, 32)?;
    }
    Ok(())
}

/// Writes the fields of a unit with `ports` ports.
fn push_unit(writer: &mut BitWriter, ports: usize, fields: &UnitFields) -> Result<(), AllocError>
    requires { HasRanges cgb2 ports fields.now }
    ensures { OnOk result (writer.new ≡ writer.old ++ unit_bits cgb2 ports fields.now) }
{
    writer.push(code_of(fields.op), 6)?;
    writer.push(fields.stage, 16)?;
    writer.push(fields.port, 4)?;
    writer.push(fields.immediate, 32)?;
    for arg in &fields.args[..ports] {
        push_arg(writer, arg)?;
    }
    Ok(())
}

/// Writes the selects of a slot.
fn push_selects(
    writer: &mut BitWriter,
    arch: &Arch,
    config: &Config,
    slot: usize,
) -> Result<(), AllocError>
    requires canonical { IsCanonical arch.now config.now }
    requires slot { slot < config.now.ii }
    ensures { OnOk result (writer.new ≡ writer.old ++ joined (λ r. bits_of (select_bits arch.now r) (select config.now r slot)) (length arch.now.resources)) }
{
    let selects = config.selects_in(slot);
    for r in 0..arch.resources().len() {
        writer.push(selects[r], arch.select_bits(r as u32))?;
    }
    Ok(())
}

/// Writes the fields of all units in a slot.
fn push_fields(
    writer: &mut BitWriter,
    arch: &Arch,
    config: &Config,
    slot: usize,
) -> Result<(), AllocError>
    requires canonical { IsCanonical arch.now config.now }
    requires slot { slot < config.now.ii }
    ensures { OnOk result (writer.new ≡ writer.old ++ joined (λ x. unit_bits cgb2 (ports arch.now x) (fields config.now x slot)) (length arch.now.units)) }
{
    let fields = config.fields_in(slot);
    for (x, unit) in arch.units().iter().enumerate() {
        push_unit(writer, unit.ports.as_slice().len(), &fields[x])?;
    }
    Ok(())
}

/// Returns the bits of all slots, in whole bytes.
fn body_of(alloc: Global, arch: &Arch, config: &Config) -> Result<Vec<u8>, AllocError>
    requires { IsCanonical arch.now config.now }
    ensures { IfOk result (λ v. (padding : ℕ) × (padding < 8) × (bits_of_bytes v.items ≡ slots cgb2 arch.now config.now ++ replicate padding false)) }
{
    let mut writer = BitWriter::new(Vec::new(alloc));
    for slot in 0..config.ii() as usize {
        push_selects(&mut writer, arch, config, slot)?;
        push_fields(&mut writer, arch, config, slot)?;
    }
    writer.finish()
}

/// Returns the digest of `arch`, which is valid.
fn valid_digest(arch: &Arch) -> [u8; 32]
    ensures digest { result ≡ digest_of arch.now }
    ensures sized { length (digest_of arch.now) ≡ 32 }
    ensures valid { IsArch arch.now }
{
    let _contexts = arch.contexts();
    arch.digest()
}

/// States that each item of a list of bytes is below 256.
fn are_bytes(_bytes: &[u8])
    ensures { IsBytes _bytes.now }
{}

/// Returns the one file of bits that encodes `config`.
pub fn write_bits(alloc: Global, arch: &Arch, config: &Config) -> Result<Vec<u8>, AllocError>
    requires { IsCanonical arch.now config.now }
    ensures bits { IfOk result (λ v. AreBits arch.now config.now v.items) }
    // No other bytes encode it.
    ensures only { IfOk result (λ v. (bytes : List ℕ) → IsBytes bytes → AreBits arch.now config.now bytes → bytes ≡ v.items) }
{
    let digest = valid_digest(arch);
    let body = body_of(alloc, arch, config)?;
    let mut bytes = Vec::new(alloc);
    bytes.extend_from_slice(b"CGB2")?;
    bytes.extend_from_slice(&(config.ii() as u16).to_be_bytes())?;
    bytes.extend_from_slice(&(config.stages() as u16).to_be_bytes())?;
    bytes.extend_from_slice(&digest)?;
    bytes.extend_from_slice(&body)?;
    are_bytes(&bytes);
    Ok(bytes)
}
