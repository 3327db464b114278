//! Bytes that are cut, and bytes with one bit inverted: tables and the view of the bytes behave alike. And runs of too
//! many iterations.
ghost use Rattle.cg_model.specs.Canonical.{IsCanonical};

use cg_arch::Arch;
use cg_bits::{BitsFault, Config, Contexts, read_bits, write_bits};
use cg_config::is_canonical;
use cg_model::Kernel;
use cg_pad::{Image, write_image};
use cg_sim::{Sim, SimFault};
use cg_turns::{TurnsFault, run_turns};
use cg_view::ConfigView;
use std::alloc::{AllocError, Global};

/// The bits of a byte, the most significant one first.
const BITS: [u8; 8] = [0x80, 0x40, 0x20, 0x10, 0x08, 0x04, 0x02, 0x01];

/// Returns `bytes` with the bit `bit` of the byte at `place` inverted.
fn turned(alloc: Global, bytes: &[u8], place: usize, bit: u8) -> Result<Vec<u8>, AllocError> {
    let mut copy = Vec::new(alloc);
    for (other, byte) in bytes.iter().enumerate() {
        copy.push(if other == place { *byte ^ bit } else { *byte })?;
    }
    Ok(copy)
}

/// Runs `turns` iterations of the canonical configuration `config` from `image`, and returns what they leave, as the
/// bytes of an image; None where they can't be run.
pub(crate) fn left_by<C: Contexts>(
    alloc: Global,
    arch: &Arch,
    config: &C,
    turns: u32,
    image: &Image,
) -> Result<Option<Vec<u8>>, AllocError>
    requires { IsCanonical arch.now (C.config config.now) }
{
    match Sim::new(alloc, arch, config, turns, image) {
        Ok(sim) => {
            let mut run = sim;
            run.finish();
            Ok(Some(write_image(alloc, &run.into_image())?))
        }
        Err(SimFault::Memory) => Err(AllocError),
        Err(_) => Ok(None),
    }
}

/// Checks whether the bytes of a configuration of two slots in which all is off are an interval of 2, one stage, and
/// zeros.
pub(crate) fn two_slots_that_are_off(alloc: Global, arch: &Arch) -> Result<bool, AllocError> {
    if arch.contexts() < 2 {
        return Ok(false);
    }
    let config = Config::new(alloc, arch, 2)?;
    let mut bytes = Vec::from_slice(alloc, b"CGB2\x00\x02\x00\x01")?;
    bytes.extend_from_slice(&arch.digest())?;
    bytes.extend_from_slice(&[0; 82])?;
    Ok(write_bits(alloc, arch, &config)? == bytes)
}

/// Checks whether a configuration in which all is off is recognised as canonical, and one without slots and with one
/// stage too many isn't.
pub(crate) fn tells_canonical(alloc: Global, arch: &Arch) -> Result<bool, AllocError> {
    if arch.contexts() < 2 {
        return Ok(false);
    }
    let config = Config::new(alloc, arch, 2)?;
    let other = Config::from_rows(2, 2, Vec::new(alloc), Vec::new(alloc));
    Ok(is_canonical(arch, &config) && !is_canonical(arch, &other))
}

/// Checks whether tables and view report for all proper prefixes of `bytes` that they are truncated.
pub(crate) fn cut_bytes_are_truncated(
    alloc: Global,
    arch: &Arch,
    bytes: &[u8],
) -> Result<bool, AllocError> {
    for length in 0..bytes.len() {
        let cut = &bytes[..length];
        let fault = Some(BitsFault::Truncated(length));
        if ConfigView::of(arch, cut).err() != fault || read_bits(alloc, arch, cut).err() != fault {
            return Ok(false);
        }
    }
    Ok(true)
}

/// Checks whether tables and view both refuse `bytes` with the same fault, or both accept them, write them back and run
/// five iterations alike.
fn answer_alike(alloc: Global, arch: &Arch, bytes: &[u8]) -> Result<bool, AllocError> {
    match (read_bits(alloc, arch, bytes), ConfigView::of(arch, bytes)) {
        (Ok(tables), Ok(view)) => leave_alike(alloc, arch, bytes, &tables, &view),
        (tables, view) => Ok(tables.err() == view.err()),
    }
}

/// Checks whether `tables` and `view` are written back and run five iterations alike.
fn leave_alike(
    alloc: Global,
    arch: &Arch,
    bytes: &[u8],
    tables: &Config,
    view: &ConfigView<'_>,
) -> Result<bool, AllocError>
    requires tables { IsCanonical arch.now tables.now }
    requires view { IsCanonical arch.now view.now }
{
    let image = Image::empty(alloc)?;
    let left = left_by(alloc, arch, tables, 5, &image)?;
    let other = left_by(alloc, arch, view, 5, &image)?;
    let written = write_bits(alloc, arch, tables)?;
    Ok(written.as_slice() == bytes && left.is_some() && left == other)
}

/// Inverts each bit of `bytes` in turn, and returns how often tables and view don't behave alike, and how many of the
/// changed bytes are accepted.
pub(crate) fn bits_turned_over(
    alloc: Global,
    arch: &Arch,
    bytes: &[u8],
) -> Result<(u32, u32), AllocError> {
    let mut unlike = 0_u32;
    let mut taken = 0_u32;
    for place in 0..bytes.len() {
        for bit in BITS {
            let other = turned(alloc, bytes, place, bit)?;
            if !answer_alike(alloc, arch, other.as_slice())? {
                unlike = unlike.saturating_add(1);
            }
            if ConfigView::of(arch, other.as_slice()).is_ok() {
                taken = taken.saturating_add(1);
            }
        }
    }
    Ok((unlike, taken))
}

/// Checks whether a run of a million and one iterations is refused, by the array and by the kernel.
pub(crate) fn too_many_turns(
    alloc: Global,
    arch: &Arch,
    kernel: &Kernel,
    bytes: &[u8],
) -> Result<bool, AllocError> {
    let Ok(config) = ConfigView::of(arch, bytes) else {
        return Ok(false);
    };
    let image = Image::empty(alloc)?;
    let run = Sim::new(alloc, arch, &config, 1_000_001, &image).err();
    let turns = run_turns(alloc, kernel, 1_000_001, &image).err();
    Ok(
        run == Some(SimFault::TooManyTurns(1_000_001))
            && matches!(turns, Some(TurnsFault::TooManyTurns(1_000_001))),
    )
}
