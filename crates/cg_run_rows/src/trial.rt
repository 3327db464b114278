//! The trial of a seed: its parts, the bits of its mapping over the hub, read as tables and as a view, and the images
//! that a thousand iterations leave.
ghost use Rattle.std.specs.Prelude.{◌≡◌, IfOk, string_bytes};
ghost use Rattle.sha2.specs.Sha256.{sha256};
ghost use Rattle.hex.specs.Hex.{encode_lower};
ghost use Rattle.cg_hub.specs.Hub.{HubEnough};

use crate::alike::is_same;
use crate::bits::left_by;
use cg_arch::Arch;
use cg_bits::read_bits;
use cg_emit::emit;
use cg_hub::hub_mapping;
use cg_model::Operand;
use cg_pad::{Image, write_image};
use cg_trial::{Kernel, TrialParts, laws, trial_parts};
use cg_turns::{TurnsFault, run_turns};
use cg_view::ConfigView;
use cg_word::Op;
use sha2::{Digest, Sha256};
use std::alloc::{AllocError, Global};

/// The number of iterations of a run.
const TURNS: u32 = 1000;

/// The parts of a trial, and the bits of their mapping over the hub.
#[derive(Drop)]
pub(crate) struct Trial {
    pub(crate) parts: TrialParts,
    pub(crate) bits: Vec<u8>,
}

/// Returns the trial of `seed`.
pub(crate) fn trial_of(alloc: Global, seed: u64) -> Result<Trial, AllocError> {
    let parts = trial_parts(alloc, seed)?;
    laws::enough();
    let bits = hub_bits(alloc, &parts)?;
    Ok(Trial { parts, bits })
}

/// Checks whether `operand` is the value of the node `source`, `turns` iterations ago, with the initial words `words`.
fn is_edge(operand: &Operand, source: u32, turns: u32, words: &[u32]) -> bool {
    match operand {
        Operand::Const(_) => false,
        Operand::Edge {
            from,
            distance,
            init,
        } => *from == source && *distance == turns && init.as_slice() == words,
    }
}

/// Checks whether the last random node shifts `v5` by `v12` of two iterations ago, with initial words that another
/// program computed.
fn ends_with_shift(kernel: &Kernel) -> bool {
    match kernel.nodes().get(27) {
        Some(node) => match node.operands.as_slice() {
            [value, by] => matches!(node.op, Op::Shl)
                && is_edge(value, 5, 0, &[])
                && is_edge(by, 12, 2, &[721_041_334, 3_403_107_711]),
            _ => false,
        },
        None => false,
    }
}

/// Checks whether the parts are those of seed 1. Of the 2,572 bits of a slot, 96 registers and 12 ports have a select
/// of 7 each, and 4 units have 6 + 16 + 4 + 32 + 3 * 132 each.
pub(crate) fn are_parts_of_seed_1(parts: &TrialParts) -> bool {
    parts.kernel.nodes().len() == 32
        && ends_with_shift(&parts.kernel)
        && parts.arch.resources().len() == 112
        && parts.arch.hub().len() == 96
        && parts.arch.slot_bits() == 2572
        && parts.image.memory().len() == 256
}

/// Returns the bits of the mapping over the hub, at an interval of 64 cycles.
fn hub_bits(alloc: Global, parts: &TrialParts) -> Result<Vec<u8>, AllocError>
    requires { HubEnough parts.now.arch parts.now.kernel 64 }
{
    let legal = hub_mapping(alloc, &parts.arch, &parts.kernel, 64)?;
    emit(alloc, &legal)
}

/// Checks whether tables and view accept the bits, and agree in each select and in each field.
pub(crate) fn reads_alike(alloc: Global, arch: &Arch, bits: &[u8]) -> Result<bool, AllocError> {
    match (read_bits(alloc, arch, bits), ConfigView::of(arch, bits)) {
        (Ok(tables), Ok(view)) => Ok(is_same(arch, &tables, &view)),
        _ => Ok(false),
    }
}

/// Returns the image that the array leaves, as bytes; None where it can't be run.
pub(crate) fn run_image(
    alloc: Global,
    arch: &Arch,
    bits: &[u8],
    image: &Image,
) -> Result<Option<Vec<u8>>, AllocError> {
    match ConfigView::of(arch, bits) {
        Ok(view) => left_by(alloc, arch, &view, TURNS, image),
        Err(_) => Ok(None),
    }
}

/// Returns the image that the kernel's iterations leave, as bytes; None where there are too many iterations or the
/// image is too large for a file.
pub(crate) fn turns_image(
    alloc: Global,
    kernel: &Kernel,
    image: &Image,
) -> Result<Option<Vec<u8>>, AllocError> {
    match run_turns(alloc, kernel, TURNS, image) {
        Ok(done) => {
            if done.image.is_storable() {
                Ok(Some(write_image(alloc, &done.image)?))
            } else {
                Ok(None)
            }
        }
        Err(TurnsFault::Memory) => Err(AllocError),
        Err(_) => Ok(None),
    }
}

/// Returns the SHA-256 of `bytes`, as hexadecimal text.
pub(crate) fn digest_text(alloc: Global, bytes: &[u8]) -> Result<String, AllocError>
    ensures { IfOk result (λ s. string_bytes s ≡ encode_lower (sha256 bytes.now)) }
{
    hex::encode(alloc, Sha256::digest(bytes))
}
