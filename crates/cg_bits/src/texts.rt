//! The texts of the faults of bits in reports.
ghost use Rattle.std.specs.Prelude.{◌≡◌, ◌++◌, IfOk, codes, string_bytes};
ghost use Rattle.hex.specs.Hex.{encode_lower};
ghost use Rattle.cg_bits.specs.Texts.{fault_text, bits_fault_text, first_fault_text};

use crate::fault::{Bits1Fault, BitsFault};
use std::alloc::{AllocError, Global};

/// Returns code, name and place of `fault`, for example `B8 NotCanonical bit 48`. Out of memory has none of them.
pub fn bits_fault_text(alloc: Global, fault: BitsFault) -> Result<String, AllocError>
    ensures { IfOk result (λ s. string_bytes s ≡ bits_fault_text fault) }
{
    fault_text(alloc, "B", fault)
}

/// Returns code, name and place of `fault`, a fault of bits of the first format, for example `C8 NotCanonical bit 48`.
/// Out of memory has none of them.
pub fn first_fault_text(alloc: Global, fault: Bits1Fault) -> Result<String, AllocError>
    ensures { IfOk result (λ s. string_bytes s ≡ first_fault_text fault) }
{
    fault_text(alloc, "C", fault)
}

/// Returns the text of `fault`, whose code begins with `letter`.
fn fault_text(alloc: Global, letter: &str, fault: BitsFault) -> Result<String, AllocError>
    ensures { IfOk result (λ s. string_bytes s ≡ fault_text letter.now fault) }
{
    match fault {
        BitsFault::Memory => Ok(String::new(alloc)),
        BitsFault::Magic => format!(in alloc; "{letter}1 Magic byte 0"),
        BitsFault::Truncated(length) => format!(in alloc; "{letter}2 Truncated length {length}"),
        BitsFault::ArchMismatch(file, architecture) => {
            digests_text(alloc, letter, file, architecture)
        }
        BitsFault::BadHeader(ii, stages) => {
            format!(in alloc; "{letter}4 BadHeader ii {ii} stages {stages}")
        }
        BitsFault::BadSelect(bit) => format!(in alloc; "{letter}5 BadSelect bit {bit}"),
        BitsFault::BadOp(bit) => format!(in alloc; "{letter}6 BadOp bit {bit}"),
        BitsFault::NotOffered(bit) => format!(in alloc; "{letter}7 NotOffered bit {bit}"),
        BitsFault::NotCanonical(bit) => format!(in alloc; "{letter}8 NotCanonical bit {bit}"),
        BitsFault::BadPadding(bit) => format!(in alloc; "{letter}9 BadPadding bit {bit}"),
        BitsFault::Trailing(byte) => format!(in alloc; "{letter}10 Trailing byte {byte}"),
        BitsFault::RepeatedPort(bit) => format!(in alloc; "{letter}11 RepeatedPort bit {bit}"),
    }
}

/// Returns the text of the fault that a file is for another architecture, where both are given by their digests.
fn digests_text(
    alloc: Global,
    letter: &str,
    file: [u8; 32],
    architecture: [u8; 32],
) -> Result<String, AllocError>
    ensures { IfOk result (λ s. string_bytes s ≡ letter.now ++ (codes "3 ArchMismatch file " ++ (encode_lower file ++ (codes " architecture " ++ encode_lower architecture)))) }
{
    let file = hex::encode(alloc, file)?;
    let architecture = hex::encode(alloc, architecture)?;
    let file = file.as_str();
    let architecture = architecture.as_str();
    format!(in alloc; "{letter}3 ArchMismatch file {file} architecture {architecture}")
}
