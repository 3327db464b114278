//! The header of a bitstream.
ghost use Rattle.std.specs.Prelude.{◌≡◌, ◌+◌, ◌*◌, ◌/◌, ◌<◌, ◌≤◌, ◌^◌, ◌++◌, length, take, drop, nat_eq, nat_lt, eqb, ◌||◌};
ghost use Rattle.cg_model.specs.Array.{IsArch};
ghost use Rattle.std.specs.List.{starts_with};
ghost use Rattle.cg_bits.specs.Spelling.{magic};
ghost use Rattle.cg_arch.specs.Kept.{digest_of};
ghost use Rattle.cg_bits.specs.Ranges.{IsFormat};
ghost use Rattle.cg_bits.specs.Format.{slot_len};
ghost use Rattle.cg_bits.specs.Reading.{ii_in, stages_in};
ghost use Rattle.cg_bits.specs.Faults.{other_digest, bad_header};
ghost use Rattle.cg_bits.specs.Checks.{Checks, start_faults};

use crate::fault::BitsFault;
use crate::format::Format;
use cg_arch::Arch;

/// The length of the header, in bytes.
pub const HEADER: usize = 40;

/// Returns the interval in a header.
pub fn ii_in(bytes: &[u8]) -> u32
    requires { 40 ≤ length bytes.now }
    ensures value { result ≡ ii_in bytes.now }
    ensures small { result < 65536 }
{
    u32::from(u16::from_be_bytes([bytes[4], bytes[5]]))
}

/// Returns the stages in a header.
pub fn stages_in(bytes: &[u8]) -> u32
    requires { 40 ≤ length bytes.now }
    ensures { result ≡ stages_in bytes.now }
{
    u32::from(u16::from_be_bytes([bytes[6], bytes[7]]))
}

/// Returns the number of bits of a slot.
pub(crate) fn slot_len(format: Format, arch: &Arch) -> usize
    requires { IsFormat format }
    ensures value { result ≡ slot_len format arch.now }
    ensures small { result < 2 ^ 32 }
    ensures valid { IsArch arch.now }
{
    arch.slot_bits() as usize - arch.units().len() * (6 - format.op_bits as usize)
}

/// Returns the number of bytes of the header and of `ii` slots of `len` bits each.
pub(crate) fn size(ii: u32, len: usize) -> usize
    requires many { ii < 65536 }
    requires long { len < 2 ^ 32 }
    ensures { result ≡ 40 + (ii * len + 7) / 8 }
{
    HEADER + (ii as usize * len + 7) / 8
}

/// Returns whether the first four bytes, or all where there are fewer, are a prefix of the format's magic.
fn begins(format: Format, bytes: &[u8]) -> bool
    ensures { result ≡ starts_with nat_eq (magic format) (take 4 bytes.now) }
{
    let magic = [b'C', b'G', b'B', format.sign];
    let first = &bytes[..bytes.len().min(magic.len())];
    magic.starts_with(first)
}

/// Returns the digest in a header.
fn digest_in(bytes: &[u8]) -> [u8; 32]
    requires { 40 ≤ length bytes.now }
    ensures { result ≡ take 32 (drop 8 bytes.now) }
{
    let mut digest = [0; 32];
    digest.copy_from_slice(&bytes[8..HEADER]);
    digest
}

/// Returns whether the interval `ii` or the stages `stages` are invalid.
fn header_wrong(contexts: u32, ii: u32, stages: u32) -> bool
    ensures { result ≡ (eqb ii 0 || (nat_lt contexts ii || eqb stages 0)) }
{
    ii == 0 || ii > contexts || stages == 0
}

/// Checks the digest, the interval and the stages of a header against an architecture, whose digest is given.
fn check_header(
    format: Format,
    arch: &Arch,
    digest: &[u8; 32],
    bytes: &[u8],
) -> Result<(), BitsFault>
    requires header { 40 ≤ length bytes.now }
    requires digest { digest.now ≡ digest_of arch.now }
    ensures { Checks result (other_digest format arch.now (digest_of arch.now) bytes.now ++ bad_header format arch.now (digest_of arch.now) bytes.now) }
{
    let file = digest_in(bytes);
    if file != *digest {
        return Err(BitsFault::ArchMismatch(file, *digest));
    }
    let ii = ii_in(bytes);
    let stages = stages_in(bytes);
    if header_wrong(arch.contexts(), ii, stages) {
        return Err(BitsFault::BadHeader(ii, stages));
    }
    Ok(())
}

/// Checks the header in `bytes` against `arch`, whose digest is `digest`, and whether the bytes hold the number of
/// slots that the header says, of `len` bits each.
pub(crate) fn check_start(
    format: Format,
    arch: &Arch,
    digest: &[u8; 32],
    len: usize,
    bytes: &[u8],
) -> Result<(), BitsFault>
    requires known { IsFormat format }
    requires digest { digest.now ≡ digest_of arch.now }
    requires len { len ≡ slot_len format arch.now }
    requires long { len < 2 ^ 32 }
    ensures { Checks result (start_faults format arch.now (digest_of arch.now) bytes.now) }
{
    if !begins(format, bytes) {
        return Err(BitsFault::Magic);
    }
    if bytes.len() < HEADER {
        return Err(BitsFault::Truncated(bytes.len()));
    }
    check_header(format, arch, digest, bytes)?;
    if bytes.len() < size(ii_in(bytes), len) {
        return Err(BitsFault::Truncated(bytes.len()));
    }
    Ok(())
}
