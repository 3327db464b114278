//! Checks the slots of a bitstream against an architecture.
ghost use Rattle.std.specs.Prelude.{◌≡◌, ◌+◌, ◌*◌, ◌<◌, ◌≤◌, ◌^◌, nat_le, length};
ghost use Rattle.cg_model.specs.Canonical.{offered};
ghost use Rattle.cg_bits.specs.Numbers.{number_at, bits_of_bytes};
ghost use Rattle.cg_bits.specs.Format.{op_of, args_at, arg_len};
ghost use Rattle.cg_bits.specs.Ranges.{IsFormat};
ghost use Rattle.cg_bits.specs.Faults.{first, unless};
ghost use Rattle.cg_bits.specs.Checks.{unit_faults};

use crate::field::number_at;
use crate::format::Format;
use crate::reading::{op_of, unit_at};
use crate::rules::unit_breach;
use cg_model::Unit;

/// The number of bits before the first slot, which are those of the header.
pub(crate) const HEADER_BITS: usize = 320;

/// A check on the fields of a unit.
#[derive(Clone, Copy, Debug, PartialEq, Eq)]
pub(crate) enum UnitCheck {
    /// An operation code above the greatest.
    Code,
    /// An operation that the unit doesn't offer.
    Offer,
    /// A field that breaks a rule of canonical configurations.
    Fields,
}

/// Returns the first bit at fault of a unit that begins at a place.
#[tactic(auto, unfolding(crate::specs::Reading::unit_in))]
pub(crate) fn unit_fault(
    check: UnitCheck,
    format: Format,
    unit: &Unit,
    body: &[u8],
    at: usize,
) -> Option<usize>
    requires known { IsFormat format }
    requires few { length unit.now.ports ≤ 3 }
    requires inside { at + (args_at format + length unit.now.ports * arg_len) ≤ 8 * length body.now }
    requires counted { at < 2 ^ 50 }
    ensures { result ≡ first (unit_faults check format unit.now (bits_of_bytes body.now) at) }
{
    let ports = unit.ports.as_slice().len();
    match check {
        UnitCheck::Code => bad_code(format, body, at),
        UnitCheck::Offer => not_offered(format, unit, body, at),
        UnitCheck::Fields => {
            let fields = unit_at(format, body, at, ports);
            unit_breach(format, ports, &fields, HEADER_BITS + at)
        }
    }
}

fn bad_code(format: Format, body: &[u8], at: usize) -> Option<usize>
    requires known { IsFormat format }
    requires inside { at + args_at format ≤ 8 * length body.now }
    requires counted { at < 2 ^ 50 }
    ensures { result ≡ first (unless (nat_le (number_at (bits_of_bytes body.now) at format.op_bits) format.greatest) (320 + at)) }
{
    if number_at(body, at, format.op_bits) > format.greatest {
        Some(HEADER_BITS + at)
    } else {
        None
    }
}

fn not_offered(format: Format, unit: &Unit, body: &[u8], at: usize) -> Option<usize>
    requires known { IsFormat format }
    requires inside { at + args_at format ≤ 8 * length body.now }
    requires counted { at < 2 ^ 50 }
    ensures { result ≡ first (unless (offered unit.now.ops (op_of format (number_at (bits_of_bytes body.now) at format.op_bits))) (320 + at)) }
{
    match op_of(format, number_at(body, at, format.op_bits)) {
        Some(op) if !unit.ops.has(op) => Some(HEADER_BITS + at),
        _ => None,
    }
}
