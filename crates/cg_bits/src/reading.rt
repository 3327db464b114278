//! Reads the fields of units in place.
ghost use Rattle.std.specs.Prelude.{◌≡◌, ◌+◌, ◌*◌, ◌<◌, ◌≤◌, ◌^◌, length};
ghost use Rattle.cg_bits.specs.Numbers.{bits_of_bytes};
ghost use Rattle.cg_bits.specs.Format.{op_of, args_at, arg_len};
ghost use Rattle.cg_bits.specs.Reading.{arg_in, unit_in};
ghost use Rattle.cg_bits.specs.Ranges.{IsFormat};

use crate::field::number_at;
use crate::format::Format;
use cg_config::{ArgFields, NO_ARG, UnitFields};
use cg_word::Op;

/// Returns the operation with the code `code`: None for 0, and for codes above the greatest one.
pub fn op_of(format: Format, code: u32) -> Option<Op>
    requires { IsFormat format }
    ensures { result ≡ op_of format code }
{
    if code == 0 || code > format.greatest {
        return None;
    }
    Some(Op::ALL[code as usize - 1])
}

/// Returns the argument at place `at` in the bits.
pub fn arg_at(bytes: &[u8], at: usize) -> ArgFields
    requires inside { at + arg_len ≤ 8 * length bytes.now }
    requires counted { at < 2 ^ 59 }
    ensures { result ≡ arg_in (bits_of_bytes bytes.now) at }
{
    ArgFields {
        fixed: number_at(bytes, at, 1) == 1,
        count: number_at(bytes, at + 1, 3),
        init: [
            number_at(bytes, at + 4, 32),
            number_at(bytes, at + 36, 32),
            number_at(bytes, at + 68, 32),
            number_at(bytes, at + 100, 32),
        ],
    }
}

/// Returns the fields of a unit with `ports` ports, at place `at` in the bits.
pub fn unit_at(format: Format, bytes: &[u8], at: usize, ports: usize) -> UnitFields
    requires known { IsFormat format }
    requires few { ports ≤ 3 }
    requires inside { at + (args_at format + ports * arg_len) ≤ 8 * length bytes.now }
    requires counted { at < 2 ^ 58 }
    ensures { result ≡ unit_in format ports (bits_of_bytes bytes.now) at }
{
    let stage_at = at + format.op_bits as usize;
    let mut args = [NO_ARG; 3];
    for p in 0..ports {
        args[p] = arg_at(bytes, stage_at + 52 + p * 132);
    }
    UnitFields {
        op: op_of(format, number_at(bytes, at, format.op_bits)),
        stage: number_at(bytes, stage_at, 16),
        port: number_at(bytes, stage_at + 16, 4),
        immediate: number_at(bytes, stage_at + 20, 32),
        args,
    }
}
