//! The rules of canonical configurations on the fields of a unit.
ghost use Rattle.std.specs.Prelude.{◌≡◌, ◌+◌, ◌*◌, ◌<◌, ◌≤◌, ◌^◌};
ghost use Rattle.cg_bits.specs.Parts.{joined};
ghost use Rattle.cg_bits.specs.Ranges.{IsFormat};
ghost use Rattle.cg_bits.specs.Faults.{first, arg_breaches, unit_breaches};
ghost use Rattle.cg_bits.specs.Checks.{arg_faults};

use crate::format::Format;
use cg_config::{
    ArgFields, UnitFields, arity_of, count_right, immediate_right, mode_right, port_right,
    stage_right, word_right,
};

/// Returns the first field of `arg` that breaks a rule, by its bit; the argument begins at place `at`. `used` says
/// whether the operation has the argument, and `fixed_before` whether one before it is fixed.
fn arg_breach(arg: &ArgFields, used: bool, fixed_before: bool, at: usize) -> Option<usize>
    requires { at < 2 ^ 59 }
    ensures { result ≡ first (arg_faults arg.now used fixed_before at) }
{
    if !mode_right(arg, used, fixed_before) {
        return Some(at);
    }
    if !count_right(arg, used) {
        return Some(at + 1);
    }
    for k in 0..4 {
        if !word_right(arg, used, k) {
            return Some(at + 4 + k * 32);
        }
    }
    None
}

/// Returns the first field of the first `ports` arguments that breaks a rule, by its bit; the arguments begin at place
/// `at`.
fn args_breach(fields: &UnitFields, ports: usize, at: usize) -> Option<usize>
    requires few { ports ≤ 3 }
    requires counted { at < 2 ^ 58 }
    ensures { result ≡ first (joined (λ p. arg_breaches fields.now p (at + p * 132)) ports) }
{
    let arity = arity_of(fields.op);
    let mut fixed_before = false;
    for p in 0..ports {
        let arg = &fields.args[p];
        if let Some(place) = arg_breach(arg, p < arity, fixed_before, at + p * 132) {
            return Some(place);
        }
        fixed_before |= arg.fixed;
    }
    None
}

/// Returns the first field of a unit with `ports` ports that breaks a rule, by its bit; the unit begins at place `at`.
pub(crate) fn unit_breach(
    format: Format,
    ports: usize,
    fields: &UnitFields,
    at: usize,
) -> Option<usize>
    requires known { IsFormat format }
    requires few { ports ≤ 3 }
    requires counted { at < 2 ^ 57 }
    ensures { result ≡ first (unit_breaches format ports fields.now at) }
{
    let stage_at = at + format.op_bits as usize;
    if !stage_right(fields) {
        return Some(stage_at);
    }
    if !port_right(fields) {
        return Some(stage_at + 16);
    }
    if !immediate_right(fields) {
        return Some(stage_at + 20);
    }
    args_breach(fields, ports, stage_at + 52)
}
