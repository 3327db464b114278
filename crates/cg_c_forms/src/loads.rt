//! Loads over again, under guards that may always or never hold.
ghost use Rattle.std.specs.Prelude.{◌≡◌, ◌<◌, length, IfOk};
ghost use Rattle.cg_c_values.specs.Listed.{listed};
ghost use Rattle.cg_c_values.specs.Values.{IsBelow};
ghost use Rattle.cg_c_forms.specs.Remade.{Adds, AddsLoadAt, IsLoadAt, IsPureOrLoad};

use cg_c_values::{Value, Values};
use std::alloc::AllocError;

/// Returns a load that acts where `guard` holds: one without a guard if that always holds, the constant 0 if it never
/// holds.
pub(crate) fn load(
    values: &mut Values,
    array: usize,
    version: usize,
    guard: Option<usize>,
    address: usize,
) -> Result<usize, AllocError>
    requires guard { IsBelow (length (listed values.now)) guard }
    requires address { address < length (listed values.now) }
    ensures kept { Adds IsPureOrLoad (listed values.old) (listed values.new) }
    ensures load { IfOk result (λ v. IsLoadAt (listed values.new) array version guard address v) }
    ensures place { IfOk result (λ v. AddsLoadAt (listed values.old) (listed values.new) v) }
{
    let guard = match guard {
        None => None,
        Some(guard) => match values.number(guard) {
            Some(0) => return values.add(Value::Const(0)),
            Some(_) => None,
            None => Some(guard),
        },
    };
    values.insert(Value::Loaded {
        array,
        version,
        guard,
        address,
    })
}
