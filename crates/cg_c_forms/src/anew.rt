//! Values over again.
ghost use Rattle.std.specs.Prelude.{◌≡◌, ◌≤◌, length, IfOk};
ghost use Rattle.cg_c_values.specs.Listed.{listed};
ghost use Rattle.cg_c_values.specs.Values.{MayStand};
ghost use Rattle.cg_c_forms.specs.Forms.{IsForm, Renames};
ghost use Rattle.cg_c_forms.specs.Remade.{Adds, AddsLoadAt, AddsLoadFor, AllWithin, IsNew};

use crate::digits::{any_quotient, digit};
use crate::loads::load;
use cg_c_values::{Value, Values};
use std::alloc::{AllocError, Global};

/// New values, and the new value of each old one by its number.
#[derive(Drop)]
pub struct Anew {
    pub values: Values,
    pub map: Vec<usize>,
}

/// Makes one of the values `old` again, where the earlier ones have the new numbers `map`, and returns its new number.
fn remade(
    values: &mut Values,
    old: &Values,
    map: &[usize],
    value: Value,
    turns: u32,
) -> Result<usize, AllocError>
    requires limited { turns ≤ 1000000 }
    requires stands { MayStand (length map.now) value }
    requires within { AllWithin (listed values.now) map.now }
    ensures kept { Adds (IsForm turns) (listed values.old) (listed values.new) }
    ensures load { AddsLoadFor (listed values.old) (listed values.new) value }
    ensures place { IfOk result (λ v. AddsLoadAt (listed values.old) (listed values.new) v) }
    ensures new { IfOk result (λ v. IsNew (listed old.now) (listed values.new) turns map.now value v) }
{
    match value {
        Value::Const(word) => values.constant(word),
        // the number of the turn is its digit of radix `turns`, and so 0 if there is one turn
        Value::Turn => digit(values, 1, turns, turns),
        Value::Quotient(divisor) => any_quotient(values, divisor, turns),
        Value::Digit { divisor, radix } => digit(values, divisor, radix, turns),
        Value::Loaded {
            array,
            version,
            guard,
            address,
        } => {
            let free = Value::Loaded {
                array,
                version,
                guard: None,
                address,
            };
            let guard = match guard {
                Some(guard) if old.find(free).is_none() => Some(values.tested(map[guard])),
                _ => None,
            };
            load(values, array, version, guard, map[address])
        }
        Value::Two { op, first, second } => values.two(op, map[first], map[second]),
        Value::Select {
            condition,
            chosen,
            other,
        } => values.select(map[condition], map[chosen], map[other]),
        Value::Carried(_) | Value::Input(_) => values.add(value),
    }
}

/// Returns the values over again, for a turn of which there are `turns`.
pub fn made_anew(alloc: Global, old: &Values, turns: u32) -> Result<Anew, AllocError>
    requires limited { turns ≤ 1000000 }
    ensures { IfOk result (λ r. Renames (listed old.now) (listed r.values) turns r.map.items) }
{
    let mut values = Values::new(alloc);
    let mut map = Vec::new(alloc);
    for v in 0..old.len() {
        let new = remade(&mut values, old, &map, old.value(v), turns)?;
        map.push(new)?;
    }
    Ok(Anew { values, map })
}
