//! Identities of shifts.
ghost use Rattle.cg_c_values.specs.Plans.{IsShift, ShiftsBy};

use crate::plan::{Operand, Plan};
use crate::values::Values;
use cg_word::Op;

impl Values {
    ghost use Rattle.std.specs.Prelude.{◌≡◌, ◌<◌, length};
    ghost use Rattle.cg_word.specs.declared.op.Op.TheVariants as ops;
    ghost use Rattle.cg_word.specs.Word.{apply_of};
    ghost use Rattle.cg_c_values.specs.Listed.{listed};
    ghost use Rattle.cg_c_values.specs.Values.{Means};
    ghost use Rattle.cg_c_values.specs.Plans.{Gives, IsShift};

    /// Returns a plan for a shift of a value by another.
    pub(crate) fn plan_shift(&self, op: Op, first: usize, second: usize) -> Plan
        requires first { first < length (listed self.now) }
        requires second { second < length (listed self.now) }
        requires shift { IsShift op }
        ensures { Gives (listed self.now) result (λ E. apply_of op (E first) (E second) 0) }
    {
        if let Some(bits) = self.number(second) {
            return self.plan_shift_by(op, first, second, bits);
        }
        if self.is_number(first, 0) {
            return Plan::Is(Operand::Given(first));
        }
        Plan::Stands {
            op,
            first,
            second: Operand::Given(second),
        }
    }

    /// Returns a plan for a shift of a value by a constant.
    fn plan_shift_by(&self, op: Op, first: usize, second: usize, bits: u32) -> Plan
        requires first { first < length (listed self.now) }
        requires second { second < length (listed self.now) }
        requires shift { IsShift op }
        requires number { Means (listed self.now) second (λ x E. bits) }
        ensures { Gives (listed self.now) result (λ E. apply_of op (E first) (E second) 0) }
    {
        if bits % 32 == 0 {
            return Plan::Is(Operand::Given(first));
        }
        if bits > 31 {
            return Plan::Again {
                op,
                first: Operand::Given(first),
                second: Operand::Number(bits % 32),
            };
        }
        match self.inner(first, op) {
            Some((x, other)) => plan_shifts(op, x, other % 32 + bits),
            None => Plan::Stands {
                op,
                first,
                second: Operand::Given(second),
            },
        }
    }
}

/// Returns a plan for two shifts of a value, by `bits` together.
fn plan_shifts(op: Op, first: usize, bits: u32) -> Plan
    requires shift { IsShift op }
    ensures { ShiftsBy result op first bits }
{
    if bits < 32 {
        return Plan::Again {
            op,
            first: Operand::Given(first),
            second: Operand::Number(bits),
        };
    }
    match op {
        Op::Sar => Plan::Again {
            op,
            first: Operand::Given(first),
            second: Operand::Number(31),
        },
        _ => Plan::Is(Operand::Number(0)),
    }
}
