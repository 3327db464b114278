//! Identities of products.
ghost use Rattle.std.specs.Prelude.{◌≡◌, ◌<◌, ◌^◌, IfSome};

use crate::plan::{Operand, Plan};
use crate::values::Values;
use cg_word::Op;

/// Returns the exponent of 2 whose power is `word`, if there is one.
fn exponent_of(word: u32) -> Option<u32>
    ensures { IfSome result (λ bits. (bits < 32) × (word ≡ 2 ^ bits)) }
{
    let bits = word.trailing_zeros();
    if bits < 32 && 1 << bits == word {
        Some(bits)
    } else {
        None
    }
}

impl Values {
    ghost use Rattle.std.specs.Prelude.{◌≡◌, ◌<◌, length};
    ghost use Rattle.cg_word.specs.declared.op.Op.TheVariants as ops;
    ghost use Rattle.cg_word.specs.Word.{apply_of};
    ghost use Rattle.cg_c_values.specs.Listed.{listed};
    ghost use Rattle.cg_c_values.specs.Values.{Means};
    ghost use Rattle.cg_c_values.specs.Plans.{Gives};

    /// Returns a plan for the product of two values.
    pub(crate) fn plan_product(&self, first: usize, second: usize) -> Plan
        requires first { first < length (listed self.now) }
        requires second { second < length (listed self.now) }
        ensures { Gives (listed self.now) result (λ E. apply_of ops.Mul (E first) (E second) 0) }
    {
        match self.number(second) {
            Some(0) => Plan::Is(Operand::Given(second)),
            Some(1) => Plan::Is(Operand::Given(first)),
            Some(word) => self.plan_multiple(first, second, word),
            None => Plan::Stands {
                op: Op::Mul,
                first,
                second: Operand::Given(second),
            },
        }
    }

    /// Returns a plan for the product of a value and a constant.
    fn plan_multiple(&self, first: usize, second: usize, word: u32) -> Plan
        requires first { first < length (listed self.now) }
        requires second { second < length (listed self.now) }
        requires number { Means (listed self.now) second (λ x E. word) }
        ensures { Gives (listed self.now) result (λ E. apply_of ops.Mul (E first) (E second) 0) }
    {
        if let Some(bits) = exponent_of(word) {
            return Plan::Again {
                op: Op::Shl,
                first: Operand::Given(first),
                second: Operand::Number(bits),
            };
        }
        if word == u32::MAX {
            return Plan::Again {
                op: Op::Sub,
                first: Operand::Number(0),
                second: Operand::Given(first),
            };
        }
        match self.inner(first, Op::Mul) {
            Some((x, other)) => Plan::Again {
                op: Op::Mul,
                first: Operand::Given(x),
                second: Operand::Number(other.wrapping_mul(word)),
            },
            None => Plan::Stands {
                op: Op::Mul,
                first,
                second: Operand::Given(second),
            },
        }
    }
}
