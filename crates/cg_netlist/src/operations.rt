//! Sets of operations as numbers.
ghost use Rattle.std.specs.Prelude.{◌≡◌, ◌≤◌};
ghost use Rattle.cg_netlist.specs.Netlist as spec;

use cg_word::{Op, OpSet};

/// Returns the set `ops` as a number, with bit k for the operation of code k.
#[tactic(auto, unfolding(crate::specs::Netlist::bits_of))]
pub fn bits_of(ops: OpSet) -> u32
    ensures { result ≡ spec.bits_of ops }
{
    let mut bits = 0;
    for op in &Op::ALL {
        bits += bit_of(ops, *op);
    }
    bits
}

/// Returns the bit of `op` where `ops` has it, else 0.
fn bit_of(ops: OpSet, op: Op) -> u32
    ensures bit { result ≡ spec.bit_of ops op }
    ensures small { result ≤ 33554432 }
{
    if ops.has(op) { bit(op) } else { 0 }
}

/// Returns the bit of `op`.
fn bit(op: Op) -> u32
    ensures bit { result ≡ spec.code_bit op }
    ensures small { result ≤ 33554432 }
{
    match op {
        Op::Const => 0x0000_0002,
        Op::Iter => 0x0000_0004,
        Op::Input => 0x0000_0008,
        Op::Add => 0x0000_0010,
        Op::Sub => 0x0000_0020,
        Op::Mul => 0x0000_0040,
        Op::And => 0x0000_0080,
        Op::Or => 0x0000_0100,
        Op::Xor => 0x0000_0200,
        Op::Shl => 0x0000_0400,
        Op::Shr => 0x0000_0800,
        Op::Sar => 0x0000_1000,
        Op::Eq => 0x0000_2000,
        Op::Ne => 0x0000_4000,
        Op::Lts => 0x0000_8000,
        Op::Ltu => 0x0001_0000,
        Op::Mins => 0x0002_0000,
        Op::Maxs => 0x0004_0000,
        Op::Select => 0x0008_0000,
        Op::Load => 0x0010_0000,
        Op::Store => 0x0020_0000,
        Op::Output => 0x0040_0000,
        Op::LoadIf => 0x0080_0000,
        Op::StoreIf => 0x0100_0000,
        Op::OutputIf => 0x0200_0000,
    }
}
