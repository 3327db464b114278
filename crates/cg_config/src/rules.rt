//! The rules of canonical configurations on the fields of a unit.
ghost use Rattle.std.specs.Prelude.{◌≡◌, ℕ, ◌<◌, ◌&&◌, ◌||◌, ◌↔◌, IsTrue, slice_index};
ghost use Rattle.cg_word.specs.Word.{words};
ghost use Rattle.cg_model.specs.Config.{arg};
ghost use Rattle.cg_model.specs.Canonical.{AreFields, arity_of, names_port, gives_output, offered, stage_right, port_right, immediate_right};
ghost use Rattle.cg_config.specs.Rules.{mode_ok, count_ok, word_ok, arg_ok, args_ok, fields_ok, AreWords, IsTyped};

use cg_model::{ArgFields, UnitFields};
use cg_word::{Op, OpSet};

/// Returns the number of arguments of the operation `op`, 0 for none.
pub fn arity_of(op: Option<Op>) -> usize
    ensures { result ≡ arity_of op }
{
    match op {
        Some(op) => op.arity() as usize,
        None => 0,
    }
}

fn names_port(op: Option<Op>) -> bool
    ensures { result ≡ names_port op }
{
    match op {
        Some(op) => op.has_port(),
        None => false,
    }
}

/// Returns whether the operation `op` is an output or outputif.
pub fn gives_output(op: Option<Op>) -> bool
    ensures { result ≡ gives_output op }
{
    match op {
        Some(op) => op.is_output(),
        None => false,
    }
}

fn offered(ops: OpSet, op: Option<Op>) -> bool
    ensures { result ≡ offered ops op }
{
    match op {
        Some(op) => ops.has(op),
        None => true,
    }
}

/// Returns whether the stage of `fields` keeps its rule.
pub fn stage_right(fields: &UnitFields) -> bool
    ensures { result ≡ stage_right fields.now }
{
    fields.stage <= 65_534 && (fields.op.is_some() || fields.stage == 0)
}

/// Returns whether the port of `fields` keeps its rule.
pub fn port_right(fields: &UnitFields) -> bool
    ensures { result ≡ port_right fields.now }
{
    names_port(fields.op) || fields.port == 0
}

/// Returns whether the immediate of `fields` keeps its rule.
pub fn immediate_right(fields: &UnitFields) -> bool
    ensures { result ≡ immediate_right fields.now }
{
    let any_fixed = fields.args[0].fixed || fields.args[1].fixed || fields.args[2].fixed;
    (fields.op.is_some() && any_fixed) || fields.immediate == 0
}

/// Returns whether the mode bit of `arg` keeps its rule, where `used` says that the operation has the argument and
/// `fixed_before` that one before it is fixed.
pub fn mode_right(arg: &ArgFields, used: bool, fixed_before: bool) -> bool
    ensures { result ≡ mode_ok arg.now used fixed_before }
{
    !arg.fixed || (used && !fixed_before)
}

/// Returns whether the count of `arg` keeps its rule, where `used` says that the operation has the argument.
pub fn count_right(arg: &ArgFields, used: bool) -> bool
    ensures { result ≡ count_ok arg.now used }
{
    arg.count <= 4 && (arg.count == 0 || (used && !arg.fixed))
}

/// Returns whether word `k` of `arg` keeps its rule, where `used` says that the operation has the argument.
pub fn word_right(arg: &ArgFields, used: bool, k: usize) -> bool
    requires { k < 4 }
    ensures { result ≡ word_ok arg.now used k }
{
    arg.init[k] == 0 || (used && !arg.fixed && k < arg.count as usize)
}

fn words_right(arg: &ArgFields, used: bool) -> bool
    ensures { result ≡ (word_ok arg.now used 0 && (word_ok arg.now used 1 && (word_ok arg.now used 2 && word_ok arg.now used 3))) }
{
    word_right(arg, used, 0)
        && word_right(arg, used, 1)
        && word_right(arg, used, 2)
        && word_right(arg, used, 3)
}

fn arg_right(arg: &ArgFields, used: bool, fixed_before: bool) -> bool
    ensures { result ≡ arg_ok arg.now used fixed_before }
{
    mode_right(arg, used, fixed_before) && count_right(arg, used) && words_right(arg, used)
}

fn args_right(fields: &UnitFields) -> bool
    ensures { result ≡ args_ok fields.now }
{
    let arity = arity_of(fields.op);
    let first = &fields.args[0];
    let second = &fields.args[1];
    let third = &fields.args[2];
    arg_right(first, 0 < arity, false)
        && arg_right(second, 1 < arity, first.fixed)
        && arg_right(third, 2 < arity, first.fixed || second.fixed)
}

fn fields_right(ops: OpSet, fields: &UnitFields) -> bool
    ensures { result ≡ fields_ok ops fields.now }
{
    offered(ops, fields.op)
        && fields.port < 16
        && stage_right(fields)
        && port_right(fields)
        && immediate_right(fields)
        && args_right(fields)
}

/// States that each of `_numbers` is a word.
fn are_numbers(_numbers: &[u32])
    ensures { (k : ℕ) → slice_index _numbers.now k < words }
{}

/// States that `numbers` are four words.
fn are_words(numbers: &[u32; 4])
    ensures { AreWords numbers.now }
{
    are_numbers(numbers);
}

/// States what the type of `fields` says of their arguments and numbers.
fn are_typed(fields: &UnitFields)
    ensures { IsTyped fields.now }
{
    are_words(&fields.args[0].init);
    are_words(&fields.args[1].init);
    are_words(&fields.args[2].init);
}

/// Returns whether `fields` keep the rules of canonical configurations for a unit that offers the operations `ops`.
pub fn are_fields(ops: OpSet, fields: &UnitFields) -> bool
    ensures { IsTrue result ↔ AreFields ops fields.now }
{
    are_typed(fields);
    fields_right(ops, fields)
}
