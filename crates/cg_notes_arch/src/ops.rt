//! What is wrong with the operations, the latency and the number of ports of a unit.

use crate::tiles::Here;
use cg_lints::{Rule, Slips, unknown_operation};
use cg_toml::items_at;
use cg_word::Op;
use std::alloc::AllocError;
use toml::Value;

/// The maximum latency.
const MOST_LATENCY: i64 = 4;

/// The message on operations that aren't texts.
const WRONG_OPS: &str = "\"ops\" must be a list of strings";

impl Here<'_> {
    /// Adds to `slips` what is wrong with the operations of `value`, a unit.
    pub(crate) fn note_ops(self, slips: &mut Slips, value: &Value) -> Result<(), AllocError> {
        if value.get("ops").is_none() {
            return self.note_missing(slips, "ops");
        }
        let Some(ops) = items_at(value, "ops") else {
            return self.add_shape(slips, "ops", WRONG_OPS);
        };
        if ops.is_empty() {
            let at = self.place_of("ops");
            self.add(
                slips,
                Rule::BadUnit,
                at,
                "a unit must have at least one operation",
            )?;
        }
        for op in ops {
            self.note_op(slips, op)?;
        }
        match items_at(value, "ports") {
            Some(ports) => self.note_arity(slips, ops, ports.len()),
            None => Ok(()),
        }
    }

    /// Adds to `slips` the faults of `op`, an item of the operations.
    fn note_op(self, slips: &mut Slips, op: &Value) -> Result<(), AllocError> {
        match op.as_str() {
            None => self.add_shape(slips, "ops", WRONG_OPS),
            Some(name) if Op::from_name(name).is_none() => {
                let text = unknown_operation(slips.alloc, name)?;
                self.add(slips, Rule::UnknownOp, self.place_of("ops"), text.as_str())
            }
            Some(_) => Ok(()),
        }
    }

    /// Adds to `slips` the first of `ops` that takes more arguments than the unit has `ports`.
    fn note_arity(self, slips: &mut Slips, ops: &[Value], ports: usize) -> Result<(), AllocError> {
        for op in ops {
            match op_of(op) {
                Some(op) if op.arity() as usize > ports => {
                    let name = op.name();
                    let arity = op.arity();
                    let text = format!(in slips.alloc;
                        "{name} takes {arity} arguments, but the unit has ports for {ports}"
                    )?;
                    let at = self.place_of("ports");
                    return self.add(slips, Rule::BadUnit, at, text.as_str());
                }
                _ => {}
            }
        }
        Ok(())
    }

    /// Adds to `slips` what is wrong with the latency of `value`, a unit.
    pub(crate) fn note_latency(self, slips: &mut Slips, value: &Value) -> Result<(), AllocError> {
        let Some(found) = value.get("latency") else {
            return self.note_missing(slips, "latency");
        };
        match found.as_integer() {
            None => self.add_shape(slips, "latency", "\"latency\" must be a number from 1 to 4"),
            Some(latency) if latency < 1 || latency > MOST_LATENCY => {
                let rule = if latency < 0 || latency > i64::from(u32::MAX) {
                    Rule::WrongShape
                } else {
                    Rule::BadUnit
                };
                let text = format!(in slips.alloc;
                    "a latency is 1 to 4, but this one is {latency}"
                )?;
                self.add(slips, rule, self.place_of("latency"), text.as_str())
            }
            Some(_) => Ok(()),
        }
    }
}

/// Returns the operation that `value` names.
fn op_of(value: &Value) -> Option<Op> {
    match value.as_str() {
        Some(name) => Op::from_name(name),
        None => None,
    }
}
