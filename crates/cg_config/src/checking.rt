//! Checks whether a configuration is canonical.
ghost use Rattle.std.specs.Prelude.{◌≡◌, ◌+◌, ◌<◌, ◌&&◌, ◌||◌, ◌↔◌, not, false, length, slice_index_or, IsTrue};
ghost use Rattle.std.specs.Bool.{OnTrue};
ghost use Rattle.cg_model.specs.Config as configs;
ghost use Rattle.cg_model.specs.Canonical.{IsCanonical, gives_output, greatest_of, last_stage, stage_of};
ghost use Rattle.cg_config.specs.Parts.{EachSlot, HasRow, HasRows, HasInterval, HasSelects, HasFields, HasPorts, KeepsRules, Notes, gives_to, given_before};

use crate::config::{Config, stage_of};
use crate::rules::{are_fields, gives_output};
use crate::{Contexts, UnitFields};
use cg_arch::Arch;

/// Returns whether `config` is a canonical configuration of `arch`, as `set_select`, `set_unit` and runs of the array
/// require.
pub fn is_canonical(arch: &Arch, config: &Config) -> bool
    ensures { IsTrue result ↔ IsCanonical arch.now config.now }
{
    has_rows(arch, config) && keeps_rules(arch, config)
}

/// Returns whether the number of slots of `config` is its interval, and each slot has a select for each resource of
/// `arch` and fields for each unit.
fn has_rows(arch: &Arch, config: &Config) -> bool
    ensures { IsTrue result ↔ HasRows arch.now config.now }
{
    let slots = config.ii() as usize;
    if !config.has_slots(slots) {
        return false;
    }
    for slot in 0..slots {
        if !has_row(arch, config, slot) {
            return false;
        }
    }
    true
}

/// Returns whether `slot` of `config` has a select for each resource of `arch` and fields for each unit.
fn has_row(arch: &Arch, config: &Config, slot: usize) -> bool
    requires selects { slot < length config.now.selects }
    requires units { slot < length config.now.units }
    ensures { IsTrue result ↔ HasRow arch.now config.now slot }
{
    config.selects_in(slot).len() == arch.resources().len()
        && config.fields_in(slot).len() == arch.units().len()
}

/// Returns whether `config`, whose rows have the right lengths, is canonical.
fn keeps_rules(arch: &Arch, config: &Config) -> bool
    requires { HasRows arch.now config.now }
    ensures { IsTrue result ↔ KeepsRules arch.now config.now }
{
    has_interval(arch, config)
        && has_stages(arch, config)
        && has_selects(arch, config)
        && has_units(arch, config)
}

/// Returns whether the interval of `config` is at least 1 and at most the contexts of `arch`.
fn has_interval(arch: &Arch, config: &Config) -> bool
    ensures { IsTrue result ↔ HasInterval arch.now config.now }
{
    0 < config.ii() && config.ii() <= arch.contexts()
}

/// Returns whether the stages of `config` are one more than the greatest stage in use.
fn has_stages(arch: &Arch, config: &Config) -> bool
    requires { HasRows arch.now config.now }
    ensures { IsTrue result ↔ (config.now.stages ≡ 1 + last_stage arch.now config.now) }
{
    u64::from(config.stages()) == 1 + u64::from(last_stage(arch, config))
}

/// Returns the greatest stage in use, or 0.
fn last_stage(arch: &Arch, config: &Config) -> u32
    requires { HasRows arch.now config.now }
    ensures { result ≡ last_stage arch.now config.now }
{
    let mut last = 0_u32;
    for slot in 0..config.ii() as usize {
        last = last.max(last_stage_in(arch, config, slot));
    }
    last
}

/// Returns the greatest stage in use in `slot`, or 0.
fn last_stage_in(arch: &Arch, config: &Config, slot: usize) -> u32
    requires rows { HasRows arch.now config.now }
    requires slot { slot < config.now.ii }
    ensures { result ≡ greatest_of (λ x. stage_of (configs.fields config.now x slot)) (length arch.now.units) }
{
    let row = config.fields_in(slot);
    let mut last = 0_u32;
    for x in 0..arch.units().len() {
        last = last.max(stage_of(&row[x]));
    }
    last
}

/// Returns whether each select of `config` is 0 or the position of a driver.
fn has_selects(arch: &Arch, config: &Config) -> bool
    requires { HasRows arch.now config.now }
    ensures { IsTrue result ↔ EachSlot config.now (HasSelects arch.now config.now) }
{
    for slot in 0..config.ii() as usize {
        if !has_selects_in(arch, config, slot) {
            return false;
        }
    }
    true
}

/// Returns whether each select in `slot` is 0 or the position of a driver.
fn has_selects_in(arch: &Arch, config: &Config, slot: usize) -> bool
    requires rows { HasRows arch.now config.now }
    requires slot { slot < config.now.ii }
    ensures { IsTrue result ↔ HasSelects arch.now config.now slot }
{
    let row = config.selects_in(slot);
    for (r, resource) in arch.resources().iter().enumerate() {
        if row[r] as usize > resource.drivers.as_slice().len() {
            return false;
        }
    }
    true
}

/// Returns whether the fields of each unit keep the rules, and no two of them give output to one port.
fn has_units(arch: &Arch, config: &Config) -> bool
    requires { HasRows arch.now config.now }
    ensures { IsTrue result ↔ (EachSlot config.now (HasFields arch.now config.now) × EachSlot config.now (HasPorts arch.now config.now)) }
{
    has_fields(arch, config) && has_ports(arch, config)
}

/// Returns whether the fields of each unit keep the rules.
fn has_fields(arch: &Arch, config: &Config) -> bool
    requires { HasRows arch.now config.now }
    ensures { IsTrue result ↔ EachSlot config.now (HasFields arch.now config.now) }
{
    for slot in 0..config.ii() as usize {
        if !has_fields_in(arch, config, slot) {
            return false;
        }
    }
    true
}

/// Returns whether the fields of each unit in `slot` keep the rules.
fn has_fields_in(arch: &Arch, config: &Config, slot: usize) -> bool
    requires rows { HasRows arch.now config.now }
    requires slot { slot < config.now.ii }
    ensures { IsTrue result ↔ HasFields arch.now config.now slot }
{
    let row = config.fields_in(slot);
    for (x, unit) in arch.units().iter().enumerate() {
        if !are_fields(unit.ops, &row[x]) {
            return false;
        }
    }
    true
}

/// Returns whether no two fields give output to one port.
fn has_ports(arch: &Arch, config: &Config) -> bool
    requires rows { HasRows arch.now config.now }
    requires fields { EachSlot config.now (HasFields arch.now config.now) }
    ensures { IsTrue result ↔ EachSlot config.now (HasPorts arch.now config.now) }
{
    let mut taken = [false; 16];
    for slot in 0..config.ii() as usize {
        if !has_ports_in(arch, config, slot, &mut taken) {
            return false;
        }
    }
    true
}

/// Returns whether no field in `slot` gives output to a port that a field before it gives output to, and marks the
/// ports of the slot in `taken`, where those of the slots before it are marked.
fn has_ports_in(arch: &Arch, config: &Config, slot: usize, taken: &mut [bool; 16]) -> bool
    requires rows { HasRows arch.now config.now }
    requires slot { slot < config.now.ii }
    requires fields { HasFields arch.now config.now slot }
    requires taken { Notes taken.old (given_before arch.now config.now slot) }
    ensures free { IsTrue result ↔ HasPorts arch.now config.now slot }
    ensures taken { OnTrue result (Notes taken.new (given_before arch.now config.now (slot + 1))) }
{
    let row = config.fields_in(slot);
    for x in 0..arch.units().len() {
        if !take_port(taken, &row[x]) {
            return false;
        }
    }
    true
}

/// Marks the port that `fields` give output to as taken. Returns whether it was free, or they give no output.
fn take_port(taken: &mut [bool; 16], fields: &UnitFields) -> bool
    requires { fields.now.port < 16 }
    ensures free { result ≡ not (gives_output fields.now.op && slice_index_or taken.old fields.now.port false) }
    ensures noted { Notes taken.new (λ q. slice_index_or taken.old q false || gives_to fields.now q) }
{
    if !gives_output(fields.op) {
        return true;
    }
    let port = fields.port as usize;
    let free = !taken[port];
    taken[port] = true;
    free
}
