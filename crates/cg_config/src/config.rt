//! Configurations in tables.
ghost use Rattle.std.specs.Prelude.{◌≡◌, ℕ, ◌<◌, true, false, length, replicate, slice_index_or, IfOk};
ghost use Rattle.cg_model.specs.Config.{off};
ghost use Rattle.cg_model.specs.Canonical.{stage_of, clash};

use crate::head::UnitHead;
use crate::rows::Row;
use crate::rules::gives_output;
use crate::told::told_by;
use crate::{ArgFields, Contexts, UnitFields};
use cg_arch::Arch;
use std::alloc::{AllocError, Global};
use std::marker::Model;

/// The fields of an argument, all zero.
pub const NO_ARG: ArgFields = ArgFields {
    fixed: false,
    count: 0,
    init: [0; 4],
};

/// The fields of a unit that is off.
pub const OFF: UnitFields = UnitFields {
    op: None,
    stage: 0,
    port: 0,
    immediate: 0,
    args: [NO_ARG; 3],
};

/// A configuration in tables. Contracts see it as the configuration.
#[derive(Drop)]
pub struct Config {
    ii: u32,
    stages: u32,
    selects: Vec<Row<u32>>,
    units: Vec<Row<UnitFields>>,
}

impl Model for Config {
    ghost use Rattle.cg_model.specs.Config as configs;

    ghost Value = { configs.Config };

    ghost view = { λ c. record { ii = c.ii; stages = c.stages; selects = c.selects.items; units = c.units.items } };
}

impl Config {
    ghost use Rattle.std.specs.Prelude.{◌≡◌, ℕ, [], ◌<◌, ◌≤◌, ◌↔◌, true, false, length, slice_index_or, None, IfOk, IsTrue};
    ghost use Rattle.cg_model.specs.Array as arrays;
    ghost use Rattle.cg_model.specs.Config as configs;
    ghost use Rattle.cg_model.specs.Canonical.{IsCanonical, AreFields, clash};
    ghost use Rattle.cg_config.specs.Changes.{all_off, with_select, with_fields, LeavesPortsFree};

    /// Returns a configuration of `ii` slots that is off everywhere.
    pub fn new(alloc: Global, arch: &Arch, ii: u32) -> Result<Config, AllocError>
        requires some { 0 < ii }
        requires contexts { ii ≤ arch.now.contexts }
        ensures off { IfOk result (λ config. config ≡ all_off arch.now ii) }
        ensures canonical { IfOk result (λ config. IsCanonical arch.now config) }
    {
        Config::all_off(alloc, arch, ii)
    }

    /// Returns a configuration that is off everywhere.
    fn all_off(alloc: Global, arch: &Arch, ii: u32) -> Result<Config, AllocError>
        ensures { IfOk result (λ config. config ≡ all_off arch.now ii) }
    {
        let resources = arch.resources().len();
        let units = arch.units().len();
        Ok(Config {
            ii,
            stages: 1,
            selects: rows_of(alloc, 0, resources, ii)?,
            units: rows_of(alloc, OFF, units, ii)?,
        })
    }

    /// Sets the select of `resource` in `slot` to `value`: 0 for none, else the position of a driver in the resource's
    /// list, counted from 1.
    pub fn set_select(&mut self, arch: &Arch, resource: u32, slot: u32, value: u32)
        requires canonical { IsCanonical arch.now self.old }
        requires resource { resource < length arch.now.resources }
        requires slot { slot < self.old.ii }
        requires value { value ≤ length (arrays.resource arch.now resource).drivers }
        ensures set { self.new ≡ with_select self.old resource slot value }
        ensures canonical { IsCanonical arch.now self.new }
    {
        self.put_select(resource as usize, slot as usize, value);
    }

    /// Sets a select in the tables.
    fn put_select(&mut self, resource: usize, slot: usize, value: u32)
        requires slot { slot < length self.old.selects }
        requires resource { resource < length (slice_index_or self.old.selects slot []) }
        ensures { self.new ≡ with_select self.old resource slot value }
    {
        let row = &mut self.selects[slot];
        row.set(resource, value);
    }

    /// Sets the fields of `unit`, which is off, in `slot`. The stages become one more than the greatest stage in use.
    /// `are_fields` and `leaves_ports_free` say whether `fields` may be set.
    pub fn set_unit(&mut self, arch: &Arch, unit: u32, slot: u32, fields: UnitFields)
        requires canonical { IsCanonical arch.now self.old }
        requires unit { unit < length arch.now.units }
        requires slot { slot < self.old.ii }
        requires off { (configs.fields self.old unit slot).op ≡ None }
        requires fields { AreFields (arrays.unit arch.now unit).ops fields }
        requires ports { LeavesPortsFree arch.now self.old fields }
        ensures set { self.new ≡ with_fields self.old unit slot fields }
        ensures canonical { IsCanonical arch.now self.new }
    {
        self.put_fields(unit as usize, slot as usize, fields);
    }

    /// Returns whether a field of the configuration gives output to a port that `fields` give output to.
    fn clashes(&self, fields: &UnitFields) -> bool
        ensures some { result ≡ true → (slot : ℕ) × (slot < length self.now.units) × (x : ℕ) × (x < length (slice_index_or self.now.units slot [])) × (clash (configs.fields self.now x slot) fields.now ≡ true) }
        ensures none { result ≡ false → (slot x : ℕ) → slot < length self.now.units → x < length (slice_index_or self.now.units slot []) → clash (configs.fields self.now x slot) fields.now ≡ false }
    {
        for slot in 0..self.units.len() {
            if clashes_in(self.fields_in(slot), fields) {
                return true;
            }
        }
        false
    }

    /// Returns whether no field of the configuration gives output to a port that `fields` give output to, as `set_unit`
    /// requires.
    pub fn leaves_ports_free(&self, fields: &UnitFields) -> bool
        ensures { (A : arrays.Arch) → IsCanonical A self.now → (IsTrue result ↔ LeavesPortsFree A self.now fields.now) }
    {
        !self.clashes(fields)
    }

    /// Sets fields in the tables, and raises the stages if needed.
    fn put_fields(&mut self, unit: usize, slot: usize, fields: UnitFields)
        requires slot { slot < length self.old.units }
        requires unit { unit < length (slice_index_or self.old.units slot []) }
        requires stage { fields.stage ≤ 65534 }
        ensures { self.new ≡ with_fields self.old unit slot fields }
    {
        let stages = 1 + stage_of(&fields);
        if self.stages < stages {
            self.stages = stages;
        }
        let row = &mut self.units[slot];
        row.set(unit, fields);
    }

    /// Returns a configuration of these tables.
    pub fn from_rows(
        ii: u32,
        stages: u32,
        selects: Vec<Row<u32>>,
        units: Vec<Row<UnitFields>>,
    ) -> Config
        ensures { result ≡ record { ii = ii; stages = stages; selects = selects.items; units = units.items } }
    {
        Config {
            ii,
            stages,
            selects,
            units,
        }
    }

    /// Returns whether there are `slots` rows of selects and `slots` rows of fields.
    pub(crate) fn has_slots(&self, slots: usize) -> bool
        ensures { IsTrue result ↔ ((length self.now.selects ≡ slots) × (length self.now.units ≡ slots)) }
    {
        self.selects.len() == slots && self.units.len() == slots
    }

    /// Lends the selects of `slot`, by resource.
    pub fn selects_in(&self, slot: usize) -> &[u32]
        requires { slot < length self.now.selects }
        ensures { result.now ≡ slice_index_or self.now.selects slot [] }
    {
        self.selects[slot].as_slice()
    }

    /// Lends the fields of `slot`, by unit.
    pub fn fields_in(&self, slot: usize) -> &[UnitFields]
        requires { slot < length self.now.units }
        ensures { result.now ≡ slice_index_or self.now.units slot [] }
    {
        self.units[slot].as_slice()
    }
}

/// Returns the stage of a unit, 0 where it is off.
pub(crate) fn stage_of(fields: &UnitFields) -> u32
    ensures { result ≡ stage_of fields.now }
{
    match fields.op {
        Some(_) => fields.stage,
        None => 0,
    }
}

/// Returns whether `one` and `other` give output to the same port.
fn clash(one: &UnitFields, other: &UnitFields) -> bool
    ensures { result ≡ clash one.now other.now }
{
    gives_output(one.op) && gives_output(other.op) && one.port == other.port
}

/// Returns whether one of the fields in `row` gives output to a port that `fields` give output to.
fn clashes_in(row: &[UnitFields], fields: &UnitFields) -> bool
    ensures some { result ≡ true → (x : ℕ) × (x < length row.now) × (clash (slice_index_or row.now x off) fields.now ≡ true) }
    ensures none { result ≡ false → (x : ℕ) → x < length row.now → clash (slice_index_or row.now x off) fields.now ≡ false }
{
    for x in 0..row.len() {
        if clash(&row[x], fields) {
            return true;
        }
    }
    false
}

/// Returns a row of `count` items, each of them `item`.
fn row_of<T: Copy>(alloc: Global, item: T, count: usize) -> Result<Row<T>, AllocError>
    ensures { IfOk result (λ row. row ≡ replicate count item) }
{
    let mut items = Vec::new(alloc);
    for _item in 0..count {
        items.push(item)?;
    }
    Ok(Row::new(items))
}

/// Returns `times` rows of `count` items, each of them `item`.
fn rows_of<T: Copy>(
    alloc: Global,
    item: T,
    count: usize,
    times: u32,
) -> Result<Vec<Row<T>>, AllocError>
    ensures { IfOk result (λ rows. rows.items ≡ replicate times (replicate count item)) }
{
    let mut rows = Vec::new(alloc);
    for _row in 0..times {
        rows.push(row_of(alloc, item, count)?)?;
    }
    Ok(rows)
}

impl Contexts for Config {
    ghost config = { λ c. c };

    fn ii(&self) -> u32 {
        self.ii
    }

    fn stages(&self) -> u32 {
        self.stages
    }

    fn select(&self, resource: u32, slot: u32) -> u32 {
        self.selects_in(slot as usize)[resource as usize]
    }

    fn unit(&self, unit: u32, slot: u32) -> UnitFields {
        self.fields_in(slot as usize)[unit as usize]
    }

    fn head(&self, unit: u32, slot: u32) -> UnitHead {
        UnitHead::of(&self.fields_in(slot as usize)[unit as usize])
    }

    fn told(&self, unit: u32, slot: u32, place: usize, turn: u32) -> Option<u32> {
        told_by(&self.fields_in(slot as usize)[unit as usize], place, turn)
    }
}
