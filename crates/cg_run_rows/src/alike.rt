//! A comparison of a configuration in tables with a view of encoded bytes, select by select and field by field.
ghost use Rattle.std.specs.Prelude.{◌≡◌, ◌<◌, ◌↔◌, ℕ, IsTrue};
ghost use Rattle.cg_model.specs.Canonical.{IsCanonical};
ghost use Rattle.cg_config.specs.Known.{HasSelect, HasUnit};
ghost use Rattle.cg_run_rows.specs.Alike.{SameSelects, SameFields, SameSlots, IsSameSlot, IsSame};

use cg_arch::Arch;
use cg_bits::{Config, Contexts};
use cg_config::{ArgFields, Op, UnitFields};
use cg_view::ConfigView;

/// Checks whether `tables` and `view` have the same interval and stages, and agree in each slot.
pub(crate) fn is_same(arch: &Arch, tables: &Config, view: &ConfigView<'_>) -> bool
    requires tables { IsCanonical arch.now tables.now }
    requires view { IsCanonical arch.now view.now }
    ensures { IsTrue result ↔ IsSame arch.now tables.now view.now }
{
    tables.ii() == view.ii() && tables.stages() == view.stages() && same_slots(arch, tables, view)
}

/// Checks whether `tables` and `view` agree in each slot.
fn same_slots(arch: &Arch, tables: &Config, view: &ConfigView<'_>) -> bool
    requires tables { IsCanonical arch.now tables.now }
    requires view { IsCanonical arch.now view.now }
    requires interval { tables.now.ii ≡ view.now.ii }
    ensures { IsTrue result ↔ SameSlots arch.now tables.now view.now tables.now.ii }
{
    for slot in 0..tables.ii() {
        if !is_same_slot(arch, tables, view, slot) {
            return false;
        }
    }
    true
}

/// Checks whether `tables` and `view` agree in `slot`.
#[tactic(auto, unfolding(crate::specs::Alike::IsSameSlot))]
fn is_same_slot(arch: &Arch, tables: &Config, view: &ConfigView<'_>, slot: u32) -> bool
    requires tables { IsCanonical arch.now tables.now }
    requires view { IsCanonical arch.now view.now }
    requires in_tables { slot < tables.now.ii }
    requires in_view { slot < view.now.ii }
    ensures { IsTrue result ↔ IsSameSlot arch.now tables.now view.now slot }
{
    let resources = arch.resources().len() as u32;
    let units = arch.units().len() as u32;
    same_selects(resources, tables, view, slot) && same_fields(units, tables, view, slot)
}

/// Checks whether all selects of `slot` are equal in `tables` and `view`.
fn same_selects(resources: u32, tables: &Config, view: &ConfigView<'_>, slot: u32) -> bool
    requires tables { (r : ℕ) → r < resources → HasSelect tables.now r slot }
    requires view { (r : ℕ) → r < resources → HasSelect view.now r slot }
    ensures { IsTrue result ↔ SameSelects tables.now view.now resources slot }
{
    for r in 0..resources {
        if tables.select(r, slot) != view.select(r, slot) {
            return false;
        }
    }
    true
}

/// Checks whether the fields of all units are equal in `tables` and `view` in `slot`.
fn same_fields(units: u32, tables: &Config, view: &ConfigView<'_>, slot: u32) -> bool
    requires tables { (x : ℕ) → x < units → HasUnit tables.now x slot }
    requires view { (x : ℕ) → x < units → HasUnit view.now x slot }
    ensures { IsTrue result ↔ SameFields tables.now view.now units slot }
{
    for x in 0..units {
        let told = tables.unit(x, slot);
        let read = view.unit(x, slot);
        if !is_same_unit(&told, &read) {
            return false;
        }
    }
    true
}

/// Checks whether the fields of two units are equal.
fn is_same_unit(a: &UnitFields, b: &UnitFields) -> bool
    ensures { IsTrue result ↔ (a.now ≡ b.now) }
{
    is_same_op(a.op, b.op)
        && a.stage == b.stage
        && a.port == b.port
        && a.immediate == b.immediate
        && are_same_args(&a.args, &b.args)
}

fn is_same_op(a: Option<Op>, b: Option<Op>) -> bool
    ensures { IsTrue result ↔ (a ≡ b) }
{
    a == b
}

fn are_same_args(a: &[ArgFields; 3], b: &[ArgFields; 3]) -> bool
    ensures { IsTrue result ↔ (a.now ≡ b.now) }
{
    a == b
}
