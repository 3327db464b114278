//! Order edges within a turn.
ghost use Rattle.std.specs.Prelude.{◌≡◌, ◌<◌, ◌≤◌, ◌+◌, Err, OnOk, length};
ghost use Rattle.cg_model.specs.Kernel.{size};
ghost use Rattle.cg_c_order.specs.Accesses.{all_forth, forth_at, forth_from};
ghost use Rattle.cg_c_order.specs.Choosing.{Exceeds, Takes};
ghost use Rattle.cg_c_order.specs.declared.ordering.OrderFault.TheVariants.{TooMany};

use crate::access::Access;
use crate::draft::Draft;
use crate::lookup::conflict_at;
use crate::ordering::OrderFault;
use std::alloc::Global;

/// Orders the node `gap` nodes after node `node` after it in `draft`, if they are accesses of `table` that conflict.
fn order_pair(
    alloc: Global,
    table: &[Option<Access>],
    gap: usize,
    node: usize,
    draft: &mut Draft,
) -> Result<(), OrderFault>
    requires size { length table.now ≡ size draft.old }
    requires few { length table.now ≤ 1024 }
    requires gap { 0 < gap }
    requires node { node + gap < length table.now }
    ensures taken { OnOk result (Takes draft.old (forth_from table.now gap node) draft.new) }
    ensures many { result ≡ Err TooMany → Exceeds draft.old (forth_from table.now gap node) }
{
    if conflict_at(table, node, node + gap) {
        draft.order(alloc, node as u32, (node + gap) as u32)?;
    }
    Ok(())
}

/// Orders the accesses of `table` that conflict and are `gap` nodes apart in `draft`, within a turn.
fn order_gap(
    alloc: Global,
    table: &[Option<Access>],
    gap: usize,
    draft: &mut Draft,
) -> Result<(), OrderFault>
    requires size { length table.now ≡ size draft.old }
    requires few { length table.now ≤ 1024 }
    requires gap { 0 < gap }
    requires fits { gap < length table.now }
    ensures taken { OnOk result (Takes draft.old (forth_at table.now gap) draft.new) }
    ensures many { result ≡ Err TooMany → Exceeds draft.old (forth_at table.now gap) }
{
    for node in 0..table.len() - gap {
        order_pair(alloc, table, gap, node, draft)?;
    }
    Ok(())
}

/// Orders the accesses of `table` that conflict in `draft`, within a turn.
pub(crate) fn order_forth(
    alloc: Global,
    table: &[Option<Access>],
    draft: &mut Draft,
) -> Result<(), OrderFault>
    requires size { length table.now ≡ size draft.old }
    requires few { length table.now ≤ 1024 }
    ensures taken { OnOk result (Takes draft.old (all_forth table.now) draft.new) }
    ensures many { result ≡ Err TooMany → Exceeds draft.old (all_forth table.now) }
{
    for gap in 1..table.len() {
        order_gap(alloc, table, gap, draft)?;
    }
    Ok(())
}
