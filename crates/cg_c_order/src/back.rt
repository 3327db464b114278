//! Order edges to the next turn.
ghost use Rattle.std.specs.Prelude.{◌≡◌, ◌<◌, ◌≤◌, ◌+◌, Err, OnOk, length};
ghost use Rattle.cg_model.specs.Kernel.{size};
ghost use Rattle.cg_c_order.specs.Accesses.{all_back, back_at, back_to};
ghost use Rattle.cg_c_order.specs.Choosing.{Exceeds, Takes};
ghost use Rattle.cg_c_order.specs.declared.ordering.OrderFault.TheVariants.{TooMany};

use crate::access::Access;
use crate::closing::Closing;
use crate::lookup::conflict_at;
use crate::ordering::OrderFault;
use std::alloc::Global;

/// Orders node `node` of the next turn after the node `gap` nodes after it in `closing`, if they are accesses of `table` that conflict.
fn order_pair(
    alloc: Global,
    table: &[Option<Access>],
    gap: usize,
    node: usize,
    closing: &mut Closing,
) -> Result<(), OrderFault>
    requires size { length table.now ≡ size closing.old }
    requires few { length table.now ≤ 1024 }
    requires gap { 0 < gap }
    requires node { node + gap < length table.now }
    ensures taken { OnOk result (Takes closing.old (back_to table.now gap node) closing.new) }
    ensures many { result ≡ Err TooMany → Exceeds closing.old (back_to table.now gap node) }
{
    if conflict_at(table, node, node + gap) {
        closing.order(alloc, (node + gap) as u32, node as u32)?;
    }
    Ok(())
}

/// Orders the accesses of `table` that conflict and are `gap` nodes apart in `closing`, to the next turn.
fn order_gap(
    alloc: Global,
    table: &[Option<Access>],
    gap: usize,
    closing: &mut Closing,
) -> Result<(), OrderFault>
    requires size { length table.now ≡ size closing.old }
    requires few { length table.now ≤ 1024 }
    requires gap { 0 < gap }
    requires fits { gap < length table.now }
    ensures taken { OnOk result (Takes closing.old (back_at table.now gap) closing.new) }
    ensures many { result ≡ Err TooMany → Exceeds closing.old (back_at table.now gap) }
{
    for node in 0..table.len() - gap {
        order_pair(alloc, table, gap, node, closing)?;
    }
    Ok(())
}

/// Orders the accesses of `table` that conflict in `closing`, to the next turn.
pub(crate) fn order_back(
    alloc: Global,
    table: &[Option<Access>],
    closing: &mut Closing,
) -> Result<(), OrderFault>
    requires size { length table.now ≡ size closing.old }
    requires few { length table.now ≤ 1024 }
    ensures taken { OnOk result (Takes closing.old (all_back table.now) closing.new) }
    ensures many { result ≡ Err TooMany → Exceeds closing.old (all_back table.now) }
{
    for gap in (1..table.len()).rev() {
        order_gap(alloc, table, gap, closing)?;
    }
    Ok(())
}
