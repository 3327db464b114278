//! The tables of a legal mapping: the nodes by unit and slot, and the values by resource and slot.
ghost use Rattle.std.specs.Prelude.{◌≡◌, ◌+◌, ◌*◌, ◌<◌, ◌≤◌, ◌^◌, ◌∷◌, IfOk};
ghost use Rattle.cg_model.specs.Mapping.{positions_after, of_route, positions};
ghost use Rattle.cg_occupancy.specs.Marks.{position_of};
ghost use Rattle.cg_occupancy.specs.Tables as tables;

use crate::stay::Stay;
use cg_arch::Arch;
use cg_check::{LegalMapping, delay, edge_into, leaves};
use cg_model::{Place, Route};
use std::alloc::{AllocError, Global};

/// Returns the number of the cell of `row` in `slot`, where each row has `ii` cells.
pub(crate) fn cell_number(row: u32, ii: u32, slot: u32) -> usize
    ensures { result ≡ row * ii + slot }
{
    row as usize * ii as usize + slot as usize
}

/// Notes `item` in cell `at` of `table`. A cell with an item keeps it, and past the end nothing is noted.
#[tactic(auto, unfolding(crate::specs::Tables::noted))]
fn note<T: Copy>(table: &mut [Option<T>], at: usize, item: T)
    ensures { table.new ≡ tables.noted table.old at item }
{
    if at < table.len() && table[at].is_none() {
        table[at] = Some(item);
    }
}

/// Notes `node` in the slot of its `place`.
fn note_node(table: &mut [Option<u32>], ii: u32, node: u32, place: Place)
    requires { 0 < ii }
    ensures { table.new ≡ tables.noted table.old (tables.index_of ii place.unit place.time) node }
{
    note(table, cell_number(place.unit, ii, place.time % ii), node);
}

/// Notes all nodes of `legal`.
fn note_nodes(table: &mut [Option<u32>], legal: &LegalMapping<'_>)
    ensures { table.new ≡ tables.with_places legal.now.mapping.ii table.old 0 legal.now.mapping.places }
{
    let mapping = legal.mapping();
    let _nodes = legal.kernel().nodes();
    for (node, place) in mapping.places().iter().enumerate() {
        note_node(table, mapping.ii(), node as u32, *place);
    }
}

/// Makes the table of the nodes that units begin.
pub(crate) fn table_of_starts(
    alloc: Global,
    legal: &LegalMapping<'_>,
) -> Result<Vec<Option<u32>>, AllocError>
    ensures { IfOk result (λ table. tables.HasStarts legal.now table.items) }
{
    let cells = legal.arch().units().len() * legal.mapping().ii() as usize;
    let mut table = vec![in alloc; None; cells]?;
    note_nodes(&mut table, legal);
    Ok(table)
}

/// Notes `stay` on its resource, in the slot of its time.
fn note_stay(table: &mut [Option<Stay>], ii: u32, stay: Stay)
    requires { 0 < ii }
    ensures { table.new ≡ tables.noted table.old (tables.index_of ii stay.resource stay.time) stay }
{
    let slot = (stay.time % u64::from(ii)) as u32;
    note(table, cell_number(stay.resource, ii, slot), stay);
}

/// Returns `stay` after the link into `resource`.
fn next(arch: &Arch, stay: Stay, resource: u32) -> Stay
    requires { stay.time < 2 ^ 63 }
    ensures { result ≡ tables.next_of arch.now stay resource }
{
    Stay {
        source: stay.source,
        resource,
        time: stay.time + delay(arch, resource),
        from: Some(stay.resource),
    }
}

/// Notes `first`, and its value on the resources of `links`, along which it continues.
fn note_path(table: &mut [Option<Stay>], ii: u32, arch: &Arch, first: Stay, links: &[u32])
    requires interval { 0 < ii }
    requires soon { first.time < 2 ^ 33 }
    ensures { table.new ≡ tables.with_positions ii table.old (position_of first ∷ positions_after arch.now first.source first.resource first.time links.now) }
{
    let mut stay = first;
    note_stay(table, ii, stay);
    for resource in links {
        stay = next(arch, stay, *resource);
        note_stay(table, ii, stay);
    }
}

/// Notes the value of `route` on the resources of its path.
fn note_route(table: &mut [Option<Stay>], legal: &LegalMapping<'_>, route: &Route)
    ensures { table.new ≡ tables.with_positions legal.now.mapping.ii table.old (of_route legal.now.arch legal.now.kernel legal.now.mapping route.now) }
{
    let mapping = legal.mapping();
    if let Some(edge) = edge_into(legal.kernel(), route) {
        if let [first, links @ ..] = route.path.as_slice() {
            let first = Stay {
                source: edge.source,
                resource: *first,
                time: leaves(legal.arch(), mapping, edge.source),
                from: None,
            };
            note_path(table, mapping.ii(), legal.arch(), first, links);
        }
    }
}

/// Notes the values of all routes of `legal`.
fn note_routes(table: &mut [Option<Stay>], legal: &LegalMapping<'_>)
    ensures { table.new ≡ tables.with_positions legal.now.mapping.ii table.old (positions legal.now.arch legal.now.kernel legal.now.mapping) }
{
    for route in legal.mapping().routes() {
        note_route(table, legal, route);
    }
}

/// Makes the table of the values that resources carry.
pub(crate) fn table_of_stays(
    alloc: Global,
    legal: &LegalMapping<'_>,
) -> Result<Vec<Option<Stay>>, AllocError>
    ensures { IfOk result (λ table. tables.HasStays legal.now table.items) }
{
    let cells = legal.arch().resources().len() * legal.mapping().ii() as usize;
    let mut table = vec![in alloc; None; cells]?;
    note_routes(&mut table, legal);
    Ok(table)
}
