//! The lines of violations.
ghost use Rattle.std.specs.Prelude.{◌≡◌, ◌++◌, take, map, option_map, string_bytes, IfOk, OnOk, flat_map};
ghost use Rattle.cg_model.specs.Kernel.{Kernel as KernelOf, node as node_of};
ghost use Rattle.cg_model.specs.Array.{resource as resource_of, unit as unit_of};
ghost use Rattle.cg_model.specs.Mapping.{IsShaped, positions};
ghost use Rattle.cg_check.specs.Claims.{position_of};
ghost use Rattle.cg_violations.specs.Buckets.{IsFilled};
ghost use Rattle.cg_violations.specs.Violations.{violations_of};
ghost use Rattle.cg_violations.specs.Faults as spec;

use crate::buckets::Buckets;
use crate::mappings::Mapped;
use crate::meeting::{Spot, first_meeting, first_on, first_unlike, place};
use crate::sharing::slot_of;
use crate::stops::all_stops;
use cg_arch::Arch;
use cg_check::{Rule, RulePlace, Sharing, Stop, Violation};
use cg_model::{Kernel, Mapping};
use std::alloc::{AllocError, Global};

/// A mapping, and the stops of all its routes in buckets.
#[derive(Clone, Copy)]
struct Indexed<'a> {
    mapped: Mapped<'a>,
    buckets: &'a Buckets,
}

/// Returns the name of `node`; empty past the last one.
fn name_of(kernel: &Kernel, node: usize) -> &str
    ensures { result.now ≡ (node_of kernel.now node).name }
{
    match kernel.nodes().get(node) {
        Some(node) => node.name.as_str(),
        None => "",
    }
}

/// Returns the name of `node`, if there is one.
fn node_name(kernel: &Kernel, node: Option<usize>) -> &str
    ensures { result.now ≡ spec.node_name kernel.now node }
{
    match node {
        Some(node) => name_of(kernel, node),
        None => "",
    }
}

/// Returns the name of `unit`; empty past the last one.
fn unit_name(arch: &Arch, unit: u32) -> &str
    ensures { result.now ≡ (unit_of arch.now unit).name }
{
    match arch.units().get(unit as usize) {
        Some(unit) => unit.name.as_str(),
        None => "",
    }
}

/// Returns the name of `resource`; empty past the last one.
fn resource_name(arch: &Arch, resource: usize) -> &str
    ensures { result.now ≡ (resource_of arch.now resource).name }
{
    match arch.resources().get(resource) {
        Some(resource) => resource.name.as_str(),
        None => "",
    }
}

/// Returns the name of the node whose value is at `stop`, if there is one.
fn source_name(kernel: &Kernel, stop: Option<Stop>) -> &str
    ensures { result.now ≡ spec.source_name kernel.now (option_map position_of stop) }
{
    match stop {
        Some(stop) => name_of(kernel, stop.source as usize),
        None => "",
    }
}

/// Returns the name of the resource `from`; a dash if there is none.
fn from_name(arch: &Arch, from: Option<u32>) -> &str
    ensures { result.now ≡ spec.from_name arch.now from }
{
    match from {
        Some(from) => resource_name(arch, from as usize),
        None => "-",
    }
}

/// Returns the name of the resource from which `stop` comes, if there is a stop.
fn way_name(arch: &Arch, stop: Option<Stop>) -> &str
    ensures { result.now ≡ spec.way_name arch.now (option_map position_of stop) }
{
    match stop {
        Some(stop) => from_name(arch, stop.from),
        None => "",
    }
}

/// Returns the text for `node` of `mapped`, which shares its unit and slot with an earlier one.
fn shared_text(alloc: Global, mapped: Mapped, node: usize) -> Result<String, AllocError>
    ensures { IfOk result (λ text. string_bytes text ≡ spec.shared_text mapped.entry.arch.now mapped.entry.kernel.now mapped.entry.mapping.now node) }
{
    let Mapped {
        arch,
        kernel,
        mapping,
    } = mapped;
    let place = place(mapping, node);
    let unit = unit_name(arch, place.unit);
    let slot = slot_of(u64::from(place.time), mapping.ii());
    let first = node_name(kernel, first_meeting(mapping, node));
    let name = name_of(kernel, node);
    format!(in alloc; "unit {unit} slot {slot} {first} {name}")
}

/// Returns the text for `node` of `mapped` at `rule`.
fn node_text(alloc: Global, mapped: Mapped, rule: Rule, node: usize) -> Result<String, AllocError>
    ensures { IfOk result (λ text. string_bytes text ≡ spec.node_text mapped.entry.arch.now mapped.entry.kernel.now mapped.entry.mapping.now rule node) }
{
    match rule {
        Rule::L3 => shared_text(alloc, mapped, node),
        _ => {
            let name = name_of(mapped.kernel, node);
            format!(in alloc; "node {name}")
        }
    }
}

/// Returns what values that meet must share by `rule`.
fn sharing_of(rule: Rule) -> Sharing
    ensures { result ≡ spec.sharing_of rule }
{
    match rule {
        Rule::L6 => Sharing::Value,
        _ => Sharing::Way,
    }
}

/// Returns the text for the resource in the slot of `spot`, where `first` and `second` meet.
fn meeting_text(
    alloc: Global,
    arch: &Arch,
    spot: Spot,
    first: &str,
    second: &str,
) -> Result<String, AllocError>
    ensures { IfOk result (λ text. string_bytes text ≡ spec.meeting_text arch.now spot.resource spot.slot first.now second.now) }
{
    let name = resource_name(arch, spot.resource);
    let slot = spot.slot;
    format!(in alloc; "resource {name} slot {slot} {first} {second}")
}

/// Returns the text for the resource in the slot of `spot`, where two of `stops` aren't one value.
fn value_text(
    alloc: Global,
    mapped: Mapped,
    stops: &[Stop],
    spot: Spot,
) -> Result<String, AllocError>
    ensures { IfOk result (λ text. string_bytes text ≡ spec.resource_text mapped.entry.arch.now mapped.entry.kernel.now spot.ii (map position_of stops.now) Sharing.Value spot.resource spot.slot) }
{
    let first = first_on(stops, spot);
    let second = first_unlike(stops, spot, Sharing::Value, first);
    let first_name = source_name(mapped.kernel, first);
    let second_name = source_name(mapped.kernel, second);
    let text = meeting_text(alloc, mapped.arch, spot, first_name, second_name)?;
    Ok(text)
}

/// Returns the text for the resource in the slot of `spot`, where two of `stops` come from different resources.
fn way_text(alloc: Global, arch: &Arch, stops: &[Stop], spot: Spot) -> Result<String, AllocError>
    ensures { (K : KernelOf) → IfOk result (λ text. string_bytes text ≡ spec.resource_text arch.now K spot.ii (map position_of stops.now) Sharing.Way spot.resource spot.slot) }
{
    let first = first_on(stops, spot);
    let second = first_unlike(stops, spot, Sharing::Way, first);
    let first_name = way_name(arch, first);
    let second_name = way_name(arch, second);
    let text = meeting_text(alloc, arch, spot, first_name, second_name)?;
    Ok(text)
}

/// Returns the text for the resource in the slot of `spot`, where two of `stops` don't share what `sharing` requires.
fn resource_text(
    alloc: Global,
    mapped: Mapped,
    stops: &[Stop],
    sharing: Sharing,
    spot: Spot,
) -> Result<String, AllocError>
    ensures { IfOk result (λ text. string_bytes text ≡ spec.resource_text mapped.entry.arch.now mapped.entry.kernel.now spot.ii (map position_of stops.now) sharing spot.resource spot.slot) }
{
    match sharing {
        Sharing::Value => value_text(alloc, mapped, stops, spot),
        Sharing::Way => way_text(alloc, mapped.arch, stops, spot),
    }
}

/// Returns the text for the place of `violation` in `indexed`.
fn place_text(alloc: Global, indexed: Indexed, violation: Violation) -> Result<String, AllocError>
    requires { IsFilled indexed.mapped.mapping.now.ii (positions indexed.mapped.arch.now indexed.mapped.kernel.now indexed.mapped.mapping.now) indexed.buckets.now.ii indexed.buckets.now.lists.items }
    ensures { IfOk result (λ text. string_bytes text ≡ spec.place_text indexed.entry.mapped.arch.now indexed.entry.mapped.kernel.now indexed.entry.mapped.mapping.now violation.rule violation.place) }
{
    let mapped = indexed.mapped;
    match violation.place {
        RulePlace::Mapping => String::from_str(alloc, "mapping"),
        RulePlace::Node(node) => node_text(alloc, mapped, violation.rule, node),
        RulePlace::Order(edge) => format!(in alloc; "order {edge}"),
        RulePlace::Arg { node, arg } => {
            let name = name_of(mapped.kernel, node as usize);
            format!(in alloc; "edge {name}.{arg}")
        }
        RulePlace::Resource { resource, slot } => {
            let ii = mapped.mapping.ii();
            let spot = Spot { ii, resource, slot };
            let sharing = sharing_of(violation.rule);
            let stops = indexed.buckets.of(spot);
            resource_text(alloc, mapped, stops, sharing, spot)
        }
    }
}

/// Returns the line of `violation` in `indexed`.
#[tactic(auto, unfolding(crate::specs::Faults::fault_line))]
fn fault_line(alloc: Global, indexed: Indexed, violation: Violation) -> Result<String, AllocError>
    requires { IsFilled indexed.mapped.mapping.now.ii (positions indexed.mapped.arch.now indexed.mapped.kernel.now indexed.mapped.mapping.now) indexed.buckets.now.ii indexed.buckets.now.lists.items }
    ensures { IfOk result (λ line. string_bytes line ≡ spec.fault_line indexed.entry.mapped.arch.now indexed.entry.mapped.kernel.now indexed.entry.mapped.mapping.now violation) }
{
    let code = violation.rule.code();
    let place = place_text(alloc, indexed, violation)?;
    format!(in alloc; "fault {code} {place}\n")
}

/// Adds the line of `violation` in `indexed` to `text`.
fn push_line(
    alloc: Global,
    text: &mut Vec<u8>,
    indexed: Indexed,
    violation: Violation,
) -> Result<(), AllocError>
    requires { IsFilled indexed.mapped.mapping.now.ii (positions indexed.mapped.arch.now indexed.mapped.kernel.now indexed.mapped.mapping.now) indexed.buckets.now.ii indexed.buckets.now.lists.items }
    ensures { OnOk result (text.new.items ≡ text.old.items ++ spec.fault_line indexed.entry.mapped.arch.now indexed.entry.mapped.kernel.now indexed.entry.mapped.mapping.now violation) }
{
    let line = fault_line(alloc, indexed, violation)?;
    text.extend_from_slice(line.as_bytes())
}

/// Returns the lines of `violations` in `indexed`.
fn lines_of(
    alloc: Global,
    indexed: Indexed,
    violations: &[Violation],
) -> Result<Vec<u8>, AllocError>
    requires { IsFilled indexed.mapped.mapping.now.ii (positions indexed.mapped.arch.now indexed.mapped.kernel.now indexed.mapped.mapping.now) indexed.buckets.now.ii indexed.buckets.now.lists.items }
    ensures { IfOk result (λ text. text.items ≡ flat_map (spec.fault_line indexed.entry.mapped.arch.now indexed.entry.mapped.kernel.now indexed.entry.mapped.mapping.now) violations.now) }
{
    let mut text = Vec::new(alloc);
    for violation in violations {
        push_line(alloc, &mut text, indexed, *violation)?;
    }
    Ok(text)
}

/// Returns the first `most` of `violations`, or all if they are fewer.
fn first_of(violations: &[Violation], most: usize) -> &[Violation]
    ensures { result.now ≡ take most violations.now }
{
    if most < violations.len() {
        &violations[..most]
    } else {
        violations
    }
}

/// Returns the stops of all routes of `mapping`, in buckets.
fn all_buckets(
    alloc: Global,
    arch: &Arch,
    kernel: &Kernel,
    mapping: &Mapping,
) -> Result<Buckets, AllocError>
    ensures { IfOk result (λ made. IsFilled mapping.now.ii (positions arch.now kernel.now mapping.now) made.ii made.lists.items) }
{
    let stops = all_stops(alloc, arch, kernel, mapping)?;
    let made = Buckets::new(alloc, mapping.ii(), &stops)?;
    Ok(made)
}

/// Returns the lines of the first `most` of all `violations` of `mapping` on `arch`, each with a line feed. All
/// positions of routes are visited once; after that a line of L6 or L7 takes time linear in the bucket of its resource
/// and slot, and a line of L3 time linear in the nodes before its own.
#[tactic(auto, unfolding(crate::specs::Faults::fault_lines))]
pub fn fault_lines(
    alloc: Global,
    arch: &Arch,
    kernel: &Kernel,
    mapping: &Mapping,
    violations: &[Violation],
    most: usize,
) -> Result<Vec<u8>, AllocError>
    requires shape { IsShaped kernel.now mapping.now }
    requires all { violations.now ≡ violations_of arch.now kernel.now mapping.now }
    ensures { IfOk result (λ text. text.items ≡ spec.fault_lines arch.now kernel.now mapping.now most) }
{
    let buckets = all_buckets(alloc, arch, kernel, mapping)?;
    let shown = first_of(violations, most);
    let indexed = Indexed {
        mapped: Mapped {
            arch,
            kernel,
            mapping,
        },
        buckets: &buckets,
    };
    let text = lines_of(alloc, indexed, shown)?;
    Ok(text)
}
