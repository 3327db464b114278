//! The description without items that would be processed in each cell to no effect.
ghost use Rattle.std.specs.Prelude.{◌≡◌, IfOk, OnOk, map, string_bytes};
ghost use Rattle.cg_tiles.specs.Lean as spec;

use cg_grid::{Part, Reference, References, Side, Tile, WrittenArch, WrittenPart};
use cg_model::{Items, LONGEST_NAME, Name};
use indexmap::IndexSet;
use std::alloc::{AllocError, Global};

/// Returns the description with equal references of a list once, and with a short bad name in place of each name that
/// is too long.
#[tactic(auto, unfolding(crate::specs::Lean::lean))]
pub(crate) fn lean(alloc: Global, written: WrittenArch) -> Result<WrittenArch, AllocError>
    ensures { IfOk result (λ read. read ≡ spec.lean written) }
{
    let tiles = lean_tiles(alloc, written.tiles)?;
    Ok(WrittenArch {
        header: written.header,
        tiles,
    })
}

fn lean_tiles(alloc: Global, tiles: Items<Tile>) -> Result<Items<Tile>, AllocError>
    ensures { IfOk result (λ list. list ≡ map spec.lean_tile tiles) }
{
    let mut list = Vec::new(alloc);
    for tile in tiles.into_vec() {
        let parts = lean_parts(alloc, tile.parts)?;
        list.push(Tile {
            letter: tile.letter,
            parts,
        })?;
    }
    Ok(Items::new(list))
}

fn lean_parts(alloc: Global, parts: Items<WrittenPart>) -> Result<Items<WrittenPart>, AllocError>
    ensures { IfOk result (λ list. list ≡ map spec.lean_written parts) }
{
    let mut list = Vec::new(alloc);
    for part in parts.into_vec() {
        list.push(WrittenPart {
            part: lean_part(alloc, part.part)?,
            other_keys: part.other_keys,
        })?;
    }
    Ok(Items::new(list))
}

fn lean_part(alloc: Global, part: Part) -> Result<Part, AllocError>
    ensures { IfOk result (λ read. read ≡ spec.lean_part part) }
{
    match part {
        Part::Wire { name, from } => {
            let name = short_name(alloc, name)?;
            let from = references_once(alloc, from)?;
            Ok(Part::Wire { name, from })
        }
        Part::Register { name, from } => {
            let name = short_name(alloc, name)?;
            let from = references_once(alloc, from)?;
            Ok(Part::Register { name, from })
        }
        Part::Unit {
            name,
            ops,
            other_ops,
            latency,
            ports,
        } => {
            let name = short_name(alloc, name)?;
            let ports = lean_ports(alloc, ports)?;
            Ok(Part::Unit {
                name,
                ops,
                other_ops,
                latency,
                ports,
            })
        }
    }
}

/// Returns `name`, or a short bad name where it has too many characters.
fn short_name(alloc: Global, name: Name) -> Result<Name, AllocError>
    ensures { IfOk result (λ short. short ≡ spec.short_name name) }
{
    if name.as_str().len() > LONGEST_NAME {
        Ok(Name::copy_of(alloc, ".")?)
    } else {
        Ok(name)
    }
}

fn lean_ports(alloc: Global, ports: Items<References>) -> Result<Items<References>, AllocError>
    ensures { IfOk result (λ list. list ≡ map spec.references_once ports) }
{
    let mut list = Vec::new(alloc);
    for references in ports.into_vec() {
        list.push(references_once(alloc, references)?)?;
    }
    Ok(Items::new(list))
}

/// Returns the distinct references of a list, in the order of their first occurrences.
fn references_once(alloc: Global, references: References) -> Result<References, AllocError>
    ensures { IfOk result (λ list. list ≡ spec.references_once references) }
{
    let mut seen = IndexSet::new(alloc);
    let mut kept = Vec::new(alloc);
    for reference in references.into_vec() {
        add_reference(alloc, &mut seen, &mut kept, reference)?;
    }
    Ok(Items::new(kept))
}

/// Adds a reference to those seen and kept, unless an equal one is there already.
fn add_reference(
    alloc: Global,
    seen: &mut IndexSet<String>,
    kept: &mut Vec<Reference>,
    reference: Reference,
) -> Result<(), AllocError>
    requires { map string_bytes seen.old.keys ≡ map spec.key_of kept.old.items }
    ensures seen { OnOk result (map string_bytes seen.new.keys ≡ map spec.key_of kept.new.items) }
    ensures kept { OnOk result (kept.new.items ≡ spec.with_reference kept.old.items reference) }
{
    let added = seen.insert(key_of(alloc, &reference)?)?;
    if added {
        kept.push(reference)?;
    }
    Ok(())
}

/// Returns the key of `reference`: the letter of its side, followed by its name.
fn key_of(alloc: Global, reference: &Reference) -> Result<String, AllocError>
    ensures { IfOk result (λ key. string_bytes key ≡ spec.key_of reference.now) }
{
    let name = reference.name.as_str();
    match reference.side {
        Side::Here => format!(in alloc; "h{name}"),
        Side::North => format!(in alloc; "n{name}"),
        Side::East => format!(in alloc; "e{name}"),
        Side::South => format!(in alloc; "s{name}"),
        Side::West => format!(in alloc; "w{name}"),
        Side::Anywhere => format!(in alloc; "a{name}"),
    }
}
