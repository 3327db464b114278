//! Names of resources.
ghost use Rattle.std.specs.Prelude.{◌≡◌, IfOk, OnOk};
ghost use Rattle.cg_parts.specs.Parts as spec;

use crate::parts::Names;
use cg_model::Name;
use indexmap::IndexSet;
use std::alloc::{AllocError, Global};

/// Returns the name of a unit's port, if it has one.
pub(crate) fn port_name_of(
    alloc: Global,
    unit: &str,
    port: usize,
) -> Result<Option<Name>, AllocError>
    ensures { IfOk result (λ name. name ≡ spec.port_name_of unit.now port) }
{
    let text = match port {
        0 => format!(in alloc; "{unit}_a")?,
        1 => format!(in alloc; "{unit}_b")?,
        2 => format!(in alloc; "{unit}_c")?,
        _ => return Ok(None),
    };
    Ok(Some(Name::new(text)))
}

/// Returns the name of the out of `unit`.
pub(crate) fn out_name(alloc: Global, unit: &str) -> Result<Name, AllocError>
    ensures { IfOk result (λ name. name ≡ spec.out_name unit.now) }
{
    Ok(Name::new(format!(in alloc; "{unit}_o")?))
}

/// Returns the distinct names of a list, in the order of their first occurrences.
#[tactic(auto, unfolding(crate::specs::Parts::distinct))]
pub fn distinct(alloc: Global, names: &[Name]) -> Result<Names, AllocError>
    ensures { IfOk result (λ list. list ≡ spec.distinct names.now) }
{
    let mut seen = IndexSet::new(alloc);
    let mut kept = Vec::new(alloc);
    for name in names {
        add_distinct(alloc, &mut seen, &mut kept, name.as_str())?;
    }
    Ok(Names::new(kept))
}

/// Appends a name to those seen and kept, unless it is there already.
fn add_distinct<'a>(
    alloc: Global,
    seen: &mut IndexSet<&'a str>,
    kept: &mut Vec<Name>,
    name: &'a str,
) -> Result<(), AllocError>
    requires { spec.texts seen.old.keys ≡ kept.old.items }
    ensures seen { OnOk result (spec.texts seen.new.keys ≡ kept.new.items) }
    ensures kept { OnOk result (kept.new.items ≡ spec.with_name kept.old.items name.now) }
{
    let (_index, added) = seen.insert_full(name)?;
    if added {
        kept.push(Name::copy_of(alloc, name)?)?;
    }
    Ok(())
}
