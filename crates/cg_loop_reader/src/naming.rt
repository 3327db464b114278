//! Numbering the names of a text.
ghost use Rattle.std.specs.Prelude.{◌≡◌, map, IfOk};
ghost use Rattle.cg_loop_syntax.specs.Uses.{fault_of};
ghost use Rattle.cg_loop_reader.specs.Used.{use_of};
ghost use Rattle.cg_loop_reader.specs.Numbered.{uses_of};

use crate::numbering::{NumberedUse, NumberedUses};
use crate::uses::Use;
use indexmap::IndexSet;
use std::alloc::{AllocError, Global};

/// Numbers the names of `uses` in the order of their first occurrence.
pub(crate) fn number_names(alloc: Global, uses: &[Use<'_>]) -> Result<NumberedUses, AllocError>
    ensures { IfOk result (λ numbered. fault_of (uses_of numbered) ≡ fault_of (map use_of uses.now)) }
{
    let mut names = IndexSet::new(alloc);
    let mut numbered = Vec::with_capacity(alloc, uses.len())?;
    for used in uses {
        let (name, _added) = names.insert_full(used.name)?;
        numbered.push(NumberedUse {
            role: used.role,
            name,
            place: used.place,
        })?;
    }
    Ok(NumberedUses {
        uses: numbered,
        names: names.len(),
    })
}
