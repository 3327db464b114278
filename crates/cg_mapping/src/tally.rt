//! Counts how often each number occurs in a list.
ghost use Rattle.std.specs.Prelude.{◌≡◌, IfOk, slice_set, slice_index_or};
ghost use Rattle.std.specs.Option.{option_copied};
ghost use Rattle.cg_mapping.specs.Tally as spec;

use std::alloc::{AllocError, Global};

/// How often a number occurs, and its position if it occurs once.
#[derive(Clone, Copy)]
pub enum Seen {
    Never,
    Once(usize),
    Again,
}

impl Seen {
    ghost use Rattle.std.specs.Prelude.{◌≡◌};
    ghost use Rattle.cg_mapping.specs.Tally.{seen_after};

    /// Returns the count after one more occurrence, at `place`.
    fn after(self, place: usize) -> Seen
        ensures { result ≡ seen_after self place }
    {
        match self {
            Seen::Never => Seen::Once(place),
            Seen::Once(_) | Seen::Again => Seen::Again,
        }
    }
}

/// Returns for each number below `size` how often it occurs in `keys`.
pub fn tally(alloc: Global, size: usize, keys: &[usize]) -> Result<Vec<Seen>, AllocError>
    ensures { IfOk result (λ table. spec.IsTally table.items size keys.now) }
{
    let mut table = vec![in alloc; Seen::Never; size]?;
    for (place, key) in keys.iter().enumerate() {
        see(&mut table, *key, place);
    }
    Ok(table)
}

/// Counts an occurrence of `key` at `place`, if the table has an entry for `key`.
fn see(table: &mut Vec<Seen>, key: usize, place: usize)
    ensures { table.new.items ≡ slice_set table.old.items key (spec.seen_after (slice_index_or table.old.items key Seen.Never) place) }
{
    if key < table.len() {
        table[key] = table[key].after(place);
    }
}

/// Returns the item of a number that occurs exactly once.
pub fn picked<T>(seen: Seen, items: &[T]) -> Option<&T>
    ensures { option_copied result ≡ spec.picked seen items.now }
{
    match seen {
        Seen::Once(place) => items.get(place),
        Seen::Never | Seen::Again => None,
    }
}
