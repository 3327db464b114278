//! The numbers of nets, cells, resources and units by name.
ghost use Rattle.std.specs.Prelude.{◌≡◌, ℕ, List, IfOk, find};
ghost use Rattle.std.specs.List.{position_or_len};
ghost use Rattle.std.specs.Option.{option_copied};
ghost use Rattle.cg_gates.specs.Numbers.{AreFirst, by_name};

use cg_model::{Resource, Unit};
use cg_netlist::{Cell, Net};
use cg_reading::{Numbers, add_first, number_in};
use std::alloc::{AllocError, Global};

/// An item that has a name.
pub trait HasName {
    // Its name.
    ghost own: { Self → List ℕ };

    /// Returns its name.
    fn own_name(&self) -> &str
        ensures { result.now ≡ own self.now };
}

impl HasName for Net {
    ghost own = { λ n. n.name };

    fn own_name(&self) -> &str {
        self.name.as_str()
    }
}

impl HasName for Cell {
    ghost own = { λ c. c.name };

    fn own_name(&self) -> &str {
        self.name.as_str()
    }
}

impl HasName for Resource {
    ghost own = { λ r. r.name };

    fn own_name(&self) -> &str {
        self.name.as_str()
    }
}

impl HasName for Unit {
    ghost own = { λ u. u.name };

    fn own_name(&self) -> &str {
        self.name.as_str()
    }
}

/// Returns the number of the first of `items` that has each name.
pub fn numbers_of<T: HasName>(alloc: Global, items: &[T]) -> Result<Numbers, AllocError>
    ensures { IfOk result (λ numbers. AreFirst numbers (by_name T.own) items.now) }
{
    let mut numbers = Numbers::new(alloc);
    for (number, item) in items.iter().enumerate() {
        add_first(alloc, &mut numbers, item.own_name(), number)?;
    }
    Ok(numbers)
}

/// Finds the first of `items` that is called `name`. `numbers` maps their names to their numbers.
pub(crate) fn named<'a, T: HasName>(numbers: &Numbers, items: &'a [T], name: &str) -> Option<&'a T>
    requires { AreFirst numbers.now (by_name T.own) items.now }
    ensures { option_copied result ≡ find (by_name T.own name.now) items.now }
{
    match number_in(numbers, name) {
        Some(number) => {
            prove!(number < items.len());
            Some(&items[number])
        }
        None => None,
    }
}

/// Returns the number of the first of `items` that is called `name`, or the number of items. `numbers` maps their names
/// to their numbers.
pub fn number_or_all<T: HasName>(numbers: &Numbers, items: &[T], name: &str) -> usize
    requires { AreFirst numbers.now (by_name T.own) items.now }
    ensures { result ≡ position_or_len (by_name T.own name.now) items.now }
{
    match number_in(numbers, name) {
        Some(number) => number,
        None => items.len(),
    }
}
