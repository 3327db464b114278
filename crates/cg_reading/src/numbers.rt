//! The numbers of items by their names.
ghost use Rattle.std.specs.Prelude.{◌≡◌, ℕ, List, Option, Some, None, IfOk, OnOk, bytes_eq, if◌then◌else◌};
ghost use Rattle.std.specs.Option.{option_copied, option_or};
ghost use Rattle.cg_model.specs.First as first;
ghost use Rattle.cg_reading.specs.Numbers.{found_in, has_name, IsNumbering};

use indexmap::IndexMap;
use std::alloc::{AllocError, Global};

/// A number for each of some names.
pub type Numbers = IndexMap<String, usize>;

/// An item that may have a name.
pub trait Named {
    // Its name.
    ghost own_name: { Self → Option (List ℕ) };

    /// Returns its name, if it has one.
    fn name(&self) -> Option<&str>
        ensures { option_copied result ≡ own_name self.now };
}

/// Returns the number of the first item of each name.
pub fn numbers_of<T: Named>(alloc: Global, items: &[T]) -> Result<Numbers, AllocError>
    ensures { IfOk result (λ numbers. IsNumbering numbers T.own_name items.now) }
{
    let mut numbers = IndexMap::new(alloc);
    for (number, item) in items.iter().enumerate() {
        add_item(alloc, &mut numbers, item, number)?;
    }
    Ok(numbers)
}

/// Gives the item's name the number, if the item has a name and the name has no number yet.
fn add_item<T: Named>(
    alloc: Global,
    numbers: &mut Numbers,
    item: &T,
    number: usize,
) -> Result<(), AllocError>
    ensures { OnOk result ((other : List ℕ) → found_in numbers.new other
        ≡ option_or (found_in numbers.old other) (if has_name other (T.own_name item.now) then Some number else None)) }
{
    match item.name() {
        Some(name) => add_first(alloc, numbers, name, number),
        None => Ok(()),
    }
}

/// Gives `name` the number, if it has none yet.
pub fn add_first(
    alloc: Global,
    numbers: &mut Numbers,
    name: &str,
    number: usize,
) -> Result<(), AllocError>
    ensures { OnOk result ((other : List ℕ) → found_in numbers.new other
        ≡ option_or (found_in numbers.old other) (if bytes_eq name.now other then Some number else None)) }
{
    if number_in(numbers, name).is_some() {
        return Ok(());
    }
    numbers.insert(name.to_string(alloc)?, number)?;
    Ok(())
}

/// Returns the number of `name` in `numbers`, if it has one.
pub fn number_in(numbers: &Numbers, name: &str) -> Option<usize>
    ensures { result ≡ found_in numbers.now name.now }
{
    numbers.get(name).copied()
}

/// Returns whether `number` exists and is less than `other`.
pub fn is_before(number: Option<usize>, other: usize) -> bool
    ensures { result ≡ first.is_before number other }
{
    match number {
        Some(number) => number < other,
        None => false,
    }
}
