//! Arrays that are read item by item.
ghost use Rattle.std.specs.Prelude.{Option, map};
ghost use Rattle.cg_reading.specs.Reads.{IsRead, IsReadAt};
ghost use Rattle.cg_reading.specs.Items as spec;

use crate::misfit::Misfit;
use cg_model::Items;
use std::alloc::Global;

/// A way to read the values of an array.
pub trait ItemReader {
    /// The type of the values in the array.
    type Value;

    /// The type that each value is read as.
    type Item: Drop;

    // The data that a value represents.
    ghost Data: { Type 0 };

    // The data of a value.
    ghost data_of: { Self.Value → Data };

    // The item that data represents, if any.
    ghost item_in: { Data → Option Self.Item };

    /// Reads `value` as an item.
    fn read(alloc: Global, value: &Self::Value) -> Result<Self::Item, Misfit<()>>
        ensures { IsRead (item_in (data_of value.now)) result };
}

/// Returns the item of each value, or the number of the first value that can't be read, counted from 0.
pub fn all_or_first<R: ItemReader>(
    alloc: Global,
    values: &[R::Value],
) -> Result<Items<R::Item>, Misfit<usize>>
    ensures { IsReadAt (spec.all_or_first R.item_in 0 (map R.data_of values.now)) result }
{
    let mut items = Vec::new(alloc);
    for (number, value) in values.iter().enumerate() {
        match R::read(alloc, value) {
            Ok(item) => items.push(item)?,
            Err(Misfit::Memory) => return Err(Misfit::Memory),
            Err(Misfit::WrongShape(_)) => return Err(Misfit::WrongShape(number)),
        }
    }
    Ok(Items::new(items))
}

/// Returns the item of each value, if all of them can be read.
pub fn all_of<R: ItemReader>(
    alloc: Global,
    values: &[R::Value],
) -> Result<Items<R::Item>, Misfit<()>>
    ensures { IsRead (spec.all_of R.item_in (map R.data_of values.now)) result }
{
    let mut items = Vec::new(alloc);
    for value in values {
        items.push(R::read(alloc, value)?)?;
    }
    Ok(Items::new(items))
}
