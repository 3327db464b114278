//! The addresses of elements, and the words that are there.
ghost use Rattle.std.specs.Prelude.{◌≡◌, ℕ, ◌<◌, true, List, Option, length, Contains, IfOk, IfSome};
ghost use Rattle.cg_word.specs.Word.{apply_of};
ghost use Rattle.cg_word.specs.declared.op.Op.TheVariants as ops;
ghost use Rattle.cg_c_values.specs.Listed.{listed};
ghost use Rattle.cg_c_meaning.specs.Typed.{IsArray};
ghost use Rattle.cg_c_values.specs.declared.value.Value.TheVariants.{Loaded};
ghost use Rattle.cg_c_values.specs.Values.{Extends, Means, Words, holds, value_at};
ghost use Rattle.cg_c_turn.specs.Draft.{Effect as Effects, draft_of, latest_in};
ghost use Rattle.cg_c_turn.specs.Pieces.{Addresses, IsFound, Loads, Places};
ghost use Rattle.cg_c_turn.specs.Stands.{AreBelow, IsFormed};

use crate::draft::Draft;
use crate::effect::Effect;
use cg_c_values::{Value, Values};
use cg_word::Op;
use std::alloc::AllocError;

/// Returns the value of `place * dimension + index`.
fn advanced(
    values: &mut Values,
    place: usize,
    dimension: u32,
    index: usize,
) -> Result<usize, AllocError>
    requires place { place < length (listed values.now) }
    requires index { index < length (listed values.now) }
    ensures kept { Extends (listed values.old) (listed values.new) }
    ensures means { IfOk result (λ r. Means (listed values.new) r (λ x E. apply_of ops.Add (apply_of ops.Mul (E place) dimension 0) (E index) 0)) }
{
    let dimension = values.constant(dimension)?;
    let row = values.two(Op::Mul, place, dimension)?;
    values.two(Op::Add, row, index)
}

/// Returns the value of the place of an element among those of an array with these dimensions, row by row.
fn place_of(values: &mut Values, dimensions: &[u32], indices: &[usize]) -> Result<usize, AllocError>
    requires { AreBelow (length (listed values.now)) indices.now }
    ensures { IfOk result (λ r. Places (listed values.old) (listed values.new) dimensions.now indices.now r) }
{
    let mut place = match indices.first() {
        Some(first) => *first,
        None => return values.constant(0),
    };
    let count = indices.len().min(dimensions.len());
    for k in 1..count {
        place = advanced(values, place, dimensions[k], indices[k])?;
    }
    Ok(place)
}

impl<'p> Draft<'p> {
    /// Returns the value of the address of an element of an array, by the values of its indices.
    pub(crate) fn address(&mut self, array: usize, indices: &[usize]) -> Result<usize, AllocError>
        requires formed { IsFormed (draft_of self.now) }
        requires there { IsArray (draft_of self.now).arrays array }
        requires within { AreBelow (length (draft_of self.now).values) indices.now }
        ensures { IfOk result (λ v. Addresses (draft_of self.old) (draft_of self.new) array indices.now v) }
    {
        let arrays = self.arrays;
        let shape = &arrays[array];
        let place = place_of(&mut self.values, shape.dimensions.as_slice(), indices)?;
        let start = self.values.constant(shape.start)?;
        self.values.two(Op::Add, place, start)
    }

    /// Returns the value of the word that is at an address in an array; `place` is that of the array's name in the source.
    pub(crate) fn load(
        &mut self,
        array: usize,
        address: usize,
        place: usize,
    ) -> Result<usize, AllocError>
        requires formed { IsFormed (draft_of self.now) }
        requires there { IsArray (draft_of self.now).arrays array }
        requires within { address < length (draft_of self.now).values }
        ensures { IfOk result (λ v. (added : List Effects) × Loads (draft_of self.old) (draft_of self.new) added array address v) }
    {
        if let Some(word) = self.table_word(array, address) {
            return self.values.constant(word);
        }
        if let Some(v) = self.stored_word(array, address) {
            return Ok(v);
        }
        if let Some(v) = self.loaded_word(array, address) {
            return Ok(v);
        }
        self.load_anew(array, address, place)
    }

    /// Returns the word at an address in a table, if the address is a constant.
    fn table_word(&self, array: usize, address: usize) -> Option<u32>
        requires there { IsArray (draft_of self.now).arrays array }
        requires within { address < length (draft_of self.now).values }
        ensures { IfSome result (λ word. IsFound (draft_of self.now) address (λ E. word)) }
    {
        let shape = &self.arrays[array];
        let Some(table) = &shape.table else {
            return None;
        };
        let at = self.values.number(address)?;
        let index = at.checked_sub(shape.start)?;
        table.as_slice().get(index as usize).copied()
    }

    /// Returns whether what acts under `guard` acts where the point does, as far as is seen.
    fn is_covered_by(&self, guard: Option<usize>) -> bool
        ensures { result ≡ true → (E : Words) → holds E (draft_of self.now).guard ≡ true → holds E guard ≡ true }
    {
        guard.is_none() || guard == self.guard
    }

    /// Returns the value of the word that was last stored to an array, if it was stored to this address.
    fn stored_word(&self, array: usize, address: usize) -> Option<usize>
        requires formed { IsFormed (draft_of self.now) }
        requires there { IsArray (draft_of self.now).arrays array }
        ensures within { IfSome result (λ v. v < length (draft_of self.now).values) }
        ensures found { IfSome result (λ v. IsFound (draft_of self.now) address (λ E. E v)) }
    {
        let stored = self.latest[array].stored?;
        if stored.address == address && self.is_covered_by(stored.guard) {
            Some(stored.word)
        } else {
            None
        }
    }

    /// Returns the value of a load of this address that was done since the last store to its array, if there is one.
    fn loaded_word(&self, array: usize, address: usize) -> Option<usize>
        requires formed { IsFormed (draft_of self.now) }
        requires there { IsArray (draft_of self.now).arrays array }
        ensures within { IfSome result (λ v. v < length (draft_of self.now).values) }
        ensures found { IfSome result (λ v. IsFound (draft_of self.now) address (λ E. E v)) }
    {
        for effect in &self.effects {
            if let Some(v) = self.word_of_load(effect, array, address) {
                return Some(v);
            }
        }
        None
    }

    /// Returns the value that `effect` loads, if it loads the word at this address that is there at the point.
    fn word_of_load(&self, effect: &Effect, array: usize, address: usize) -> Option<usize>
        requires formed { IsFormed (draft_of self.now) }
        requires there { IsArray (draft_of self.now).arrays array }
        requires done { Contains (draft_of self.now).effects effect.now }
        ensures within { IfSome result (λ v. v < length (draft_of self.now).values) }
        ensures found { IfSome result (λ v. IsFound (draft_of self.now) address (λ E. E v)) }
    {
        match *effect {
            Effect::Load {
                guard,
                array: of,
                address: at,
                value,
                ..
            } => {
                if of == array
                    && at == address
                    && self.is_covered_by(guard)
                    && self.is_current(array, value)
                {
                    Some(value)
                } else {
                    None
                }
            }
            _ => None,
        }
    }

    /// Returns whether a value is loaded after the last store to `array`.
    fn is_current(&self, array: usize, v: usize) -> bool
        requires there { array < length (draft_of self.now).latest }
        requires within { v < length (draft_of self.now).values }
        ensures { (of version : ℕ) (guard : Option ℕ) (address : ℕ) → result ≡ true → value_at (draft_of self.now).values v ≡ Loaded of version guard address → version ≡ (latest_in (draft_of self.now) array).version }
    {
        match self.values.value(v) {
            Value::Loaded { version, .. } => version == self.latest[array].version,
            _ => false,
        }
    }

    /// Adds a load.
    fn load_anew(&mut self, array: usize, address: usize, place: usize) -> Result<usize, AllocError>
        requires formed { IsFormed (draft_of self.now) }
        requires there { IsArray (draft_of self.now).arrays array }
        requires within { address < length (draft_of self.now).values }
        ensures { IfOk result (λ v. (added : List Effects) × Loads (draft_of self.old) (draft_of self.new) added array address v) }
    {
        let version = self.latest[array].version;
        let guard = self.guard;
        let value = self.values.insert(Value::Loaded {
            array,
            version,
            guard,
            address,
        })?;
        self.effects.push(Effect::Load {
            guard,
            array,
            address,
            value,
            place,
        })?;
        Ok(value)
    }
}
