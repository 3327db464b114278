//! Lists and names, which contracts see as the list of their items and as their bytes.

use crate::kernel::Operand;
use std::alloc::{AllocError, AllocFailed, Global};
use std::marker::Model;

/// A list that is made from a `Vec` and gives it back.
#[derive(Drop)]
pub struct Items<T> {
    items: Vec<T>,
}

impl<T> Model for Items<T> {
    ghost use Rattle.std.specs.Prelude.{List};

    ghost Value = { List T };

    ghost view = { λ w. w.items.items };
}

impl<T> Items<T> {
    ghost use Rattle.std.specs.Prelude.{◌≡◌, ◌∷◌, [], ◌++◌, is_ok, if◌then◌else◌};

    /// Takes over `items`.
    pub fn new(items: Vec<T>) -> Items<T>
        ensures { result ≡ items.items }
    {
        Items { items }
    }

    /// Lends the items.
    pub fn as_slice(&self) -> &[T]
        ensures { result.now ≡ self.now }
    {
        &self.items
    }

    /// Appends `item`, which allocates memory where the `Vec` has no room left.
    pub fn push(&mut self, item: T) -> Result<(), AllocFailed<T>>
        ensures { self.new ≡ (if is_ok result then self.old ++ item ∷ [] else self.old) }
    {
        self.items.push(item)
    }

    /// Returns the items as a `Vec`.
    pub fn into_vec(self) -> Vec<T>
        ensures { result.items ≡ self }
    {
        self.items
    }
}

/// A list of words of 32 bits.
pub type Words = Items<u32>;

/// The operands of a node, in order.
pub type Operands = Items<Operand>;

/// A name, which contracts see as its bytes.
#[derive(Drop)]
pub struct Name {
    text: String,
}

impl Model for Name {
    ghost use Rattle.std.specs.Prelude.{List, ℕ, string_bytes};

    ghost Value = { List ℕ };

    ghost view = { λ n. string_bytes n.text };
}

impl Name {
    ghost use Rattle.std.specs.Prelude.{◌≡◌, IfOk, string_bytes};

    /// Takes over `text`.
    pub fn new(text: String) -> Name
        ensures { result ≡ string_bytes text }
    {
        Name { text }
    }

    /// Returns a copy of `text`.
    pub fn copy_of(alloc: Global, text: &str) -> Result<Name, AllocError>
        ensures { IfOk result (λ name. name ≡ text.now) }
    {
        Ok(Name {
            text: text.to_string(alloc)?,
        })
    }

    /// Lends the text.
    pub fn as_str(&self) -> &str
        ensures { result.now ≡ self.now }
    {
        self.text.as_str()
    }

    /// Returns the text as a `String`.
    pub fn into_string(self) -> String
        ensures { string_bytes result ≡ self }
    {
        self.text
    }
}
