//! The names that are visible at a place, and what they stand for.
ghost use Rattle.std.specs.Prelude.{◌≡◌};
ghost use Rattle.cg_c_check.specs.Names as spec;

use crate::fault::CheckFault;
use crate::program::Constant;
use crate::reserved::is_reserved;
use cg_c_syntax::{Named, Signedness};
use std::alloc::{AllocError, Global};
use std::collections::BTreeMap;
use std::marker::Model;

/// What an array or a table is as far as its uses ask.
#[derive(Clone, Copy, Drop)]
pub(crate) struct Shape {
    /// Its number in the order of declaration.
    pub number: usize,
    /// The number of its dimensions.
    pub dimensions: usize,
    /// Whether it is a table.
    pub table: bool,
    /// How its elements are read.
    pub signedness: Signedness,
}

/// What a name stands for.
#[derive(Clone, Copy, Drop)]
pub(crate) enum Meaning {
    Constant(Constant),
    Array(Shape),
    /// A word by its number.
    Word(usize, Signedness),
    /// The counter of the loop that this number of loops is around.
    Counter(u32),
    /// The function.
    Function,
}

/// A name that is declared, and what it stands for.
#[derive(Clone, Copy, Drop)]
struct Declaration<'s> {
    name: &'s str,
    meaning: Meaning,
}

/// The visible names with what they stand for, which contracts see as a list, the last declared one first.
#[derive(Drop)]
pub(crate) struct Names<'s> {
    /// The names in the order of declaration.
    declared: Vec<Declaration<'s>>,
    meanings: BTreeMap<&'s str, Meaning>,
}

impl<'s> Model for Names<'s> {
    ghost use Rattle.std.specs.Prelude.{◌≡◌, ℕ, List, true};
    ghost use Rattle.cg_c_check.specs.declared.names.Meaning.{Meaning};
    ghost use Rattle.cg_c_check.specs.Visible.{listed, are_distinct, Finds};

    ghost Value = { List (List ℕ × Meaning) };

    ghost view = { λ n. listed n.declared.items };

    ghost invariant = { λ n. (are_distinct (listed n.declared.items) ≡ true) × Finds n.meanings (listed n.declared.items) };
}

impl<'s> Names<'s> {
    ghost use Rattle.std.specs.Prelude.{◌≡◌, ◌≢◌, ◌∷◌, ◌-◌, IfOk, OnOk, IfErr, drop, length};

    /// Returns the names that the headers declare.
    pub fn new(alloc: Global) -> Result<Self, AllocError>
        ensures { IfOk result (λ names. names ≡ spec.predeclared) }
    {
        let mut names = Names {
            declared: Vec::new(alloc),
            meanings: BTreeMap::new(alloc),
        };
        names.add("UINT32_MAX", constant(0xFFFF_FFFF, Signedness::Unsigned))?;
        names.add("INT32_MIN", constant(0x8000_0000, Signedness::Signed))?;
        names.add("INT32_MAX", constant(0x7FFF_FFFF, Signedness::Signed))?;
        Ok(names)
    }

    /// Makes `name` visible.
    fn add(&mut self, name: &'s str, meaning: Meaning) -> Result<(), AllocError>
        requires { spec.meaning_of self.old name.now ≡ None }
        ensures { OnOk result (self.new ≡ (name.now, meaning) ∷ self.old) }
    {
        self.declared.push(Declaration { name, meaning })?;
        match self.meanings.insert(name, meaning) {
            Ok(_) => Ok(()),
            Err(_) => {
                self.declared.pop();
                Err(AllocError)
            }
        }
    }

    /// Returns what `name` stands for.
    fn meaning(&self, name: &'s str) -> Option<Meaning>
        ensures { result ≡ spec.meaning_of self.now name.now }
    {
        self.meanings.get(&name).copied()
    }

    /// Returns what `name` stands for, which has to be visible.
    pub fn known(&self, name: &'s Named) -> Result<Meaning, CheckFault>
        ensures { result ≡ spec.known self.now name.now }
    {
        match self.meaning(name.name.as_str()) {
            Some(meaning) => Ok(meaning),
            None => Err(CheckFault::UnknownName(name.place)),
        }
    }

    /// Declares `name` with its meaning.
    #[tactic(auto, unfolding(crate::specs::Names::declared))]
    pub fn declare(&mut self, name: &'s Named, meaning: Meaning) -> Result<(), CheckFault>
        ensures ok { OnOk result (spec.declared self.old name.now meaning ≡ Ok self.new) }
        ensures err { IfErr result (λ fault. fault ≢ CheckFault.Memory → spec.declared self.old name.now meaning ≡ Err fault) }
    {
        let text = name.name.as_str();
        if is_reserved(text) {
            return Err(CheckFault::Reserved(name.place));
        }
        if self.meaning(text).is_some() {
            return Err(CheckFault::RepeatedName(name.place));
        }
        self.add(text, meaning)?;
        Ok(())
    }

    /// Returns the number of visible names.
    pub fn count(&self) -> usize
        ensures { result ≡ length self.now }
    {
        self.declared.len()
    }

    /// Forgets the names that were declared after the first `count`.
    pub fn forget(&mut self, count: usize)
        ensures { self.new ≡ drop (length self.old - count) self.old }
    {
        while self.count() > count {
            self.forget_last();
        }
    }

    /// Forgets the name that was declared last.
    fn forget_last(&mut self)
        ensures { self.new ≡ drop 1 self.old }
    {
        if let Some(last) = self.declared.pop() {
            self.meanings.remove(&last.name);
        }
    }
}

/// Returns the meaning of a name of a constant.
fn constant(word: u32, signedness: Signedness) -> Meaning
    ensures { result ≡ Meaning.Constant (record { word = word; signedness = signedness }) }
{
    Meaning::Constant(Constant { word, signedness })
}

/// Returns the array that is named at `place` with `indices` indices, by the meaning of the name.
pub(crate) fn array_named(
    place: usize,
    indices: usize,
    meaning: Meaning,
) -> Result<Shape, CheckFault>
    ensures { result ≡ spec.array_named place indices meaning }
{
    match meaning {
        Meaning::Array(shape) if shape.dimensions == indices => Ok(shape),
        _ => Err(CheckFault::WrongUse(place)),
    }
}

/// Returns the array of which an element is assigned at `place` with `indices` indices, by the meaning of its name.
pub(crate) fn writable_named(
    place: usize,
    indices: usize,
    meaning: Meaning,
) -> Result<Shape, CheckFault>
    ensures { result ≡ spec.writable_named place indices meaning }
{
    let shape = array_named(place, indices, meaning)?;
    if shape.table {
        return Err(CheckFault::WrongUse(place));
    }
    Ok(shape)
}
