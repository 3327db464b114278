//! The declarations before the function.
ghost use Rattle.std.specs.Prelude.{◌≡◌, ◌≢◌, Ok, Err, IfOk, OnOk, IfErr, map};
ghost use Rattle.cg_c_syntax.specs.Written as written;
ghost use Rattle.cg_c_check.specs.Arrays.{end_of};
ghost use Rattle.cg_c_check.specs.Check as spec;
ghost use Rattle.cg_c_check.specs.States.{state_of};

use crate::arrays::{Extent, extent_of, table_of};
use crate::checker::Checker;
use crate::constants::constant_of;
use crate::fault::CheckFault;
use crate::names::{Meaning, Shape};
use crate::program::{Array, Constant};
use crate::rules::fits_enumerator;
use cg_c_syntax::{
    Array as ArrayTree, Constant as ConstantTree, Global as Declaration, Name, Signedness,
    Table as TableTree,
};
use cg_model::Words;

impl<'s> Checker<'s> {
    /// Declares the constant of a `#define`.
    fn define(&mut self, tree: &'s ConstantTree) -> Result<(), CheckFault>
        ensures ok { OnOk result (spec.define (written.constant_of tree.now) (state_of self.old) ≡ Ok (tt, state_of self.new)) }
        ensures err { IfErr result (λ fault. fault ≢ CheckFault.Memory → spec.define (written.constant_of tree.now) (state_of self.old) ≡ Err fault) }
    {
        let value = constant_of(&self.names, &tree.value)?;
        self.names.declare(&tree.name, Meaning::Constant(value))
    }

    /// Declares an enumerator, which is signed.
    fn enumerator(&mut self, tree: &'s ConstantTree) -> Result<(), CheckFault>
        ensures ok { OnOk result (spec.enumerator (written.constant_of tree.now) (state_of self.old) ≡ Ok (tt, state_of self.new)) }
        ensures err { IfErr result (λ fault. fault ≢ CheckFault.Memory → spec.enumerator (written.constant_of tree.now) (state_of self.old) ≡ Err fault) }
    {
        let value = constant_of(&self.names, &tree.value)?;
        if !fits_enumerator(value) {
            return Err(CheckFault::BadNumber(tree.name.place));
        }
        let constant = Constant {
            word: value.word,
            signedness: Signedness::Signed,
        };
        self.names.declare(&tree.name, Meaning::Constant(constant))
    }

    /// Declares enumerators.
    fn enumerators(&mut self, trees: &'s [ConstantTree]) -> Result<(), CheckFault>
        ensures ok { OnOk result (spec.enumerators (map written.constant_of trees.now) (state_of self.old) ≡ Ok (tt, state_of self.new)) }
        ensures err { IfErr result (λ fault. fault ≢ CheckFault.Memory → spec.enumerators (map written.constant_of trees.now) (state_of self.old) ≡ Err fault) }
    {
        for tree in trees {
            self.enumerator(tree)?;
        }
        Ok(())
    }

    /// Declares an array or a table at the next address, and returns its dimensions.
    fn extent(
        &mut self,
        table: bool,
        signedness: Signedness,
        tree: &'s ArrayTree,
    ) -> Result<Extent, CheckFault>
        ensures ok { IfOk result (λ x. spec.dimensioned table signedness (written.array_of tree.now) (state_of self.old) ≡ Ok (x.dimensions.items, state_of self.new)) }
        ensures end { IfOk result (λ x. x.end ≡ end_of self.old.free x.dimensions.items) }
        ensures free { self.new.free ≡ self.old.free }
        ensures err { IfErr result (λ fault. fault ≢ CheckFault.Memory → spec.dimensioned table signedness (written.array_of tree.now) (state_of self.old) ≡ Err fault) }
    {
        let extent = extent_of(self.alloc, &self.names, self.free, &tree.dimensions)?;
        let shape = Shape {
            number: self.arrays.len(),
            dimensions: extent.dimensions.len(),
            table,
            signedness,
        };
        self.names.declare(&tree.name, Meaning::Array(shape))?;
        Ok(extent)
    }

    /// Adds an array of this extent at the next address, with the words `table` if it is a table.
    fn add_array(
        &mut self,
        tree: &'s ArrayTree,
        extent: Extent,
        table: Option<Words>,
    ) -> Result<(), CheckFault>
        requires { extent.end ≡ end_of self.old.free extent.dimensions.items }
        ensures ok { OnOk result (spec.placed (written.array_of tree.now) extent.dimensions.items table (state_of self.old) ≡ Ok (tt, state_of self.new)) }
        ensures err { IfErr result (λ fault. fault ≡ CheckFault.Memory) }
    {
        let name = Name::copy_of(self.alloc, tree.name.name.as_str())?;
        self.arrays.push(Array {
            name,
            dimensions: Words::new(extent.dimensions),
            start: self.free,
            table,
        })?;
        self.free = extent.end;
        Ok(())
    }

    /// Declares arrays.
    fn arrays(&mut self, signedness: Signedness, trees: &'s [ArrayTree]) -> Result<(), CheckFault>
        ensures ok { OnOk result (spec.arrays signedness (map written.array_of trees.now) (state_of self.old) ≡ Ok (tt, state_of self.new)) }
        ensures err { IfErr result (λ fault. fault ≢ CheckFault.Memory → spec.arrays signedness (map written.array_of trees.now) (state_of self.old) ≡ Err fault) }
    {
        for tree in trees {
            let extent = self.extent(false, signedness, tree)?;
            self.add_array(tree, extent, None)?;
        }
        Ok(())
    }

    /// Declares a table.
    fn table(&mut self, tree: &'s TableTree) -> Result<(), CheckFault>
        ensures ok { OnOk result (spec.table (written.table_of tree.now) (state_of self.old) ≡ Ok (tt, state_of self.new)) }
        ensures err { IfErr result (λ fault. fault ≢ CheckFault.Memory → spec.table (written.table_of tree.now) (state_of self.old) ≡ Err fault) }
    {
        let extent = self.extent(true, tree.signedness, &tree.array)?;
        let words = table_of(self.alloc, &self.names, &extent.dimensions, &tree.rows)?;
        self.add_array(&tree.array, extent, Some(Words::new(words)))
    }

    /// Declares what `tree` declares.
    fn declaration(&mut self, tree: &'s Declaration) -> Result<(), CheckFault>
        ensures ok { OnOk result (spec.global (written.global_of tree.now) (state_of self.old) ≡ Ok (tt, state_of self.new)) }
        ensures err { IfErr result (λ fault. fault ≢ CheckFault.Memory → spec.global (written.global_of tree.now) (state_of self.old) ≡ Err fault) }
    {
        match tree {
            Declaration::Define(constant) => self.define(constant),
            Declaration::Enumeration(constants) => self.enumerators(constants),
            Declaration::Arrays { signedness, arrays } => self.arrays(*signedness, arrays),
            Declaration::Table(table) => self.table(table),
        }
    }

    /// Declares what `trees` declare.
    pub fn globals(&mut self, trees: &'s [Declaration]) -> Result<(), CheckFault>
        ensures ok { OnOk result (spec.globals (map written.global_of trees.now) (state_of self.old) ≡ Ok (tt, state_of self.new)) }
        ensures err { IfErr result (λ fault. fault ≢ CheckFault.Memory → spec.globals (map written.global_of trees.now) (state_of self.old) ≡ Err fault) }
    {
        for tree in trees {
            self.declaration(tree)?;
        }
        Ok(())
    }
}
