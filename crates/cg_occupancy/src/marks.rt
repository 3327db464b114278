//! The marks of a legal mapping, kept by unit and slot and by resource and slot.

use crate::stay::Stay;
use crate::tables::{cell_number, table_of_starts, table_of_stays};
use cg_arch::Arch;
use cg_check::LegalMapping;
use cg_model::{Kernel, Mapping};
use std::alloc::{AllocError, Global};
use std::marker::Model;

/// A legal mapping with its marks. Contracts see it as the mapping with its architecture and kernel.
#[derive(Drop)]
pub struct Marks<'a> {
    legal: LegalMapping<'a>,
    starts: Vec<Option<u32>>,
    stays: Vec<Option<Stay>>,
}

impl<'a> Model for Marks<'a> {
    ghost use Rattle.cg_check.specs.Legal.{Mapped};
    ghost use Rattle.cg_occupancy.specs.Tables.{AreTables};

    ghost Value = { Mapped };

    ghost view = { λ m. m.legal };

    ghost invariant = { λ m. AreTables m.legal m.starts.items m.stays.items };
}

impl<'a> Marks<'a> {
    ghost use Rattle.std.specs.Prelude.{◌≡◌, ◌<◌, IfOk, length, option_map};
    ghost use Rattle.cg_model.specs.Mapping.{IsLegal};
    ghost use Rattle.cg_occupancy.specs.Marks.{start_at, stay_at, position_of};

    /// Makes the marks of `legal`, which is dropped if memory runs out.
    pub fn of(alloc: Global, legal: LegalMapping<'a>) -> Result<Marks<'a>, AllocError>
        ensures { IfOk result (λ marks. marks ≡ legal.entry) }
    {
        let starts = table_of_starts(alloc, &legal)?;
        let stays = table_of_stays(alloc, &legal)?;
        let _legal = legal.mapping();
        Ok(Marks {
            legal,
            starts,
            stays,
        })
    }

    /// Returns the legal mapping.
    pub fn legal(&self) -> &LegalMapping<'a>
        ensures value { result.now ≡ self.now }
        ensures legal { IsLegal self.now.arch self.now.kernel self.now.mapping }
    {
        &self.legal
    }

    /// Returns the architecture.
    pub fn arch(&self) -> &'a Arch
        ensures arch { result.now ≡ self.now.arch }
        ensures legal { IsLegal self.now.arch self.now.kernel self.now.mapping }
    {
        self.legal.arch()
    }

    /// Returns the kernel.
    pub fn kernel(&self) -> &'a Kernel
        ensures kernel { result.now ≡ self.now.kernel }
        ensures legal { IsLegal self.now.arch self.now.kernel self.now.mapping }
    {
        self.legal.kernel()
    }

    /// Returns the mapping.
    pub fn mapping(&self) -> &Mapping
        ensures mapping { result.now ≡ self.now.mapping }
        ensures legal { IsLegal self.now.arch self.now.kernel self.now.mapping }
    {
        self.legal.mapping()
    }

    /// Returns the node that `unit` begins in `slot`.
    pub fn start(&self, unit: u32, slot: u32) -> Option<u32>
        requires unit { unit < length self.now.arch.units }
        requires slot { slot < self.now.mapping.ii }
        ensures { result ≡ start_at self.now unit slot }
    {
        let ii = self.legal.mapping().ii();
        self.starts[cell_number(unit, ii, slot)]
    }

    /// Returns the value that `resource` carries in `slot`.
    pub fn stay(&self, resource: u32, slot: u32) -> Option<Stay>
        requires resource { resource < length self.now.arch.resources }
        requires slot { slot < self.now.mapping.ii }
        ensures { option_map position_of result ≡ stay_at self.now resource slot }
    {
        let ii = self.legal.mapping().ii();
        self.stays[cell_number(resource, ii, slot)]
    }
}
