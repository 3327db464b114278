//! Legal mappings.

use cg_arch::Arch;
use cg_model::{Kernel, Mapping};
use std::marker::Model;

/// A legal mapping, with its architecture and its kernel.
#[derive(Drop)]
pub struct LegalMapping<'a> {
    arch: &'a Arch,
    kernel: &'a Kernel,
    mapping: Mapping,
}

impl<'a> Model for LegalMapping<'a> {
    ghost use Rattle.cg_model.specs.Mapping.{IsLegal};
    ghost use Rattle.cg_check.specs.Legal.{Mapped};

    ghost Value = { Mapped };

    ghost view = { λ l. record { arch = l.arch.now; kernel = l.kernel.now; mapping = l.mapping } };

    ghost invariant = { λ l. IsLegal l.arch.now l.kernel.now l.mapping };
}

impl<'a> LegalMapping<'a> {
    ghost use Rattle.std.specs.Prelude.{◌≡◌};
    ghost use Rattle.cg_model.specs.Array.{IsArch};
    ghost use Rattle.cg_model.specs.Kernel.{IsKernel};
    ghost use Rattle.cg_model.specs.Mapping.{IsLegal};

    /// Returns `mapping`, which is legal for `arch` and `kernel`, as a legal mapping.
    pub fn new(arch: &'a Arch, kernel: &'a Kernel, mapping: Mapping) -> LegalMapping<'a>
        requires { IsLegal arch.now kernel.now mapping }
        ensures { result ≡ record { arch = arch.now; kernel = kernel.now; mapping = mapping } }
    {
        LegalMapping {
            arch,
            kernel,
            mapping,
        }
    }

    /// Returns the architecture.
    pub fn arch(&self) -> &'a Arch
        ensures { result.now ≡ self.now.arch }
    {
        self.arch
    }

    /// Returns the kernel.
    pub fn kernel(&self) -> &'a Kernel
        ensures { result.now ≡ self.now.kernel }
    {
        self.kernel
    }

    /// Returns the mapping.
    pub fn mapping(&self) -> &Mapping
        ensures mapping { result.now ≡ self.now.mapping }
        ensures legal { IsLegal self.now.arch self.now.kernel self.now.mapping }
    {
        &self.mapping
    }
}
