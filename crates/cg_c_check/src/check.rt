//! Checking sources.
ghost use Rattle.std.specs.Prelude.{◌≡◌, ◌≢◌, Ok, Err, IfOk, IfErr};
ghost use Rattle.cg_c_syntax.specs.Written.{source_of};
ghost use Rattle.cg_c_check.specs.Check as spec;
ghost use Rattle.cg_c_check.specs.Nests.{nested_of};
ghost use Rattle.cg_c_check.specs.States.{state_of};
ghost use Rattle.cg_c_check.specs.Written.{program_of};

use crate::checker::Checker;
use crate::fault::CheckFault;
use crate::names::Meaning;
use crate::nests::Nested;
use crate::program::Program;
use cg_c_syntax::{Name, Source};
use std::alloc::Global;

impl<'s> Checker<'s> {
    /// Returns the typed nest of `source`, behind what `source` declares.
    fn walk(&mut self, source: &'s Source) -> Result<Nested, CheckFault>
        ensures ok { IfOk result (λ x. spec.walked (source_of source.now) (state_of self.old) ≡ Ok (nested_of x, state_of self.new)) }
        ensures err { IfErr result (λ fault. fault ≢ CheckFault.Memory → spec.walked (source_of source.now) (state_of self.old) ≡ Err fault) }
    {
        self.globals(&source.globals)?;
        self.names.declare(&source.name, Meaning::Function)?;
        self.holds(0, 1, &source.outer, &source.before, &source.after)
    }

    /// Returns the typed program of `source`.
    fn source(mut self, source: &'s Source) -> Result<Program, CheckFault>
        requires { state_of self ≡ spec.beginning }
        ensures ok { IfOk result (λ p. spec.checked (source_of source.now) ≡ Ok (program_of p)) }
        ensures err { IfErr result (λ fault. fault ≢ CheckFault.Memory → spec.checked (source_of source.now) ≡ Err fault) }
    {
        let nested = self.walk(source)?;
        let name = Name::copy_of(self.alloc, source.name.name.as_str())?;
        Ok(Program {
            name,
            arrays: self.arrays,
            words: self.words,
            levels: nested.levels,
            body: nested.body,
        })
    }
}

/// Returns the typed program of `source`, which was read.
pub fn check_c(alloc: Global, source: &Source) -> Result<Program, CheckFault>
    ensures ok { IfOk result (λ p. spec.checked (source_of source.now) ≡ Ok (program_of p)) }
    ensures err { IfErr result (λ fault. fault ≢ CheckFault.Memory → spec.checked (source_of source.now) ≡ Err fault) }
{
    let checker = Checker::new(alloc)?;
    checker.source(source)
}
