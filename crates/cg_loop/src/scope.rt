//! The values of names and the places of arrays at a point of a loop.
ghost use Rattle.std.specs.Prelude.{◌≡◌};
ghost use Rattle.cg_loop_syntax.specs.Loop.{extent};
ghost use Rattle.cg_loop.specs.Known.{extent_from};

use crate::names::{Named, Value, value_of};
use cg_loop_syntax::{Decl, Name};

/// The scope at a point of a loop: its declarations, and the values of names.
#[derive(Drop)]
pub(crate) struct Scope<'s> {
    pub decls: &'s [Decl],
    pub known: &'s [Named<'s>],
}

/// The place of an array in memory.
#[derive(Clone, Copy)]
pub(crate) struct Extent {
    pub at: u32,
    pub len: u32,
}

impl<'s> Scope<'s> {
    ghost use Rattle.std.specs.Prelude.{◌≡◌};
    ghost use Rattle.cg_loop_syntax.specs.Loop.{extent};
    ghost use Rattle.cg_loop.specs.Known.{env_in, extent_from, operand_of};

    /// Returns the value of the scalar `name`.
    pub fn value_of(&self, name: &Name) -> Value
        ensures { operand_of result ≡ env_in self.now name.now }
    {
        value_of(self.known, name)
    }

    /// Returns the place of the array `name`.
    pub fn extent_of(&self, name: &Name) -> Extent
        ensures { extent_from result ≡ extent self.now.decls.now name.now }
    {
        extent_of(self.decls, name)
    }
}

/// Returns the place of the array `name` of `decls`; an empty extent if there is none.
fn extent_of(decls: &[Decl], name: &Name) -> Extent
    ensures { extent_from result ≡ extent decls.now name.now }
{
    for decl in decls {
        if let Decl::Array {
            name: array,
            at,
            len,
        } = decl
            && name.as_str() == array.as_str()
        {
            return Extent { at: *at, len: *len };
        }
    }
    Extent { at: 0, len: 0 }
}
