//! Numbers in place of names.
ghost use Rattle.std.specs.Prelude.{◌≡◌};
ghost use Rattle.cg_loop_reader.specs.Below.{AreBelow};

use cg_loop_syntax::Role;

/// The use that a text makes of a name or a port at one place.
#[derive(Clone, Copy)]
pub(crate) struct NumberedUse {
    pub role: Role,
    /// The number of the name.
    pub name: usize,
    /// The place of the name or of the port's number.
    pub place: usize,
}

/// The uses that a text makes of names and ports, in order.
#[derive(Drop)]
pub(crate) struct NumberedUses {
    pub uses: Vec<NumberedUse>,
    /// The number of names.
    pub names: usize,
    ghost below: { AreBelow names uses.items },
}
