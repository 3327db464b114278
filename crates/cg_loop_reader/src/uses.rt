//! The uses that a text makes of names and ports.
use cg_loop_syntax::Role;

/// The use that a text makes of a name or a port at one place.
#[derive(Clone, Copy)]
pub struct Use<'a> {
    pub role: Role,
    /// The name; empty for a port.
    pub name: &'a [u8],
    /// The place of the name or of the port's number.
    pub place: usize,
}
