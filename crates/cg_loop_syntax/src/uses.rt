//! The uses that a body makes of names and ports.

/// The use that a body makes of a name or a port.
#[derive(Clone, Copy, Debug, PartialEq, Eq, Drop)]
pub enum Role {
    /// Declares the name for an array of `len` words from the address `at` on.
    Array { at: u32, len: u32 },
    /// Declares the name for a carry.
    Carry,
    /// Declares the name for the value of a `let`.
    Bind,
    /// Uses the name as a scalar.
    Scalar,
    /// Uses the name as an array.
    Item,
    /// Assigns the carry of this name.
    Assign,
    /// Reads the input stream of this port.
    Input(u32),
    /// Appends to the output stream of this port.
    Output(u32),
}
