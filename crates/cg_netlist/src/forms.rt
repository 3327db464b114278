//! The forms of cells.

/// A form of cells. Its name and the ranges of its numbers are those of the definitions.
#[derive(Clone, Copy, Debug, PartialEq, Eq)]
pub enum Form {
    /// The select of the current context, by its number of bits.
    Context(u32),
    /// The select of the next context, by its number of bits.
    Preselect(u32),
    /// A choice among drivers, by their number.
    Mux(u32),
    /// A register of the word of the selected driver, by the number of drivers.
    Register(u32),
    /// The word 0.
    Zero,
    /// A unit, by its number of ports, its latency and its operations, bit k for the operation of code k.
    FunctionalUnit {
        ports: u32,
        latency: u32,
        operations: u32,
    },
}
