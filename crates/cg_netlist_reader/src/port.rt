//! Ports.

/// A port of a cell.
#[derive(Clone, Copy)]
pub(crate) enum Port {
    Clock,
    Reset,
    /// The input for the number of the chosen driver.
    Select,
    /// The input for the word of the driver with this number, from 1 on.
    Driver(u32),
    /// The input for the word of the argument with this number, from 0 on.
    Argument(u32),
    /// The output of the cell's word.
    Output,
}
