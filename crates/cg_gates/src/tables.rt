//! Tables of a netlist, by the numbers of its nets.

/// A context or a preselect.
#[derive(Clone, Copy)]
pub struct SelectCell {
    /// The number of the net that it drives.
    pub net: u32,
    /// The number of the resource whose select it drives.
    pub resource: u32,
}

/// A mux or a register.
#[derive(Clone, Copy)]
pub struct Choice {
    /// The number of the net that it drives.
    pub net: u32,
    /// The number of the net of its select.
    pub select: u32,
    /// The place in `Choices::heard` at which the nets of its data begin.
    pub first: usize,
    /// The number of nets among which it chooses.
    pub count: u32,
}

/// Muxes or registers.
#[derive(Drop)]
pub struct Choices {
    /// Each mux or register.
    pub entries: Vec<Choice>,
    /// The numbers of the nets among which they choose, those of each mux or register together.
    pub heard: Vec<u32>,
}
