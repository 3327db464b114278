//! A module as it is read: its names are borrowed from the text.

/// `.port(net)`
#[derive(Clone, Copy, Debug)]
pub struct Pin<'a> {
    pub port: &'a [u8],
    pub net: &'a [u8],
}

/// A net of 1 to 32 bits.
#[derive(Clone, Copy, Debug)]
pub struct Wire<'a> {
    pub width: u32,
    pub name: &'a [u8],
}

/// A cell of a form, with its pins.
#[derive(Debug, Drop)]
pub struct Cell<'a> {
    pub form: &'a [u8],
    pub name: &'a [u8],
    pub first: Pin<'a>,
    pub rest: Vec<Pin<'a>>,
}

/// Nets and cells.
#[derive(Debug, Drop)]
pub struct Module<'a> {
    pub wires: Vec<Wire<'a>>,
    pub cells: Vec<Cell<'a>>,
}
