//! The differences between the versions of the bit format.

/// A version of the bit format.
#[derive(Clone, Copy, Debug, PartialEq, Eq)]
pub struct Format {
    /// The fourth byte of the file, after `CGB`.
    pub sign: u8,
    /// The width of an operation code, in bits.
    pub op_bits: u32,
    /// The greatest operation code.
    pub greatest: u32,
}

/// `CGB1`, the format before guarded operations.
pub const CGB1: Format = Format {
    sign: b'1',
    op_bits: 5,
    greatest: 22,
};

/// `CGB2`.
pub const CGB2: Format = Format {
    sign: b'2',
    op_bits: 6,
    greatest: 25,
};
