//! Packs bits into bytes.
ghost use Rattle.std.specs.Prelude.{◌≡◌, ◌+◌, ◌*◌, ◌≤◌, ◌<◌, ◌^◌, ◌++◌, ℕ, List, false, length, replicate, OnOk, IfOk};
ghost use Rattle.cg_bits.specs.Numbers.{bits_of, bits_of_bytes};

use std::alloc::{AllocError, Global};
use std::marker::Model;

/// A writer that packs bits into bytes, the most significant bit first. Contracts see it as the bits.
#[derive(Drop)]
pub(crate) struct BitWriter {
    bytes: Vec<u8>,
    pending: u64,
    count: u32,
}

impl Model for BitWriter {
    ghost use Rattle.std.specs.Prelude.{◌<◌, ◌^◌, ◌++◌, Bool, List};
    ghost use Rattle.cg_bits.specs.Numbers.{bits_of, bits_of_bytes};

    ghost Value = { List Bool };

    ghost view = { λ w. bits_of_bytes w.bytes.items ++ bits_of w.count w.pending };

    ghost invariant = { λ w. (w.count < 8) × (w.pending < 2 ^ w.count) };
}

impl BitWriter {
    /// Returns a writer that continues after `bytes`.
    pub fn new(bytes: Vec<u8>) -> BitWriter
        ensures { result ≡ bits_of_bytes bytes.items }
    {
        BitWriter {
            bytes,
            pending: 0,
            count: 0,
        }
    }

    /// Writes `number` in `width` bits.
    pub fn push(&mut self, number: u32, width: u32) -> Result<(), AllocError>
        requires narrow { width ≤ 32 }
        requires fits { number < 2 ^ width }
        ensures { OnOk result (self.new ≡ self.old ++ bits_of width number) }
    {
        let mut pending = self.pending << width | u64::from(number);
        let mut count = self.count + width;
        while count >= 8 {
            count -= 8;
            self.bytes.push((pending >> count) as u8)?;
            pending %= 1 << count;
        }
        self.pending = pending;
        self.count = count;
        Ok(())
    }

    /// Returns the bytes, the last one filled with zero bits.
    pub fn finish(self) -> Result<Vec<u8>, AllocError>
        ensures { IfOk result (λ v. (padding : ℕ) × (padding < 8) × (bits_of_bytes v.items ≡ self ++ replicate padding false)) }
    {
        let mut bytes = self.bytes;
        if self.count > 0 {
            bytes.push((self.pending << (8 - self.count)) as u8)?;
        }
        Ok(bytes)
    }
}
