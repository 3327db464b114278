//! Reads fields in place.
ghost use Rattle.std.specs.Prelude.{◌≡◌, ◌+◌, ◌*◌, ◌/◌, ◌%◌, ◌≤◌, ◌<◌, ◌^◌, length};
ghost use Rattle.cg_bits.specs.Numbers.{number, number_at, bits_of_bytes};

/// Returns the number of `width` bits at `place` in `bytes`, counted in bits. It reads eight bytes at once where there
/// are eight from the field's first byte on, and otherwise the bytes in which the field lies, at most five.
pub fn number_at(bytes: &[u8], place: usize, width: u32) -> u32
    requires narrow { width ≤ 32 }
    requires inside { place + width ≤ 8 * length bytes.now }
    requires counted { place < 2 ^ 60 }
    ensures { result ≡ number_at (bits_of_bytes bytes.now) place width }
{
    if width == 0 {
        return 0;
    }
    let first = place / 8;
    let end = place + width as usize;
    if first + 8 <= bytes.len() {
        let word = eight_bytes(&bytes[first..first + 8]);
        return cut(word, (first + 8) * 8 - end, width);
    }
    let last = (end + 7) / 8;
    cut(few_bytes(&bytes[first..last]), last * 8 - end, width)
}

/// Returns the `width` bits of `word` that are followed by `behind` other bits.
fn cut(word: u64, behind: usize, width: u32) -> u32
    requires narrow { width ≤ 32 }
    requires inside { behind < 64 }
    ensures { result ≡ word / 2 ^ behind % 2 ^ width }
{
    ((word >> behind) % (1 << width)) as u32
}

/// Returns the number of eight bytes.
fn eight_bytes(bytes: &[u8]) -> u64
    requires { length bytes.now ≡ 8 }
    ensures { result ≡ number (bits_of_bytes bytes.now) }
{
    u64::from_be_bytes([
        bytes[0], bytes[1], bytes[2], bytes[3], bytes[4], bytes[5], bytes[6], bytes[7],
    ])
}

/// Returns the number of at most five bytes.
fn few_bytes(bytes: &[u8]) -> u64
    requires { length bytes.now ≤ 5 }
    ensures { result ≡ number (bits_of_bytes bytes.now) }
{
    let mut number = 0;
    for byte in bytes {
        number = number << 8 | u64::from(*byte);
    }
    number
}
