//! Files of other kinds in place of bits or of an image.

/// The number of bytes of a file that are looked at.
const MOST_SEEN: usize = 4096;

/// Kinds of files that are text: a text that the first part of these files contains, and what they are where bits and
/// where an image are expected.
static SIGNS: [(&'static str, &'static str, &'static str); 7] = [
    (
        "\"cgm1\"",
        "this is a mapping: emit ARCH KERNEL MAPPING OUT makes bits from it",
        "this is a mapping, but an image is expected",
    ),
    (
        "\"cgk",
        "this is a kernel: search ARCH KERNEL OUT makes bits from it",
        "this is a kernel, but an image is expected",
    ),
    (
        "\"cga1\"",
        "this is an architecture, but bits are expected, as written by search",
        "this is an architecture, but an image is expected",
    ),
    (
        "cgaflat1",
        "this is the flat text of an architecture, but bits are expected, as search writes them",
        "this is the flat text of an architecture, but an image is expected",
    ),
    (
        "cgl1",
        "this is a loop body: loop SOURCE OUT makes a kernel from it, and search ARCH KERNEL OUT bits from that",
        "this is a loop body, but an image is expected",
    ),
    (
        "module ",
        "this is Verilog, but bits are expected: a netlist is given after --netlist",
        "this is Verilog, but an image is expected",
    ),
    (
        "memory",
        "this is a text of words, but bits are expected",
        "this is a text of words: image TEXT OUT makes an image from it",
    ),
];

/// Returns what `bytes` are, which should be bits, if they look like a text of another kind.
pub(crate) fn text_for_bits(bytes: &[u8]) -> Option<&'static str> {
    let text = text_in(bytes)?;
    for (sign, for_bits, _) in &SIGNS {
        if text.contains(*sign) {
            return Some(*for_bits);
        }
    }
    None
}

/// Returns what `bytes` are, which should be an image, if they look like a text of another kind.
pub(crate) fn text_for_image(bytes: &[u8]) -> Option<&'static str> {
    let text = text_in(bytes)?;
    for (sign, _, for_image) in &SIGNS {
        if text.contains(*sign) {
            return Some(*for_image);
        }
    }
    None
}

/// Returns the first part of `bytes`, if it is a text.
fn text_in(bytes: &[u8]) -> Option<&str> {
    std::str::from_utf8(bytes.get(..MOST_SEEN).unwrap_or(bytes)).ok()
}
