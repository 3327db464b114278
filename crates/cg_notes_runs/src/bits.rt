//! What is wrong with bits.

use crate::parts::Part;
use crate::signs::text_for_bits;
use cg_arch::Arch;
use cg_bits::{BitsFault, CGB1, CGB2, Format, HEADER, ii_in, number_at, stages_in};
use cg_spans::{Finding, MOST_PARSED};
use cg_tiles::read_arch;
use cg_word::Op;
use std::alloc::{AllocError, Global};

/// The maximum number of bytes of bits that are looked at.
const MOST_BYTES: usize = 1 << 30;

/// The files of a call in which bits are refused.
#[derive(Clone, Copy, Drop)]
pub struct BitsCall<'a> {
    /// The architecture's file.
    pub arch: &'a [u8],
    /// The file of bits.
    pub bits: &'a [u8],
    /// Whether they should be bits of the first format.
    pub is_first: bool,
}

/// Returns what is wrong with the bits of `call`, which are refused for `fault`.
pub fn find_in_bits(
    alloc: Global,
    call: BitsCall<'_>,
    fault: BitsFault,
) -> Result<Finding, AllocError> {
    let text = match fault {
        BitsFault::Magic => magic_text(call),
        _ => None,
    };
    let note = match text {
        Some(text) => Some(String::from_str(alloc, text)?),
        None => note_by_arch(alloc, call, fault)?,
    };
    match note {
        Some(text) => Ok(Finding { place: None, text }),
        None => Finding::on_file(alloc, sentence_of(fault, call.is_first)),
    }
}

/// Returns what is wrong at `fault` of bits.
fn sentence_of(fault: BitsFault, is_first: bool) -> &'static str {
    match fault {
        BitsFault::Magic if is_first =>
            "these are not bits of the first format, which begin with CGB1",
        BitsFault::Magic | BitsFault::Memory =>
            "these are not bits, which begin with CGB2: emit makes them from a mapping, and search or map from a kernel",
        BitsFault::Truncated(_) => "the bits are shorter than their header says",
        BitsFault::Trailing(_) => "the bits are longer than their header says",
        BitsFault::ArchMismatch(_, _) =>
            "the bits were made for another architecture, or for this one before it was changed: make them again with search, map or emit",
        BitsFault::BadHeader(_, _) =>
            "the interval or the number of stages is 0, or the interval is greater than the number of contexts of the architecture",
        BitsFault::BadSelect(_) => "a select is greater than the number of drivers",
        BitsFault::BadOp(_) => "no operation has this code",
        BitsFault::NotOffered(_) => "the unit doesn't offer this operation",
        BitsFault::NotCanonical(_) => "an unused field isn't 0, or a field is out of its range",
        BitsFault::BadPadding(_) => "a bit after the last slot is 1",
        BitsFault::RepeatedPort(_) => "another output goes to this port",
    }
}

/// Returns what the bytes of `call` are, which aren't bits of their format, if that can be seen.
fn magic_text(call: BitsCall<'_>) -> Option<&'static str> {
    let bytes = call.bits;
    if bytes.starts_with(b"CGI1") {
        Some("this is an image, but bits are expected")
    } else if !call.is_first && bytes.starts_with(b"CGB1") {
        Some(
            "these are bits of the first format: migrate ARCH BITS OUT converts them to the current format",
        )
    } else if call.is_first && bytes.starts_with(b"CGB2") {
        Some("these are bits of the current format and need no migration")
    } else {
        text_for_bits(bytes)
    }
}

/// Returns the note on `fault` of the bits of `call` by their architecture. Returns None if there is no more to say than
/// the general sentence on the fault.
fn note_by_arch(
    alloc: Global,
    call: BitsCall<'_>,
    fault: BitsFault,
) -> Result<Option<String>, AllocError> {
    if call.arch.len() > MOST_PARSED {
        return Ok(None);
    }
    let Ok(arch) = read_arch(alloc, call.arch) else {
        return Ok(None);
    };
    let format = if call.is_first { CGB1 } else { CGB2 };
    note_on(alloc, &arch, format, call.bits, fault)
}

/// Returns the note on `fault` of `bytes`, bits of `format` for `arch`.
fn note_on(
    alloc: Global,
    arch: &Arch,
    format: Format,
    bytes: &[u8],
    fault: BitsFault,
) -> Result<Option<String>, AllocError> {
    let bits = Bits {
        arch,
        format,
        bytes,
    };
    let note = match fault {
        BitsFault::Truncated(_) | BitsFault::Trailing(_) => bits.length_note(alloc)?,
        BitsFault::BadHeader(ii, stages) => {
            let contexts = arch.contexts();
            format!(in alloc;
                "the header says interval {ii} and stages {stages}: the interval is 1 to {contexts}, the contexts of the architecture, and the stages are 1 or more"
            )?
        }
        BitsFault::BadSelect(bit)
        | BitsFault::BadOp(bit)
        | BitsFault::NotOffered(bit)
        | BitsFault::NotCanonical(bit)
        | BitsFault::RepeatedPort(bit) => return bits.bit_note(alloc, fault, bit),
        _ => return Ok(None),
    };
    Ok(Some(note))
}

/// Bits of a format for an architecture.
#[derive(Clone, Copy, Drop)]
struct Bits<'a> {
    arch: &'a Arch,
    format: Format,
    bytes: &'a [u8],
}

/// A field of a slot.
#[derive(Clone, Copy, Drop)]
struct Spot {
    /// The slot.
    slot: usize,
    /// The first bit of the field in the file.
    bit: usize,
    /// The first bit in the file of the fields of its unit.
    from: usize,
}

impl Bits<'_> {
    /// Returns the note on the length of the bytes, and on the length that they must have.
    fn length_note(self, alloc: Global) -> Result<String, AllocError> {
        let length = self.bytes.len();
        if length < HEADER {
            return format!(in alloc; "the file has {length} bytes, but the header alone takes 40");
        }
        let ii = ii_in(self.bytes);
        let needed = self
            .slot_bits()
            .saturating_mul(ii as usize)
            .saturating_add(HEADER * 8)
            .div_ceil(8);
        format!(in alloc;
            "the file has {length} bytes, but the header and {ii} slots take {needed}"
        )
    }

    /// Returns the number of bits by which the fields of a unit are fewer than in the current format.
    fn fewer(self) -> usize {
        CGB2.op_bits.saturating_sub(self.format.op_bits) as usize
    }

    /// Returns the number of bits of a slot.
    fn slot_bits(self) -> usize {
        let fewer = self.arch.units().len().saturating_mul(self.fewer());
        (self.arch.slot_bits() as usize).saturating_sub(fewer)
    }

    /// Returns the number of `width` bits from bit `from` on; 0 if the bytes end before.
    fn number(self, from: usize, width: u32) -> u32 {
        let length = self.bytes.len();
        if length > MOST_BYTES || from > 8 * MOST_BYTES || width > 32 {
            return 0;
        }
        if from + width as usize > 8 * length {
            return 0;
        }
        number_at(self.bytes, from, width)
    }

    /// Returns the note on `fault` at bit `bit`.
    fn bit_note(
        self,
        alloc: Global,
        fault: BitsFault,
        bit: usize,
    ) -> Result<Option<String>, AllocError> {
        let Some(body) = bit.checked_sub(HEADER * 8) else {
            return self.stages_note(alloc);
        };
        let size = self.slot_bits();
        if size == 0 {
            return Ok(None);
        }
        let within = body % size;
        let spot = Spot {
            slot: body / size,
            bit,
            from: bit.saturating_sub(within),
        };
        match self.select_with(within) {
            Some((resource, width)) => self.select_note(alloc, spot, resource, width),
            None => self.unit_note(alloc, spot, fault, within),
        }
    }

    /// Returns the note on the number of stages in the header.
    fn stages_note(self, alloc: Global) -> Result<Option<String>, AllocError> {
        if self.bytes.len() < HEADER {
            return Ok(None);
        }
        let stages = stages_in(self.bytes);
        let note = format!(in alloc;
            "the header says stages {stages}, which isn't one more than the greatest stage of a unit"
        )?;
        Ok(Some(note))
    }

    /// Returns the number of the resource whose select contains bit `bit` of a slot, and the width of the select.
    fn select_with(self, bit: usize) -> Option<(u32, u32)> {
        let count = self.arch.resources().len() as u32;
        for resource in 0..count {
            let width = self.arch.select_bits(resource);
            let end = (self.arch.select_at(resource) as usize).saturating_add(width as usize);
            if bit < end {
                return Some((resource, width));
            }
        }
        None
    }

    /// Returns what is wrong with the select of `resource` at `spot`, `width` bits.
    fn select_note(
        self,
        alloc: Global,
        spot: Spot,
        resource: u32,
        width: u32,
    ) -> Result<Option<String>, AllocError> {
        let Some(resource) = self.arch.resources().get(resource as usize) else {
            return Ok(None);
        };
        let slot = spot.slot;
        let name = resource.name.as_str();
        let drivers = resource.drivers.as_slice().len();
        let select = self.number(spot.bit, width);
        let note = format!(in alloc;
            "slot {slot}: resource {name} selects driver {select}, but has {drivers}"
        )?;
        Ok(Some(note))
    }

    /// Returns the number of the unit whose fields contain bit `bit` of a slot, and the bit at which they begin.
    fn unit_with(self, bit: usize) -> Option<(u32, usize)> {
        let mut found = None;
        let count = self.arch.units().len() as u32;
        for unit in 0..count {
            let fewer = self.fewer().saturating_mul(unit as usize);
            let from = (self.arch.unit_at(unit) as usize).saturating_sub(fewer);
            if from <= bit {
                found = Some((unit, from));
            }
        }
        found
    }

    /// Returns the note on `fault` of a field of a unit at `spot`, bit `within` of its slot.
    fn unit_note(
        self,
        alloc: Global,
        spot: Spot,
        fault: BitsFault,
        within: usize,
    ) -> Result<Option<String>, AllocError> {
        let Some((number, from)) = self.unit_with(within) else {
            return Ok(None);
        };
        let Some(unit) = self.arch.units().get(number as usize) else {
            return Ok(None);
        };
        let part = Part::at(self.format, within.saturating_sub(from));
        let spot = Spot {
            from: spot.from.saturating_add(from),
            slot: spot.slot,
            bit: spot.bit,
        };
        let text = self.field_text(alloc, spot, fault, part)?;
        let slot = spot.slot;
        let name = unit.name.as_str();
        let text = text.as_str();
        let note = format!(in alloc; "slot {slot}: unit {name}{text}")?;
        Ok(Some(note))
    }

    /// Returns the message, after the name of its unit, on `fault` of the field `part` at `spot`.
    fn field_text(
        self,
        alloc: Global,
        spot: Spot,
        fault: BitsFault,
        part: Part,
    ) -> Result<String, AllocError> {
        let value = self.number(spot.bit, part.bits(self.format));
        match fault {
            BitsFault::BadOp(_) => {
                let greatest = self.format.greatest;
                format!(in alloc; ": no operation has the code {value}; codes are 0 to {greatest}")
            }
            BitsFault::NotOffered(_) => {
                let op = op_name(value);
                format!(in alloc; " doesn't offer {op}")
            }
            BitsFault::NotCanonical(_) => {
                let reason = self.reason_at(spot, part);
                format!(in alloc; ": the {part} is {value}, {reason}")
            }
            _ => format!(in alloc; ": another output goes to port {value}"),
        }
    }

    /// Returns why the field `part` of the unit at `spot` may not have its value.
    fn reason_at(self, spot: Spot, part: Part) -> &'static str {
        if self.number(spot.from, self.format.op_bits) == 0 {
            "but the unit is off"
        } else {
            part.reason()
        }
    }
}

/// Returns the name of the operation with the code `code`.
fn op_name(code: u32) -> &'static str {
    match Op::from_code(code) {
        Some(op) => op.name(),
        None => "off",
    }
}
