//! The fields of a unit in a slot.

use cg_bits::Format;
use std::fmt;

/// The bits of a unit's fields between its operation and its arguments: stage, port and immediate.
const HEAD_BITS: usize = 52;

/// The bits of an argument's fields: its mode, its count and four words.
const ARG_BITS: usize = 132;

/// A field of a unit. Arguments and words count from 0.
#[derive(Clone, Copy, Drop)]
pub(crate) enum Part {
    Operation,
    Stage,
    Port,
    Immediate,
    /// Whether an argument is the immediate.
    Mode(usize),
    /// The number of initial words of an argument.
    Count(usize),
    /// An initial word.
    Word { arg: usize, word: usize },
}

impl Part {
    /// Returns the field that bit `bit` of a unit's fields in `format` belongs to.
    pub(crate) fn at(format: Format, bit: usize) -> Part {
        let Some(behind) = bit.checked_sub(format.op_bits as usize) else {
            return Part::Operation;
        };
        match behind {
            0..=15 => Part::Stage,
            16..=19 => Part::Port,
            20..=51 => Part::Immediate,
            _ => Part::of_arg(behind.saturating_sub(HEAD_BITS)),
        }
    }

    /// Returns the field that bit `bit` of the fields of arguments belongs to.
    fn of_arg(bit: usize) -> Part {
        let arg = bit / ARG_BITS;
        match bit % ARG_BITS {
            0 => Part::Mode(arg),
            1..=3 => Part::Count(arg),
            within => Part::Word {
                arg,
                word: within.saturating_sub(4) / 32,
            },
        }
    }

    /// Returns the number of bits of the field in `format`.
    pub(crate) fn bits(self, format: Format) -> u32 {
        match self {
            Part::Operation => format.op_bits,
            Part::Stage => 16,
            Part::Port => 4,
            Part::Immediate | Part::Word { .. } => 32,
            Part::Mode(_) => 1,
            Part::Count(_) => 3,
        }
    }

    /// Returns what is wrong with the field if its value, in a unit that isn't off, isn't the one valid encoding.
    pub(crate) fn reason(self) -> &'static str {
        match self {
            Part::Operation => "no operation",
            Part::Stage => "greater than the greatest stage",
            Part::Port => "but the operation has no port",
            Part::Immediate => "but no argument is the immediate",
            Part::Mode(_) =>
                "but the operation doesn't take this argument, or another argument is the immediate",
            Part::Count(_) => "greater than 4, or for an argument without initial words",
            Part::Word { .. } => "after the initial words of its argument",
        }
    }
}

impl fmt::Display for Part {
    fn fmt<W: fmt::Write>(&self, f: &mut fmt::Formatter<W>) -> fmt::Result {
        match *self {
            Part::Operation => f.write_str("operation"),
            Part::Stage => f.write_str("stage"),
            Part::Port => f.write_str("port"),
            Part::Immediate => f.write_str("immediate"),
            Part::Mode(arg) => write!(f, "mode of argument {arg}"),
            Part::Count(arg) => write!(f, "count of argument {arg}"),
            Part::Word { arg, word } => write!(f, "word {word} of argument {arg}"),
        }
    }
}
