//! What is to be done for the word of an operation.
use cg_word::Op;

/// An operand of an operation that is to be done.
#[derive(Clone, Copy, Debug)]
pub(crate) enum Operand {
    /// A value that is there.
    Given(usize),
    /// A constant, which need not be there.
    Number(u32),
}

/// What is to be done for the word of an operation on two values.
#[derive(Clone, Copy, Debug)]
pub(crate) enum Plan {
    /// Nothing: it is the operand.
    Is(Operand),
    /// An operation, as it stands.
    Stands {
        op: Op,
        first: usize,
        second: Operand,
    },
    /// An operation, simplified in turn.
    Again {
        op: Op,
        first: Operand,
        second: Operand,
    },
    /// The sum of two values, and then the sum of it and a constant.
    Outwards {
        first: usize,
        second: usize,
        word: u32,
    },
    /// The sum of two values, and then the sum of `carried` and it, as that stands.
    Carried {
        carried: usize,
        first: usize,
        second: usize,
    },
}

/// What is to be done for the word of a choice between two values.
#[derive(Clone, Copy, Debug)]
pub(crate) enum Choice {
    /// What a plan says.
    Planned(Plan),
    /// Another choice, simplified in turn.
    Again {
        condition: usize,
        chosen: usize,
        other: usize,
    },
    /// A choice between operands, and then the operation on `first` and what was chosen.
    Step {
        op: Op,
        first: usize,
        condition: usize,
        chosen: Operand,
        other: Operand,
    },
    /// The choice as it stands, after the constant 0 if it was `tried` to take a step.
    Stands {
        tried: bool,
    },
}
