//! Why a source has no typed program.
ghost use Rattle.std.specs.Prelude.{◌≡◌};
ghost use Rattle.cg_c_check.specs.declared.fault.CheckFault.TheVariants.{Memory};

use std::alloc::{AllocError, AllocFailed};

/// Why a source has no typed program: each fault has the position in the text at which it is.
#[derive(Clone, Copy, Debug, PartialEq, Eq, Drop)]
pub enum CheckFault {
    Memory,
    /// F3: a declared name is reserved.
    Reserved(usize),
    /// F4: a declared name is visible already.
    RepeatedName(usize),
    /// F5: a name is not visible.
    UnknownName(usize),
    /// F6: a name is used as what it isn't.
    WrongUse(usize),
    /// F7: an expression is not constant where it has to be.
    NotConstant(usize),
    /// F8: a number or an enumerator is too great.
    BadNumber(usize),
    /// F9: a word is shifted by more than 31.
    BadShift(usize),
    /// F10: a dimension is 0 or too great, or rows are not as long as theirs.
    BadArray(usize),
    /// F11: a loop is too deep, has no iteration or too many, or a step or a counter that is out of range.
    BadLoop(usize),
    /// F12: a port is too great or taken, or an input is not done once a turn.
    BadPort(usize),
}

impl From<AllocError> for CheckFault {
    ghost from_gives = { λ _ e. e ≡ Memory };

    fn from(_error: AllocError) -> Self {
        CheckFault::Memory
    }
}

impl<T: Drop> From<AllocFailed<T>> for CheckFault {
    ghost from_gives = { λ _ e. e ≡ Memory };

    fn from(_error: AllocFailed<T>) -> Self {
        CheckFault::Memory
    }
}

impl CheckFault {
    /// Returns the code and the name of the fault.
    pub fn name(self) -> &'static str {
        match self {
            CheckFault::Memory => "out of memory",
            CheckFault::Reserved(_) => "F3 Reserved",
            CheckFault::RepeatedName(_) => "F4 RepeatedName",
            CheckFault::UnknownName(_) => "F5 UnknownName",
            CheckFault::WrongUse(_) => "F6 WrongUse",
            CheckFault::NotConstant(_) => "F7 NotConstant",
            CheckFault::BadNumber(_) => "F8 BadNumber",
            CheckFault::BadShift(_) => "F9 BadShift",
            CheckFault::BadArray(_) => "F10 BadArray",
            CheckFault::BadLoop(_) => "F11 BadLoop",
            CheckFault::BadPort(_) => "F12 BadPort",
        }
    }

    /// Returns the position of the fault in the text.
    pub fn place(self) -> Option<usize> {
        match self {
            CheckFault::Memory => None,
            CheckFault::Reserved(place)
            | CheckFault::RepeatedName(place)
            | CheckFault::UnknownName(place)
            | CheckFault::WrongUse(place)
            | CheckFault::NotConstant(place)
            | CheckFault::BadNumber(place)
            | CheckFault::BadShift(place)
            | CheckFault::BadArray(place)
            | CheckFault::BadLoop(place)
            | CheckFault::BadPort(place) => Some(place),
        }
    }
}
