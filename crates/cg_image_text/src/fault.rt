//! Why a text is not an image.

use crate::place::Place;
use std::alloc::{AllocError, AllocFailed};
use thiserror::Error;

/// Why a text is not an image, and the place of the field that shows it. The variants after `Memory` are T1 to T4.
#[derive(Clone, Copy, Debug, PartialEq, Eq, Error)]
pub enum TextFault {
    #[error("memory ran out")]
    Memory,
    /// A field isn't one that a text may have.
    #[error("an unknown word")]
    UnknownWord(Place),
    /// Words come before any section.
    #[error("words before any section")]
    NoSection(Place),
    /// No port follows the word `stream`.
    #[error("no port")]
    BadPort(Place),
    /// A number is larger than a word, or a section gets more words than it may have.
    #[error("too large")]
    TooLarge(Place),
}

/// Why a field has no meaning.
#[derive(Clone, Copy, Debug, PartialEq, Eq, Drop)]
pub enum Misread {
    /// It isn't one that a text may have.
    Unknown,
    /// It has a number that is larger than a word.
    Large,
}

impl From<AllocError> for TextFault {
    ghost use Rattle.std.specs.Prelude.{◌≡◌};
    ghost use Rattle.cg_image_text.specs.declared.fault.TextFault.TheVariants.{Memory};

    ghost from_gives = { λ _ e. e ≡ Memory };

    fn from(_error: AllocError) -> TextFault {
        TextFault::Memory
    }
}

impl<T: Drop> From<AllocFailed<T>> for TextFault {
    ghost use Rattle.std.specs.Prelude.{◌≡◌};
    ghost use Rattle.cg_image_text.specs.declared.fault.TextFault.TheVariants.{Memory};

    ghost from_gives = { λ _ e. e ≡ Memory };

    fn from(_error: AllocFailed<T>) -> TextFault {
        TextFault::Memory
    }
}
