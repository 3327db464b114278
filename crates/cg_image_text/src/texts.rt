//! The texts of faults in reports.
ghost use Rattle.std.specs.Prelude.{◌≡◌, IfOk, string_bytes};
ghost use Rattle.cg_image_text.specs.Texts.{text_fault_text};

use crate::fault::TextFault;
use std::alloc::{AllocError, Global};

/// Returns code, name and place of `fault`, for example `T1 UnknownWord line 2 column 7`. Out of memory has none of
/// them.
pub fn text_fault_text(alloc: Global, fault: TextFault) -> Result<String, AllocError>
    ensures { IfOk result (λ s. string_bytes s ≡ text_fault_text fault) }
{
    match fault {
        TextFault::Memory => Ok(String::new(alloc)),
        TextFault::UnknownWord(place) => {
            let line = place.line;
            let column = place.column;
            format!(in alloc; "T1 UnknownWord line {line} column {column}")
        }
        TextFault::NoSection(place) => {
            let line = place.line;
            let column = place.column;
            format!(in alloc; "T2 NoSection line {line} column {column}")
        }
        TextFault::BadPort(place) => {
            let line = place.line;
            let column = place.column;
            format!(in alloc; "T3 BadPort line {line} column {column}")
        }
        TextFault::TooLarge(place) => {
            let line = place.line;
            let column = place.column;
            format!(in alloc; "T4 TooLarge line {line} column {column}")
        }
    }
}
