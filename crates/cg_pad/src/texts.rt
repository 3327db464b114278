//! The texts of image faults in reports.
ghost use Rattle.std.specs.Prelude.{◌≡◌, IfOk, string_bytes};
ghost use Rattle.cg_pad.specs.Texts.{image_fault_text};

use crate::fault::{ImageFault, TooLargePlace};
use std::alloc::{AllocError, Global};

/// Returns code, name and place of `fault`, for example `I2 Truncated length 7`. Out of memory has none of them.
pub fn image_fault_text(alloc: Global, fault: ImageFault) -> Result<String, AllocError>
    ensures { IfOk result (λ s. string_bytes s ≡ image_fault_text fault) }
{
    match fault {
        ImageFault::Memory => Ok(String::new(alloc)),
        ImageFault::Magic => String::from_str(alloc, "I1 Magic byte 0"),
        ImageFault::Truncated(length) => format!(in alloc; "I2 Truncated length {length}"),
        ImageFault::TooLarge(TooLargePlace::Memory(count)) => format!(in alloc;
            "I3 TooLarge memory {count}"
        ),
        ImageFault::TooLarge(TooLargePlace::Stream(port, count)) => {
            format!(in alloc; "I3 TooLarge stream {port} {count}")
        }
        ImageFault::Trailing(byte) => format!(in alloc; "I4 Trailing byte {byte}"),
    }
}
