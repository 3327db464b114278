//! `words IMAGE`.
ghost use Rattle.std.specs.Prelude.{◌≡◌};
ghost use Rattle.cg_cause.specs.Allowed.{Allows};
ghost use Rattle.cg_effects.specs.Outcome.{file_of};
ghost use Rattle.cg_command_files.specs.Words.{words_of};

use cg_cause::{Cause, Stop};
use cg_effects::{File, Outcome, Status};
use cg_image_text::print_text;
use cg_pad::{ImageFault, read_image};
use std::alloc::Global;

/// Returns the outcome of `words`: the image in `file`, as text.
pub fn words(alloc: Global, file: &File) -> Result<Outcome, Stop>
    ensures { Allows (λ o. o ≡ words_of (file_of file.now)) result }
{
    match read_image(alloc, file.bytes.as_slice()) {
        Ok(image) => {
            let text = print_text(alloc, &image)?;
            Ok(Outcome::new(alloc, Status::Done, text.into_bytes()))
        }
        Err(ImageFault::Memory) => Err(Stop::Memory),
        Err(fault) => Err(Stop::refused(alloc, file, Cause::Image(fault))),
    }
}
