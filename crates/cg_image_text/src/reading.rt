//! Reads images from texts.
ghost use Rattle.std.specs.Prelude.{IfOk};
ghost use Rattle.cg_model.specs.Answers.{Gives};
ghost use Rattle.cg_pad.specs.Bytes.{IsStorable};
ghost use Rattle.cg_image_text.specs.Sections.{answer_of};

use crate::fault::TextFault;
use crate::sections::Reader;
use cg_pad::Image;
use std::alloc::Global;

/// Returns the image that `bytes` describe: sections of words, for the memory and the streams, in any order.
pub fn read_text(alloc: Global, bytes: &[u8]) -> Result<Image, TextFault>
    ensures exact { Gives TextFault.Memory result (answer_of bytes.now) }
    ensures storable { IfOk result (λ image. IsStorable image) }
{
    spelled(alloc, bytes)
}

/// Returns the image that `bytes` describe.
#[tactic(auto, unfolding(crate::specs::Sections::answer_of))]
fn spelled(alloc: Global, bytes: &[u8]) -> Result<Image, TextFault>
    ensures { Gives TextFault.Memory result (answer_of bytes.now) }
{
    let mut reader = Reader::new(alloc)?;
    reader.read_fields(bytes)?;
    reader.image(bytes)
}
