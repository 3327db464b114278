//! Images as bytes.
ghost use Rattle.std.specs.Prelude.{◌≡◌, ◌<◌, ◌++◌, ◌^◌, ℕ, List, Ok, IfOk, OnOk, length};
ghost use Rattle.cg_model.specs.Work.{Image as ImageOf, IsImage};
ghost use Rattle.cg_pad.specs.Bytes.{answer_of, block_bytes, image_bytes, AreBytes, IsStorable};

use crate::image::Image;
use std::alloc::{AllocError, Global};

/// The letters at the start of an image file.
pub(crate) const MAGIC: [u8; 4] = *b"CGI1";

/// Returns the bytes of an image.
#[tactic(auto, unfolding(crate::specs::Bytes::image_bytes))]
pub fn write_image(alloc: Global, image: &Image) -> Result<Vec<u8>, AllocError>
    requires { IsStorable image.now }
    ensures { IfOk result (λ bytes. bytes.items ≡ image_bytes image.now) }
{
    let mut bytes = Vec::from_slice(alloc, &MAGIC)?;
    push_block(&mut bytes, image.memory())?;
    let streams = image.streams();
    for stream in streams {
        push_block(&mut bytes, stream.as_slice())?;
    }
    Ok(bytes)
}

/// Appends the number of `words`, and then the words, to `bytes`.
fn push_block(bytes: &mut Vec<u8>, words: &[u32]) -> Result<(), AllocError>
    requires { length words.now < 2 ^ 32 }
    ensures { OnOk result (bytes.new.items ≡ bytes.old.items ++ block_bytes words.now) }
{
    let count = words.len() as u32;
    bytes.extend_from_slice(&count.to_be_bytes())?;
    for word in words {
        bytes.extend_from_slice(&word.to_be_bytes())?;
    }
    Ok(())
}

/// States that what is written reads back as what was written, and that rewriting what is read gives the bytes read.
pub fn reads_back()
    ensures written { (image : ImageOf) → IsImage image → IsStorable image → answer_of (image_bytes image) ≡ Ok image }
    ensures read { (bytes : List ℕ) (image : ImageOf) → AreBytes bytes → answer_of bytes ≡ Ok image → image_bytes image ≡ bytes }
{}
