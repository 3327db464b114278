//! `image TEXT OUT`.
ghost use Rattle.std.specs.Prelude.{◌≡◌, ◌<◌, ◌++◌, IfOk, OnOk};
ghost use Rattle.cg_list_laws.specs.Below.{lists_below};
ghost use Rattle.cg_model.specs.Limits.{port_count};
ghost use Rattle.cg_pad.specs.Bytes.{IsStorable};
ghost use Rattle.cg_cause.specs.Allowed.{Allows};
ghost use Rattle.cg_effects.specs.Outcome.{file_of};
ghost use Rattle.cg_command_files.specs.Image.{image_of, image_report, image_written, stream_line};

use cg_cause::{Cause, Stop};
use cg_effects::{File, Outcome, Status};
use cg_image_text::{TextFault, read_text};
use cg_pad::{Image, PORTS, write_image};
use std::alloc::{AllocError, Global};

/// Returns the outcome of `image`: the image that the text in `file` describes, to be written under the name `out`.
pub fn image(alloc: Global, file: &File, out: &str) -> Result<Outcome, Stop>
    ensures { Allows (λ o. o ≡ image_of (file_of file.now) out.now) result }
{
    match read_text(alloc, file.bytes.as_slice()) {
        Ok(image) => written(alloc, &image, out),
        Err(TextFault::Memory) => Err(Stop::Memory),
        Err(fault) => Err(Stop::refused(alloc, file, Cause::ImageText(fault))),
    }
}

/// Returns the outcome that writes `image` under the name `out`, and reports the numbers of its words.
fn written(alloc: Global, image: &Image, out: &str) -> Result<Outcome, Stop>
    requires { IsStorable image.now }
    ensures { Allows (λ o. o ≡ image_written image.now out.now) result }
{
    let report = image_report(alloc, image)?;
    let bytes = write_image(alloc, image)?;
    Ok(Outcome::with_file(alloc, Status::Done, report, out, bytes)?)
}

/// Returns the report on `image`: the number of words of its memory, and of each stream that isn't empty.
fn image_report(alloc: Global, image: &Image) -> Result<Vec<u8>, AllocError>
    ensures { IfOk result (λ report. report.items ≡ image_report image.now) }
{
    let words = image.memory().len();
    let mut report = format!(in alloc; "memory {words}\n")?.into_bytes();
    push_streams(alloc, &mut report, image)?;
    Ok(report)
}

/// Adds to `report` the number of words of each stream of `image` that isn't empty.
fn push_streams(alloc: Global, report: &mut Vec<u8>, image: &Image) -> Result<(), AllocError>
    ensures { OnOk result (report.new.items ≡ report.old.items ++ lists_below (stream_line image.now) port_count) }
{
    for port in 0..PORTS {
        push_stream(alloc, report, image, port)?;
    }
    Ok(())
}

/// Adds to `report` the number of words of the stream of `port` in `image`, if it isn't empty.
fn push_stream(
    alloc: Global,
    report: &mut Vec<u8>,
    image: &Image,
    port: usize,
) -> Result<(), AllocError>
    requires { port < port_count }
    ensures { OnOk result (report.new.items ≡ report.old.items ++ stream_line image.now port) }
{
    let words = image.streams()[port].as_slice();
    match words {
        [] => Ok(()),
        [_, ..] => {
            let count = words.len();
            let line = format!(in alloc; "stream {port} {count}\n")?;
            report.extend_from_slice(line.as_bytes())?;
            Ok(())
        }
    }
}
