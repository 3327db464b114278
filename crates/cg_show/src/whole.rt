//! The picture of a legal mapping.
ghost use Rattle.std.specs.Prelude.{◌≡◌, IfOk, map, string_bytes};
ghost use Rattle.cg_show.specs.Picture as spec;

use crate::foot::{foot, report_top};
use crate::head::{Size, panels_bottom, picture_width, push_head};
use crate::panels::panels;
use cg_layout::{Layout, push_group};
use cg_occupancy::Marks;
use std::alloc::{AllocError, Global};

/// The number of bytes for panels and the part below them.
const MOST_BYTES: usize = 16_000_000;

/// Returns the picture of the mapping of `marks`, as SVG, with the lines `lines` of its report. Where there is no room
/// for the panels of all slots in 16 MB, a line says which are left out.
pub fn picture(alloc: Global, marks: &Marks<'_>, lines: &[String]) -> Result<Vec<u8>, AllocError>
    ensures { IfOk result (λ text. text.items ≡ spec.picture_text marks.now (map string_bytes lines.now)) }
{
    let layout = Layout::of(alloc, marks.arch())?;
    let places = layout.as_ref();
    let foot = foot(alloc, marks, lines)?;
    let room = MOST_BYTES.saturating_sub(foot.len());
    let panels = panels(alloc, marks, places, room)?;
    let width = picture_width(marks, places);
    let bottom = panels_bottom(marks, places, panels.count);
    let height = bottom + report_top(marks) + 16 * lines.len() as u64 + 40;
    let mut text = Vec::new(alloc);
    push_head(
        alloc,
        &mut text,
        marks,
        places,
        Size { width, height },
        panels.count,
    )?;
    text.extend_from_slice(panels.text.as_slice())?;
    push_group(alloc, &mut text, 30, bottom)?;
    text.extend_from_slice(foot.as_slice())?;
    text.extend_from_slice(b"</g>\n</svg>\n")?;
    Ok(text)
}
