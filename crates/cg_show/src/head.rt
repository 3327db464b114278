//! The part of a picture before the panels.
ghost use Rattle.std.specs.Prelude.{◌≡◌, ◌++◌, ◌+◌, ◌*◌, ◌<◌, ◌≤◌, ◌^◌, OnOk, true, false};
ghost use Rattle.std.specs.Option.{ForSome, ForNone};
ghost use Rattle.cg_layout.specs.Tiles.{is_tiled};
ghost use Rattle.cg_show.specs.Picture as spec;

use crate::schedule::cycles;
use crate::shared::{push_boxes, push_column, push_rows, push_tiles};
use crate::style::STYLE;
use cg_emit::stages;
use cg_layout::{Layout, push_words};
use cg_occupancy::Marks;
use std::alloc::{AllocError, Global};

/// Returns the width of the panels.
fn panels_width(marks: &Marks<'_>, layout: Option<&Layout<'_>>) -> u64
    requires tiles { ForSome layout (λ l. (is_tiled marks.now.arch ≡ true) × (l.now ≡ marks.now.arch)) }
    requires column { ForNone layout (is_tiled marks.now.arch ≡ false) }
    ensures { result ≡ spec.panels_width marks.now }
{
    let ii = marks.mapping().ii();
    match layout {
        Some(layout) => 60 + (u64::from(layout.panel_width()) + 24) * u64::from(ii.min(3)),
        None => 290 + 104 * u64::from(ii),
    }
}

/// Returns where the panels end, from the top, where `count` of them are shown.
#[tactic(auto, using(crate::proofs::Steps::product_few))]
pub(crate) fn panels_bottom(marks: &Marks<'_>, layout: Option<&Layout<'_>>, count: u32) -> u64
    requires tiles { ForSome layout (λ l. (is_tiled marks.now.arch ≡ true) × (l.now ≡ marks.now.arch)) }
    requires column { ForNone layout (is_tiled marks.now.arch ≡ false) }
    requires few { count ≤ 64 }
    ensures value { result ≡ spec.panels_bottom marks.now count }
    ensures small { result < 2 ^ 40 }
{
    match layout {
        Some(layout) => {
            let height = u64::from(layout.panel_height());
            let rows = (u64::from(count) + 2) / 3;
            let below = (height + 40) * rows;
            70 + below
        }
        None => 110 + 18 * marks.arch().resources().len() as u64,
    }
}

/// The size of a picture, in pixels.
#[derive(Clone, Copy)]
pub(crate) struct Size {
    /// Its width.
    pub width: u64,
    /// Its height.
    pub height: u64,
}

/// Returns the width of the picture.
pub(crate) fn picture_width(marks: &Marks<'_>, layout: Option<&Layout<'_>>) -> u64
    requires tiles { ForSome layout (λ l. (is_tiled marks.now.arch ≡ true) × (l.now ≡ marks.now.arch)) }
    requires column { ForNone layout (is_tiled marks.now.arch ≡ false) }
    ensures { result ≡ spec.picture_width marks.now }
{
    let time = 330 + 48 * cycles(marks);
    panels_width(marks, layout).max(time.max(900))
}

/// Adds the opening of a picture of the size `size` to `text`.
fn push_svg(alloc: Global, text: &mut Vec<u8>, size: Size) -> Result<(), AllocError>
    ensures { OnOk result (text.new.items ≡ text.old.items ++ (spec.svg_head size.width size.height ++ spec.style_text)) }
{
    let Size { width, height } = size;
    let head = format!(in alloc;
        "<svg xmlns='http://www.w3.org/2000/svg' xmlns:xlink='http://www.w3.org/1999/xlink' version='1.1' width='{width}' height='{height}' font-family='monospace'>\n"
    )?;
    text.extend_from_slice(head.as_bytes())?;
    text.extend_from_slice(STYLE.as_bytes())?;
    Ok(())
}

/// Adds the elements that all panels share to `text`.
fn push_shared(
    alloc: Global,
    text: &mut Vec<u8>,
    marks: &Marks<'_>,
    layout: Option<&Layout<'_>>,
) -> Result<(), AllocError>
    requires tiles { ForSome layout (λ l. (is_tiled marks.now.arch ≡ true) × (l.now ≡ marks.now.arch)) }
    requires column { ForNone layout (is_tiled marks.now.arch ≡ false) }
    ensures { OnOk result (text.new.items ≡ text.old.items ++ spec.shared_text marks.now) }
{
    match layout {
        Some(layout) => push_grid(alloc, text, layout),
        None => push_table(alloc, text, marks),
    }
}

/// Adds the empty tiles and boxes of `layout` to `text`.
fn push_grid(alloc: Global, text: &mut Vec<u8>, layout: &Layout<'_>) -> Result<(), AllocError>
    ensures { OnOk result (text.new.items ≡ text.old.items ++ spec.grid_text layout.now) }
{
    text.extend_from_slice(b"<defs><g id='tiles'>")?;
    push_tiles(alloc, text, layout)?;
    text.extend_from_slice(b"</g><g id='boxes'>")?;
    push_boxes(alloc, text, layout)?;
    text.extend_from_slice(b"</g></defs>\n")?;
    Ok(())
}

/// Adds the empty cells of a column, and the names of the rows, to `text`.
fn push_table(alloc: Global, text: &mut Vec<u8>, marks: &Marks<'_>) -> Result<(), AllocError>
    ensures { OnOk result (text.new.items ≡ text.old.items ++ spec.table_text marks.now) }
{
    text.extend_from_slice(b"<defs><g id='tiles'>")?;
    push_column(alloc, text, marks.arch())?;
    text.extend_from_slice(b"</g></defs>\n")?;
    push_rows(alloc, text, marks)?;
    Ok(())
}

/// Adds the title of the picture to `text`.
fn push_title(alloc: Global, text: &mut Vec<u8>, marks: &Marks<'_>) -> Result<(), AllocError>
    ensures { OnOk result (text.new.items ≡ text.old.items ++ spec.title_text marks.now) }
{
    let name = marks.arch().name().as_str();
    let ii = marks.mapping().ii();
    let stages = stages(marks.legal());
    let title = format!(in alloc; "{name}: interval {ii}, stages {stages}")?;
    push_words(alloc, text, "h", 30, 28, title.as_str())?;
    Ok(())
}

/// Adds to `text` which slots of `ii` are left out, where only the first `count` are shown.
fn push_left_out(alloc: Global, text: &mut Vec<u8>, count: u32, ii: u32) -> Result<(), AllocError>
    ensures { OnOk result (text.new.items ≡ text.old.items ++ spec.left_out count ii) }
{
    if count < ii {
        let last = ii - 1;
        let words = format!(in alloc;
            "slots {count} to {last} are left out: there is no room for them in 16 MB"
        )?;
        push_words(alloc, text, "o", 330, 46, words.as_str())?;
    }
    Ok(())
}

/// Adds the part before the panels to `text`, where the first `count` slots are shown in a picture of the size `size`.
pub(crate) fn push_head(
    alloc: Global,
    text: &mut Vec<u8>,
    marks: &Marks<'_>,
    layout: Option<&Layout<'_>>,
    size: Size,
    count: u32,
) -> Result<(), AllocError>
    requires tiles { ForSome layout (λ l. (is_tiled marks.now.arch ≡ true) × (l.now ≡ marks.now.arch)) }
    requires column { ForNone layout (is_tiled marks.now.arch ≡ false) }
    ensures { OnOk result (text.new.items ≡ text.old.items ++ spec.head_with marks.now size.width size.height count) }
{
    push_svg(alloc, text, size)?;
    push_shared(alloc, text, marks, layout)?;
    push_title(alloc, text, marks)?;
    push_left_out(alloc, text, count, marks.mapping().ii())?;
    Ok(())
}
