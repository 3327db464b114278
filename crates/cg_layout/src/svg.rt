//! Elements of pictures, as text.
ghost use Rattle.std.specs.Prelude.{◌≡◌, ◌++◌, OnOk};
ghost use Rattle.cg_layout.specs.Svg as spec;

use std::alloc::{AllocError, Global};

/// A rectangle, in pixels.
#[derive(Clone, Copy)]
pub struct Area {
    /// The left edge.
    pub x: u64,
    /// The top edge.
    pub y: u64,
    /// The width.
    pub width: u64,
    /// The height.
    pub height: u64,
}

/// Adds the rectangle `area` of the class `class` to `text`.
pub fn push_rect(
    alloc: Global,
    text: &mut Vec<u8>,
    class: &str,
    area: Area,
) -> Result<(), AllocError>
    ensures { OnOk result (text.new.items ≡ text.old.items ++ spec.rect_text class.now area) }
{
    let Area {
        x,
        y,
        width,
        height,
    } = area;
    let element = format!(in alloc;
        "<rect class='{class}' x='{x}' y='{y}' width='{width}' height='{height}'/>"
    )?;
    text.extend_from_slice(element.as_bytes())
}

/// Adds the words `words` of the class `class` at `x` and `y` to `text`.
pub fn push_words(
    alloc: Global,
    text: &mut Vec<u8>,
    class: &str,
    x: u64,
    y: u64,
    words: &str,
) -> Result<(), AllocError>
    ensures { OnOk result (text.new.items ≡ text.old.items ++ spec.words_text class.now x y words.now) }
{
    let element = format!(in alloc; "<text class='{class}' x='{x}' y='{y}'>{words}</text>")?;
    text.extend_from_slice(element.as_bytes())
}

/// Adds a ring around `x` and `y` to `text`.
pub fn push_ring(alloc: Global, text: &mut Vec<u8>, x: u64, y: u64) -> Result<(), AllocError>
    ensures { OnOk result (text.new.items ≡ text.old.items ++ spec.ring_text x y) }
{
    let element = format!(in alloc; "<circle class='w' cx='{x}' cy='{y}' r='3'/>")?;
    text.extend_from_slice(element.as_bytes())
}

/// Adds lines of the class `class` along `way` to `text`.
pub fn push_path(
    alloc: Global,
    text: &mut Vec<u8>,
    class: &str,
    way: &str,
) -> Result<(), AllocError>
    ensures { OnOk result (text.new.items ≡ text.old.items ++ spec.path_text class.now way.now) }
{
    let element = format!(in alloc; "<path class='{class}' d='{way}'/>")?;
    text.extend_from_slice(element.as_bytes())
}

/// Adds the head of a mark of the colour `colour` to `text`; a browser shows `title` for it.
pub fn push_mark(
    alloc: Global,
    text: &mut Vec<u8>,
    colour: u32,
    title: &str,
) -> Result<(), AllocError>
    ensures { OnOk result (text.new.items ≡ text.old.items ++ spec.mark_head colour title.now) }
{
    let element = format!(in alloc; "<g class='c{colour}'><title>{title}</title>")?;
    text.extend_from_slice(element.as_bytes())
}

/// Adds the head of a group that begins at `x` and `y` to `text`.
pub fn push_group(alloc: Global, text: &mut Vec<u8>, x: u64, y: u64) -> Result<(), AllocError>
    ensures { OnOk result (text.new.items ≡ text.old.items ++ spec.group_head x y) }
{
    let element = format!(in alloc; "<g transform='translate({x} {y})'>\n")?;
    text.extend_from_slice(element.as_bytes())
}
