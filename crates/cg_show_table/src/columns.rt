//! The table of units and slots.
ghost use Rattle.std.specs.Prelude.{◌≡◌, ◌+◌, ◌-◌, ◌*◌, ◌/◌, ◌<◌, ◌≤◌, ◌++◌, nat_lt, length, map, replicate, string_bytes, Some, option_map, IfOk, OnOk, if◌then◌else◌};
ghost use Rattle.cg_model.specs.Array.{unit as unit_of};
ghost use Rattle.cg_model.specs.Kernel.{size, node as node_of};
ghost use Rattle.cg_model.specs.Mapping.{place as place_of};
ghost use Rattle.cg_list_laws.specs.Below.{lists_below};
ghost use Rattle.cg_show_table.specs.Columns as spec;
ghost use Rattle.cg_show_table.specs.Sizes.{IsSmall, IsGridOf, starts_from};

use cg_arch::Arch;
use cg_model::{Kernel, Mapping, Place};
use cg_occupancy::Marks;
use cg_word::Op;
use std::alloc::{AllocError, Global};

/// The sizes of a table.
#[derive(Clone, Copy)]
pub(crate) struct Grid {
    /// The column of characters at which the first column of slots begins.
    pub first: usize,
    /// The distance between columns, in characters.
    pub pitch: usize,
    /// The number of columns side by side.
    pub across: usize,
    /// The number of slots.
    pub slots: usize,
}

/// Adds the lines of the table of `marks` to `lines`.
#[tactic(auto, unfolding(crate::specs::Columns::grid_lines))]
pub(crate) fn push_grid(
    alloc: Global,
    lines: &mut Vec<String>,
    marks: &Marks<'_>,
) -> Result<(), AllocError>
    ensures { OnOk result (map string_bytes lines.new.items ≡ map string_bytes lines.old.items ++ spec.grid_lines marks.now) }
{
    let grid = grid_of(alloc, marks)?;
    for block in 0..blocks(grid) {
        push_block(alloc, lines, marks, grid, block)?;
    }
    Ok(())
}

/// Returns the sizes of the table of `marks`.
#[tactic(auto, unfolding(crate::specs::Columns::grid_of))]
fn grid_of(alloc: Global, marks: &Marks<'_>) -> Result<Grid, AllocError>
    ensures value { IfOk result (λ grid. grid ≡ spec.grid_of marks.now) }
    ensures small { IfOk result (IsGridOf marks.now) }
{
    let _contexts = marks.arch().contexts();
    let name = name_width(marks);
    let cell = cell_width(alloc, marks)?;
    Ok(grid_with(name, cell, marks.mapping().ii() as usize))
}

/// Returns the sizes of a table of `slots` slots, where names of units have at most `name` characters and cells at most
/// `cell`.
#[tactic(auto, using(crate::proofs::Sizes::across_few))]
fn grid_with(name: usize, cell: usize, slots: usize) -> Grid
    requires name { name ≤ 40 }
    requires cell { cell ≤ 60 }
    requires slots { slots ≤ 64 }
    ensures value { result ≡ spec.grid_with name cell slots }
    ensures small { IsSmall result }
    ensures slots { result.slots ≡ slots }
{
    Grid {
        first: name + 2,
        pitch: cell + 2,
        across: ((120 - name) / (cell + 2)).max(1),
        slots,
    }
}

/// Returns the number of characters of the longest name of a unit that begins a node.
#[tactic(auto, using(crate::proofs::Rows::greatest_more, crate::proofs::Rows::greatest_none), unfolding(crate::specs::Columns::name_width))]
fn name_width(marks: &Marks<'_>) -> usize
    ensures value { result ≡ spec.name_width marks.now }
    ensures small { result ≤ 40 }
{
    let mut width = 0;
    for unit in 0..marks.arch().units().len() {
        width = width.max(unit_width(marks, unit as u32));
    }
    width
}

/// Returns the number of characters of the name of `unit`, where it begins a node, and else 0.
#[tactic(auto, using(crate::proofs::Rows::starts_all))]
fn unit_width(marks: &Marks<'_>, unit: u32) -> usize
    requires { unit < length marks.now.arch.units }
    ensures value { result ≡ spec.unit_width marks.now unit }
    ensures small { result ≤ 40 }
{
    let _contexts = marks.arch().contexts();
    if 0 < starts(marks, unit, 0, marks.mapping().ii()) {
        unit_name(marks.arch(), unit).len()
    } else {
        0
    }
}

/// Returns the name of `unit`.
fn unit_name(arch: &Arch, unit: u32) -> &str
    requires { unit < length arch.now.units }
    ensures value { result.now ≡ (unit_of arch.now unit).name }
    ensures short { length result.now ≤ 40 }
{
    match arch.units().get(unit as usize) {
        Some(unit) => unit.name.as_str(),
        None => "",
    }
}

/// Returns the number of characters of the longest cell.
#[tactic(auto, using(crate::proofs::Rows::greatest_more, crate::proofs::Rows::greatest_none), unfolding(crate::specs::Columns::cell_width))]
fn cell_width(alloc: Global, marks: &Marks<'_>) -> Result<usize, AllocError>
    ensures value { IfOk result (λ width. width ≡ spec.cell_width marks.now) }
    ensures small { IfOk result (λ width. width ≤ 60) }
{
    let mut width = 0;
    for node in 0..marks.kernel().nodes().len() {
        width = width.max(node_width(alloc, marks, node as u32)?);
    }
    Ok(width)
}

/// Returns the number of characters of `node` in a cell.
fn node_width(alloc: Global, marks: &Marks<'_>, node: u32) -> Result<usize, AllocError>
    requires { node < size marks.now.kernel }
    ensures value { IfOk result (λ width. width ≡ spec.node_width marks.now node) }
    ensures small { IfOk result (λ width. width ≤ 60) }
{
    let _nodes = marks.kernel().nodes();
    let text = node_text(alloc, marks, node)?;
    Ok(text.len())
}

/// Returns the text of `node` in a cell: its name, its operation and its stage.
#[tactic(auto, unfolding(crate::specs::Columns::node_text))]
fn node_text(alloc: Global, marks: &Marks<'_>, node: u32) -> Result<String, AllocError>
    ensures { IfOk result (λ text. string_bytes text ≡ spec.node_text marks.now node) }
{
    let name = node_name(marks.kernel(), node);
    let op = node_op(marks.kernel(), node).name();
    let stage = stage(marks.mapping(), node);
    format!(in alloc; "{name} {op} @{stage}")
}

/// Returns the name of `node`; empty past the last node.
fn node_name(kernel: &Kernel, node: u32) -> &str
    ensures { result.now ≡ (node_of kernel.now node).name }
{
    match kernel.nodes().get(node as usize) {
        Some(node) => node.name.as_str(),
        None => "",
    }
}

/// Returns the operation of `node`; `const` past the last node.
fn node_op(kernel: &Kernel, node: u32) -> Op
    ensures { result ≡ (node_of kernel.now node).op }
{
    match kernel.nodes().get(node as usize) {
        Some(node) => node.op,
        None => Op::Const,
    }
}

/// Returns the stage of `node`.
fn stage(mapping: &Mapping, node: u32) -> u32
    requires { 0 < mapping.now.ii }
    ensures { result ≡ (place_of mapping.now node).time / mapping.now.ii }
{
    place(mapping, node).time / mapping.ii()
}

/// Returns the place of `node`; past the last node, unit 0 in cycle 0.
fn place(mapping: &Mapping, node: u32) -> Place
    ensures { result ≡ place_of mapping.now node }
{
    match mapping.places().get(node as usize) {
        Some(place) => *place,
        None => Place { unit: 0, time: 0 },
    }
}

/// Returns the number of slots, of the `count` slots from `first` on, in which `unit` begins a node.
#[tactic(auto, using(crate::proofs::Rows::starts_more, crate::proofs::Rows::starts_none))]
fn starts(marks: &Marks<'_>, unit: u32, first: u32, count: u32) -> u32
    requires unit { unit < length marks.now.arch.units }
    requires slots { first + count ≤ marks.now.mapping.ii }
    requires few { first + count ≤ 4096 }
    ensures { result ≡ starts_from marks.now unit first count }
{
    let mut sum = 0;
    for slot in 0..count {
        if marks.start(unit, first + slot).is_some() {
            sum += 1;
        }
    }
    sum
}

/// Returns the number of blocks of a table.
#[tactic(auto, using(crate::proofs::Sizes::blocks_few))]
fn blocks(grid: Grid) -> usize
    requires { IsSmall grid }
    ensures value { result ≡ spec.blocks grid }
    ensures few { result ≤ grid.slots }
{
    (grid.slots + grid.across - 1) / grid.across
}

/// Returns the first slot of `block`.
#[tactic(auto, using(crate::proofs::Sizes::product_few))]
fn first_slot(grid: Grid, block: usize) -> usize
    requires small { IsSmall grid }
    requires within { block ≤ grid.slots }
    ensures value { result ≡ block * grid.across }
    ensures small { result ≤ 3968 }
{
    block * grid.across
}

/// Returns the number of columns of `block`.
fn columns(grid: Grid, block: usize) -> usize
    requires small { IsSmall grid }
    requires within { block ≤ grid.slots }
    ensures { result ≡ spec.columns grid block }
{
    let left = grid.slots.saturating_sub(first_slot(grid, block));
    grid.across.min(left)
}

/// Returns the slot in column `column` of `block`.
fn slot_of(grid: Grid, block: usize, column: usize) -> usize
    requires small { IsSmall grid }
    requires within { block ≤ grid.slots }
    requires column { column < spec.columns grid block }
    ensures value { result ≡ spec.slot_of grid block column }
    ensures within { result < grid.slots }
{
    first_slot(grid, block) + column
}

/// Checks whether `unit` begins a node in a slot of `block`.
fn begins_in(marks: &Marks<'_>, grid: Grid, block: usize, unit: u32) -> bool
    requires grid { IsGridOf marks.now grid }
    requires within { block ≤ grid.slots }
    requires unit { unit < length marks.now.arch.units }
    ensures { result ≡ nat_lt 0 (spec.starts_in marks.now grid block unit) }
{
    let count = columns(grid, block);
    if count == 0 {
        return false;
    }
    0 < starts(marks, unit, first_slot(grid, block) as u32, count as u32)
}

/// Adds the lines of `block` to `lines`.
fn push_block(
    alloc: Global,
    lines: &mut Vec<String>,
    marks: &Marks<'_>,
    grid: Grid,
    block: usize,
) -> Result<(), AllocError>
    requires grid { IsGridOf marks.now grid }
    requires within { block ≤ grid.slots }
    ensures { OnOk result (map string_bytes lines.new.items ≡ map string_bytes lines.old.items ++ spec.block_lines marks.now grid block) }
{
    let head = head_line(alloc, grid, block)?;
    lines.push(head)?;
    push_units(alloc, lines, marks, grid, block)
}

/// Adds the lines of all units in `block` to `lines`.
fn push_units(
    alloc: Global,
    lines: &mut Vec<String>,
    marks: &Marks<'_>,
    grid: Grid,
    block: usize,
) -> Result<(), AllocError>
    requires grid { IsGridOf marks.now grid }
    requires within { block ≤ grid.slots }
    ensures { OnOk result (map string_bytes lines.new.items ≡ map string_bytes lines.old.items ++ lists_below (spec.unit_lines marks.now grid block) (length marks.now.arch.units)) }
{
    for unit in 0..marks.arch().units().len() {
        push_unit(alloc, lines, marks, grid, block, unit as u32)?;
    }
    Ok(())
}

/// Adds the line of `unit` in `block` to `lines`, where it begins a node there.
fn push_unit(
    alloc: Global,
    lines: &mut Vec<String>,
    marks: &Marks<'_>,
    grid: Grid,
    block: usize,
    unit: u32,
) -> Result<(), AllocError>
    requires grid { IsGridOf marks.now grid }
    requires within { block ≤ grid.slots }
    requires unit { unit < length marks.now.arch.units }
    ensures { OnOk result (map string_bytes lines.new.items ≡ map string_bytes lines.old.items ++ spec.unit_lines marks.now grid block unit) }
{
    if begins_in(marks, grid, block, unit) {
        let line = unit_line(alloc, marks, grid, block, unit)?;
        lines.push(line)?;
    }
    Ok(())
}

/// Returns the line of the numbers of the slots of `block`.
fn head_line(alloc: Global, grid: Grid, block: usize) -> Result<String, AllocError>
    requires small { IsSmall grid }
    requires within { block ≤ grid.slots }
    ensures { IfOk result (λ line. string_bytes line ≡ spec.head_line grid block) }
{
    let mut row = String::new(alloc);
    for column in 0..columns(grid, block) {
        let slot = slot_of(grid, block, column);
        let text = format!(in alloc; "{slot}")?;
        push_at(&mut row, left(grid, column), text.as_str())?;
    }
    Ok(row)
}

/// Returns the line of `unit` in `block`.
fn unit_line(
    alloc: Global,
    marks: &Marks<'_>,
    grid: Grid,
    block: usize,
    unit: u32,
) -> Result<String, AllocError>
    requires grid { IsGridOf marks.now grid }
    requires within { block ≤ grid.slots }
    requires unit { unit < length marks.now.arch.units }
    ensures { IfOk result (λ line. string_bytes line ≡ spec.unit_line marks.now grid block unit) }
{
    let mut row = String::from_str(alloc, unit_name(marks.arch(), unit))?;
    for column in 0..columns(grid, block) {
        let slot = slot_of(grid, block, column);
        let node = marks.start(unit, slot as u32);
        push_node(alloc, &mut row, marks, left(grid, column), node)?;
    }
    Ok(row)
}

/// Adds `node` to `row` at the character `at`, if there is one.
fn push_node(
    alloc: Global,
    row: &mut String,
    marks: &Marks<'_>,
    at: usize,
    node: Option<u32>,
) -> Result<(), AllocError>
    ensures { OnOk result (string_bytes row.new ≡ spec.with_text at (string_bytes row.old) (option_map (spec.node_text marks.now) node)) }
{
    match node {
        Some(node) => {
            let text = node_text(alloc, marks, node)?;
            push_at(row, at, text.as_str())
        }
        None => Ok(()),
    }
}

/// Returns where `column` begins, in characters.
#[tactic(auto, using(crate::proofs::Sizes::product_few))]
fn left(grid: Grid, column: usize) -> usize
    requires small { IsSmall grid }
    requires column { column < grid.across }
    ensures { result ≡ grid.first + column * grid.pitch }
{
    grid.first + column * grid.pitch
}

/// Adds `text` to `row` at the character `at`, after blanks.
fn push_at(row: &mut String, at: usize, text: &str) -> Result<(), AllocError>
    ensures { OnOk result (string_bytes row.new ≡ spec.with_text at (string_bytes row.old) (Some text.now)) }
{
    push_blanks(row, at.saturating_sub(row.len()))?;
    row.push_str(text)
}

/// Adds `count` blanks to `row`.
fn push_blanks(row: &mut String, count: usize) -> Result<(), AllocError>
    ensures { OnOk result (string_bytes row.new ≡ string_bytes row.old ++ replicate count 32) }
{
    for _ in 0..count {
        row.push(' ')?;
    }
    Ok(())
}
